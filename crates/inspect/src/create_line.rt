//! What an index is made of: the schema and the settings in the first record of its file.

use crate::failure::Failure;
use crate::records::take_record;
use definitions::Fault;
use std::io::Write;

/// The byte before the JSON text of the schema and the settings, in the body of the first record.
pub(crate) const MAKING: u8 = 1;

/// Returns the JSON text of the schema and the settings in the file of these `bytes`.
pub(crate) fn making_in(bytes: &[u8]) -> Result<&str, Failure> {
    let damaged = Failure::Unsound(Fault::Damaged(Some(0)));
    match take_record(bytes)? {
        ([MAKING, making @ ..], _) => str::from_utf8(making).map_err(|_| damaged),
        _ => Err(damaged),
    }
}

/// Writes the line that creates an index of the schema and the settings in the JSON text `making`.
pub(crate) fn write_create<W: Write>(making: &str, out: &mut W) -> Result<(), Failure> {
    let members = making.strip_prefix("{").unwrap_or(making);
    writeln!(out, "{{\"op\":\"create\",{members}")?;
    Ok(())
}
