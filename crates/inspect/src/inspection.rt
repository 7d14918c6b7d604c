//! The run of an inspection.

ghost use Rattle.std.specs.Prelude.{◌≤◌};

use crate::check::check;
use crate::contents_list::list;
use crate::dump::dump;
use crate::failure::Failure;
use crate::file::read_file;
use crate::mended_copy::mend;
use crate::request::Request;
use std::io::{self, BufWriter, Write};

/// The status where the file is sound, or what was asked for is written.
const DONE: u8 = 0;

/// The status where the file isn't sound.
const UNSOUND: u8 = 1;

/// The status where the file can't be read, or the output can't be written.
const FAILED: u8 = 2;

/// Answers `request` on standard output, and tells on standard error why it can't be answered.
///
/// The status is 0 where it is answered, 1 where the file isn't sound, and 2 where the file can't be read or the output
/// can't be written.
pub fn run(rt: &HostRuntime, request: &Request<'_>) -> u8
    ensures { result ≤ 2 }
{
    let Err(failure) = answer(rt, request) else {
        return DONE;
    };
    let _ = eprintln!(rt; "lafkundi inspect: {}: {failure}", request.path());
    if failure.is_of_contents() {
        UNSOUND
    } else {
        FAILED
    }
}

/// Answers `request` on standard output.
fn answer(rt: &HostRuntime, request: &Request<'_>) -> Result<(), Failure> {
    let alloc = rt.alloc();
    let mut out = BufWriter::new(alloc, io::writer(rt))?;
    match request {
        Request::List(path) => list(alloc, &read_file(rt, path)?, &mut out)?,
        Request::Check(path) => check(alloc, &read_file(rt, path)?, &mut out)?,
        Request::Dump(path) => {
            let unstored = dump(alloc, &read_file(rt, path)?, &mut out)?;
            for name in &unstored {
                let _ = eprintln!(rt;
                    "lafkundi inspect: {path}: field `{name}` isn't stored, so the lines have no value of it"
                );
            }
        }
        Request::Mend { copy, path } => mend(rt, &read_file(rt, path)?, copy, &mut out)?,
    }
    out.flush()?;
    Ok(())
}
