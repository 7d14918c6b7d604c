//! `lafkundi merge`: makes one segment of all.

use crate::failure::Failure;
use crate::file_index::open;
use crate::words::{file, text_of};
use clap::{ArgMatches, Command};
use std::alloc::{AllocError, Global};

/// The status where nothing is merged.
const FAILED: u8 = 2;

const ABOUT: &str = "Makes one segment of all, without what is deleted: searches are faster then";

const EXAMPLE: &str = "\
Each search finds what it found before. The file grows by the new segment; what it replaces stays in it. The status is
0, and 2 where nothing is merged.

Example:
  lafkundi merge mail.idx";

/// Makes the command line of `merge`.
pub(crate) fn command<'a>(alloc: Global) -> Result<Command<'a>, AllocError> {
    Command::new(alloc, "merge")
        .about(ABOUT)
        .after_help(EXAMPLE)
        .arg(file(alloc))
}

/// Merges the index of the file that is given, and tells how many segments it had.
pub(crate) fn run(rt: &HostRuntime, given: &ArgMatches<'_>) -> u8 {
    let path = text_of(given, "file");
    match merge(rt, path) {
        Ok((before, after))
            if println!(rt; "{path}: segments: {before} before, {after} now").is_ok() => { 0 }
        Ok(_) => FAILED,
        Err(failure) => {
            let _ = eprintln!(rt; "lafkundi merge: {path}: {failure}");
            FAILED
        }
    }
}

/// Merges the index of the file at `path`; returns how many segments it had, and has.
fn merge(rt: &HostRuntime, path: &str) -> Result<(usize, usize), Failure> {
    let mut index = open(rt, path)?;
    let before = index.num_segments();
    if before > 0 {
        index.merge(0..before)?;
    }
    Ok((before, index.num_segments()))
}
