//! `lafkundi inspect`: looks into the file of an index.

use crate::words::{file, flag, text_of};
use clap::{Arg, ArgGroup, ArgMatches, Command};
use inspect::Request;
use std::alloc::{AllocError, Global};

const ABOUT: &str = "Tells what stands in the file of an index, which is only read";

const EXAMPLE: &str = "\
Without an option it lists the schema and the settings, the records, and the segments.

Example:
  lafkundi inspect --dump old.idx | lafkundi serve new.idx

The status is 0; 1 where the file isn't sound; 2 where it can't be read.";

/// Makes the command line of `inspect`.
pub(crate) fn command<'a>(alloc: Global) -> Result<Command<'a>, AllocError> {
    let one = ArgGroup::new(alloc, "one")
        .arg("check")?
        .arg("dump")?
        .arg("mend")?;
    Command::new(alloc, "inspect")
        .about(ABOUT)
        .after_help(EXAMPLE)
        .arg(file(alloc))?
        .arg(flag(
            alloc,
            "check",
            "Says `sound`, or which record is damaged, and why: every stored document is read",
        ))?
        .arg(flag(
            alloc,
            "dump",
            "Writes the lines that make such an index: `create`, an `add` for each document, `commit`",
        ))?
        .arg(mend(alloc))?
        .group(one)
}

/// Returns the option of a copy that opens.
fn mend<'a>(alloc: Global) -> Arg<'a> {
    Arg::new(alloc, "mend").long("mend").value_name("COPY").help(
        "Writes a copy that ends at the last record up to which the file opens",
    )
}

/// Inspects as is asked.
pub(crate) fn run(rt: &HostRuntime, given: &ArgMatches<'_>) -> u8 {
    inspect::run(rt, &request_in(given))
}

/// Returns what is asked of the file.
fn request_in<'a>(given: &ArgMatches<'a>) -> Request<'a> {
    let path = text_of(given, "file");
    match given.get_str("mend") {
        Some(copy) => Request::Mend { copy, path },
        None if given.get_flag("check") => Request::Check(path),
        None if given.get_flag("dump") => Request::Dump(path),
        None => Request::List(path),
    }
}
