//! The words of a command line.

use clap::{Arg, ArgAction, ArgMatches};
use std::alloc::Global;

/// Returns the argument FILE, the file of an index.
pub(crate) fn file<'a>(alloc: Global) -> Arg<'a> {
    Arg::new(alloc, "file")
        .value_name("FILE")
        .help("The file of the index")
        .required(true)
}

/// Returns a flag, which is on where it is given.
pub(crate) fn flag<'a>(alloc: Global, name: &'a str, help: &'a str) -> Arg<'a> {
    Arg::new(alloc, name)
        .long(name)
        .help(help)
        .action(ArgAction::SetTrue)
}

/// Returns the text of an argument that is required, or has a default.
pub(crate) fn text_of<'a>(given: &ArgMatches<'a>, id: &str) -> &'a str {
    given.get_str(id).unwrap_or("")
}
