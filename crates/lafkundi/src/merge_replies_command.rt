//! `lafkundi merge-replies`: merges what several indexes replied.

use crate::words::text_of;
use clap::{Arg, ArgAction, ArgMatches, Command};
use std::alloc::{AllocError, Global};

const ABOUT: &str = "Merges what several indexes replied to the same requests, line by line";

const EXAMPLE: &str = "\
Line n of each file of REPLIES is what one index replied to line n of REQUESTS. Line n of the output is what one index
would reply that has the documents of all, those of the first file first: hits by score, then by file, then in their
order, as many as were asked for; counts added up. Other replies are to be the same in each file.

Example:
  lafkundi serve 1.idx < asked > 1.replies; lafkundi serve 2.idx < asked > 2.replies
  lafkundi merge-replies asked 1.replies 2.replies

The status is 0; 2 where a file can't be read or the replies can't be merged, which ends the output.";

/// Makes the command line of `merge-replies`.
pub(crate) fn command<'a>(alloc: Global) -> Result<Command<'a>, AllocError> {
    let requests = Arg::new(alloc, "requests")
        .value_name("REQUESTS")
        .help("The file of the requests")
        .required(true);
    let replies = Arg::new(alloc, "replies")
        .value_name("REPLIES")
        .help("The files of the replies, one for each index")
        .required(true)
        .action(ArgAction::Append)
        .num_args(1..);
    Command::new(alloc, "merge-replies")
        .about(ABOUT)
        .after_help(EXAMPLE)
        .arg(requests)?
        .arg(replies)
}

/// Merges the files that are given.
pub(crate) fn run(rt: &HostRuntime, given: &ArgMatches<'_>) -> u8 {
    merge_hits::run(
        rt,
        text_of(given, "requests"),
        given.get_strs("replies").unwrap_or(&[]),
    )
}
