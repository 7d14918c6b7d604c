//! Files of replies, merged into one.

ghost use Rattle.std.specs.Prelude.{◌≤◌};

use crate::failure::Failure;
use crate::lines::{Lines, have_more, next_replies};
use crate::reply_line::merged_line;
use std::io::{self, BufWriter, Write};

/// The status where all replies are merged.
const MERGED: u8 = 0;

/// The status where a file can't be read, or the replies can't be merged.
const FAILED: u8 = 2;

/// Prints the merged reply to each request of the file at `requests`, of which each file at `replies` has the replies of
/// one index; the first reply that can't be merged ends the output, and is told on standard error.
///
/// The status is 0 where all are merged, and else 2.
pub fn run(rt: &HostRuntime, requests: &str, replies: &[&str]) -> u8
    ensures { result ≤ 2 }
{
    let Err(failure) = merge_files(rt, requests, replies) else {
        return MERGED;
    };
    let _ = eprintln!(rt; "lafkundi merge-replies: {failure}");
    FAILED
}

/// Writes the merged reply to each request.
fn merge_files(rt: &HostRuntime, requests: &str, replies: &[&str]) -> Result<(), Failure> {
    let alloc = rt.alloc();
    let mut requests = Lines::open(rt, requests)?;
    let mut files = open_all(rt, replies)?;
    let mut out = BufWriter::new(alloc, io::writer(rt))?;
    for number in 1..u64::MAX {
        let Some(request) = requests.next_line(alloc)? else {
            break;
        };
        let Some(replies) = next_replies(alloc, files.as_mut_slice())? else {
            return Err(Failure::NoReply(number));
        };
        match merged_line(alloc, &request, &replies) {
            Ok(line) => writeln!(out, "{line}")?,
            Err(error) => return Err(Failure::Unmerged(number, error)),
        }
    }
    out.flush()?;
    if have_more(alloc, files.as_mut_slice())? {
        return Err(Failure::MoreReplies);
    }
    Ok(())
}

/// Opens each of the files.
fn open_all(rt: &HostRuntime, paths: &[&str]) -> Result<Vec<Lines>, Failure> {
    let mut files = Vec::with_capacity(rt.alloc(), paths.len())?;
    for path in paths {
        files.push(Lines::open(rt, path)?)?;
    }
    Ok(files)
}
