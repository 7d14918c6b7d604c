//! Answers the requests of each example over a fresh file, and the last ones again over the file that is left, and tells
//! whether the replies are those that stand beside the requests.
#![tactic(auto)]

use common::{FileDevice, RawAndDefault};
use index::run;
use std::alloc::{AllocError, Global};
use std::{fs, io};

/// What the files of the examples are called by.
const NAMES: [&str; 4] = ["catalogue", "log", "mail", "page"];

/// The line that opens a file, and the reply to it.
const OPENING: &str = "{\"op\":\"open\"}\n";

const OPENED: &str = "{\"ok\":true}\n";

fn main(rt: HostRuntime) -> io::Result<()> {
    for name in NAMES {
        let told = if has_its_replies(&rt, name)? {
            "the replies are those that stand there"
        } else {
            "the replies are others"
        };
        println!(rt; "{name}: {told}")?;
    }
    Ok(())
}

/// Whether the requests of an example are answered by its replies, and its last two lines again, once the file that the
/// run left is opened.
fn has_its_replies(rt: &HostRuntime, name: &str) -> io::Result<bool> {
    let alloc = rt.alloc();
    let requests = fs::read(rt, format!(in alloc; "{name}.requests.jsonl")?)?;
    let replies = fs::read(rt, format!(in alloc; "{name}.replies.jsonl")?)?;
    let path = format!(in alloc; "{name}.idx")?;
    let last_requests = joined(alloc, OPENING, last_lines(&requests))?;
    let last_replies = joined(alloc, OPENED, last_lines(&replies))?;
    Ok(
        are_replies(rt, &path, &requests, &replies)?
            && are_replies(rt, &path, &last_requests, &last_replies)?,
    )
}

/// Whether these requests are answered by these replies, over the file of a path.
fn are_replies(rt: &HostRuntime, path: &str, requests: &[u8], replies: &[u8]) -> io::Result<bool> {
    let Ok(device) = FileDevice::open(rt, path) else {
        return Ok(false);
    };
    let alloc = rt.alloc();
    let mut reader = requests;
    let mut written = Vec::new(alloc);
    let is_run = run(alloc, &mut reader, &mut written, device, RawAndDefault).is_ok();
    Ok(is_run && written.as_slice() == replies)
}

/// The last two of some lines, each of which ends in a newline.
fn last_lines(lines: &[u8]) -> &[u8] {
    let mut last_but_one = 0;
    let mut last = 0;
    let mut next = 0;
    let mut len: usize = 0;
    for byte in lines {
        len = len.saturating_add(1);
        if *byte == b'\n' {
            last_but_one = last;
            last = next;
            next = len;
        }
    }
    lines.get(last_but_one..).unwrap_or(lines)
}

/// A first line, and others behind it.
fn joined(alloc: Global, first: &str, last: &[u8]) -> Result<Vec<u8>, AllocError> {
    let mut bytes = first.as_bytes().to_vec(alloc)?;
    bytes.extend_from_slice(last)?;
    Ok(bytes)
}
