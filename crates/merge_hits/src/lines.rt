//! Files of lines.

use crate::failure::Failure;
use std::alloc::Global;
use std::fs::File;
use std::io::{BufRead, BufReader};

/// The lines of a file, from the next one on.
#[derive(Drop)]
pub(crate) struct Lines {
    reader: BufReader<File>,
}

impl Lines {
    /// Opens the file at `path`.
    pub(crate) fn open(rt: &HostRuntime, path: &str) -> Result<Lines, Failure> {
        let reader = BufReader::new(rt.alloc(), File::open(rt, path)?)?;
        Ok(Lines { reader })
    }

    /// Reads the next line, without its newline; `None` at the end.
    pub(crate) fn next_line(&mut self, alloc: Global) -> Result<Option<String>, Failure> {
        let mut line = String::new(alloc);
        if self.reader.read_line(&mut line)? == 0 {
            return Ok(None);
        }
        if line.as_str().ends_with('\n') {
            let _ = line.pop();
        }
        Ok(Some(line))
    }
}

/// Reads the next line of each file; `None` if one has none.
pub(crate) fn next_replies(
    alloc: Global,
    files: &mut [Lines],
) -> Result<Option<Vec<String>>, Failure> {
    let mut replies = Vec::with_capacity(alloc, files.len())?;
    for file in files {
        let Some(reply) = file.next_line(alloc)? else {
            return Ok(None);
        };
        replies.push(reply)?;
    }
    Ok(Some(replies))
}

/// Whether one of the files has a further line.
pub(crate) fn have_more(alloc: Global, files: &mut [Lines]) -> Result<bool, Failure> {
    for file in files {
        if file.next_line(alloc)?.is_some() {
            return Ok(true);
        }
    }
    Ok(false)
}
