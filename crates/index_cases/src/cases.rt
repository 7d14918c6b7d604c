//! What stands between two lines, and whose answer a line gets.

use crate::answers::fault_text;
use common::{FuseDevice, MemoryDevice, RawAndDefault};
use definitions::Fault;
use index::{Index, Session};
use std::alloc::{AllocError, Global};

/// A device in memory, under a fuse.
pub(crate) type CaseDevice = FuseDevice<MemoryDevice>;

/// An index whose file is on such a device.
pub(crate) type CaseIndex = Index<CaseDevice, RawAndDefault>;

/// A session over such a device.
pub(crate) type CaseSession = Session<CaseDevice, RawAndDefault>;

/// What the operations are about.
#[derive(Drop)]
pub(crate) struct Cases {
    pub(crate) alloc: Global,
    /// What the next device holds: an index, a session and a run each begin over a device of their own.
    pub(crate) file: Vec<u8>,
    /// The call from which on the next device fails.
    pub(crate) fuse: u64,
    pub(crate) index: Option<CaseIndex>,
    pub(crate) session: Option<CaseSession>,
}

/// The answers to all lines, each with its newline.
pub(crate) fn answers_to(alloc: Global, lines: &str) -> Result<String, AllocError> {
    let mut cases = Cases {
        alloc,
        file: Vec::new(alloc),
        fuse: u64::MAX,
        index: None,
        session: None,
    };
    let mut answers = String::new(alloc);
    for line in lines.lines() {
        let answer = cases.answer(line)?;
        answers.push_str(&answer)?;
        answers.push_str("\n")?;
    }
    Ok(answers)
}

impl Cases {
    /// The answer to a line.
    fn answer(&mut self, line: &str) -> Result<String, AllocError> {
        if line.is_empty() || line.starts_with('#') {
            return String::from_str(self.alloc, line);
        }
        let answered = if line.starts_with('{') {
            self.reply(line)
        } else {
            self.answer_of_operation(line)
        };
        match answered {
            Ok(answer) => Ok(answer),
            Err(fault) => fault_text(self.alloc, fault),
        }
    }

    /// The answer to an operation, of whichever group it is.
    fn answer_of_operation(&mut self, line: &str) -> Result<String, Fault> {
        let (operation, arguments) = line.split_once(' ').unwrap_or((line, ""));
        if let Some(answer) = self.answer_of_file(operation, arguments)? {
            return Ok(answer);
        }
        if let Some(answer) = self.answer_of_index(operation, arguments)? {
            return Ok(answer);
        }
        if let Some(answer) = self.answer_of_search(operation, arguments)? {
            return Ok(answer);
        }
        if let Some(answer) = self.answer_of_session(operation, arguments)? {
            return Ok(answer);
        }
        Ok(String::from_str(self.alloc, "?")?)
    }
}
