//! Operations on sessions: `session`, `requests`, `end` and `run`, and a request by itself. Where lines go in or come out,
//! `|` stands for a newline.

use crate::answers::ok;
use crate::cases::Cases;
use common::{RawAndDefault, RunFault};
use definitions::Fault;
use index::{Session, reply, run, run_session};
use std::alloc::Global;

impl Cases {
    /// The answer, if this is such an operation.
    pub(crate) fn answer_of_session(
        &mut self,
        operation: &str,
        arguments: &str,
    ) -> Result<Option<String>, Fault> {
        let answer = match operation {
            "session" => self.begin()?,
            "requests" => self.requests(arguments)?,
            "end" => self.end()?,
            "run" => self.run(arguments)?,
            _ => return Ok(None),
        };
        Ok(Some(answer))
    }

    /// Begins a session over the file, or in which the index stands, if there is one.
    fn begin(&mut self) -> Result<String, Fault> {
        self.session = Some(match self.index.take() {
            Some(index) => Session::with_index(index),
            None => Session::new(self.alloc, self.device()?, RawAndDefault),
        });
        ok(self.alloc)
    }

    /// The session's reply to a request.
    pub(crate) fn reply(&mut self, line: &str) -> Result<String, Fault> {
        match &mut self.session {
            Some(session) => Ok(String::from_str(self.alloc, reply(session, line)?.as_ref())?),
            None => Err(Fault::NotOpen),
        }
    }

    /// What the session writes for lines.
    fn requests(&mut self, lines: &str) -> Result<String, Fault> {
        let Some(session) = &mut self.session else {
            return Err(Fault::NotOpen);
        };
        let input = lines.replace(self.alloc, '|', "\n")?;
        let mut output = Vec::new(self.alloc);
        let ended = run_session(&mut input.as_bytes(), &mut output, session);
        written(self.alloc, ended, &output)
    }

    /// Ends the session; what its device holds is the file from now on.
    fn end(&mut self) -> Result<String, Fault> {
        let Some(session) = self.session.take() else {
            return Err(Fault::NotOpen);
        };
        let (device, _analyzer) = session.into_device();
        self.keep(device)?;
        ok(self.alloc)
    }

    /// What a run over the file writes for lines.
    fn run(&mut self, lines: &str) -> Result<String, Fault> {
        let input = lines.replace(self.alloc, '|', "\n")?;
        let mut output = Vec::new(self.alloc);
        let device = self.device()?;
        let ended = run(
            self.alloc,
            &mut input.as_bytes(),
            &mut output,
            device,
            RawAndDefault,
        );
        written(self.alloc, ended, &output)
    }
}

/// The lines that were written, if no read or write failed.
fn written(alloc: Global, ended: Result<(), RunFault>, output: &[u8]) -> Result<String, Fault> {
    match ended {
        Ok(()) => Ok(String::from_utf8_lossy(alloc, output)?.replace(alloc, '\n', "|")?),
        Err(RunFault::ReadFault) => Err(Fault::ReadFault),
        Err(RunFault::WriteFault) => Err(Fault::WriteFault),
    }
}
