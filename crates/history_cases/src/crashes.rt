//! Creates, openings, commits and merges that a failing device or a crash cuts off.

use crate::case_histories::Histories;
use crate::crash_images::{Left, after_crash};
use case_lines::{Arguments, Refusal, flag, text};
use definitions::Fault;
use histories::calls;
use serde_json::Value;

impl Histories {
    /// Makes an index of settings over a device of its own that takes a number of calls, and fails the next.
    pub(crate) fn create_until(&mut self, arguments: &Arguments) -> Result<Value, Refusal> {
        let calls = arguments.number(0)?;
        self.put_new(arguments.value(1)?, calls.saturating_add(1))?;
        Ok(flag(true))
    }

    /// Opens the file of the index that stands over a device that takes a number of calls, and fails the next.
    pub(crate) fn open_until(&mut self, arguments: &Arguments) -> Result<Value, Refusal> {
        let calls = arguments.number(0)?;
        let device = self.take_device()?;
        self.put_opened(device, calls.saturating_add(1))?;
        Ok(flag(true))
    }

    /// Commits, and opens what a crash leaves then, in which each byte that isn't sure to be on the disk is the given
    /// one. Answers how the commit ended.
    pub(crate) fn crash(&mut self, arguments: &Arguments, left: Left) -> Result<Value, Refusal> {
        let byte = arguments.byte(0)?;
        let ended = calls::commit(self.standing_mut()?);
        self.open_after_crash(byte, left, ended)
    }

    /// Merges a range of the committed segments, and opens what a crash leaves then, in which each byte that isn't sure
    /// to be on the disk is the given one. Answers how the merge ended.
    pub(crate) fn crash_merge(
        &mut self,
        arguments: &Arguments,
        left: Left,
    ) -> Result<Value, Refusal> {
        let byte = arguments.byte(0)?;
        let from = arguments.number(1)? as usize;
        let to = arguments.number(2)? as usize;
        let ended = calls::merge(self.standing_mut()?, from..to);
        self.open_after_crash(byte, left, ended)
    }

    /// Opens a file over a device that takes a number of calls, and tells what a crash leaves.
    pub(crate) fn crash_open(
        &mut self,
        arguments: &Arguments,
        left: Left,
    ) -> Result<Value, Refusal> {
        let byte = arguments.byte(0)?;
        let calls = arguments.number(1)?;
        let device = self.take_device()?;
        let ended = self.put_opened(device, calls.saturating_add(1));
        self.open_after_crash(byte, left, ended)
    }

    /// Makes an index over a device that takes a number of calls. What a crash leaves then stands, and isn't opened.
    pub(crate) fn crash_create(
        &mut self,
        arguments: &Arguments,
        left: Left,
    ) -> Result<Value, Refusal> {
        let byte = arguments.byte(0)?;
        let calls = arguments.number(1)?;
        let ended = self.put_new(arguments.value(2)?, calls.saturating_add(1));
        let device = after_crash(self.alloc, &self.take_device()?, byte, left)?;
        self.put_closed(device);
        Ok(text(self.alloc, ending(ended))?)
    }

    /// Opens what a crash leaves after a call that ended so.
    fn open_after_crash(
        &mut self,
        byte: u8,
        left: Left,
        ended: Result<(), Fault>,
    ) -> Result<Value, Refusal> {
        let device = after_crash(self.alloc, &self.take_device()?, byte, left)?;
        self.put_opened(device, u64::MAX)?;
        Ok(text(self.alloc, ending(ended))?)
    }
}

/// The name of how a call ended.
pub(crate) fn ending(ended: Result<(), Fault>) -> &'static str {
    match ended {
        Ok(()) => "Ok",
        Err(fault) => fault.name(),
    }
}
