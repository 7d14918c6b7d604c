//! Commits and merges that a crash cuts off, opened at each length that it may leave.

use crate::case_histories::Histories;
use crate::crash_images::after_crash_to_length;
use crate::crashes::ending;
use case_lines::{Arguments, Refusal, Runs, number, pair, text, triple};
use common::MemoryDevice;
use definitions::Fault;
use histories::calls;
use serde_json::Value;

impl Histories {
    /// Commits. Answers how that ended, and what stands after a crash at each length, by a query's best hits.
    pub(crate) fn crash_each(&mut self, arguments: &Arguments) -> Result<Value, Refusal> {
        let byte = arguments.byte(0)?;
        let limit = arguments.number(1)?;
        let steps = arguments.list(2)?;
        let ended = calls::commit(self.standing_mut()?);
        self.at_each_length(byte, limit, steps, ended)
    }

    /// Merges a range of the committed segments. Answers how that ended, and what stands after a crash at each length,
    /// by a query's best hits.
    pub(crate) fn crash_merge_each(&mut self, arguments: &Arguments) -> Result<Value, Refusal> {
        let byte = arguments.byte(0)?;
        let from = arguments.number(1)? as usize;
        let to = arguments.number(2)? as usize;
        let limit = arguments.number(3)?;
        let steps = arguments.list(4)?;
        let ended = calls::merge(self.standing_mut()?, from..to);
        self.at_each_length(byte, limit, steps, ended)
    }

    /// How a call ended, and what stands after a crash at each length, and at how many lengths in a row. The index is
    /// closed then; its device stands as no crash left it.
    fn at_each_length(
        &mut self,
        byte: u8,
        limit: u64,
        steps: &[Value],
        ended: Result<(), Fault>,
    ) -> Result<Value, Refusal> {
        let device = self.take_device()?;
        let (least, greatest) = device.crash_lens();
        let mut runs = Runs::new(self.alloc);
        for len in least..=greatest {
            let after = after_crash_to_length(self.alloc, &device, len, byte)?;
            runs.add(self.outcome(after, limit, steps)?)?;
        }
        self.index = None;
        self.put_closed(device);
        let ended = text(self.alloc, ending(ended))?;
        Ok(pair(self.alloc, ended, runs.into_value(self.alloc)?)?)
    }

    /// What stands over a device: how many segments and documents, and the best hits; or why nothing does.
    fn outcome(
        &mut self,
        device: MemoryDevice,
        limit: u64,
        steps: &[Value],
    ) -> Result<Value, Refusal> {
        if let Err(fault) = self.put_opened(device, u64::MAX) {
            return Ok(text(self.alloc, fault.name())?);
        }
        let index = self.standing()?;
        let segments = number(index.num_segments() as u64);
        let docs = number(index.num_docs());
        let hits = self.best(limit, steps)?;
        Ok(triple(self.alloc, segments, docs, hits)?)
    }
}
