//! The index that stands between two lines, and the operations by their names.

use crate::crash_images::Left;
use case_lines::{Arguments, Operations, Refusal, number, pair, text};
use common::{FuseDevice, MemoryDevice, RawAndDefault};
use definitions::Fault;
use engine::{Index, Status};
use serde_json::Value;
use std::alloc::Global;

/// The devices of the indexes: memory that fails from a chosen call on.
pub(crate) type CaseDevice = FuseDevice<MemoryDevice>;

/// The indexes that histories are about.
pub(crate) type CaseIndex = Index<CaseDevice, RawAndDefault>;

/// The schema of the indexes that are made, and the index that stands, or the device of one that was closed or refused.
#[derive(Drop)]
pub(crate) struct Histories {
    pub(crate) alloc: Global,
    pub(crate) schema: Value,
    pub(crate) index: Option<CaseIndex>,
    pub(crate) device: Option<CaseDevice>,
}

impl Histories {
    /// The index that stands.
    pub(crate) fn standing(&self) -> Result<&CaseIndex, Refusal> {
        match &self.index {
            Some(index) => Ok(index),
            None => Err(Refusal::Fault(Fault::NotOpen)),
        }
    }

    /// The index that stands, to be changed.
    pub(crate) fn standing_mut(&mut self) -> Result<&mut CaseIndex, Refusal> {
        match &mut self.index {
            Some(index) => Ok(index),
            None => Err(Refusal::Fault(Fault::NotOpen)),
        }
    }

    /// Takes the device, without its fuse; an index that stands is closed.
    pub(crate) fn take_device(&mut self) -> Result<MemoryDevice, Refusal> {
        self.close();
        match self.device.take() {
            Some(device) => Ok(device.into_inner()),
            None => Err(Refusal::NotAsked),
        }
    }

    /// Closes the index that stands, and keeps its device.
    fn close(&mut self) {
        if let Some(index) = self.index.take() {
            let (device, _analyzer) = index.into_device();
            self.device = Some(device);
        }
    }

    /// How many calls the device has seen since its index was made or opened; an index that stands is closed.
    fn calls(&mut self) -> Result<Value, Refusal> {
        self.close();
        match &self.device {
            Some(device) => Ok(number(device.calls())),
            None => Err(Refusal::NotAsked),
        }
    }

    /// How many segments and how many documents are committed.
    fn counts(&self) -> Result<Value, Refusal> {
        let index = self.standing()?;
        let segments = number(index.num_segments() as u64);
        Ok(pair(self.alloc, segments, number(index.num_docs()))?)
    }

    /// What the index may still do.
    fn state(&self) -> Result<Value, Refusal> {
        let state = match self.standing()?.state() {
            Status::Ready => "Ready",
            Status::WriterClosed => "WriterClosed",
            Status::Closed => "Closed",
        };
        Ok(text(self.alloc, state)?)
    }

    /// What an operation over a device that stops answers.
    fn answer_to_crash(
        &mut self,
        operation: &str,
        arguments: &Arguments,
    ) -> Result<Value, Refusal> {
        match operation {
            "create-until" => self.create_until(arguments),
            "open-until" => self.open_until(arguments),
            "crash" => self.crash(arguments, Left::Greatest),
            "crash-least" => self.crash(arguments, Left::Least),
            "crash-merge" => self.crash_merge(arguments, Left::Greatest),
            "crash-merge-least" => self.crash_merge(arguments, Left::Least),
            "crash-open" => self.crash_open(arguments, Left::Greatest),
            "crash-open-least" => self.crash_open(arguments, Left::Least),
            "crash-create" => self.crash_create(arguments, Left::Greatest),
            "crash-create-least" => self.crash_create(arguments, Left::Least),
            "crash-each" => self.crash_each(arguments),
            "crash-merge-each" => self.crash_merge_each(arguments),
            "calls" => self.calls(),
            _ => Err(Refusal::NotAsked),
        }
    }
}

impl Operations for Histories {
    fn answer(&mut self, operation: &str, arguments: &Arguments) -> Result<Value, Refusal> {
        match operation {
            "schema" => self.make_schema(arguments),
            "create" => self.create(arguments),
            "create-here" => self.create_here(arguments),
            "open" => self.open(),
            "add" => self.add(arguments),
            "add-text" => self.add_text(arguments),
            "add-values" => self.add_values(arguments),
            "delete" => self.delete(arguments),
            "commit" => self.commit(),
            "merge" => self.merge(arguments),
            "search" => self.search(arguments),
            "search-counted" => self.search_counted(arguments),
            "count" => self.count(arguments),
            "counts" => self.counts(),
            "state" => self.state(),
            _ => self.answer_to_crash(operation, arguments),
        }
    }
}
