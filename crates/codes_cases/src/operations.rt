//! Operations by their names. What stands before the first `-` says what an operation is about.

use crate::{blocks, lengths, lists, position_lists, record_files, skip_entries};
use case_lines::{Arguments, Operations, Refusal};
use serde_json::Value;
use std::alloc::Global;

/// Operations on lengths, lists, blocks, positions, skip entries and files of records.
#[derive(Drop)]
pub(crate) struct CodesOperations {
    pub(crate) alloc: Global,
}

impl Operations for CodesOperations {
    fn answer(&mut self, operation: &str, arguments: &Arguments) -> Result<Value, Refusal> {
        let alloc = self.alloc;
        let (about, call) = operation.split_once('-').ok_or(Refusal::NotAsked)?;
        match about {
            "length" => lengths::answer(alloc, call, arguments),
            "list" => lists::answer(alloc, call, arguments),
            "block" => blocks::answer(alloc, call, arguments),
            "position" => position_lists::answer(alloc, call, arguments),
            "skip" => skip_entries::answer(alloc, call, arguments),
            "record" => record_files::answer(alloc, call, arguments),
            _ => Err(Refusal::NotAsked),
        }
    }
}
