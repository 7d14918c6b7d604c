//! Operations by their names.

use crate::{file_written, files, tries};
use case_lines::{Arguments, Operations, Refusal};
use serde_json::Value;
use std::alloc::Global;

/// No line is about one before.
#[derive(Drop)]
pub(crate) struct Files {
    pub(crate) alloc: Global,
}

impl Operations for Files {
    fn answer(&mut self, operation: &str, arguments: &Arguments) -> Result<Value, Refusal> {
        let alloc = self.alloc;
        match operation {
            "file" => file_written::file(alloc, arguments),
            "opened" => files::opened(alloc, &arguments.bytes(alloc, 0)?),
            "documents" => files::documents(alloc, &arguments.bytes(alloc, 0)?),
            "cuts" => tries::cuts(alloc, &arguments.bytes(alloc, 0)?),
            "changes" => tries::changes(alloc, arguments.bytes(alloc, 0)?),
            _ => Err(Refusal::NotAsked),
        }
    }
}
