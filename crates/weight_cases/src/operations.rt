//! Operations by their names.

use crate::told_queries::answer;
use case_lines::{Arguments, Operations, Refusal, hex};
use case_segments::Held;
use leaf_weights::prefix_end;
use serde_json::Value;
use std::alloc::Global;

/// What the lines of this program are about.
#[derive(Drop)]
pub(crate) struct WeightCases {
    pub(crate) held: Held,
}

impl Operations for WeightCases {
    fn answer(&mut self, operation: &str, arguments: &Arguments) -> Result<Value, Refusal> {
        let alloc = self.held.alloc;
        match operation {
            "schema" | "weights" | "segment" => self.held.hold(operation, arguments),
            "prefix-end" => end_of_prefix(alloc, &arguments.bytes(alloc, 0)?),
            _ => answer(&self.held, operation, arguments),
        }
    }
}

/// The least bytes above all that begin with a prefix; null where there are none.
fn end_of_prefix(alloc: Global, prefix: &[u8]) -> Result<Value, Refusal> {
    match prefix_end(alloc, prefix)? {
        Some(end) => Ok(hex(alloc, &end)?),
        None => Ok(Value::Null),
    }
}
