//! Operations by their names.

use crate::asked_queries::answer;
use case_lines::{Arguments, Operations, Refusal};
use case_segments::Held;
use serde_json::Value;

/// What the lines of this program are about.
#[derive(Drop)]
pub(crate) struct WeightCalls {
    pub(crate) held: Held,
}

impl Operations for WeightCalls {
    fn answer(&mut self, operation: &str, arguments: &Arguments) -> Result<Value, Refusal> {
        match operation {
            "schema" | "weights" | "segment" => self.held.hold(operation, arguments),
            _ => answer(&self.held, operation, arguments),
        }
    }
}
