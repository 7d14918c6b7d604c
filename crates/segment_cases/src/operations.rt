//! Operations by their names.

use crate::held::Held;
use crate::{record_bodies, searchers, segments, term_answers};
use case_lines::{Arguments, Operations, Refusal, made};
use serde_json::Value;

impl Operations for Held {
    fn answer(&mut self, operation: &str, arguments: &Arguments) -> Result<Value, Refusal> {
        let alloc = self.alloc;
        match operation {
            "schema-built" => made(alloc, &mut self.schema, "built", arguments),
            "put-body" => record_bodies::put(alloc, arguments),
            "read-body" => record_bodies::read(alloc, arguments),
            "places-follow" => record_bodies::follow(alloc, arguments),
            "searched" => searchers::searched(self),
            _ if operation.starts_with("term-") => term_answers::answer(self, operation, arguments),
            _ => segments::answer(self, operation, arguments),
        }
    }
}
