//! Operations by their names. What stands before the first `-` says what an operation is about.

use crate::{deep_values, documents, record_bodies, stores, values};
use case_lines::{Arguments, Operations, Refusal, made};
use schema::Schema;
use serde_json::Value;
use std::alloc::Global;

/// Operations on values, documents, stores and the body of a first record.
#[derive(Drop)]
pub(crate) struct DocumentOperations {
    pub(crate) alloc: Global,
    /// The schema that was made last.
    schema: Schema,
}

impl DocumentOperations {
    /// The operations, about a schema with no field.
    pub(crate) fn new(alloc: Global) -> DocumentOperations {
        DocumentOperations {
            alloc,
            schema: Schema::builder(alloc).build(),
        }
    }
}

impl Operations for DocumentOperations {
    fn answer(&mut self, operation: &str, arguments: &Arguments) -> Result<Value, Refusal> {
        let alloc = self.alloc;
        let schema = &mut self.schema;
        let (about, call) = operation.split_once('-').ok_or(Refusal::NotAsked)?;
        match about {
            "schema" => made(alloc, schema, call, arguments),
            "value" => values::answer(alloc, call, arguments),
            "document" => documents::answer(alloc, schema, call, arguments),
            "deep" => deep_values::answer(alloc, schema, call, arguments),
            "store" => stores::answer(alloc, schema, call, arguments),
            "body" => record_bodies::answer(alloc, call, arguments),
            _ => Err(Refusal::NotAsked),
        }
    }
}
