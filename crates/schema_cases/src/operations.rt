//! Operations by their names. What stands before the first `-` says what an operation is about.

use crate::{facets, made_terms, numbers, schemas, tokens};
use case_lines::{Arguments, Operations, Refusal};
use schema::Schema;
use serde_json::Value;
use std::alloc::Global;

/// Operations on facets, schemas, terms, tokens and codes of numbers.
#[derive(Drop)]
pub(crate) struct SchemaOperations {
    pub(crate) alloc: Global,
    /// The schema that was made last.
    schema: Schema,
}

impl SchemaOperations {
    /// The operations, about a schema with no field.
    pub(crate) fn new(alloc: Global) -> SchemaOperations {
        SchemaOperations {
            alloc,
            schema: Schema::builder(alloc).build(),
        }
    }
}

impl Operations for SchemaOperations {
    fn answer(&mut self, operation: &str, arguments: &Arguments) -> Result<Value, Refusal> {
        let alloc = self.alloc;
        let schema = &mut self.schema;
        let (about, call) = operation.split_once('-').ok_or(Refusal::NotAsked)?;
        match about {
            "facet" => facets::answer(alloc, call, arguments),
            "schema" => schemas::answer(alloc, schema, call, arguments),
            "term" => made_terms::answer(alloc, call, arguments),
            "token" => tokens::answer(alloc, call, arguments),
            "number" => numbers::answer(alloc, call, arguments),
            _ => Err(Refusal::NotAsked),
        }
    }
}
