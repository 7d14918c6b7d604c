//! Operations by their names.

use crate::held::Held;
use crate::{indexes, phrase_rows, prefix_rows, sinks};
use case_lines::{Arguments, Operations, Refusal, made};
use serde_json::Value;

impl Operations for Held {
    fn answer(&mut self, operation: &str, arguments: &Arguments) -> Result<Value, Refusal> {
        let alloc = self.alloc;
        match operation {
            "schema-built" => made(alloc, &mut self.schema, "built", arguments),
            "documents-none" => indexes::documents_none(alloc, self),
            "documents-added" => indexes::documents_added(alloc, self, arguments),
            "index-made" => indexes::made(alloc, self),
            "phrase" => phrase_rows::scores(alloc, &self.reader, arguments),
            "phrase-places" => phrase_rows::places(alloc, &self.reader, arguments),
            "phrase-sought" => phrase_rows::sought(alloc, &self.reader, arguments),
            "phrase-taken" => sinks::taken(alloc, &self.reader, arguments),
            "phrase-blocks" => sinks::blocks(alloc, &self.reader, arguments),
            "prefix" => prefix_rows::scores(alloc, &self.reader, arguments),
            "prefix-sought" => prefix_rows::sought(alloc, &self.reader, arguments),
            _ => Err(Refusal::NotAsked),
        }
    }
}
