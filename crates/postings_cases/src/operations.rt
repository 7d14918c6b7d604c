//! Operations by their names.

use crate::held::Held;
use crate::{damage, indexes, lookups};
use case_lines::{Arguments, Operations, Refusal, hex, made};
use serde_json::Value;

impl Operations for Held {
    fn answer(&mut self, operation: &str, arguments: &Arguments) -> Result<Value, Refusal> {
        let alloc = self.alloc;
        match operation {
            "index-each-cut" => damage::each_cut(alloc, self, arguments),
            "index-each-change" => damage::each_change(alloc, self, arguments),
            "schema-read" => made(alloc, &mut self.schema, "read", arguments),
            "schema-built" => made(alloc, &mut self.schema, "built", arguments),
            "documents-none" => indexes::documents_none(alloc, self),
            "documents-added" => indexes::documents_added(alloc, self, arguments),
            "index-lengths" => indexes::lengths(alloc, self),
            "index-made" => indexes::made(alloc, self, arguments),
            "index-sections" => indexes::written(alloc, self),
            "index-postings-section" => Ok(hex(alloc, &self.sections.postings)?),
            "index-opened-with" => indexes::opened_with_lengths(alloc, self, arguments),
            "index-opened-of" => indexes::opened_of_documents(alloc, self, arguments),
            _ => lookups::answer(alloc, &self.reader, operation, arguments),
        }
    }
}
