//! Documents: what a document is in memory, and its bytes.
#![tactic(auto)]

mod compact_doc;
mod document_json;
pub mod document_laws;
mod field_lists;
mod indexable;
mod json_reader;
mod named_doc;
mod named_json;
mod serialize;
mod unknown_fields;

pub use compact_doc::CompactDoc;
pub use document_values::{
    CompactDocArrayIter, CompactDocObjectIter, CompactDocTokens, CompactDocValue,
    FieldValueIterRef, OwnedValue, ValuesOfField, put_value, take_value, value_to_json,
};
pub use named_doc::NamedDocument;
pub use unknown_fields::has_unknown_field;
