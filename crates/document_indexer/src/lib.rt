//! Indexes documents: the terms of their values, by the types of their fields.
#![tactic(auto)]

mod document_indexer;
mod field_lengths;
mod index_document;
mod index_facet;
mod index_json;
mod index_value;
mod indexing_context;
pub mod indexing_laws;
mod indexing_positions;
mod json_field;

pub use document_indexer::DocumentIndexer;
