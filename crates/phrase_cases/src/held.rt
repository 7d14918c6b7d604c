//! What later lines are about.

use document::CompactDoc;
use schema::Schema;
use segment_reader::InvertedIndexReader;
use std::alloc::Global;

/// The last schema, the documents that were added, and the index that was made of them last.
#[derive(Drop)]
pub(crate) struct Held {
    pub(crate) alloc: Global,
    pub(crate) schema: Schema,
    pub(crate) docs: Vec<CompactDoc>,
    pub(crate) reader: InvertedIndexReader,
}

impl Held {
    /// No field, no document, and an index without fields.
    pub(crate) fn empty(alloc: Global) -> Held {
        Held {
            alloc,
            schema: Schema::builder(alloc).build(),
            docs: Vec::new(alloc),
            reader: InvertedIndexReader::empty(alloc),
        }
    }
}
