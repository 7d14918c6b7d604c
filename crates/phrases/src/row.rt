//! A row of a window.

use common::DocId;

/// A document of a phrase: its score, where its places begin among those of all rows, their number, and how often
/// suffixes follow it.
#[derive(Clone, Copy)]
pub(crate) struct Row {
    pub(crate) doc: DocId,
    pub(crate) begin: u32,
    pub(crate) num_places: u32,
    pub(crate) score: u64,
    pub(crate) count: u64,
}
