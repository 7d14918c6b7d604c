//! Where a block of a store lies.

use std::ops::Range;

/// The extent of a block: its documents and its bytes.
/// In an upper layer of a skip index it is the extent of a group of checkpoints in the layer below.
#[derive(Debug, Drop, PartialEq, Eq)]
pub struct Checkpoint {
    /// The block's documents.
    pub doc_range: Range<u32>,
    /// The block's bytes, as offsets from the store's first byte; a group's, from its layer's first byte.
    pub byte_range: Range<usize>,
}
