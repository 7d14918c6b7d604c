//! The address of a document among segments.

ghost use Rattle.std.specs.Prelude.{◌≡◌};

use common::DocId;

/// The segment and the document id of a document. Addresses are ordered by their segments, and in one segment by their
/// documents.
#[derive(Debug, Clone, Copy, PartialEq, Eq, PartialOrd, Ord, Hash)]
pub struct DocAddress {
    /// The index of the segment among those of a searcher.
    pub segment_ord: u32,
    /// The document id in the segment.
    pub doc_id: DocId,
}

impl DocAddress {
    /// Returns the address of a document of a segment, which has to be one of the searcher's where the address is
    /// looked up.
    pub fn new(segment_ord: u32, doc_id: DocId) -> DocAddress
        ensures segment_ord { result.segment_ord ≡ segment_ord }
        ensures doc_id { result.doc_id ≡ doc_id }
    {
        DocAddress {
            segment_ord,
            doc_id,
        }
    }
}
