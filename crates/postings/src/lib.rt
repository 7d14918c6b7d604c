//! Postings: the documents that have a term, with counts and positions; how they are written, read, checked and opened, and
//! cursors over them.
#![tactic(auto)]

pub mod posting_laws;

pub use docsets::{COLLECT_BLOCK_BUFFER_LEN, DocSet, Postings, SeekDangerResult};
pub use document_indexer::{DocumentIndexer, indexing_laws};
pub use postings_writer::{
    DocIdRecorder, FieldSerializer, IndexedText, InvertedIndexSerializer, PostingsSerializer,
    PostingsWriter, TermFrequencyRecorder, TfAndPositionRecorder,
};
pub use segment_postings::{BlockSegmentPostings, SegmentPostings, check_term, term_laws};
pub use segment_reader::{InvertedIndexReader, TermDictionary, TermInfo, TermRange};
