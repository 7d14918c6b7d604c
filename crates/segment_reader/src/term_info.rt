//! The info of a term.

use std::ops::Range;

/// The number of documents that have a term, and the ranges of its postings and positions in their sections.
#[derive(Clone, Debug, Drop, PartialEq, Eq)]
pub struct TermInfo {
    pub doc_freq: u32,
    pub postings_range: Range<usize>,
    pub positions_range: Range<usize>,
}
