//! The start of a term.

/// The offsets of a term's entry in the section of terms, and of its postings and positions in theirs.
#[derive(Clone, Copy)]
pub struct TermStart {
    pub entry: usize,
    pub postings: usize,
    pub positions: usize,
}
