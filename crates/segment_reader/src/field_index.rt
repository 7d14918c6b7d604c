//! What is kept of a field.

use crate::field_kind::FieldKind;
use front_coding::TermStart;

/// The terms of a field in their section: whether it is front-coded, how many they are, the length of the longest key,
/// and where the first begins.
#[derive(Clone, Copy)]
pub(crate) struct TermsShape {
    pub(crate) front_coded: bool,
    pub(crate) num_terms: u64,
    pub(crate) longest: usize,
    pub(crate) first: TermStart,
}

/// A field, its number of tokens, its terms, and where each block of them begins, with the first bytes of its first key.
#[derive(Drop)]
pub(crate) struct FieldIndex {
    pub(crate) kind: FieldKind,
    pub(crate) num_tokens: u64,
    pub(crate) shape: TermsShape,
    pub(crate) starts: Vec<TermStart>,
    pub(crate) prefixes: Vec<u64>,
}
