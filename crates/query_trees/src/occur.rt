//! The kinds of clauses.

/// What a clause asks of documents.
#[derive(Clone, Copy, Debug, PartialEq, Eq, Hash)]
pub enum Occur {
    /// They may match.
    Should,
    /// They match.
    Must,
    /// They don't match.
    MustNot,
}
