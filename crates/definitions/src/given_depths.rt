//! How deep JSON, or a value, may nest that a caller hands over.

/// Deeper than any text that `serde_json` reads, and than any value that can be indexed. What nests deeper isn't looked
/// into, so that no call is as deep as what it is given.
pub const MAX_GIVEN_DEPTH: usize = 256;
