//! A segment of the list that a body makes.

/// Bytes before the parts of a body: its code, and the number of segments.
pub(crate) const HEAD_BYTES: usize = 5;

/// Bytes of a kept segment: the code, and its index.
pub(crate) const KEPT_BYTES: usize = 5;

/// Bytes before those of a new segment: the code, and its length.
pub(crate) const FRESH_HEAD_BYTES: usize = 9;

/// A segment of the list that a body makes.
#[derive(Clone, Copy, Debug, PartialEq, Eq)]
pub enum Part<'a> {
    /// The one at this index of the list before.
    Kept(u32),
    /// A new one, by its bytes.
    Fresh(&'a [u8]),
}
