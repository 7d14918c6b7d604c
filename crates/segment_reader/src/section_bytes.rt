//! The three sections of an inverted index.

ghost use Rattle.definitions.specs.NumberCodes.{AreBytes};

/// The bytes of terms, postings and positions.
#[derive(Clone, Copy)]
pub(crate) struct SectionBytes<'a> {
    pub(crate) terms: &'a [u8],
    pub(crate) postings: &'a [u8],
    pub(crate) positions: &'a [u8],
    ghost bytes: { AreBytes postings.now },
}
