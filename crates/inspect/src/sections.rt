//! How long the sections of a segment are.

use common::{take_u32, take_u64};
use definitions::Fault;
use std::fmt::{self, Display, Formatter};

/// How many bytes each section of a segment has.
#[derive(Clone, Copy, Debug)]
pub(crate) struct SectionLengths {
    pub(crate) terms: u64,
    pub(crate) postings: u64,
    pub(crate) positions: u64,
    pub(crate) lengths: u64,
    pub(crate) store: u64,
}

impl Display for SectionLengths {
    fn fmt<W: fmt::Write>(&self, f: &mut Formatter<W>) -> fmt::Result {
        write!(
            f,
            "terms: {}, postings: {}, positions: {}, ",
            self.terms, self.postings, self.positions
        )?;
        write!(f, "lengths: {}, store: {}", self.lengths, self.store)
    }
}

/// Reads how long the sections of a segment are, from its bytes.
pub(crate) fn section_lengths(segment: &[u8]) -> Result<SectionLengths, Fault> {
    let (_num_docs, rest) = take_u32(segment)?;
    let (terms, rest) = pass_section(rest)?;
    let (postings, rest) = pass_section(rest)?;
    let (positions, rest) = pass_section(rest)?;
    let (lengths, rest) = pass_section(rest)?;
    let (store, _rest) = pass_section(rest)?;
    Ok(SectionLengths {
        terms,
        postings,
        positions,
        lengths,
        store,
    })
}

/// Returns the length of the section at the front of `bytes`, and what follows it.
fn pass_section(bytes: &[u8]) -> Result<(u64, &[u8]), Fault> {
    let (len, rest) = take_u64(bytes)?;
    if len > rest.len() as u64 {
        return Err(Fault::Damaged(None));
    }
    Ok((len, &rest[len as usize..]))
}
