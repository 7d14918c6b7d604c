//! A cursor over a set of documents.

ghost use Rattle.std.specs.Prelude.{◌≡◌, ◌≤◌, length};
ghost use Rattle.docsets.specs.Entries.{first, from};
ghost use Rattle.definitions.specs.Postings.{terminated};
ghost use Rattle.docsets.specs.SetEntries.{set_entries};

use crate::DocSet;
use common::{BitSet, DocId, TERMINATED};

/// The documents of a bit set, without scores. Its moves look at words of 64 bits.
#[derive(Drop)]
pub struct BitSetDocSet {
    docs: BitSet,
    doc: DocId,
    ghost small: { length docs ≤ terminated },
    ghost at: { doc ≡ first (from doc (set_entries docs)) },
}

/// Returns the first document of `docs` that is >= `low`, or `TERMINATED`.
#[inline]
fn first_document(docs: &BitSet, low: DocId) -> DocId
    requires small { length docs.now ≤ terminated }
    requires end { low ≤ terminated }
    ensures at { result ≡ first (from result (set_entries docs.now)) }
    ensures same { from result (set_entries docs.now) ≡ from low (set_entries docs.now) }
{
    match docs.first_from(low) {
        Some(doc) => doc,
        None => TERMINATED,
    }
}

impl BitSetDocSet {
    /// Returns a cursor on the first document of `docs`, whose bound is at most `TERMINATED`.
    pub fn from(docs: BitSet) -> BitSetDocSet
        requires { length docs ≤ terminated }
        ensures { ⟦<BitSetDocSet as DocSet>⟧.entries result ≡ set_entries docs }
    {
        let doc = first_document(&docs, 0);
        BitSetDocSet { docs, doc }
    }
}

impl DocSet for BitSetDocSet {
    ghost use Rattle.docsets.specs.SetEntryLaws.{Rising-set};

    ghost entries = { λ s. from s.doc (set_entries s.docs) };

    #[inline]
    fn advance(&mut self) -> DocId {
        if self.doc == TERMINATED {
            return TERMINATED;
        }
        self.doc = first_document(&self.docs, self.doc + 1);
        self.doc
    }

    #[inline]
    fn seek(&mut self, target: DocId) -> DocId {
        self.doc = first_document(&self.docs, target);
        self.doc
    }

    #[inline]
    fn doc(&self) -> DocId {
        self.doc
    }

    fn size_hint(&self) -> u32 {
        self.docs.len().min(u32::MAX as usize) as u32
    }

    ghost rising = { λ s. Rising-set s.doc s.docs s.small };
}
