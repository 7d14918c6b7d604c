//! The union of cursors over postings, whose documents are known as a set.

ghost use Rattle.std.specs.Prelude.{◌++◌, ◌≡◌, ◌≤◌, IfOk, is_some, map, sum, true, ℕ};
ghost use Rattle.definitions.specs.Scoring.{max_score};
ghost use Rattle.docsets.specs.Members.{at_least, entries_at, greatest_sum};
ghost use Rattle.scorers.specs.Documents.{documents};
ghost use Rattle.scorers.specs.Uniting.{counts_in, uniting};

use crate::simple_union::SimpleUnion;
use common::{DocId, TERMINATED};
use docsets::{BitSetDocSet, DocSet, Postings};
use std::alloc::{AllocError, Global};

/// The union of several cursors over postings, whose documents are in a bit set too. They are counted in the set alone.
#[derive(Drop)]
pub struct BitSetPostingUnion<S: DocSet> {
    union: SimpleUnion<S>,
    bitset: BitSetDocSet,
    ghost same: { documents (⟦<BitSetDocSet as DocSet>⟧.entries bitset) ≡ documents (at_least 1 (uniting (is_some union.positions)) (map S.entries union.docsets.items)) },
}

impl<S: Postings + Drop> BitSetPostingUnion<S> {
    /// Returns the union of `docsets`, whose documents are in `bitset`. Allocates room for all positions that they have
    /// in one document.
    pub fn build(
        alloc: Global,
        docsets: Vec<S>,
        bitset: BitSetDocSet,
    ) -> Result<BitSetPostingUnion<S>, AllocError>
        requires scores { greatest_sum (map S.entries docsets.items) ≤ max_score }
        requires counts { (d : ℕ) → sum (counts_in (entries_at d (map S.entries docsets.items))) ≤ 4294967295 }
        requires set { documents (⟦<BitSetDocSet as DocSet>⟧.entries bitset)
            ≡ documents (at_least 1 (uniting true) (map S.entries docsets.items)) }
        ensures { IfOk result (λ union. ⟦<BitSetPostingUnion<S> as DocSet>⟧.entries union
            ≡ at_least 1 (uniting true) (map S.entries docsets.items)) }
    {
        let union = SimpleUnion::build(alloc, docsets)?;
        Ok(BitSetPostingUnion { union, bitset })
    }
}

impl<S: DocSet> DocSet for BitSetPostingUnion<S> {
    ghost entries = { λ s. ⟦<SimpleUnion<S> as DocSet>⟧.entries s.union };

    #[inline]
    fn advance(&mut self) -> DocId {
        self.union.advance();
        self.bitset.advance()
    }

    fn seek(&mut self, target: DocId) -> DocId {
        self.union.seek(target);
        self.bitset.seek(target)
    }

    #[inline]
    fn doc(&self) -> DocId {
        self.bitset.doc()
    }

    fn size_hint(&self) -> u32 {
        self.bitset.size_hint()
    }

    fn count_including_deleted(&mut self) -> u32 {
        self.union.seek(TERMINATED);
        self.bitset.count_including_deleted()
    }

    ghost rising = { λ s. s.union.together.rises };
}

impl<S: Postings> Postings for BitSetPostingUnion<S> {
    ghost use Rattle.docsets.specs.Distinct.{distinct};
    ghost use Rattle.scorers.specs.UnitingLaws.{AreSingle-united, united-alone};

    ghost joined = { λ held positions. distinct (held ++ positions) };

    fn term_freq(&self) -> u32 {
        self.union.term_freq()
    }

    fn append_positions_with_offset(
        &mut self,
        offset: u32,
        output: &mut Vec<u32>,
    ) -> Result<(), AllocError> {
        self.union.append_positions_with_offset(offset, output)?;
        Ok(())
    }

    fn most_positions(&self) -> usize {
        self.union.most_positions()
    }

    ghost of_one_term = { λ s. AreSingle-united S.entries S.of_one_term (is_some s.union.positions) s.union.docsets.items };

    ghost alone = { λ s offset. united-alone (is_some s.union.positions) (map S.entries s.union.docsets.items) offset };
}
