//! The union of cursors, which looks no further than their documents.

ghost use Rattle.std.specs.Prelude.{◌++◌, ◌≡◌, ◌≤◌, IfOk, false, is_some, map, sum, true, ℕ};
ghost use Rattle.definitions.specs.Scoring.{max_score};
ghost use Rattle.docsets.specs.Members.{at_least, entries_at, greatest_sum};
ghost use Rattle.scorers.specs.Together.{IsTogether};
ghost use Rattle.scorers.specs.TogetherLaws.{IsTogether-prop};
ghost use Rattle.scorers.specs.UnitedRoom.{HasRoom};
ghost use Rattle.scorers.specs.UnitedRoomLaws.{HasRoom-prop};
ghost use Rattle.scorers.specs.Uniting.{counts_in, uniting};

use crate::united_positions::{PositionRoom, append_united, freq_at, most_together};
use common::{DocId, Score};
use docsets::{
    DocSet, Postings, ScoreCombiner, Scorer, SumCombiner, advance_any, combine_at, seek_any,
};
use std::alloc::{AllocError, Global};

/// The documents of several cursors, each once, with their scores added up. It is the union to choose if seeks pass
/// most documents.
/// Positions are gathered in buffers of its own and counted before the output is touched, since how a member appends
/// isn't known.
#[derive(Drop)]
pub struct SimpleUnion<S: DocSet> {
    docsets: Vec<S>,
    doc: DocId,
    positions: Option<PositionRoom>,
    ghost together: { IsTogether (is_some positions) (map S.entries docsets.items) doc } by { IsTogether-prop (is_some positions) (map S.entries docsets.items) doc },
    ghost room: { HasRoom positions (map S.entries docsets.items) } by { HasRoom-prop positions (map S.entries docsets.items) },
}

impl<S: Postings + Drop> SimpleUnion<S> {
    /// Returns the union of `docsets`. Allocates room for all positions that they have in one document.
    pub fn build(alloc: Global, docsets: Vec<S>) -> Result<SimpleUnion<S>, AllocError>
        requires scores { greatest_sum (map S.entries docsets.items) ≤ max_score }
        requires counts { (d : ℕ) → sum (counts_in (entries_at d (map S.entries docsets.items))) ≤ 4294967295 }
        ensures { IfOk result (λ union. ⟦<SimpleUnion<S> as DocSet>⟧.entries union
            ≡ at_least 1 (uniting true) (map S.entries docsets.items)) }
    {
        let most = most_together(&docsets);
        let positions = PositionRoom::new(alloc, most)?;
        let mut docsets = docsets;
        let doc = seek_any(&mut docsets, 0);
        Ok(SimpleUnion {
            docsets,
            doc,
            positions: Some(positions),
        })
    }
}

impl<S: DocSet> SimpleUnion<S> {
    /// Returns the union of `docsets`, without counts and positions.
    /// Allocates nothing; reports counts of 0 and no positions.
    pub fn without_positions(docsets: Vec<S>) -> SimpleUnion<S>
        requires { greatest_sum (map S.entries docsets.items) ≤ max_score }
        ensures { ⟦<SimpleUnion<S> as DocSet>⟧.entries result
            ≡ at_least 1 (uniting false) (map S.entries docsets.items) }
    {
        let mut docsets = docsets;
        let doc = seek_any(&mut docsets, 0);
        SimpleUnion {
            docsets,
            doc,
            positions: None,
        }
    }
}

impl<S: DocSet> DocSet for SimpleUnion<S> {
    ghost entries = { λ s. at_least 1 (uniting (is_some s.positions)) (map S.entries s.docsets.items) };

    #[inline]
    fn advance(&mut self) -> DocId {
        self.doc = advance_any(&mut self.docsets, self.doc);
        self.doc
    }

    fn seek(&mut self, target: DocId) -> DocId {
        self.doc = seek_any(&mut self.docsets, target);
        self.doc
    }

    #[inline]
    fn doc(&self) -> DocId {
        self.doc
    }

    fn size_hint(&self) -> u32 {
        let mut hint = 0;
        for i in 0..self.docsets.len() {
            hint = hint.max(self.docsets[i].size_hint());
        }
        hint
    }

    ghost rising = { λ s. s.together.rises };
}

impl<S: Postings> Postings for SimpleUnion<S> {
    ghost use Rattle.docsets.specs.Distinct.{distinct};
    ghost use Rattle.scorers.specs.UnitingLaws.{AreSingle-united, united-alone};

    ghost joined = { λ held positions. distinct (held ++ positions) };

    fn term_freq(&self) -> u32 {
        if self.positions.is_none() {
            return 0;
        }
        freq_at(&self.docsets, self.doc)
    }

    fn append_positions_with_offset(
        &mut self,
        offset: u32,
        output: &mut Vec<u32>,
    ) -> Result<(), AllocError> {
        append_united(
            &mut self.docsets,
            self.doc,
            offset,
            &mut self.positions,
            output,
        )?;
        Ok(())
    }

    fn most_positions(&self) -> usize {
        match &self.positions {
            Some(room) => room.most(),
            None => 0,
        }
    }

    ghost of_one_term = { λ s. AreSingle-united S.entries S.of_one_term (is_some s.positions) s.docsets.items };

    ghost alone = { λ s offset. united-alone (is_some s.positions) (map S.entries s.docsets.items) offset };
}

impl<S: Scorer> Scorer for SimpleUnion<S> {
    fn score(&mut self) -> Score {
        combine_at(&mut self.docsets, self.doc, SumCombiner::default()).score()
    }
}
