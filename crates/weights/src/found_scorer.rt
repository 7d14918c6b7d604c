//! The scorer of a query in a segment, where documents were found.

ghost use Rattle.std.specs.Prelude.{[], ◌≡◌, IfNone, IfSome};

use common::{AliveBitSet, DocId, Score};
use docsets::{DocSet, EmptyScorer, Scorer, SeekDangerResult};

/// The scorer that was found of a query in a segment, or none.
#[derive(Drop)]
pub enum FoundScorer<S: Scorer> {
    /// Documents were found.
    Found(S),
    /// No document can match.
    Empty(EmptyScorer),
}

impl<S: Scorer> FoundScorer<S> {
    /// Returns the scorer that was found, and else one of no document.
    pub fn new(found: Option<S>) -> FoundScorer<S>
        ensures some { IfSome found (λ scorer. ⟦<FoundScorer<S> as DocSet>⟧.entries result ≡ S.entries scorer) }
        ensures none { IfNone found (⟦<FoundScorer<S> as DocSet>⟧.entries result ≡ []) }
    {
        match found {
            Some(scorer) => FoundScorer::Found(scorer),
            None => FoundScorer::Empty(EmptyScorer::new()),
        }
    }
}

impl<S: Scorer> DocSet for FoundScorer<S> {
    ghost use Rattle.docsets.specs.ScoredEntryLaws.{rising_all};
    ghost use Rattle.weights.specs.declared.found_scorer.FoundScorer.TheVariants as forms;

    ghost entries = { elim [
      | forms.Found s ↦ S.entries s
      | forms.Empty s ↦ ⟦<EmptyScorer as DocSet>⟧.entries s
    ] };

    #[inline]
    fn advance(&mut self) -> DocId {
        match self {
            FoundScorer::Found(scorer) => scorer.advance(),
            FoundScorer::Empty(scorer) => scorer.advance(),
        }
    }

    #[inline]
    fn seek(&mut self, target: DocId) -> DocId {
        match self {
            FoundScorer::Found(scorer) => scorer.seek(target),
            FoundScorer::Empty(scorer) => scorer.seek(target),
        }
    }

    #[inline]
    fn seek_danger(&mut self, target: DocId) -> SeekDangerResult {
        match self {
            FoundScorer::Found(scorer) => scorer.seek_danger(target),
            FoundScorer::Empty(scorer) => scorer.seek_danger(target),
        }
    }

    fn fill_buffer(&mut self, buffer: &mut [DocId; 64]) -> usize {
        match self {
            FoundScorer::Found(scorer) => scorer.fill_buffer(buffer),
            FoundScorer::Empty(scorer) => scorer.fill_buffer(buffer),
        }
    }

    #[inline]
    fn doc(&self) -> DocId {
        match self {
            FoundScorer::Found(scorer) => scorer.doc(),
            FoundScorer::Empty(scorer) => scorer.doc(),
        }
    }

    fn size_hint(&self) -> u32 {
        match self {
            FoundScorer::Found(scorer) => scorer.size_hint(),
            FoundScorer::Empty(scorer) => scorer.size_hint(),
        }
    }

    fn cost(&self) -> u64 {
        match self {
            FoundScorer::Found(scorer) => scorer.cost(),
            FoundScorer::Empty(scorer) => scorer.cost(),
        }
    }

    fn count(&mut self, alive: &AliveBitSet) -> u32 {
        match self {
            FoundScorer::Found(scorer) => scorer.count(alive),
            FoundScorer::Empty(scorer) => scorer.count(alive),
        }
    }

    fn count_including_deleted(&mut self) -> u32 {
        match self {
            FoundScorer::Found(scorer) => scorer.count_including_deleted(),
            FoundScorer::Empty(scorer) => scorer.count_including_deleted(),
        }
    }

    ghost rising = { elim [
      | forms.Found s ↦ S.rising s
      | forms.Empty s ↦ rising_all s.none.doc s.none.max_doc s.none.small
    ] };
}

impl<S: Scorer> Scorer for FoundScorer<S> {
    #[inline]
    fn score(&mut self) -> Score {
        match self {
            FoundScorer::Found(scorer) => scorer.score(),
            FoundScorer::Empty(scorer) => scorer.score(),
        }
    }
}
