//! A scorer without documents.

ghost use Rattle.std.specs.Prelude.{[], ◌≡◌};

use crate::DocSet;
use crate::all_scorer::AllScorer;
use crate::scorer::Scorer;
use common::{DocId, Score};

/// A scorer without documents: those below 0.
#[derive(Drop)]
pub struct EmptyScorer {
    none: AllScorer,
}

impl EmptyScorer {
    /// Returns an exhausted scorer.
    pub fn new() -> EmptyScorer
        ensures { ⟦<EmptyScorer as DocSet>⟧.entries result ≡ [] }
    {
        EmptyScorer {
            none: AllScorer::new(0),
        }
    }
}

impl DocSet for EmptyScorer {
    ghost use Rattle.docsets.specs.ScoredEntryLaws.{rising_all};

    ghost entries = { λ s. ⟦<AllScorer as DocSet>⟧.entries s.none };

    #[inline]
    fn advance(&mut self) -> DocId {
        self.none.advance()
    }

    #[inline]
    fn doc(&self) -> DocId {
        self.none.doc()
    }

    fn size_hint(&self) -> u32 {
        self.none.size_hint()
    }

    ghost rising = { λ s. rising_all s.none.doc s.none.max_doc s.none.small };
}

impl Scorer for EmptyScorer {
    #[inline]
    fn score(&mut self) -> Score {
        self.none.score()
    }
}
