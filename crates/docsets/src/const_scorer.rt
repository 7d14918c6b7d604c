//! A scorer with a constant score.

ghost use Rattle.std.specs.Prelude.{◌≡◌, ◌≤ℤ◌, ◌≤◌, pos};
ghost use Rattle.definitions.specs.Scoring.{max_score, natural};
ghost use Rattle.docsets.specs.ScoredEntries.{rescored_by};

use crate::scorer::{Scorer, Window};
use crate::{DocSet, SeekDangerResult};
use common::{AliveBitSet, DocId, Score, TERMINATED};

/// The documents of a cursor, each with the same score.
#[derive(Drop)]
pub struct ConstScorer<D: DocSet> {
    docset: D,
    score: u64,
    ghost small: { score ≤ max_score },
}

impl<D: DocSet> ConstScorer<D> {
    /// Returns a scorer of the documents of `docset`, each with `score`.
    pub fn new(docset: D, score: Score) -> ConstScorer<D>
        requires positive { pos 0 ≤ℤ score }
        requires small { score ≤ℤ pos max_score }
        ensures { ⟦<ConstScorer<D> as DocSet>⟧.entries result ≡ rescored_by (λ e. natural score) (D.entries docset) }
    {
        ConstScorer {
            docset,
            score: score as u64,
        }
    }
}

impl<D: DocSet> From<D> for ConstScorer<D> {
    ghost from_gives = { λ docset scorer. ⟦<ConstScorer<D> as DocSet>⟧.entries scorer
        ≡ rescored_by (λ e. 1) (D.entries docset) };

    fn from(docset: D) -> ConstScorer<D> {
        ConstScorer::new(docset, 1)
    }
}

impl<D: DocSet> DocSet for ConstScorer<D> {
    ghost use Rattle.docsets.specs.ScoredEntryLaws.{Rising-constant};

    ghost entries = { λ s. rescored_by (λ e. s.score) (D.entries s.docset) };

    #[inline]
    fn advance(&mut self) -> DocId {
        self.docset.advance()
    }

    #[inline]
    fn seek(&mut self, target: DocId) -> DocId {
        self.docset.seek(target)
    }

    #[inline]
    fn seek_danger(&mut self, target: DocId) -> SeekDangerResult {
        self.docset.seek_danger(target)
    }

    fn fill_buffer(&mut self, buffer: &mut [DocId; 64]) -> usize {
        self.docset.fill_buffer(buffer)
    }

    #[inline]
    fn doc(&self) -> DocId {
        self.docset.doc()
    }

    fn size_hint(&self) -> u32 {
        self.docset.size_hint()
    }

    fn cost(&self) -> u64 {
        self.docset.cost()
    }

    fn count(&mut self, alive: &AliveBitSet) -> u32 {
        self.docset.count(alive)
    }

    fn count_including_deleted(&mut self) -> u32 {
        self.docset.count_including_deleted()
    }

    ghost rising = { λ s. Rising-constant s.score 0 (D.entries s.docset) s.small (D.rising s.docset) };
}

impl<D: DocSet> Scorer for ConstScorer<D> {
    #[inline]
    fn score(&mut self) -> Score {
        self.score as i64
    }

    #[inline]
    fn window(&mut self, target: DocId) -> Window {
        Window {
            bound: self.score as i64,
            until: TERMINATED,
        }
    }

    #[inline]
    fn advance_above(&mut self, threshold: Score) -> DocId {
        if self.score as i64 > threshold {
            return self.advance();
        }
        self.docset.seek(TERMINATED)
    }
}
