//! A scorer with boosted scores.

ghost use Rattle.std.specs.Prelude.{◌*◌, ◌≡◌, ◌≤ℤ◌, ◌≤◌, pos, ℕ};
ghost use Rattle.definitions.specs.Scoring.{max_score, natural};
ghost use Rattle.docsets.specs.ScoredEntries.{greatest_score, rescored_by};

use crate::scorer::{Scorer, Window};
use crate::{DocSet, SeekDangerResult};
use common::{AliveBitSet, DocId, MAX_SCORE, Score, TERMINATED};

/// The documents of a scorer, each with its score times a boost.
#[derive(Drop)]
pub struct BoostScorer<S: Scorer> {
    underlying: S,
    boost: u64,
    ghost fits: { boost * greatest_score (S.entries underlying) ≤ max_score },
}

impl<S: Scorer> BoostScorer<S> {
    /// Returns a scorer of the documents of `underlying`, each with its score times `boost`.
    pub fn new(underlying: S, boost: Score) -> BoostScorer<S>
        requires positive { pos 0 ≤ℤ boost }
        requires fits { natural boost * greatest_score (S.entries underlying) ≤ max_score }
        ensures { ⟦<BoostScorer<S> as DocSet>⟧.entries result
            ≡ rescored_by (λ e. natural boost * e.score) (S.entries underlying) }
    {
        BoostScorer {
            underlying,
            boost: boost as u64,
        }
    }
}

impl<S: Scorer> DocSet for BoostScorer<S> {
    ghost use Rattle.docsets.specs.ScoredEntryLaws.{Rising-boosted};

    ghost entries = { λ s. rescored_by (λ e. s.boost * e.score) (S.entries s.underlying) };

    #[inline]
    fn advance(&mut self) -> DocId {
        self.underlying.advance()
    }

    #[inline]
    fn seek(&mut self, target: DocId) -> DocId {
        self.underlying.seek(target)
    }

    #[inline]
    fn seek_danger(&mut self, target: DocId) -> SeekDangerResult {
        self.underlying.seek_danger(target)
    }

    fn fill_buffer(&mut self, buffer: &mut [DocId; 64]) -> usize {
        self.underlying.fill_buffer(buffer)
    }

    #[inline]
    fn doc(&self) -> DocId {
        self.underlying.doc()
    }

    fn size_hint(&self) -> u32 {
        self.underlying.size_hint()
    }

    fn cost(&self) -> u64 {
        self.underlying.cost()
    }

    fn count(&mut self, alive: &AliveBitSet) -> u32 {
        self.underlying.count(alive)
    }

    fn count_including_deleted(&mut self) -> u32 {
        self.underlying.count_including_deleted()
    }

    ghost rising = { λ s. Rising-boosted s.boost 0 (S.entries s.underlying) s.fits (S.rising s.underlying) };
}

impl<S: Scorer> Scorer for BoostScorer<S> {
    #[inline]
    fn score(&mut self) -> Score {
        (self.boost * self.underlying.score() as u64) as i64
    }

    #[inline]
    fn window(&mut self, target: DocId) -> Window {
        let window = self.underlying.window(target);
        Window {
            bound: boosted(self.boost, window.bound),
            until: window.until,
        }
    }

    #[inline]
    fn advance_above(&mut self, threshold: Score) -> DocId {
        if threshold < 0 {
            return self.underlying.advance();
        }
        if self.boost == 0 {
            return self.underlying.seek(TERMINATED);
        }
        self.underlying.advance_above(shared(self.boost, threshold))
    }
}

/// Returns a bound of the scores up to `bound` times `boost`.
fn boosted(boost: u64, bound: Score) -> Score
    requires { pos 0 ≤ℤ bound }
    ensures positive { pos 0 ≤ℤ result }
    ensures bound { (score : ℕ) → score ≤ natural bound → boost * score ≤ max_score → boost * score ≤ natural result }
{
    match boost.checked_mul(bound as u64) {
        Some(product) => product.min(MAX_SCORE as u64) as i64,
        None => MAX_SCORE,
    }
}

/// Returns a threshold under which scores times `boost` are under `threshold`.
#[inline]
fn shared(boost: u64, threshold: Score) -> Score
    requires positive { pos 0 ≤ℤ threshold }
    requires some { 1 ≤ boost }
    ensures { (score : ℕ) → pos score ≤ℤ result → pos (boost * score) ≤ℤ threshold }
{
    (threshold as u64 / boost) as i64
}
