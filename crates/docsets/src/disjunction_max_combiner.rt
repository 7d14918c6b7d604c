//! A combiner that takes the greatest score, and a share of the others.

ghost use Rattle.std.specs.Prelude.{◌+◌, ◌≡◌, ◌≤◌, List, pos, ℕ};
ghost use Rattle.std.specs.Prelude.{◌≤ℤ◌};
ghost use Rattle.definitions.specs.Scoring.{best_and_tie, max_score, natural};
ghost use Rattle.docsets.specs.Combining.{tie_after};

use crate::score_combiner::ScoreCombiner;
use crate::scorer::Scorer;
use common::Score;

/// A combiner that takes the greatest score, and `tie_breaker` thousandths of the sum of the others.
#[derive(Clone, Copy, Debug)]
pub struct DisjunctionMaxCombiner {
    max: u64,
    sum: u64,
    tie_breaker: u64,
    ghost within: { max ≤ sum },
    ghost small: { sum ≤ max_score },
    ghost share: { tie_breaker ≤ 1000 },
}

impl DisjunctionMaxCombiner {
    /// Returns a combiner without scores, which adds `tie_breaker` thousandths of the sum of all but the greatest.
    pub fn with_tie_breaker(tie_breaker: Score) -> DisjunctionMaxCombiner
        requires positive { pos 0 ≤ℤ tie_breaker }
        requires share { tie_breaker ≤ℤ pos 1000 }
        ensures answer { (xs : List ℕ) → ⟦<DisjunctionMaxCombiner as ScoreCombiner>⟧.answer result xs
            ≡ best_and_tie (natural tie_breaker) xs }
        ensures anew { (xs : List ℕ) → ⟦<DisjunctionMaxCombiner as ScoreCombiner>⟧.anew result xs
            ≡ best_and_tie (natural tie_breaker) xs }
        ensures total { ⟦<DisjunctionMaxCombiner as ScoreCombiner>⟧.total result ≡ 0 }
    {
        DisjunctionMaxCombiner {
            max: 0,
            sum: 0,
            tie_breaker: tie_breaker as u64,
        }
    }
}

impl Default for DisjunctionMaxCombiner {
    ghost is_default = { λ c. ((xs : List ℕ) → ⟦<DisjunctionMaxCombiner as ScoreCombiner>⟧.answer c xs
        ≡ best_and_tie 0 xs) × ((xs : List ℕ) → ⟦<DisjunctionMaxCombiner as ScoreCombiner>⟧.anew c xs
        ≡ best_and_tie 0 xs) × (⟦<DisjunctionMaxCombiner as ScoreCombiner>⟧.total c ≡ 0) };

    fn default() -> DisjunctionMaxCombiner {
        DisjunctionMaxCombiner::with_tie_breaker(0)
    }
}

impl ScoreCombiner for DisjunctionMaxCombiner {
    ghost use Rattle.docsets.specs.CombiningLaws.{tie-bounded, tie-permuted};

    ghost total = { λ c. c.sum };

    ghost answer = { λ c xs. tie_after c.tie_breaker c.max c.sum xs };

    ghost anew = { λ c xs. best_and_tie c.tie_breaker xs };

    #[tactic(auto, using(crate::specs::CombiningLaws::tie_further))]
    #[inline]
    fn update<S: Scorer>(&mut self, scorer: &mut S) {
        let score = scorer.score() as u64;
        self.max = self.max.max(score);
        self.sum += score;
    }

    #[inline]
    fn clear(&mut self) {
        self.max = 0;
        self.sum = 0;
    }

    #[inline]
    fn score(&self) -> Score {
        (self.max + (self.sum - self.max) * self.tie_breaker / 1000) as i64
    }

    ghost bounded = { λ c xs l. tie-bounded c.tie_breaker c.max c.sum xs c.share c.within l };

    ghost unordered = { λ c xs ys is. tie-permuted c.tie_breaker c.max c.sum xs ys is };
}
