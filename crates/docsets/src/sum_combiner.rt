//! A combiner that adds scores up.

ghost use Rattle.std.specs.Prelude.{◌+◌, ◌≡◌, ◌≤◌, List, sum, ℕ};
ghost use Rattle.definitions.specs.Scoring.{max_score};

use crate::score_combiner::ScoreCombiner;
use crate::scorer::Scorer;
use common::Score;

/// A combiner that adds the scores up.
#[derive(Clone, Copy, Debug)]
pub struct SumCombiner {
    sum: u64,
    ghost small: { sum ≤ max_score },
}

impl Default for SumCombiner {
    ghost is_default = { λ c. ((xs : List ℕ) → ⟦<SumCombiner as ScoreCombiner>⟧.answer c xs ≡ sum xs)
        × (⟦<SumCombiner as ScoreCombiner>⟧.total c ≡ 0) };

    fn default() -> SumCombiner {
        SumCombiner { sum: 0 }
    }
}

impl ScoreCombiner for SumCombiner {
    ghost use Rattle.docsets.specs.CombiningLaws.{further-permuted};

    ghost total = { λ c. c.sum };

    ghost answer = { λ c xs. c.sum + sum xs };

    ghost anew = { λ c xs. sum xs };

    #[tactic(auto, using(crate::specs::CombiningLaws::sum_further))]
    #[inline]
    fn update<S: Scorer>(&mut self, scorer: &mut S) {
        self.sum += scorer.score() as u64;
    }

    #[inline]
    fn clear(&mut self) {
        self.sum = 0;
    }

    #[inline]
    fn score(&self) -> Score {
        self.sum as i64
    }

    ghost bounded = { λ c xs l. l };

    ghost unordered = { λ c xs ys is. further-permuted c.sum xs ys is };
}
