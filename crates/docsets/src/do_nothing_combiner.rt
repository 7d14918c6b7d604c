//! A combiner that reads no score.

ghost use Rattle.definitions.specs.ScoredLists.{no_score};

use crate::score_combiner::ScoreCombiner;
use crate::scorer::Scorer;
use common::Score;

/// A combiner that ignores the scores: every document has score 1.
#[derive(Clone, Copy, Debug)]
pub struct DoNothingCombiner;

impl Default for DoNothingCombiner {
    fn default() -> DoNothingCombiner {
        DoNothingCombiner
    }
}

impl ScoreCombiner for DoNothingCombiner {
    ghost use Rattle.std.specs.Prelude.{refl};
    ghost use Rattle.docsets.specs.CombiningLaws.{one-bounded};

    ghost total = { λ c. 0 };

    ghost answer = { λ c xs. no_score xs };

    ghost anew = { λ c xs. no_score xs };

    #[inline]
    fn update<S: Scorer>(&mut self, _scorer: &mut S) {}

    #[inline]
    fn clear(&mut self) {}

    #[inline]
    fn score(&self) -> Score {
        1
    }

    ghost bounded = { λ c xs l. one-bounded };

    ghost unordered = { λ c xs ys is. refl };
}
