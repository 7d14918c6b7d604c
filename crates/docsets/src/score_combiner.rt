//! Combiners of several scores into one.

ghost use Rattle.std.specs.Prelude.{[], ◌+◌, ◌<◌, ◌∷◌, ◌≡◌, ◌≤◌, IsPermutation, List, pos, sum, ℕ};
ghost use Rattle.docsets.specs.Entries.{first, first_score};
ghost use Rattle.definitions.specs.Postings.{terminated};
ghost use Rattle.definitions.specs.Scoring.{max_score};

use crate::scorer::Scorer;
use common::Score;

/// A combiner of the scores of a document, taken one cursor after another. Their order doesn't matter.
pub trait ScoreCombiner: Copy {
    // The sum of the scores so far, or less if it takes none.
    ghost total: { Self → ℕ };

    // The combined score after these further ones.
    ghost answer: { Self → List ℕ → ℕ };

    // The combined score of these alone.
    ghost anew: { Self → List ℕ → ℕ };

    /// Takes the score of the current document of `scorer`, or only the fact that it matches.
    fn update<S: Scorer>(&mut self, scorer: &mut S)
        requires on { first (S.entries scorer.old) < terminated }
        requires fits { total self.old + first_score (S.entries scorer.old) ≤ max_score }
        ensures same { S.entries scorer.new ≡ S.entries scorer.old }
        ensures total { total self.new ≤ total self.old + first_score (S.entries scorer.old) }
        ensures answer { (xs : List ℕ) → answer self.new xs
            ≡ answer self.old (first_score (S.entries scorer.old) ∷ xs) }
        ensures anew { (xs : List ℕ) → anew self.new xs ≡ anew self.old xs };

    /// Forgets the scores so far.
    fn clear(&mut self)
        ensures total { total self.new ≡ 0 }
        ensures answer { (xs : List ℕ) → answer self.new xs ≡ anew self.old xs }
        ensures anew { (xs : List ℕ) → anew self.new xs ≡ anew self.old xs };

    /// Returns the combined score of those so far.
    fn score(&self) -> Score
        ensures { result ≡ pos (answer self.now []) };

    // No combined score is above the greatest if the sum isn't.
    ghost bounded: { (c : Self) (xs : List ℕ) → total c + sum xs ≤ max_score → answer c xs ≤ max_score };

    // The order of the scores doesn't matter.
    ghost unordered: { (c : Self) (xs ys : List ℕ) → IsPermutation xs ys → answer c ys ≡ answer c xs };
}
