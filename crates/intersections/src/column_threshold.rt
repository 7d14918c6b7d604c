//! Thresholds of the scores that documents earn by their positions.

ghost use Rattle.std.specs.Prelude.{◌≡◌, true};

use common::DocId;

/// A threshold of the scores that documents earn by their columns of positions.
pub trait ColumnThreshold {
    ghost use Rattle.std.specs.Prelude.{List, ℕ, ℤ};
    ghost use Rattle.intersections.specs.Thresholds.{EarnLow};

    // What a document earns by its columns.
    ghost score: { Self → ℕ → List (List ℕ) → ℕ };

    // Scores up to this one are low.
    ghost limit: { Self → ℤ };

    /// Whether `doc` is known to earn a low score, as one of its columns has at most `most` positions: the last, if
    /// `is_last`.
    fn is_low(&self, doc: DocId, is_last: bool, most: usize) -> bool
        ensures { result ≡ true → EarnLow (score self.now) (limit self.now) doc is_last most };
}
