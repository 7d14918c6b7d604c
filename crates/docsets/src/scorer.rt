//! Cursors with scores.

ghost use Rattle.std.specs.Prelude.{◌<◌, ◌≡◌, ◌≤ℤ◌, ◌≤◌, drop, pos};
ghost use Rattle.definitions.specs.Postings.{terminated};
ghost use Rattle.definitions.specs.Scoring.{natural};
ghost use Rattle.docsets.specs.Bounds.{Covers, PassesLow};
ghost use Rattle.docsets.specs.Entries.{first, first_score};

use crate::DocSet;
use common::{DocId, MAX_SCORE, Score, TERMINATED};

/// A bound of the scores of some documents that follow one another.
#[derive(Clone, Copy, Debug)]
pub struct Window {
    /// No score is above it.
    pub bound: Score,
    /// The first document for which that isn't said.
    pub until: DocId,
}

/// A cursor with a score of its current document.
pub trait Scorer: DocSet {
    /// Returns the score of the current document, which stays the current one.
    fn score(&mut self) -> Score
        requires { first (Self.entries self.old) < terminated }
        ensures same { Self.entries self.new ≡ Self.entries self.old }
        ensures value { result ≡ pos (first_score (Self.entries self.old)) };

    /// Returns a bound of the scores from `target` on, as far as one is known without a move. The cursor stays where it
    /// is.
    fn window(&mut self, target: DocId) -> Window
        requires small { target < terminated }
        ensures same { Self.entries self.new ≡ Self.entries self.old }
        ensures positive { pos 0 ≤ℤ result.bound }
        ensures ahead { target < result.until }
        ensures within { result.until ≤ terminated }
        ensures covers { Covers target result.until (natural result.bound) (Self.entries self.old) }
    {
        Window {
            bound: MAX_SCORE,
            until: TERMINATED,
        }
    }

    /// Moves behind the current document to one whose score may be above `threshold`, and returns it. No document that
    /// is passed has such a score.
    #[inline]
    fn advance_above(&mut self, threshold: Score) -> DocId
        ensures passes { PassesLow threshold (drop 1 (Self.entries self.old)) (Self.entries self.new) }
        ensures at { result ≡ first (Self.entries self.new) }
    {
        self.advance()
    }
}
