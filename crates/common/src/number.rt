//! Document ids and scores, and their bounds.

ghost use Rattle.std.specs.Prelude.{◌≡◌, pos};
ghost use Rattle.definitions.specs.Postings.{terminated};
ghost use Rattle.definitions.specs.Scoring.{max_score};

/// A document id: a document's number in its segment.
pub type DocId = u32;

/// The current document of an exhausted cursor: past every document.
pub const TERMINATED: DocId = 2147483647;

/// A score: how well a document matches, as a whole number.
pub type Score = i64;

/// The greatest score that a document may have.
pub const MAX_SCORE: Score = 1_000_000_000_000_000;

/// States that `TERMINATED` is the number of that name in the definitions.
pub fn terminated_is_that_of_definitions()
    ensures { TERMINATED ≡ terminated }
{}

/// States that `MAX_SCORE` is the number of that name in the definitions.
pub fn max_score_is_that_of_definitions()
    ensures { MAX_SCORE ≡ pos max_score }
{}
