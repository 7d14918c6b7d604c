//! How the scores of a word's fields count together.

ghost use Rattle.std.specs.Prelude.{◌≡◌};
ghost use Rattle.query_text.specs.Answers as definitions;

/// How the scores of several fields count together.
#[derive(Clone, Copy, Debug, PartialEq, Eq)]
pub enum FieldScores {
    /// Their sum counts.
    Sum,
    /// The best one counts.
    Best,
}

impl FieldScores {
    /// Returns the thousandths of the scores beside the best that count.
    pub(crate) fn tie_breaker(self) -> i64
        ensures { result ≡ definitions.tie_breaker self }
    {
        match self {
            FieldScores::Sum => 1000,
            FieldScores::Best => 0,
        }
    }
}
