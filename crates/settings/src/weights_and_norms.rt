//! What scores depend on, beside documents and queries.

ghost use Rattle.std.specs.Prelude.{◌≡◌, ◌≤◌};
ghost use Rattle.definitions.specs.Settings.{similarity_of};
ghost use Rattle.definitions.specs.Scoring.{IsSimilarity, Similarity, max_score};

use crate::Settings;
use terms::Term;

/// The weights of terms and the norms of lengths. They don't change.
pub trait Statistics {
    // The weight of each term, and a norm for each length id.
    ghost similarity: { Self → Similarity };

    /// Returns the weight of `term`.
    fn weight_of(&self, term: &Term) -> u64
        ensures value { result ≡ (similarity self.now).weight term.now }
        ensures within { result ≤ max_score };

    /// Returns the norms of the 256 length ids.
    fn norms(&self) -> &[u32]
        ensures value { result.now ≡ (similarity self.now).norms }
        ensures similarity { IsSimilarity (similarity self.now) };
}

impl Statistics for Settings {
    ghost similarity = { similarity_of };

    fn weight_of(&self, term: &Term) -> u64 {
        self.weight_of(term)
    }

    fn norms(&self) -> &[u32] {
        self.norms()
    }
}
