//! Sets of documents to exclude.

ghost use Rattle.std.specs.Prelude.{◌<◌, ◌≡◌, ◌≤◌, Bool, ℕ};
ghost use Rattle.definitions.specs.Postings.{terminated};

use common::DocId;
use docsets::{DocSet, SeekDangerResult};

/// A set of documents to exclude, which is asked for them in ascending order.
pub trait ExclusionSet {
    // The documents in it.
    ghost excludes: { Self → ℕ → Bool };

    /// Whether `doc` is in the set. Documents below `doc` aren't asked for any more.
    fn contains(&mut self, doc: DocId) -> bool
        requires { doc < terminated }
        ensures value { result ≡ excludes self.old doc }
        ensures later { (d : ℕ) → doc ≤ d → excludes self.new d ≡ excludes self.old d };
}

impl<D: DocSet> ExclusionSet for D {
    ghost use Rattle.intersections.specs.Differences.{has};

    ghost excludes = { λ s d. has (D.entries s) d };

    fn contains(&mut self, doc: DocId) -> bool {
        match self.seek_danger(doc) {
            SeekDangerResult::Found => true,
            SeekDangerResult::SeekLowerBound(_) => false,
        }
    }
}
