//! The least current document of several cursors, and how many of them are on it.

ghost use Rattle.std.specs.Prelude.{◌+◌, ◌<◌, ◌≡◌, ◌≤◌, length, map};
ghost use Rattle.docsets.specs.Entries.{from};
ghost use Rattle.definitions.specs.Postings.{terminated};
ghost use Rattle.docsets.specs.Members.{entries_at, least};

use crate::DocSet;
use crate::moves::move_to;
use common::{DocId, TERMINATED};

/// A document, and how many cursors are on it.
#[derive(Clone, Copy, Debug)]
pub struct Leader {
    /// The document.
    pub doc: DocId,
    /// The number of cursors on it.
    pub count: usize,
}

impl Leader {
    /// Returns the leader after one more cursor, whose current document is `doc`.
    #[inline]
    fn beside(self, doc: DocId) -> Leader
        requires { self.count < 18446744073709551615 }
        ensures before { doc < self.doc → (result.doc ≡ doc) × (result.count ≡ 1) }
        ensures on { doc ≡ self.doc → (result.doc ≡ doc) × (result.count ≡ self.count + 1) }
        ensures behind { self.doc < doc → (result.doc ≡ self.doc) × (result.count ≡ self.count) }
        ensures few { result.count ≤ self.count + 1 }
    {
        if doc < self.doc {
            return Leader { doc, count: 1 };
        }
        Leader {
            doc: self.doc,
            count: self.count + (doc == self.doc) as usize,
        }
    }
}

/// Moves each cursor to its first document >= `target`; returns the least of these documents, and how many cursors are
/// on it.
pub fn lead<D: DocSet>(docsets: &mut Vec<D>, target: DocId) -> Leader
    requires { target ≤ terminated }
    ensures moved { map D.entries docsets.new.items ≡ map (from target) (map D.entries docsets.old.items) }
    ensures least { result.doc ≡ least (map D.entries docsets.new.items) }
    ensures count { result.doc < terminated
        → result.count ≡ length (entries_at result.doc (map D.entries docsets.new.items)) }
{
    let mut leader = Leader {
        doc: TERMINATED,
        count: 0,
    };
    for i in 0..docsets.len() {
        leader = leader.beside(move_to(&mut docsets[i], target));
    }
    leader
}
