//! Moves of several cursors as their union, whose current document is the least of theirs.

ghost use Rattle.std.specs.Prelude.{◌+◌, ◌≡◌, ◌≤◌, List, drop, map, ℕ};
ghost use Rattle.docsets.specs.Entries.{Entry, first, from};
ghost use Rattle.definitions.specs.Postings.{terminated};
ghost use Rattle.docsets.specs.Members.{at_least, least};

use crate::DocSet;
use crate::leader::lead;
use common::{DocId, TERMINATED};

/// Moves each cursor to its first document >= `target`; returns the least of these documents, whatever is made of their
/// entries.
pub fn seek_any<D: DocSet>(docsets: &mut Vec<D>, target: DocId) -> DocId
    requires { target ≤ terminated }
    ensures moved { map D.entries docsets.new.items ≡ map (from target) (map D.entries docsets.old.items) }
    ensures least { result ≡ least (map D.entries docsets.new.items) }
    ensures rest { (make : ℕ → List Entry → Entry) → at_least 1 make (map D.entries docsets.new.items)
        ≡ from target (at_least 1 make (map D.entries docsets.old.items)) }
    ensures at { (make : ℕ → List Entry → Entry)
        → result ≡ first (at_least 1 make (map D.entries docsets.new.items)) }
{
    lead(docsets, target).doc
}

/// Moves the cursors whose current document is the least, `doc`; returns the next least document, whatever is made of
/// their entries.
pub fn advance_any<D: DocSet>(docsets: &mut Vec<D>, doc: DocId) -> DocId
    requires { doc ≡ least (map D.entries docsets.old.items) }
    ensures moved { map D.entries docsets.new.items ≡ map (from (doc + 1)) (map D.entries docsets.old.items) }
    ensures least { result ≡ least (map D.entries docsets.new.items) }
    ensures rest { (make : ℕ → List Entry → Entry) → at_least 1 make (map D.entries docsets.new.items)
        ≡ drop 1 (at_least 1 make (map D.entries docsets.old.items)) }
    ensures at { (make : ℕ → List Entry → Entry)
        → result ≡ first (at_least 1 make (map D.entries docsets.new.items)) }
{
    if doc >= TERMINATED {
        return TERMINATED;
    }
    seek_any(docsets, doc + 1)
}
