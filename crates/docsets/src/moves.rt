//! Moves of several cursors.

ghost use Rattle.std.specs.Prelude.{◌≡◌, ◌≤◌, map};
ghost use Rattle.docsets.specs.Entries.{first, from};
ghost use Rattle.definitions.specs.Postings.{terminated};
ghost use Rattle.docsets.specs.Members.{least};

use crate::DocSet;
use common::{DocId, TERMINATED};

/// Moves a cursor to its first document >= `target`, which may be before its current one.
#[inline]
pub fn move_to<D: DocSet>(docset: &mut D, target: DocId) -> DocId
    requires { target ≤ terminated }
    ensures rest { D.entries docset.new ≡ from target (D.entries docset.old) }
    ensures at { result ≡ first (D.entries docset.new) }
{
    let doc = docset.doc();
    if doc >= target {
        return doc;
    }
    if doc + 1 == target {
        return docset.advance();
    }
    docset.seek(target)
}

/// Moves each cursor to its first document >= `target`, like `move_to`.
pub fn move_all<D: DocSet>(docsets: &mut Vec<D>, target: DocId)
    requires { target ≤ terminated }
    ensures { map D.entries docsets.new.items ≡ map (from target) (map D.entries docsets.old.items) }
{
    for i in 0..docsets.len() {
        move_to(&mut docsets[i], target);
    }
}

/// Returns the least of the cursors' current documents, `TERMINATED` if there is none.
pub fn least_of<D: DocSet>(docsets: &Vec<D>) -> DocId
    ensures { result ≡ least (map D.entries docsets.now.items) }
{
    let mut doc = TERMINATED;
    for i in 0..docsets.len() {
        doc = doc.min(docsets[i].doc());
    }
    doc
}
