//! Moves of several cursors past documents that one of them alone has.

ghost use Rattle.std.specs.Prelude.{◌+◌, ◌<◌, ◌≡◌, ◌≤◌, length, map, max, min, ℕ};
ghost use Rattle.docsets.specs.Entries.{first, from};
ghost use Rattle.definitions.specs.Postings.{terminated};
ghost use Rattle.docsets.specs.Members.{entries_at, least};
ghost use Rattle.scorers.specs.TwoLeast.{AreTwoLeast};

use common::{DocId, TERMINATED};
use docsets::{DocSet, Leader};

/// The least current document of several cursors, the least of the others, which may be equal, and the index of the
/// first cursor on the least.
#[derive(Clone, Copy, Debug)]
pub(crate) struct TwoLeast {
    pub(crate) doc: DocId,
    pub(crate) next: DocId,
    pub(crate) index: usize,
}

impl TwoLeast {
    /// Returns the value for no cursor.
    #[inline]
    fn none() -> TwoLeast
        ensures doc { result.doc ≡ terminated }
        ensures next { result.next ≡ terminated }
        ensures index { result.index ≡ 0 }
    {
        TwoLeast {
            doc: TERMINATED,
            next: TERMINATED,
            index: 0,
        }
    }

    /// Adds the cursor at `index`, on `doc`, without a branch on the documents: many would be mispredicted.
    #[inline]
    fn beside(self, index: usize, doc: DocId) -> TwoLeast
        ensures least { result.doc ≡ min self.doc doc }
        ensures next { result.next ≡ min self.next (max self.doc doc) }
        ensures before { doc < self.doc → result.index ≡ index }
        ensures behind { self.doc ≤ doc → result.index ≡ self.index }
    {
        TwoLeast {
            doc: self.doc.min(doc),
            next: self.next.min(self.doc.max(doc)),
            index: if doc < self.doc { index } else { self.index },
        }
    }
}

/// Returns the two least current documents of `docsets`.
fn two_least<D: DocSet>(docsets: &Vec<D>) -> TwoLeast
    ensures { AreTwoLeast (map D.entries docsets.now.items) result }
{
    let mut two = TwoLeast::none();
    for i in 0..docsets.len() {
        two = two.beside(i, docsets[i].doc());
    }
    two
}

/// Moves `docset` to its first document >= `target`, which is past the current one. Tries the next one first.
#[inline]
fn advance_to<D: DocSet>(docset: &mut D, target: DocId)
    requires ahead { first (D.entries docset.old) < target }
    requires small { target ≤ terminated }
    ensures { D.entries docset.new ≡ from target (D.entries docset.old) }
{
    if docset.advance() < target {
        docset.seek(target);
    }
}

/// Counts the cursors on the least document.
fn count_least<D: DocSet>(docsets: &Vec<D>, two: TwoLeast) -> usize
    requires { AreTwoLeast (map D.entries docsets.now.items) two }
    ensures { two.doc < terminated → result ≡ length (entries_at two.doc (map D.entries docsets.now.items)) }
{
    let mut count = 0;
    for i in two.index..docsets.len() {
        count += (docsets[i].doc() == two.doc) as usize;
    }
    count
}

/// Moves past all documents that one cursor alone has. Returns the first that several have, and how many have it, or
/// another number if both are at least `minimum`. They are counted only if two of them aren't enough.
pub(crate) fn past_alone<D: DocSet>(docsets: &mut Vec<D>, minimum: usize) -> Leader
    requires { 2 ≤ minimum }
    ensures moved { map D.entries docsets.new.items ≡ map (from result.doc) (map D.entries docsets.old.items) }
    ensures few { (d : ℕ) → d < result.doc → length (entries_at d (map D.entries docsets.old.items)) ≤ 1 }
    ensures least { result.doc ≡ least (map D.entries docsets.new.items) }
    ensures count { result.doc < terminated → min minimum result.count
        ≡ min minimum (length (entries_at result.doc (map D.entries docsets.new.items))) }
    ensures several { result.doc < terminated → 2 ≤ length (entries_at result.doc (map D.entries docsets.new.items)) }
{
    let mut two = two_least(docsets);
    while two.doc < two.next {
        advance_to(&mut docsets[two.index], two.next);
        two = two_least(docsets);
    }
    let count = if minimum == 2 {
        2
    } else {
        count_least(docsets, two)
    };
    Leader {
        doc: two.doc,
        count,
    }
}
