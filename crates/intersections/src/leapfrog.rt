//! Moves of several cursors to a document that all of them have.

ghost use Rattle.std.specs.Prelude.{[], ◌<◌, ◌≡◌, ◌≤◌, length, map, slice_index_or};
ghost use Rattle.docsets.specs.Entries.{first, from};
ghost use Rattle.definitions.specs.Postings.{terminated};
ghost use Rattle.intersections.specs.Meetings.{Passes, meeting};
ghost use Rattle.docsets.specs.Members.{entries_at, least};

use common::{DocId, TERMINATED};
use docsets::{DocSet, SeekDangerResult, move_to};

/// Moves cursor `lead` to its first document >= `target`, and returns that.
fn lead_on<D: DocSet>(docsets: &mut Vec<D>, lead: usize, target: DocId) -> DocId
    requires within { lead < length docsets.old.items }
    requires small { target ≤ terminated }
    ensures passes { Passes target result (map D.entries docsets.old.items) (map D.entries docsets.new.items) }
    ensures stands { result ≡ first (slice_index_or (map D.entries docsets.new.items) lead []) }
{
    move_to(&mut docsets[lead], target)
}

/// Moves `docset` to `candidate`, or returns a later document before which it has none left.
#[inline]
fn reach<D: DocSet>(docset: &mut D, candidate: DocId) -> DocId
    requires { candidate < terminated }
    ensures up { candidate ≤ result }
    ensures small { result ≤ terminated }
    ensures kept { from candidate (D.entries docset.new) ≡ from candidate (D.entries docset.old) }
    ensures before_next { result ≤ first (from candidate (D.entries docset.old)) }
    ensures found { result ≡ candidate → first (D.entries docset.new) ≡ candidate }
{
    if docset.doc() == candidate {
        return candidate;
    }
    match docset.seek_danger(candidate) {
        SeekDangerResult::Found => candidate,
        SeekDangerResult::SeekLowerBound(bound) => bound,
    }
}

/// Moves all of `docsets` to `candidate`, or returns a later document before which they don't meet.
pub(crate) fn meet<D: DocSet>(docsets: &mut Vec<D>, candidate: DocId) -> DocId
    requires { candidate < terminated }
    ensures passes { Passes candidate result (map D.entries docsets.old.items) (map D.entries docsets.new.items) }
    ensures leads { result ≡ candidate → candidate ≤ least (map D.entries docsets.new.items) }
    ensures all { result ≡ candidate → length (entries_at candidate (map D.entries docsets.new.items))
        ≡ length docsets.new.items }
{
    for i in 0..docsets.len() {
        let bound = reach(&mut docsets[i], candidate);
        if candidate < bound {
            return bound;
        }
    }
    candidate
}

/// Moves `docsets` to the first document >= `start` that all of them have, and returns it. Cursor `lead` leads: the
/// others are asked for its documents alone.
pub(crate) fn next_match<D: DocSet>(docsets: &mut Vec<D>, lead: usize, start: DocId) -> DocId
    requires within { lead < length docsets.old.items }
    requires small { start ≤ terminated }
    ensures long { length docsets.new.items ≡ length docsets.old.items }
    ensures same { meeting (map D.entries docsets.new.items)
        ≡ from start (meeting (map D.entries docsets.old.items)) }
    ensures at { result ≡ first (meeting (map D.entries docsets.new.items)) }
    ensures leads { result < terminated → result ≤ least (map D.entries docsets.new.items) }
{
    let mut candidate = lead_on(docsets, lead, start);
    while candidate < TERMINATED {
        let bound = meet(docsets, candidate);
        if bound == candidate {
            return candidate;
        }
        candidate = lead_on(docsets, lead, bound);
    }
    candidate
}

/// Returns the index of the cursor of the least cost.
pub(crate) fn cheapest<D: DocSet>(docsets: &Vec<D>) -> usize
    requires { 0 < length docsets.now.items }
    ensures { result < length docsets.now.items }
{
    let mut index = 0;
    let mut least = docsets[0].cost();
    for i in 1..docsets.len() {
        let cost = docsets[i].cost();
        if cost < least {
            index = i;
            least = cost;
        }
    }
    index
}
