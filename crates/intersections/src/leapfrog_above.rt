//! Moves of several cursors to a document that all of them have and that isn't known to earn a low score.

ghost use Rattle.std.specs.Prelude.{[], ◌<◌, ◌≡◌, ◌≤ℤ◌, ◌≤◌, length, map, pos, slice_index_or, true, ℕ};
ghost use Rattle.std.specs.List.{AllByRecursion};
ghost use Rattle.definitions.specs.Postings.{terminated};
ghost use Rattle.docsets.specs.Entries.{first, first_positions, from, single};
ghost use Rattle.docsets.specs.Members.{entries_at, entries_of, least};
ghost use Rattle.intersections.specs.Meetings.{meeting};
ghost use Rattle.intersections.specs.Thresholds.{EarnLow, PassLow, columns_at};

use crate::column_threshold::ColumnThreshold;
use crate::leapfrog::meet;
use crate::positioned::Positioned;
use common::{DocId, TERMINATED};
use docsets::{DocSet, move_to};

/// Moves `cursor` to its first document >= `target` that isn't known to earn a low score, and returns that. Its
/// positions are one column of several: the last, if `is_last`.
fn move_above<S: Positioned, C: ColumnThreshold>(
    cursor: &mut S,
    is_last: bool,
    target: DocId,
    threshold: &C,
) -> DocId
    requires { target ≤ terminated }
    ensures rest { S.entries cursor.new ≡ from result (S.entries cursor.old) }
    ensures at { result ≡ first (S.entries cursor.new) }
    ensures up { target ≤ result }
    ensures small { result ≤ terminated }
    ensures low { (d : ℕ) → target ≤ d → d < result → 1 ≤ length (entries_of d (S.entries cursor.old))
        → EarnLow (C.score threshold.now) (C.limit threshold.now) d is_last
        (length (single (first_positions (entries_of d (S.entries cursor.old))))) }
{
    let mut doc = move_to(cursor, target);
    while doc < TERMINATED {
        let most = cursor.positions_bound();
        if !threshold.is_low(doc, is_last, most) {
            return doc;
        }
        doc = cursor.advance();
    }
    doc
}

/// Moves cursor `lead` to its first document >= `target` that isn't known to earn a low score, and returns that.
fn lead_above<S: Positioned, C: ColumnThreshold>(
    docsets: &mut Vec<S>,
    lead: usize,
    target: DocId,
    threshold: &C,
) -> DocId
    requires within { lead < length docsets.old.items }
    requires small { target ≤ terminated }
    ensures passes { PassLow (C.score threshold.now) (C.limit threshold.now) target result
        (map S.entries docsets.old.items) (map S.entries docsets.new.items) }
    ensures stands { result ≡ first (slice_index_or (map S.entries docsets.new.items) lead []) }
{
    let is_last = lead + 1 == docsets.len();
    move_above(&mut docsets[lead], is_last, target, threshold)
}

/// Whether `doc`, on which all of `docsets` are, is known to earn a low score by the positions of one of them.
fn is_low<S: Positioned, C: ColumnThreshold>(docsets: &Vec<S>, doc: DocId, threshold: &C) -> bool
    requires on { doc < terminated }
    requires leads { doc ≤ least (map S.entries docsets.now.items) }
    requires all { length docsets.now.items ≤ length (entries_at doc (map S.entries docsets.now.items)) }
    ensures { result ≡ true → pos (C.score threshold.now doc (columns_at doc (map S.entries docsets.now.items)))
        ≤ℤ C.limit threshold.now }
{
    let num_docsets = docsets.len();
    for i in 0..num_docsets {
        let most = docsets[i].positions_bound();
        if threshold.is_low(doc, i + 1 == num_docsets, most) {
            return true;
        }
    }
    false
}

/// Moves all of `docsets` to `candidate`, or returns a later document before which they don't meet, or are known to earn
/// low scores.
fn meet_above<S: Positioned, C: ColumnThreshold>(
    docsets: &mut Vec<S>,
    candidate: DocId,
    threshold: &C,
) -> DocId
    requires { candidate < terminated }
    ensures passes { PassLow (C.score threshold.now) (C.limit threshold.now) candidate result
        (map S.entries docsets.old.items) (map S.entries docsets.new.items) }
    ensures leads { result ≡ candidate → candidate ≤ least (map S.entries docsets.new.items) }
    ensures all { result ≡ candidate → length (entries_at candidate (map S.entries docsets.new.items))
        ≡ length docsets.new.items }
{
    let bound = meet(docsets, candidate);
    if bound > candidate {
        return bound;
    }
    if is_low(docsets, candidate, threshold) {
        return candidate + 1;
    }
    candidate
}

/// Moves `docsets` to the first document >= `start` that all of them have and that isn't known to earn a low score, and
/// returns it. Cursor `lead` leads: it is moved alone past what its positions tell to be low.
pub(crate) fn next_above<S: Positioned, C: ColumnThreshold>(
    docsets: &mut Vec<S>,
    lead: usize,
    start: DocId,
    threshold: &C,
) -> DocId
    requires within { lead < length docsets.old.items }
    requires small { start ≤ terminated }
    ensures long { length docsets.new.items ≡ length docsets.old.items }
    ensures same { meeting (map S.entries docsets.new.items)
        ≡ from result (meeting (map S.entries docsets.old.items)) }
    ensures at { result ≡ first (meeting (map S.entries docsets.new.items)) }
    ensures up { start ≤ result }
    ensures leads { result < terminated → result ≤ least (map S.entries docsets.new.items) }
    ensures low { AllByRecursion (λ e. start ≤ e.doc → e.doc < result
        → pos (C.score threshold.now e.doc e.positions) ≤ℤ C.limit threshold.now)
        (meeting (map S.entries docsets.old.items)) }
{
    let mut candidate = lead_above(docsets, lead, start, threshold);
    while candidate < TERMINATED {
        let bound = meet_above(docsets, candidate, threshold);
        if bound == candidate {
            return bound;
        }
        candidate = lead_above(docsets, lead, bound, threshold);
    }
    candidate
}
