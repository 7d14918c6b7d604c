//! Deletions without those that a later one of the same term repeats.

ghost use Rattle.std.specs.Prelude.{◌<◌, ◌≡◌, Bool, IfOk, drop, length, map, true, ℕ};
ghost use Rattle.std.specs.List.{AllByRecursion, list_any};
ghost use Rattle.std.specs.List.Sorted.{IsPermutation};
ghost use Rattle.index_state.specs.Deletions.{IsSmall, is_repeated, repeats};
ghost use Rattle.index_state.specs.declared.deletions.Deletion.{Deletion};

use crate::deletions::{Deletion, copied};
use std::alloc::{AllocError, Global};

/// Returns a copy of each of `deletions` but those that a later one of the same term repeats, in the order of their
/// terms. So a document is met once by each of its terms, however often that is deleted.
pub(crate) fn last_deletions(
    alloc: Global,
    deletions: &[Deletion],
) -> Result<Vec<Deletion>, AllocError>
    ensures any { (n : ℕ) (test : Deletion → Bool) → AllByRecursion (IsSmall n) deletions.now
        → ((d next : Deletion) → IsSmall n d → repeats d next ≡ true → test d ≡ true → test next ≡ true)
        → IfOk result (λ last. list_any test last.items ≡ list_any test deletions.now) }
    ensures small { (n : ℕ) → AllByRecursion (IsSmall n) deletions.now
        → IfOk result (λ last. AllByRecursion (IsSmall n) last.items) }
{
    let sorted = by_term(alloc, deletions)?;
    let mut last = Vec::new(alloc);
    for at in 0..sorted.len() {
        if !is_repeated(&sorted, at) {
            last.push(copy_of(alloc, sorted[at])?)?;
        }
    }
    Ok(last)
}

/// Returns `deletions` in the order of their terms; those of one term stay in their order.
fn by_term<'a>(alloc: Global, deletions: &'a [Deletion]) -> Result<Vec<&'a Deletion>, AllocError>
    ensures { IfOk result (λ sorted. IsPermutation deletions.now (map (λ d. d.now) sorted.items)) }
{
    let mut sorted = Vec::with_capacity(alloc, deletions.len())?;
    for deletion in deletions {
        sorted.push(deletion)?;
    }
    sorted.sort_by(|a, b| a.term.cmp(&b.term))?;
    Ok(sorted)
}

/// Whether the deletion at index `at` is repeated by the one after it.
fn is_repeated(deletions: &[&Deletion], at: usize) -> bool
    requires { at < length deletions.now }
    ensures { result ≡ is_repeated (drop at (map (λ d. d.now) deletions.now)) }
{
    let deletion = deletions[at];
    at + 1 < deletions.len() && repeats(deletion, deletions[at + 1])
}

/// Whether `next` is of the term of `deletion`, and no earlier.
fn repeats(deletion: &Deletion, next: &Deletion) -> bool
    ensures { result ≡ repeats deletion.now next.now }
{
    deletion.term == next.term
        && (deletion.segments < next.segments
            || deletion.segments == next.segments && deletion.docs <= next.docs)
}

/// Copies a deletion.
fn copy_of(alloc: Global, deletion: &Deletion) -> Result<Deletion, AllocError>
    ensures { IfOk result (λ copy. copy ≡ deletion.now) }
{
    Ok(Deletion {
        term: copied(alloc, &deletion.term)?,
        segments: deletion.segments,
        docs: deletion.docs,
    })
}
