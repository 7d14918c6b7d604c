//! The alive sets after a commit.

ghost use Rattle.std.specs.Prelude.{[], ◌*◌, ◌++◌, ◌≡◌, ◌≤◌, IfOk, List, OnOk, drop, length, map, ℕ};
ghost use Rattle.std.specs.List.{AllByRecursion, AllZip};
ghost use Rattle.definitions.specs.Analyzers.{Analyzer};
ghost use Rattle.definitions.specs.Recorded.{holds};
ghost use Rattle.definitions.specs.Schema.{Schema};
ghost use Rattle.definitions.specs.Values.{Document};
ghost use Rattle.segment.specs.Opened.{StandsFor, num_docs_of};
ghost use Rattle.index_state.specs.Deletions.{IsSmall, numbered, term_of};
ghost use Rattle.index_state.specs.Flags.{AreFlagged, flagged_each};
ghost use Rattle.segment_definitions.specs.Rows.{flagged, left_rows};
ghost use Rattle.segment_definitions.specs.Waiting.{numbered_rows, pending_rows};

use crate::deletions::{Deletion, delete_all, delete_pending};
use crate::last_deletions::last_deletions;
use common::AliveBitSet;
use segment::Segment;
use std::alloc::{AllocError, Global};

/// Returns the alive sets of all `segments` after a commit: of the committed ones after all deletions, and of the
/// pending ones after the deletions that follow their documents.
pub(crate) fn next_sets(
    alloc: Global,
    segments: &[Segment],
    alive: &[AliveBitSet],
    deletions: &[Deletion],
) -> Result<Vec<AliveBitSet>, AllocError>
    requires flagged { AreFlagged segments.now alive.now }
    ensures flagged { IfOk result (λ sets. AreFlagged segments.now sets.items) }
    ensures each { IfOk result (λ sets. length sets.items ≡ length segments.now) }
    ensures rows { (schema : Schema) (analyze : Analyzer) (n : ℕ) (docs : List (List Document))
        → AllZip (StandsFor schema analyze) docs segments.now
        → AllByRecursion (λ ds. length ds ≤ n) (drop (length alive.now) docs)
        → AllByRecursion (IsSmall n) deletions.now
        → IfOk result (λ sets. flagged_each docs sets.items
        ≡ map (left_rows (holds schema analyze) (map term_of deletions.now)) (flagged_each docs alive.now)
        ++ pending_rows (holds schema analyze) (map (numbered n) deletions.now) n 0 (drop (length alive.now) docs)) }
{
    let owned = last_deletions(alloc, deletions)?;
    let last = owned.as_slice();
    let mut sets = Vec::new(alloc);
    push_left(alloc, segments, alive, last, &mut sets)?;
    push_new(alloc, segments, alive.len(), last, &mut sets)?;
    Ok(sets)
}

/// Appends the alive sets of the committed segments after all deletions.
fn push_left(
    alloc: Global,
    segments: &[Segment],
    alive: &[AliveBitSet],
    deletions: &[Deletion],
    sets: &mut Vec<AliveBitSet>,
) -> Result<(), AllocError>
    requires flagged { AreFlagged segments.now alive.now }
    requires within { length alive.now ≤ length segments.now }
    requires none { sets.old.items ≡ [] }
    ensures flagged { OnOk result (AreFlagged segments.now sets.new.items) }
    ensures each { OnOk result (length sets.new.items ≡ length alive.now) }
    ensures rows { (schema : Schema) (analyze : Analyzer) (docs : List (List Document))
        → AllZip (StandsFor schema analyze) docs segments.now
        → OnOk result (flagged_each docs sets.new.items
        ≡ map (left_rows (holds schema analyze) (map term_of deletions.now)) (flagged_each docs alive.now)) }
{
    for number in 0..alive.len() {
        let set = left_set(alloc, &segments[number], &alive[number], deletions)?;
        sets.push(set)?;
    }
    Ok(())
}

/// Appends the alive sets of the pending segments, after those of the committed ones.
fn push_new(
    alloc: Global,
    segments: &[Segment],
    num_committed: usize,
    deletions: &[Deletion],
    sets: &mut Vec<AliveBitSet>,
) -> Result<(), AllocError>
    requires flagged { AreFlagged segments.now sets.old.items }
    requires each { length sets.old.items ≡ num_committed }
    ensures flagged { OnOk result (AreFlagged segments.now sets.new.items) }
    ensures each { OnOk result (length sets.new.items ≡ length segments.now) }
    ensures rows { (schema : Schema) (analyze : Analyzer) (n : ℕ) (docs : List (List Document))
        → AllZip (StandsFor schema analyze) docs segments.now
        → AllByRecursion (λ ds. length ds ≤ n) (drop num_committed docs)
        → AllByRecursion (IsSmall n) deletions.now
        → OnOk result (flagged_each docs sets.new.items ≡ flagged_each docs sets.old.items
        ++ pending_rows (holds schema analyze) (map (numbered n) deletions.now) n 0 (drop num_committed docs)) }
{
    for at in num_committed..segments.len() {
        let set = new_set(alloc, &segments[at], at - num_committed, deletions)?;
        sets.push(set)?;
    }
    Ok(())
}

/// Returns the alive set of a committed segment after all deletions.
fn left_set(
    alloc: Global,
    segment: &Segment,
    alive: &AliveBitSet,
    deletions: &[Deletion],
) -> Result<AliveBitSet, AllocError>
    requires flagged { length alive.now ≡ num_docs_of segment.now }
    ensures flagged { IfOk result (λ set. length set ≡ num_docs_of segment.now) }
    ensures rows { (schema : Schema) (analyze : Analyzer) (docs : List Document)
        → StandsFor schema analyze docs segment.now
        → IfOk result (λ set. flagged docs set
        ≡ left_rows (holds schema analyze) (map term_of deletions.now) (flagged docs alive.now)) }
{
    let mut set = alive.try_clone(alloc)?;
    delete_all(segment, deletions, &mut set);
    Ok(set)
}

/// Returns the alive set of the pending segment of index `number`, after the deletions that follow its documents.
fn new_set(
    alloc: Global,
    segment: &Segment,
    number: usize,
    deletions: &[Deletion],
) -> Result<AliveBitSet, AllocError>
    ensures flagged { IfOk result (λ set. length set ≡ num_docs_of segment.now) }
    ensures rows { (schema : Schema) (analyze : Analyzer) (n : ℕ) (docs : List Document)
        → StandsFor schema analyze docs segment.now → length docs ≤ n → AllByRecursion (IsSmall n) deletions.now
        → IfOk result (λ set. flagged docs set
        ≡ numbered_rows (holds schema analyze) (map (numbered n) deletions.now) (n * number) docs) }
{
    let mut set = AliveBitSet::for_max_doc(alloc, segment.num_docs())?;
    delete_pending(segment, number, deletions, &mut set);
    Ok(set)
}
