//! Deletions by term: their checks, those that are pending, and their effect on alive sets.

ghost use Rattle.std.specs.Prelude.{[], ◌*◌, ◌∷◌, ◌≡◌, ◌≤◌, IfOk, List, length, map, ℕ};
ghost use Rattle.std.specs.List.{AllByRecursion};
ghost use Rattle.std.specs.Result.{result_err};
ghost use Rattle.definitions.specs.Analyzers.{Analyzer};
ghost use Rattle.definitions.specs.Calls.{delete_fault};
ghost use Rattle.definitions.specs.Recorded.{holds};
ghost use Rattle.definitions.specs.Schema.{Schema};
ghost use Rattle.definitions.specs.Values.{Document};
ghost use Rattle.segment.specs.Opened.{StandsFor, num_docs_of};
ghost use Rattle.index_state.specs.Deletions.{IsSmall, numbered, term_of};
ghost use Rattle.segment_definitions.specs.Rows.{flagged, left_rows};
ghost use Rattle.segment_definitions.specs.Waiting.{struck_from};

use common::AliveBitSet;
use definitions::Fault;
use schema::Schema;
use segment::{Segment, delete_before, delete_in};
use std::alloc::{AllocError, Global};
use terms::Term;

/// A deletion of the documents with a term that were added before it: those of the first `segments` full pending
/// segments, and the first `docs` of the segment after them.
#[derive(Drop)]
pub(crate) struct Deletion {
    pub(crate) term: Term,
    pub(crate) segments: usize,
    pub(crate) docs: usize,
}

/// Copies `term` into memory of its own.
pub(crate) fn copied(alloc: Global, term: &Term) -> Result<Term, AllocError>
    ensures { IfOk result (λ copy. copy ≡ term.now) }
{
    let _type = term.typ();
    let bytes = term.serialized_term().to_vec(alloc)?;
    Ok(Term::wrap(bytes).ok().unwrap())
}

/// Checks that documents can be deleted by `term`: the schema has its field, and that is indexed.
pub(crate) fn check_deletion(schema: &Schema, term: &Term) -> Result<(), Fault>
    ensures { result_err result ≡ delete_fault schema.now term.now }
{
    if term.field().field_id() as usize >= schema.num_fields() {
        return Err(Fault::UnknownField);
    }
    if !schema.get_field_entry(term.field()).is_indexed() {
        return Err(Fault::NotIndexed);
    }
    Ok(())
}

/// Applies every deletion to the alive set of a committed segment.
pub(crate) fn delete_all(segment: &Segment, deletions: &[Deletion], alive: &mut AliveBitSet)
    requires flagged { length alive.old ≡ num_docs_of segment.now }
    ensures long { length alive.new ≡ length alive.old }
    ensures dead { (schema : Schema) (analyze : Analyzer) (docs : List Document)
        → StandsFor schema analyze docs segment.now
        → flagged docs alive.new
        ≡ left_rows (holds schema analyze) (map term_of deletions.now) (flagged docs alive.old) }
{
    for deletion in deletions {
        delete_in(segment, &deletion.term, alive);
    }
}

/// Applies every deletion to the alive set of the pending segment of index `number`.
pub(crate) fn delete_pending(
    segment: &Segment,
    number: usize,
    deletions: &[Deletion],
    alive: &mut AliveBitSet,
)
    requires flagged { length alive.old ≡ num_docs_of segment.now }
    ensures long { length alive.new ≡ length alive.old }
    ensures dead { (schema : Schema) (analyze : Analyzer) (n : ℕ) (docs : List Document)
        → StandsFor schema analyze docs segment.now → length docs ≤ n → AllByRecursion (IsSmall n) deletions.now
        → flagged docs alive.new
        ≡ struck_from (holds schema analyze) (map (numbered n) deletions.now) (n * number) (flagged docs alive.old) }
{
    for deletion in deletions {
        delete_one(segment, number, deletion, alive);
    }
}

/// Applies a deletion to pending segment `number`: all of it if made during a later segment, none if during an earlier.
fn delete_one(segment: &Segment, number: usize, deletion: &Deletion, alive: &mut AliveBitSet)
    requires flagged { length alive.old ≡ num_docs_of segment.now }
    ensures long { length alive.new ≡ length alive.old }
    ensures dead { (schema : Schema) (analyze : Analyzer) (n : ℕ) (docs : List Document)
        → StandsFor schema analyze docs segment.now → length docs ≤ n → IsSmall n deletion.now
        → flagged docs alive.new
        ≡ struck_from (holds schema analyze) (numbered n deletion.now ∷ []) (n * number) (flagged docs alive.old) }
{
    if deletion.segments > number {
        delete_in(segment, &deletion.term, alive);
        return;
    }
    if deletion.segments < number {
        return;
    }
    delete_before(segment, &deletion.term, deletion.docs, alive);
}
