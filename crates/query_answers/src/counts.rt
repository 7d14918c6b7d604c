//! Counts of the living documents of a segment that match.

ghost use Rattle.std.specs.Prelude.{◌≡◌, IfOk, None};
ghost use Rattle.definitions.specs.Alive.{Segment};
ghost use Rattle.definitions.specs.Analyzers.{Analyzer};
ghost use Rattle.definitions.specs.Answers.{living_count};
ghost use Rattle.definitions.specs.Refusing.{tree_fault};
ghost use Rattle.definitions.specs.Schema.{Schema};
ghost use Rattle.query_trees.specs.Queries.{query_of};
ghost use Rattle.scorer_answers.specs.Rows.{HasRows};
ghost use Rattle.query_scorers.specs.Accepted.{IsAccepted};

use query_scorers::{SegmentScorers, scorer_of};
use query_trees::AnyQuery;
use scorer_answers::{count_all, count_term};
use segment_reader::SegmentReader;
use std::alloc::{AllocError, Global};

/// Counts the living documents of the segment that match `query`. All documents, and those that hold a term, are
/// counted without a scorer.
pub fn count<F: SegmentScorers>(
    alloc: Global,
    forms: &F,
    reader: &SegmentReader<'_>,
    query: &AnyQuery,
) -> Result<u32, AllocError>
    requires segment { F.segment forms.now ≡ reader.now }
    requires accepted { IsAccepted (F.similarity forms.now).weight 1 (query_of query.now) }
    ensures { (schema : Schema) (analyze : Analyzer) (rows : Segment)
        → HasRows schema analyze rows reader.now
        → tree_fault schema (F.similarity forms.now).weight 1 (query_of query.now) ≡ None
        → IfOk result (λ count. count ≡ living_count schema analyze (query_of query.now) rows) }
{
    match query {
        AnyQuery::All(_) => Ok(count_all(reader)),
        AnyQuery::Term(query) => Ok(count_term(query.term(), reader)),
        AnyQuery::Empty(_)
        | AnyQuery::Phrase(_)
        | AnyQuery::PhrasePrefix(_)
        | AnyQuery::Boolean(_)
        | AnyQuery::DisjunctionMax(_)
        | AnyQuery::Boost(_)
        | AnyQuery::ConstScore(_) => count_by_scorer(alloc, forms, reader, query),
    }
}

/// Counts the living documents of the segment that match `query`, by its scorer.
fn count_by_scorer<F: SegmentScorers>(
    alloc: Global,
    forms: &F,
    reader: &SegmentReader<'_>,
    query: &AnyQuery,
) -> Result<u32, AllocError>
    requires segment { F.segment forms.now ≡ reader.now }
    requires accepted { IsAccepted (F.similarity forms.now).weight 1 (query_of query.now) }
    ensures { (schema : Schema) (analyze : Analyzer) (rows : Segment)
        → HasRows schema analyze rows reader.now
        → tree_fault schema (F.similarity forms.now).weight 1 (query_of query.now) ≡ None
        → IfOk result (λ count. count ≡ living_count schema analyze (query_of query.now) rows) }
{
    let mut scorer = scorer_of(alloc, forms, query, 1)?;
    Ok(scorer_answers::count(&mut scorer, reader))
}
