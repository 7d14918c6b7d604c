//! The best documents of segments, found by a plan of their query.

ghost use Rattle.std.specs.Prelude.{◌<◌, ◌^◌, ◌≡◌, IfOk, List, None, false, length, map, min, ℕ};
ghost use Rattle.std.specs.List.{AllByRecursion, AllZip};
ghost use Rattle.definitions.specs.Analyzers.{Analyzer};
ghost use Rattle.definitions.specs.Query.{term};
ghost use Rattle.definitions.specs.Refusing.{tree_fault};
ghost use Rattle.definitions.specs.Schema.{IndexRecordOption as Asked};
ghost use Rattle.definitions.specs.Values.{Document};
ghost use Rattle.query_scorers.specs.Accepted.{IsAccepted};
ghost use Rattle.query_trees.specs.Queries.{query_of};
ghost use Rattle.segment.specs.Opened.{StandsFor};
ghost use Rattle.segment_definitions.specs.Found.{places_from};
ghost use Rattle.segment_search.specs.Answered.{AreBest};
ghost use Rattle.segment_search.specs.Best.{IsFound, address_of, best_addresses};
ghost use Rattle.segment_search.specs.Counted.{IsTermQuery, blocks_decoded, greatest_count, nothing_kept};
ghost use Rattle.segment_search.specs.Flags.{AreFlagged, flagged_each};

use crate::best_documents::{Found, best_documents};
use common::AliveBitSet;
use query::accept_query;
use query_plans::plan;
use query_trees::AnyQuery;
use schema::Schema;
use segment::Segment;
use settings::Statistics;
use std::alloc::{AllocError, Global};

/// Returns the best documents as `best_documents` does, by a plan of `query`; a leaf, or a query whose plan would be
/// refused, is asked as it is.
pub(crate) fn best_planned<'a, S: Statistics>(
    alloc: Global,
    schema: &'a Schema,
    segments: &'a [Segment],
    alive: &'a [AliveBitSet],
    statistics: &'a S,
    query: &AnyQuery,
    limit: usize,
) -> Result<Found, AllocError>
    requires flagged { AreFlagged segments.now alive.now }
    requires few { length alive.now < 2 ^ 32 }
    requires accepted { IsAccepted (S.similarity statistics.now).weight 1 (query_of query.now) }
    requires passed { tree_fault schema.now (S.similarity statistics.now).weight 1 (query_of query.now) ≡ None }
    ensures best { (analyze : Analyzer) (docs : List (List Document))
        → AllZip (StandsFor schema.now analyze) docs segments.now
        → IfOk result (λ found. map address_of found.0.items ≡ best_addresses limit
        (places_from schema.now analyze (S.similarity statistics.now) (query_of query.now) 0
        (flagged_each docs alive.now))) }
    ensures found { IfOk result (λ found. AllByRecursion (IsFound alive.now) found.0.items) }
    ensures any { IfOk result (λ found. AreBest alive.now limit found.0.items) }
    ensures counted { (analyze : Analyzer) (docs : List (List Document)) (t : List ℕ) (option : Asked)
        → AllZip (StandsFor schema.now analyze) docs segments.now
        → query_of query.now ≡ term t option
        → IfOk result (λ found. found.1 ≡ min greatest_count (blocks_decoded schema.now analyze
        (S.similarity statistics.now) t option (nothing_kept limit) 0 (flagged_each docs alive.now))) }
    ensures uncounted { (¬ IsTermQuery (query_of query.now)) → IfOk result (λ found. found.1 ≡ 0) }
{
    if is_leaf(query) {
        return best_documents(alloc, schema, segments, alive, statistics, query, limit);
    }
    let plan = plan(alloc, query)?;
    match accept_query(schema, statistics, &plan) {
        Ok(()) => {
            let (found, _decoded_blocks) = best_documents(
                alloc, schema, segments, alive, statistics, &plan, limit,
            )?;
            Ok((found, 0))
        }
        Err(_) => best_documents(alloc, schema, segments, alive, statistics, query, limit),
    }
}

/// Whether a query holds no other.
fn is_leaf(query: &AnyQuery) -> bool
    ensures { result ≡ false → ¬ IsTermQuery (query_of query.now) }
{
    match query {
        AnyQuery::All(_)
        | AnyQuery::Empty(_)
        | AnyQuery::Term(_)
        | AnyQuery::Phrase(_)
        | AnyQuery::PhrasePrefix(_) => true,
        AnyQuery::Boolean(_)
        | AnyQuery::DisjunctionMax(_)
        | AnyQuery::Boost(_)
        | AnyQuery::ConstScore(_) => false,
    }
}
