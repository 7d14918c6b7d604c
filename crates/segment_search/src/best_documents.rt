//! The best documents of segments that match a query.

ghost use Rattle.std.specs.Prelude.{◌<◌, ◌^◌, ◌≡◌, IfOk, List, None, length, map, min, ℕ};
ghost use Rattle.std.specs.List.{AllByRecursion, AllZip};
ghost use Rattle.definitions.specs.Alive.{Segment as Rows};
ghost use Rattle.definitions.specs.Analyzers.{Analyzer};
ghost use Rattle.definitions.specs.Query.{term};
ghost use Rattle.definitions.specs.Refusing.{tree_fault};
ghost use Rattle.definitions.specs.Schema.{IndexRecordOption as Asked, Schema as Fields};
ghost use Rattle.definitions.specs.Values.{Document};
ghost use Rattle.query_trees.specs.Queries.{query_of};
ghost use Rattle.scorer_answers.specs.Rows.{HasRows, flags_in};
ghost use Rattle.segment.specs.Opened.{StandsFor};
ghost use Rattle.segment_definitions.specs.Found.{places_from};
ghost use Rattle.segment_reader.specs.Searchers.{readers_in, statistics_of};
ghost use Rattle.segment_search.specs.Answered.{AreBest};
ghost use Rattle.segment_search.specs.Best.{IsFound, address_of, best_addresses};
ghost use Rattle.segment_search.specs.Counted.{IsTermQuery, blocks_decoded, greatest_count, nothing_kept};
ghost use Rattle.segment_search.specs.Flags.{AreFlagged, flagged_each};
ghost use Rattle.query_scorers.specs.Accepted.{IsAccepted};

use crate::best_of_segments::best_of_each;
use crate::counted_weight::weigh_query;
use crate::readers::readers_of;
use common::{AliveBitSet, DocId};
use query_trees::AnyQuery;
use schema::Schema;
use segment::Segment;
use segment_reader::{EnableScoring, Searcher};
use settings::Statistics;
use std::alloc::{AllocError, Global};

/// The documents that were found, each with its score, its segment's index and its document id, and how many blocks of
/// postings were decoded for them, if the query is one term.
pub(crate) type Found = (Vec<(u64, u32, DocId)>, u64);

/// Returns the best `limit` living documents of the first segments that match `query`: by score, and then by segment
/// and document id.
pub(crate) fn best_documents<'a, S: Statistics>(
    alloc: Global,
    schema: &'a Schema,
    segments: &'a [Segment],
    alive: &'a [AliveBitSet],
    statistics: &'a S,
    query: &AnyQuery,
    limit: usize,
) -> Result<Found, AllocError>
    requires flagged { AreFlagged segments.now alive.now }
    requires few { length alive.now < 2 ^ 32 }
    requires accepted { IsAccepted (S.similarity statistics.now).weight 1 (query_of query.now) }
    ensures best { (schema : Fields) (analyze : Analyzer) (docs : List (List Document))
        → AllZip (StandsFor schema analyze) docs segments.now
        → tree_fault schema (S.similarity statistics.now).weight 1 (query_of query.now) ≡ None
        → IfOk result (λ found. map address_of found.0.items ≡ best_addresses limit
        (places_from schema analyze (S.similarity statistics.now) (query_of query.now) 0
        (flagged_each docs alive.now))) }
    ensures found { IfOk result (λ found. AllByRecursion (IsFound alive.now) found.0.items) }
    ensures any { IfOk result (λ found. AreBest alive.now limit found.0.items) }
    ensures counted { (schema : Fields) (analyze : Analyzer) (docs : List (List Document)) (t : List ℕ) (option : Asked)
        → AllZip (StandsFor schema analyze) docs segments.now
        → tree_fault schema (S.similarity statistics.now).weight 1 (query_of query.now) ≡ None
        → query_of query.now ≡ term t option
        → IfOk result (λ found. found.1 ≡ min greatest_count (blocks_decoded schema analyze
        (S.similarity statistics.now) t option (nothing_kept limit) 0 (flagged_each docs alive.now))) }
    ensures uncounted { (¬ IsTermQuery (query_of query.now)) → IfOk result (λ found. found.1 ≡ 0) }
{
    let readers = readers_of(alloc, segments, alive)?;
    let searcher = Searcher::new(schema, statistics, readers);
    best_searched(alloc, &searcher, alive, query, limit)
}

/// Returns the best `limit` documents of `searcher` that match `query` and are alive by the sets at the same indices.
fn best_searched<'a, S: Statistics>(
    alloc: Global,
    searcher: &'a Searcher<'a, S>,
    alive: &[AliveBitSet],
    query: &'a AnyQuery,
    limit: usize,
) -> Result<Found, AllocError>
    requires flags { map flags_in (readers_in searcher.now) ≡ alive.now }
    requires few { length alive.now < 2 ^ 32 }
    requires accepted { IsAccepted (S.similarity (statistics_of searcher.now)).weight 1 (query_of query.now) }
    ensures best { (schema : Fields) (analyze : Analyzer) (rows : List Rows)
        → AllZip (HasRows schema analyze) rows (readers_in searcher.now)
        → tree_fault schema (S.similarity (statistics_of searcher.now)).weight 1 (query_of query.now) ≡ None
        → IfOk result (λ found. map address_of found.0.items ≡ best_addresses limit
        (places_from schema analyze (S.similarity (statistics_of searcher.now)) (query_of query.now) 0 rows)) }
    ensures found { IfOk result (λ found. AllByRecursion (IsFound alive.now) found.0.items) }
    ensures any { IfOk result (λ found. AreBest alive.now limit found.0.items) }
    ensures counted { (schema : Fields) (analyze : Analyzer) (rows : List Rows) (t : List ℕ) (option : Asked)
        → AllZip (HasRows schema analyze) rows (readers_in searcher.now)
        → tree_fault schema (S.similarity (statistics_of searcher.now)).weight 1 (query_of query.now) ≡ None
        → query_of query.now ≡ term t option
        → IfOk result (λ found. found.1 ≡ min greatest_count (blocks_decoded schema analyze
        (S.similarity (statistics_of searcher.now)) t option (nothing_kept limit) 0 rows)) }
    ensures uncounted { (¬ IsTermQuery (query_of query.now)) → IfOk result (λ found. found.1 ≡ 0) }
{
    let weight = weigh_query(query, EnableScoring::enabled_from_searcher(searcher));
    best_of_each(alloc, searcher.segment_readers(), alive, &weight, limit)
}
