//! Counts of the documents of segments that match a query.

ghost use Rattle.std.specs.Prelude.{◌<◌, ◌^◌, ◌≡◌, IfOk, List, None, length};
ghost use Rattle.std.specs.List.{AllZip};
ghost use Rattle.definitions.specs.Alive.{live};
ghost use Rattle.definitions.specs.Analyzers.{Analyzer};
ghost use Rattle.definitions.specs.Refusing.{tree_fault};
ghost use Rattle.definitions.specs.Scanning.{scan_count};
ghost use Rattle.definitions.specs.Schema.{Schema as Fields};
ghost use Rattle.definitions.specs.Values.{Document};
ghost use Rattle.query_trees.specs.Queries.{query_of};
ghost use Rattle.segment.specs.Opened.{StandsFor};
ghost use Rattle.segment_search.specs.Flags.{AreFlagged, flagged_each};
ghost use Rattle.query_scorers.specs.Accepted.{IsAccepted};

use crate::readers::readers_of;
use common::AliveBitSet;
use query::Query;
use query_trees::AnyQuery;
use schema::Schema;
use segment::Segment;
use segment_reader::Searcher;
use settings::Statistics;
use std::alloc::{AllocError, Global};

/// Counts the living documents of the first segments that match `query`.
pub(crate) fn counted_documents<'a, S: Statistics>(
    alloc: Global,
    schema: &'a Schema,
    segments: &'a [Segment],
    alive: &'a [AliveBitSet],
    statistics: &'a S,
    query: &AnyQuery,
) -> Result<u64, AllocError>
    requires flagged { AreFlagged segments.now alive.now }
    requires few { length alive.now < 2 ^ 32 }
    requires accepted { IsAccepted (S.similarity statistics.now).weight 1 (query_of query.now) }
    ensures { (schema : Fields) (analyze : Analyzer) (docs : List (List Document))
        → AllZip (StandsFor schema analyze) docs segments.now
        → tree_fault schema (S.similarity statistics.now).weight 1 (query_of query.now) ≡ None
        → IfOk result (λ count. count
        ≡ scan_count schema analyze (live (flagged_each docs alive.now)) (query_of query.now)) }
{
    let readers = readers_of(alloc, segments, alive)?;
    let searcher = Searcher::new(schema, statistics, readers);
    query.count(alloc, &searcher)
}
