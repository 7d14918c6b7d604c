//! Searches over segments.

ghost use Rattle.std.specs.Prelude.{◌<◌, ◌^◌, ◌≡◌, ◌≢◌, ◌⊎◌, IfErr, IfOk, List, None, Some, length, map, min, ℕ};
ghost use Rattle.std.specs.List.{AllZip};
ghost use Rattle.definitions.specs.Alive.{live};
ghost use Rattle.definitions.specs.Analyzers.{Analyzer};
ghost use Rattle.definitions.specs.Query.{term};
ghost use Rattle.definitions.specs.Refusing.{refusal};
ghost use Rattle.definitions.specs.Scanning as scanning;
ghost use Rattle.definitions.specs.Schema.{IndexRecordOption as Asked};
ghost use Rattle.definitions.specs.Values.{Document};
ghost use Rattle.definitions.specs.declared.fault.Fault.TheVariants as faults;
ghost use Rattle.query_trees.specs.Queries.{query_of};
ghost use Rattle.segment.specs.Opened.{StandsFor};
ghost use Rattle.segment_search.specs.Answered.{AreHits};
ghost use Rattle.segment_search.specs.Counted.{IsTermQuery, blocks_decoded, greatest_count, nothing_kept};
ghost use Rattle.segment_search.specs.Flags.{AreFlagged, flagged_each};
ghost use Rattle.segment_search.specs.Hits.{KeepsSegments, scored, shown_hit};

use crate::hits::{StoredHit, read_hits};
use crate::planned_documents::best_planned;
use common::AliveBitSet;
use definitions::Fault;
use query::accept_query;
use query_trees::AnyQuery;
use schema::Schema;
use segment::Segment;
use settings::Statistics;
use std::alloc::Global;

/// Returns the best `limit` living documents of the first segments that match `query`: by score, and then by segment
/// and document id; and how many blocks of postings were decoded for them if the query is one term, and else 0. Each of
/// these segments has its set in `alive`. The caches of their stores keep the blocks that are read.
pub fn search_counted<S: Statistics>(
    alloc: Global,
    schema: &Schema,
    segments: &mut [Segment],
    alive: &[AliveBitSet],
    statistics: &S,
    query: &AnyQuery,
    limit: usize,
) -> Result<(Vec<StoredHit>, u64), Fault>
    requires flagged { AreFlagged segments.old alive.now }
    requires few { length alive.now < 2 ^ 32 }
    ensures ok { (analyze : Analyzer) (docs : List (List Document))
        → AllZip (StandsFor schema.now analyze) docs segments.old
        → IfOk result (λ found. map (shown_hit schema.now) found.0.items ≡ map scored (scanning.scan schema.now
        analyze (S.similarity statistics.now) (live (flagged_each docs alive.now)) (query_of query.now) limit)) }
    ensures answered { IfOk result (λ found.
        AreHits schema.now segments.old alive.now limit (map (shown_hit schema.now) found.0.items)) }
    ensures accepted { IfOk result (λ found.
        refusal schema.now (S.similarity statistics.now).weight (query_of query.now) ≡ None) }
    ensures counted { (analyze : Analyzer) (docs : List (List Document)) (t : List ℕ) (option : Asked)
        → AllZip (StandsFor schema.now analyze) docs segments.old
        → query_of query.now ≡ term t option
        → IfOk result (λ found. found.1 ≡ min greatest_count (blocks_decoded schema.now analyze
        (S.similarity statistics.now) t option (nothing_kept limit) 0 (flagged_each docs alive.now))) }
    ensures uncounted { (¬ IsTermQuery (query_of query.now)) → IfOk result (λ found. found.1 ≡ 0) }
    ensures refused { (analyze : Analyzer) (docs : List (List Document))
        → AllZip (StandsFor schema.now analyze) docs segments.old
        → IfErr result (λ fault. fault ≢ faults.OutOfMemory
        → refusal schema.now (S.similarity statistics.now).weight (query_of query.now) ≡ Some fault) }
    ensures faults { IfErr result (λ fault. (fault ≡ faults.OutOfMemory) ⊎ (fault ≡ faults.Damaged None)
        ⊎ (refusal schema.now (S.similarity statistics.now).weight (query_of query.now) ≡ Some fault)) }
    ensures own { IfErr result (λ fault. fault ≡ faults.OutOfMemory
        → refusal schema.now (S.similarity statistics.now).weight (query_of query.now) ≡ None) }
    ensures flagged { AreFlagged segments.new alive.now }
    ensures kept { KeepsSegments segments.old segments.new }
{
    accept_query(schema, statistics, query)?;
    let (best, decoded_blocks) = best_planned(
        alloc, &*schema, segments, alive, statistics, query, limit,
    )?;
    let hits = read_hits(alloc, schema, segments, &best)?;
    Ok((hits, decoded_blocks))
}
