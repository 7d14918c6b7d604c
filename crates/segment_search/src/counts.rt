//! Counts over segments.

ghost use Rattle.std.specs.Prelude.{◌<◌, ◌^◌, ◌≡◌, ◌≢◌, ◌⊎◌, IfErr, IfOk, List, None, Some, length};
ghost use Rattle.std.specs.List.{AllZip};
ghost use Rattle.definitions.specs.Alive.{live};
ghost use Rattle.definitions.specs.Analyzers.{Analyzer};
ghost use Rattle.definitions.specs.Refusing.{refusal};
ghost use Rattle.definitions.specs.Scanning as scanning;
ghost use Rattle.definitions.specs.Values.{Document};
ghost use Rattle.definitions.specs.declared.fault.Fault.TheVariants as faults;
ghost use Rattle.query_trees.specs.Queries.{query_of};
ghost use Rattle.segment.specs.Opened.{StandsFor};
ghost use Rattle.segment_search.specs.Flags.{AreFlagged, flagged_each};

use crate::counted_documents::counted_documents;
use common::AliveBitSet;
use definitions::Fault;
use query::accept_query;
use query_trees::AnyQuery;
use schema::Schema;
use segment::Segment;
use settings::Statistics;
use std::alloc::Global;

/// Counts the living documents of the first segments that match `query`. Each of these segments has its set in `alive`.
pub fn count<S: Statistics>(
    alloc: Global,
    schema: &Schema,
    segments: &[Segment],
    alive: &[AliveBitSet],
    statistics: &S,
    query: &AnyQuery,
) -> Result<u64, Fault>
    requires flagged { AreFlagged segments.now alive.now }
    requires few { length alive.now < 2 ^ 32 }
    ensures ok { (analyze : Analyzer) (docs : List (List Document))
        → AllZip (StandsFor schema.now analyze) docs segments.now
        → IfOk result (λ count. count ≡ scanning.scan_count schema.now analyze
        (live (flagged_each docs alive.now)) (query_of query.now)) }
    ensures accepted { IfOk result (λ count.
        refusal schema.now (S.similarity statistics.now).weight (query_of query.now) ≡ None) }
    ensures refused { IfErr result (λ fault. fault ≢ faults.OutOfMemory
        → refusal schema.now (S.similarity statistics.now).weight (query_of query.now) ≡ Some fault) }
    ensures faults { IfErr result (λ fault. (fault ≡ faults.OutOfMemory)
        ⊎ (refusal schema.now (S.similarity statistics.now).weight (query_of query.now) ≡ Some fault)) }
    ensures own { IfErr result (λ fault. fault ≡ faults.OutOfMemory
        → refusal schema.now (S.similarity statistics.now).weight (query_of query.now) ≡ None) }
{
    accept_query(schema, statistics, query)?;
    Ok(counted_documents(alloc, schema, segments, alive, statistics, query)?)
}
