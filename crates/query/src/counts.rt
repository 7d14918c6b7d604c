//! Counts over segments.

ghost use Rattle.std.specs.Prelude.{◌<◌, ◌^◌, ◌≡◌, IfOk, List, None, length};
ghost use Rattle.std.specs.List.{AllZip};
ghost use Rattle.definitions.specs.Alive.{Segment, live};
ghost use Rattle.definitions.specs.Analyzers.{Analyzer};
ghost use Rattle.definitions.specs.Refusing.{tree_fault};
ghost use Rattle.definitions.specs.Scanning.{scan_count};
ghost use Rattle.definitions.specs.Schema.{Schema};
ghost use Rattle.definitions.specs.Scoring.{Similarity};
ghost use Rattle.scorer_answers.specs.Rows.{HasRows};
ghost use Rattle.weights.specs.AnyForms.{AnyScoresBy, any_query};
ghost use Rattle.weights.specs.Weighing.{IsWeighed};

use reader_scorers::LeafWeights;
use segment_reader::SegmentReader;
use std::alloc::{AllocError, Global};
use weights::{AnyWeight, Weight};

/// Counts the living documents of each of `readers` that match, added up.
pub(crate) fn count_each<'a, W: LeafWeights<'a>>(
    alloc: Global,
    weight: &AnyWeight<'_, W>,
    readers: &[SegmentReader<'a>],
) -> Result<u64, AllocError>
    requires few { length readers.now < 2 ^ 32 }
    requires accepted { IsWeighed (AnyScoresBy W.similarity weight.now) 1 (any_query weight.now) }
    ensures { (schema : Schema) (analyze : Analyzer) (sim : Similarity) (segments : List Segment)
        → AllZip (HasRows schema analyze) segments readers.now
        → AnyScoresBy W.similarity weight.now sim
        → tree_fault schema sim.weight 1 (any_query weight.now) ≡ None
        → IfOk result (λ count. count ≡ scan_count schema analyze (live segments) (any_query weight.now)) }
{
    let mut count = 0;
    for reader in readers {
        count += weight.count(alloc, reader)? as u64;
    }
    Ok(count)
}
