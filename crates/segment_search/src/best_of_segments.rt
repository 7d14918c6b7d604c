//! The best documents of segments, which are fed one after the other.

ghost use Rattle.std.specs.Prelude.{◌++◌, ◌<◌, ◌^◌, ◌≡◌, Bool, IfOk, List, None, OnOk, Some, length, map, min, slice_get, ℕ};
ghost use Rattle.std.specs.List.{AllByRecursion, AllZip};
ghost use Rattle.best_k.specs.Contents.{best_in};
ghost use Rattle.best_k.specs.Kept as kept;
ghost use Rattle.definitions.specs.Alive.{Segment as Rows};
ghost use Rattle.definitions.specs.Analyzers.{Analyzer};
ghost use Rattle.definitions.specs.Answers.{answers};
ghost use Rattle.definitions.specs.Merging.{documents_in};
ghost use Rattle.definitions.specs.Query.{term};
ghost use Rattle.definitions.specs.Refusing.{tree_fault};
ghost use Rattle.definitions.specs.Schema.{IndexRecordOption as Asked, Schema as Fields};
ghost use Rattle.definitions.specs.Scoring.{Similarity};
ghost use Rattle.definitions.specs.Sinks.{fed};
ghost use Rattle.definitions.specs.TermBlocks.{scored_blocks};
ghost use Rattle.scorer_answers.specs.Rows.{HasRows, flags_in};
ghost use Rattle.segment_definitions.specs.Found.{places_from, places_in};
ghost use Rattle.segment_search.specs.Answered.{AreBest, IsBestWithMore};
ghost use Rattle.segment_search.specs.Best.{IsFound, address_of, best_addresses};
ghost use Rattle.segment_search.specs.Counted.{IsTermQuery, blocks_decoded, greatest_count, nothing_kept};
ghost use Rattle.segment_search.specs.CountedWeights.{CountedScoresBy, CountsTerms, counted_query};
ghost use Rattle.leaf_weights.specs.DecodedBlocks.{decoded_for};
ghost use Rattle.weights.specs.Weighing.{IsWeighed};

use crate::best_documents::Found;
use crate::counted_weight::CountedWeight;
use best_k::BestK;
use common::AliveBitSet;
use reader_scorers::LeafWeights;
use segment_reader::SegmentReader;
use std::alloc::{AllocError, Global};
use walks::Sink;

/// Returns the best `limit` documents of `readers` that match the query of `weight` and are alive by the sets at the same
/// indices.
pub(crate) fn best_of_each<'a, W: LeafWeights<'a>>(
    alloc: Global,
    readers: &[SegmentReader<'a>],
    alive: &[AliveBitSet],
    weight: &CountedWeight<'_, 'a, W>,
    limit: usize,
) -> Result<Found, AllocError>
    requires flags { map flags_in readers.now ≡ alive.now }
    requires few { length alive.now < 2 ^ 32 }
    requires accepted { IsWeighed (CountedScoresBy W.similarity weight.now) 1 (counted_query weight.now) }
    requires counts { CountsTerms weight.now }
    ensures best { (schema : Fields) (analyze : Analyzer) (sim : Similarity) (rows : List Rows)
        → AllZip (HasRows schema analyze) rows readers.now
        → CountedScoresBy W.similarity weight.now sim
        → tree_fault schema sim.weight 1 (counted_query weight.now) ≡ None
        → IfOk result (λ found. map address_of found.0.items ≡ best_addresses limit
        (places_from schema analyze sim (counted_query weight.now) 0 rows)) }
    ensures found { IfOk result (λ found. AllByRecursion (IsFound alive.now) found.0.items) }
    ensures any { IfOk result (λ found. AreBest alive.now limit found.0.items) }
    ensures counted { (schema : Fields) (analyze : Analyzer) (sim : Similarity) (rows : List Rows)
        (t : List ℕ) (option : Asked)
        → AllZip (HasRows schema analyze) rows readers.now
        → CountedScoresBy W.similarity weight.now sim
        → tree_fault schema sim.weight 1 (counted_query weight.now) ≡ None
        → counted_query weight.now ≡ term t option
        → IfOk result (λ found. found.1 ≡ min greatest_count (blocks_decoded schema analyze sim t option
        (nothing_kept limit) 0 rows)) }
    ensures uncounted { (¬ IsTermQuery (counted_query weight.now)) → IfOk result (λ found. found.1 ≡ 0) }
{
    let mut best = BestK::new(alloc, limit);
    let mut decoded_blocks: u64 = 0;
    for (segment_ord, reader) in readers.iter().enumerate() {
        best.enter(segment_ord as u32, &alive[segment_ord]);
        let blocks = feed_segment(alloc, reader, weight, &mut best)?;
        decoded_blocks = decoded_blocks.saturating_add(blocks);
    }
    Ok((best.into_hits(), decoded_blocks))
}

/// Feeds the documents of `reader` that match the query of `weight` to `best`, which has entered this segment. Returns
/// how many blocks of postings were decoded if the query is one term, and else 0.
fn feed_segment<'a, W: LeafWeights<'a>>(
    alloc: Global,
    reader: &SegmentReader<'a>,
    weight: &CountedWeight<'_, 'a, W>,
    best: &mut BestK<'_>,
) -> Result<u64, AllocError>
    requires accepted { IsWeighed (CountedScoresBy W.similarity weight.now) 1 (counted_query weight.now) }
    requires counts { CountsTerms weight.now }
    requires alive { (best_in best.old).alive ≡ flags_in reader.now }
    ensures best { (schema : Fields) (analyze : Analyzer) (sim : Similarity) (rows : Rows)
        → HasRows schema analyze rows reader.now
        → CountedScoresBy W.similarity weight.now sim
        → tree_fault schema sim.weight 1 (counted_query weight.now) ≡ None
        → OnOk result (map address_of (best_in best.new).hits ≡ best_addresses (best_in best.old).wanted
        (map address_of (best_in best.old).hits ++ places_in schema analyze sim
        (counted_query weight.now) (best_in best.old).segment rows)) }
    ensures fed { (schema : Fields) (analyze : Analyzer) (sim : Similarity) (rows : Rows)
        → HasRows schema analyze rows reader.now
        → CountedScoresBy W.similarity weight.now sim
        → tree_fault schema sim.weight 1 (counted_query weight.now) ≡ None
        → OnOk result (best_in best.new ≡ fed kept.limit kept.taken (best_in best.old)
        (answers schema analyze sim 1 (counted_query weight.now) (documents_in rows))) }
    ensures found { (sets : List (List Bool))
        → slice_get sets (best_in best.old).segment ≡ Some (best_in best.old).alive
        → AllByRecursion (IsFound sets) (best_in best.old).hits
        → OnOk result (AllByRecursion (IsFound sets) (best_in best.new).hits) }
    ensures any { OnOk result (IsBestWithMore (best_in best.old) (best_in best.new)) }
    ensures wanted { OnOk result ((best_in best.new).wanted ≡ (best_in best.old).wanted) }
    ensures counted { (schema : Fields) (analyze : Analyzer) (sim : Similarity) (rows : Rows)
        (t : List ℕ) (option : Asked)
        → HasRows schema analyze rows reader.now
        → CountedScoresBy W.similarity weight.now sim
        → counted_query weight.now ≡ term t option
        → IfOk result (λ blocks. blocks ≡ decoded_for kept.limit kept.taken (best_in best.old)
        (answers schema analyze sim 1 (counted_query weight.now) (documents_in rows))
        (scored_blocks schema analyze sim 1 t option (documents_in rows))) }
    ensures uncounted { (¬ IsTermQuery (counted_query weight.now)) → IfOk result (λ blocks. blocks ≡ 0) }
{
    best.reserve(reader.max_doc() as usize)?;
    let threshold = best.threshold();
    weight.for_each_pruning_counted(alloc, threshold, reader, best)
}
