//! Documents that were found, as their segments store them.

ghost use Rattle.std.specs.Prelude.{◌≡◌, ◌⊎◌, IfErr, IfOk, List, None, map};
ghost use Rattle.std.specs.List.{AllByRecursion, AllZip};
ghost use Rattle.definitions.specs.Analyzers.{Analyzer};
ghost use Rattle.definitions.specs.Values.{Document};
ghost use Rattle.definitions.specs.declared.fault.Fault.TheVariants as faults;
ghost use Rattle.segment.specs.Opened.{StandsFor};
ghost use Rattle.segment_search.specs.Answered.{Shows};
ghost use Rattle.segment_search.specs.Hits.{IsHeld, IsWithin, KeepsSegments, shown_hit, shown_of};

use common::{DocId, Score};
use definitions::Fault;
use document::CompactDoc;
use schema::Schema;
use segment::Segment;
use std::alloc::Global;

/// A document that was found, with what its segment stores of it.
#[derive(Drop)]
pub struct StoredHit {
    /// How well it matches.
    pub score: Score,
    /// The values that are stored, by their fields' ids.
    pub doc: CompactDoc,
}

/// Reads the hits of the documents `best`, each with its score, its segment's index and its document id. The caches of
/// the segments' stores keep the blocks that are read.
pub(crate) fn read_hits(
    alloc: Global,
    schema: &Schema,
    segments: &mut [Segment],
    best: &[(u64, u32, DocId)],
) -> Result<Vec<StoredHit>, Fault>
    requires held { AllByRecursion (IsHeld segments.old) best.now }
    ensures hits { (analyze : Analyzer) (docs : List (List Document))
        → AllZip (StandsFor schema.now analyze) docs segments.old
        → IfOk result (λ hits. map (shown_hit schema.now) hits.items ≡ map (shown_of schema.now docs) best.now) }
    ensures shown { IfOk result (λ hits.
        AllZip (Shows schema.now segments.old) best.now (map (shown_hit schema.now) hits.items)) }
    ensures fault { (analyze : Analyzer) (docs : List (List Document))
        → AllZip (StandsFor schema.now analyze) docs segments.old
        → AllByRecursion (IsWithin docs) best.now
        → IfErr result (λ fault. fault ≡ faults.OutOfMemory) }
    ensures faults { IfErr result (λ fault. (fault ≡ faults.OutOfMemory) ⊎ (fault ≡ faults.Damaged None)) }
    ensures kept { KeepsSegments segments.old segments.new }
{
    let mut hits = Vec::with_capacity(alloc, best.len())?;
    for found in best {
        hits.push(read_hit(schema, segments, *found)?)?;
    }
    Ok(hits)
}

/// Reads the hit of the document `found`: its score, its segment's index and its document id. The cache of its segment's
/// store keeps the block that is read.
fn read_hit(
    schema: &Schema,
    segments: &mut [Segment],
    found: (u64, u32, DocId),
) -> Result<StoredHit, Fault>
    requires held { IsHeld segments.old found }
    ensures hit { (analyze : Analyzer) (docs : List (List Document))
        → AllZip (StandsFor schema.now analyze) docs segments.old
        → IfOk result (λ hit. shown_hit schema.now hit ≡ shown_of schema.now docs found) }
    ensures shown { IfOk result (λ hit. Shows schema.now segments.old found (shown_hit schema.now hit)) }
    ensures fault { (analyze : Analyzer) (docs : List (List Document))
        → AllZip (StandsFor schema.now analyze) docs segments.old
        → IsWithin docs found
        → IfErr result (λ fault. fault ≡ faults.OutOfMemory) }
    ensures faults { IfErr result (λ fault. (fault ≡ faults.OutOfMemory) ⊎ (fault ≡ faults.Damaged None)) }
    ensures kept { KeepsSegments segments.old segments.new }
{
    let (score, segment_ord, doc_id) = found;
    let segment = &mut segments[segment_ord as usize];
    let doc = segment.document(schema, doc_id)?;
    Ok(StoredHit {
        score: score as Score,
        doc,
    })
}
