//! What a weight answers by its scorer in a segment.

ghost use Rattle.std.specs.Prelude.{◌≡◌, ◌≢◌, ◌≤◌, IfErr, IfOk, List, None, OnErr, OnOk, Some, option_map, pos};
ghost use Rattle.definitions.specs.Alive.{Segment};
ghost use Rattle.definitions.specs.Analyzers.{Analyzer};
ghost use Rattle.definitions.specs.Answers.{answers, living_count};
ghost use Rattle.definitions.specs.Refusing.{tree_fault};
ghost use Rattle.definitions.specs.Schema.{Schema};
ghost use Rattle.definitions.specs.Scoring.{Similarity};
ghost use Rattle.definitions.specs.Sinks.{fed};
ghost use Rattle.definitions.specs.Values.{Document};
ghost use Rattle.definitions.specs.declared.fault.Fault.TheVariants as faults;
ghost use Rattle.walks.specs.Blocks.{IsFedInBlocks};
ghost use Rattle.walks.specs.Feeding.{IsFedBelow};
ghost use Rattle.scorer_answers.specs.Earned.{score_at};
ghost use Rattle.scorer_answers.specs.Listed.{signed_pairs};
ghost use Rattle.scorer_answers.specs.Matching.{matching};
ghost use Rattle.scorer_answers.specs.Rows.{HasRows};
ghost use Rattle.segment_reader.specs.SegmentReaders.{StandsFor, max_doc_of};
ghost use Rattle.term_scorer.specs.Explaining.{explained_value};
ghost use Rattle.weights.specs.Weighing.{IsWeighed};

use crate::feeds::feed;
use crate::weight::SegmentWeight;
use common::{DocId, Score};
use definitions::Fault;
use segment_reader::SegmentReader;
use std::alloc::{AllocError, Global};
use term_scorer::Explanation;
use walks::{BlockSink, Sink};

/// Explains the score of `doc`, with `description`; `InvalidArgument` if `doc` doesn't match.
pub(crate) fn explain<'a, W: SegmentWeight<'a>>(
    alloc: Global,
    weight: &W,
    reader: &SegmentReader<'a>,
    doc: DocId,
    description: &str,
) -> Result<Explanation, Fault>
    requires { IsWeighed (W.scores_by weight.now) 1 (W.query weight.now) }
    ensures ok { (schema : Schema) (analyze : Analyzer) (sim : Similarity) (docs : List Document)
        → StandsFor schema analyze docs reader.now
        → W.scores_by weight.now sim
        → tree_fault schema sim.weight 1 (W.query weight.now) ≡ None
        → IfOk result (λ explanation. option_map pos (score_at schema analyze sim 1 (W.query weight.now) docs doc)
        ≡ Some (explained_value explanation)) }
    ensures err { (schema : Schema) (analyze : Analyzer) (sim : Similarity) (docs : List Document)
        → StandsFor schema analyze docs reader.now
        → W.scores_by weight.now sim
        → tree_fault schema sim.weight 1 (W.query weight.now) ≡ None
        → IfErr result (λ fault. fault ≢ faults.OutOfMemory
        → score_at schema analyze sim 1 (W.query weight.now) docs doc ≡ None) }
    ensures fault { IfErr result (λ fault. fault ≢ faults.OutOfMemory → fault ≡ faults.InvalidArgument) }
{
    let scorer = weight.scorer(alloc, reader, 1)?;
    scorer_answers::explain(alloc, scorer, doc, description)
}

/// Counts the living documents of the segment that match.
pub(crate) fn count<'a, W: SegmentWeight<'a>>(
    alloc: Global,
    weight: &W,
    reader: &SegmentReader<'a>,
) -> Result<u32, AllocError>
    requires { IsWeighed (W.scores_by weight.now) 1 (W.query weight.now) }
    ensures { (schema : Schema) (analyze : Analyzer) (sim : Similarity) (rows : Segment)
        → HasRows schema analyze rows reader.now
        → W.scores_by weight.now sim
        → tree_fault schema sim.weight 1 (W.query weight.now) ≡ None
        → IfOk result (λ count. count ≡ living_count schema analyze (W.query weight.now) rows) }
{
    let mut scorer = weight.scorer(alloc, reader, 1)?;
    Ok(scorer_answers::count(&mut scorer, reader))
}

/// Lists the documents of the segment that match, in order, each with its score.
pub(crate) fn for_each<'a, W: SegmentWeight<'a>>(
    alloc: Global,
    weight: &W,
    reader: &SegmentReader<'a>,
) -> Result<Vec<(DocId, Score)>, AllocError>
    requires { IsWeighed (W.scores_by weight.now) 1 (W.query weight.now) }
    ensures { (schema : Schema) (analyze : Analyzer) (sim : Similarity) (docs : List Document)
        → StandsFor schema analyze docs reader.now
        → W.scores_by weight.now sim
        → tree_fault schema sim.weight 1 (W.query weight.now) ≡ None
        → IfOk result (λ pairs. pairs.items ≡ signed_pairs (answers schema analyze sim 1 (W.query weight.now) docs)) }
{
    let mut scorer = weight.scorer(alloc, reader, 1)?;
    scorer_answers::for_each(alloc, &mut scorer)
}

/// Feeds the documents of the segment that match to `sink`, in order, in blocks of at most 64; none if out of
/// memory.
pub(crate) fn for_each_no_score<'a, W: SegmentWeight<'a>, K: BlockSink>(
    alloc: Global,
    weight: &W,
    reader: &SegmentReader<'a>,
    sink: &mut K,
) -> Result<(), AllocError>
    requires { IsWeighed (W.scores_by weight.now) 1 (W.query weight.now) }
    ensures fed { (schema : Schema) (analyze : Analyzer) (sim : Similarity) (docs : List Document)
        → StandsFor schema analyze docs reader.now
        → W.scores_by weight.now sim
        → tree_fault schema sim.weight 1 (W.query weight.now) ≡ None
        → OnOk result (IsFedInBlocks K.taken (K.state sink.old) (matching schema analyze (W.query weight.now) docs)
        (K.state sink.new)) }
    ensures same { OnErr result (sink.new ≡ sink.old) }
{
    let mut scorer = weight.scorer(alloc, reader, 1)?;
    scorer_answers::for_each_no_score(&mut scorer, sink);
    Ok(())
}

/// Feeds each document of the segment that matches with its score to `sink`, in order, if the score is above the
/// sink's threshold by then; none if out of memory.
pub(crate) fn for_each_pruning<'a, W: SegmentWeight<'a>, K: Sink>(
    alloc: Global,
    weight: &W,
    threshold: Score,
    reader: &SegmentReader<'a>,
    sink: &mut K,
) -> Result<(), AllocError>
    requires accepted { IsWeighed (W.scores_by weight.now) 1 (W.query weight.now) }
    requires threshold { threshold ≡ K.limit (K.state sink.old) }
    requires room { max_doc_of reader.now ≤ K.room sink.old }
    ensures fed { (schema : Schema) (analyze : Analyzer) (sim : Similarity) (docs : List Document)
        → StandsFor schema analyze docs reader.now
        → W.scores_by weight.now sim
        → tree_fault schema sim.weight 1 (W.query weight.now) ≡ None
        → OnOk result (K.state sink.new ≡ fed K.limit K.taken (K.state sink.old)
        (answers schema analyze sim 1 (W.query weight.now) docs)) }
    ensures listed { OnOk result (IsFedBelow K.limit K.taken (K.state sink.old) (max_doc_of reader.now)
        (K.state sink.new)) }
    ensures same { OnErr result (sink.new ≡ sink.old) }
{
    let scorer = weight.scorer(alloc, reader, 1)?;
    feed(scorer, reader.max_doc(), threshold, sink);
    Ok(())
}
