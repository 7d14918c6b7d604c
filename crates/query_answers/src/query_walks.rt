//! Walks of the documents of a query, into a list or a sink.

ghost use Rattle.std.specs.Prelude.{◌≡◌, ◌≤◌, IfOk, List, None, OnErr, OnOk};
ghost use Rattle.definitions.specs.Analyzers.{Analyzer};
ghost use Rattle.definitions.specs.Answers.{answers};
ghost use Rattle.definitions.specs.Refusing.{tree_fault};
ghost use Rattle.definitions.specs.Schema.{Schema};
ghost use Rattle.definitions.specs.Sinks.{fed};
ghost use Rattle.definitions.specs.Values.{Document};
ghost use Rattle.walks.specs.Blocks.{IsFedInBlocks};
ghost use Rattle.walks.specs.Feeding.{IsFedBelow};
ghost use Rattle.query_trees.specs.Queries.{query_of};
ghost use Rattle.scorer_answers.specs.Listed.{signed_pairs};
ghost use Rattle.scorer_answers.specs.Matching.{matching};
ghost use Rattle.segment_reader.specs.SegmentReaders.{StandsFor, max_doc_of};
ghost use Rattle.query_scorers.specs.Accepted.{IsAccepted};

use common::{DocId, Score};
use query_scorers::{SegmentScorers, scorer_of};
use query_trees::AnyQuery;
use std::alloc::{AllocError, Global};
use walks::{BlockSink, Sink};

/// Lists the documents of a segment that match `query`, in order, each with its score.
pub fn for_each<F: SegmentScorers>(
    alloc: Global,
    forms: &F,
    query: &AnyQuery,
) -> Result<Vec<(DocId, Score)>, AllocError>
    requires { IsAccepted (F.similarity forms.now).weight 1 (query_of query.now) }
    ensures { (schema : Schema) (analyze : Analyzer) (docs : List Document)
        → StandsFor schema analyze docs (F.segment forms.now)
        → tree_fault schema (F.similarity forms.now).weight 1 (query_of query.now) ≡ None
        → IfOk result (λ pairs. pairs.items
        ≡ signed_pairs (answers schema analyze (F.similarity forms.now) 1 (query_of query.now) docs)) }
{
    let mut scorer = scorer_of(alloc, forms, query, 1)?;
    scorer_answers::for_each(alloc, &mut scorer)
}

/// Feeds the documents of a segment that match `query` to `sink`, in order, in blocks of at most 64; none if out of
/// memory.
pub fn for_each_no_score<F: SegmentScorers, K: BlockSink>(
    alloc: Global,
    forms: &F,
    query: &AnyQuery,
    sink: &mut K,
) -> Result<(), AllocError>
    requires { IsAccepted (F.similarity forms.now).weight 1 (query_of query.now) }
    ensures fed { (schema : Schema) (analyze : Analyzer) (docs : List Document)
        → StandsFor schema analyze docs (F.segment forms.now)
        → tree_fault schema (F.similarity forms.now).weight 1 (query_of query.now) ≡ None
        → OnOk result (IsFedInBlocks K.taken (K.state sink.old)
        (matching schema analyze (query_of query.now) docs) (K.state sink.new)) }
    ensures same { OnErr result (sink.new ≡ sink.old) }
{
    let mut scorer = scorer_of(alloc, forms, query, 1)?;
    scorer_answers::for_each_no_score(&mut scorer, sink);
    Ok(())
}

/// Feeds each document of a segment that matches `query` with its score to `sink`, in order, if the score is above the
/// sink's threshold by then; none if out of memory.
pub fn for_each_pruning<F: SegmentScorers, K: Sink>(
    alloc: Global,
    forms: &F,
    query: &AnyQuery,
    threshold: Score,
    sink: &mut K,
) -> Result<(), AllocError>
    requires accepted { IsAccepted (F.similarity forms.now).weight 1 (query_of query.now) }
    requires threshold { threshold ≡ K.limit (K.state sink.old) }
    requires room { max_doc_of (F.segment forms.now) ≤ K.room sink.old }
    ensures fed { (schema : Schema) (analyze : Analyzer) (docs : List Document)
        → StandsFor schema analyze docs (F.segment forms.now)
        → tree_fault schema (F.similarity forms.now).weight 1 (query_of query.now) ≡ None
        → OnOk result (K.state sink.new ≡ fed K.limit K.taken (K.state sink.old)
        (answers schema analyze (F.similarity forms.now) 1 (query_of query.now) docs)) }
    ensures listed { OnOk result (IsFedBelow K.limit K.taken (K.state sink.old) (max_doc_of (F.segment forms.now))
        (K.state sink.new)) }
    ensures same { OnErr result (sink.new ≡ sink.old) }
{
    let scorer = scorer_of(alloc, forms, query, 1)?;
    F::feed(scorer, threshold, sink);
    Ok(())
}
