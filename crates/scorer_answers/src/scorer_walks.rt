//! Walks of a scorer, into a list or a sink.

ghost use Rattle.std.specs.Prelude.{[], ◌≡◌, ◌≤◌, IfOk, List, None, length, ℕ};
ghost use Rattle.definitions.specs.Analyzers.{Analyzer};
ghost use Rattle.definitions.specs.Answers.{answers};
ghost use Rattle.definitions.specs.Query.{Query};
ghost use Rattle.definitions.specs.Refusing.{tree_fault};
ghost use Rattle.definitions.specs.Schema.{Schema};
ghost use Rattle.definitions.specs.Scoring as scoring;
ghost use Rattle.definitions.specs.Sinks.{fed};
ghost use Rattle.definitions.specs.Values.{Document};
ghost use Rattle.docsets.specs.ScoredEntries.{pairs_of};
ghost use Rattle.query_scorers.specs.Scores.{Scores};
ghost use Rattle.walks.specs.Blocks.{IsFedInBlocks};
ghost use Rattle.scorer_answers.specs.Listed.{signed_pairs};
ghost use Rattle.scorer_answers.specs.Matching.{Matches, matching};
ghost use Rattle.segment_reader.specs.SegmentReaders.{StandsFor};
ghost use Rattle.segment_reader.specs.declared.segment_reader.SegmentReader.{SegmentReader};

use any_scorer::for_each_scorer;
use common::{DocId, Score};
use docsets::{DocSet, Scorer};
use std::alloc::{AllocError, Global};
use walks::{BlockSink, Sink, for_each_docset_buffered, for_each_pruning_scorer};

/// Lists the documents that match, in order, each with its score.
pub fn for_each<S: Scorer>(alloc: Global, scorer: &mut S) -> Result<Vec<(DocId, Score)>, AllocError>
    ensures pairs { (schema : Schema) (analyze : Analyzer) (sim : scoring.Similarity) (b : ℕ) (q : Query)
        (docs : List Document) (r : SegmentReader)
        → StandsFor schema analyze docs r
        → tree_fault schema sim.weight b q ≡ None
        → Scores sim b q r (S.entries scorer.old)
        → IfOk result (λ pairs. pairs.items ≡ signed_pairs (answers schema analyze sim b q docs)) }
    ensures done { IfOk result (λ pairs. S.entries scorer.new ≡ []) }
{
    for_each_scorer(alloc, scorer)
}

/// Feeds the documents that match to `sink`, in order, in blocks of at most 64.
pub fn for_each_no_score<D: DocSet, K: BlockSink>(docset: &mut D, sink: &mut K)
    ensures fed { (schema : Schema) (analyze : Analyzer) (weight : List ℕ → ℕ) (b : ℕ) (q : Query)
        (docs : List Document) (r : SegmentReader)
        → StandsFor schema analyze docs r
        → tree_fault schema weight b q ≡ None
        → Matches weight b q r (D.entries docset.old)
        → IsFedInBlocks K.taken (K.state sink.old) (matching schema analyze q docs) (K.state sink.new) }
    ensures done { D.entries docset.new ≡ [] }
{
    for_each_docset_buffered(docset, sink)
}

/// Feeds each document that matches with its score to `sink`, in order, if the score is above the sink's threshold by
/// then.
pub fn for_each_pruning<S: Scorer, K: Sink>(scorer: &mut S, threshold: Score, sink: &mut K)
    requires threshold { threshold ≡ K.limit (K.state sink.old) }
    requires room { length (S.entries scorer.old) ≤ K.room sink.old }
    ensures fed { (schema : Schema) (analyze : Analyzer) (sim : scoring.Similarity) (b : ℕ) (q : Query)
        (docs : List Document) (r : SegmentReader)
        → StandsFor schema analyze docs r
        → tree_fault schema sim.weight b q ≡ None
        → Scores sim b q r (S.entries scorer.old)
        → K.state sink.new ≡ fed K.limit K.taken (K.state sink.old) (answers schema analyze sim b q docs) }
    ensures state { K.state sink.new ≡ fed K.limit K.taken (K.state sink.old) (pairs_of (S.entries scorer.old)) }
{
    for_each_pruning_scorer(scorer, threshold, sink)
}
