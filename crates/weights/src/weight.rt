//! What a weight is asked.

ghost use Rattle.std.specs.Prelude.{◌≡◌, ◌≢◌, ◌≤ℤ◌, ◌≤◌, IfErr, IfOk, List, None, OnErr, OnOk, Some, option_map, pos};
ghost use Rattle.definitions.specs.Alive.{Segment};
ghost use Rattle.definitions.specs.Analyzers.{Analyzer};
ghost use Rattle.definitions.specs.Answers.{answers, living_count};
ghost use Rattle.definitions.specs.Query.{Query};
ghost use Rattle.definitions.specs.Refusing.{tree_fault};
ghost use Rattle.definitions.specs.Schema.{Schema};
ghost use Rattle.definitions.specs.Scoring.{Similarity, max_score, natural};
ghost use Rattle.definitions.specs.Sinks.{fed};
ghost use Rattle.definitions.specs.Values.{Document};
ghost use Rattle.definitions.specs.declared.fault.Fault.TheVariants as faults;
ghost use Rattle.query_scorers.specs.Scores.{Scores};
ghost use Rattle.walks.specs.Blocks.{IsFedInBlocks};
ghost use Rattle.walks.specs.Feeding.{IsFedBelow};
ghost use Rattle.scorer_answers.specs.Earned.{score_at};
ghost use Rattle.scorer_answers.specs.Listed.{signed_pairs};
ghost use Rattle.scorer_answers.specs.Matching.{matching};
ghost use Rattle.scorer_answers.specs.Rows.{HasRows};
ghost use Rattle.segment_reader.specs.SegmentReaders.{StandsFor, max_doc_of};
ghost use Rattle.term_scorer.specs.Explaining.{explained_value};
ghost use Rattle.weights.specs.Weighing.{IsWeighed};

use common::{DocId, Score};
use definitions::Fault;
use docsets::Scorer;
use segment_reader::SegmentReader;
use std::alloc::{AllocError, Global};
use term_scorer::Explanation;
use walks::{BlockSink, Sink};

/// A query made ready to be asked of segments: it has a scorer in each of them.
pub trait SegmentWeight<'a> {
    /// The scorer of the query in a segment.
    type Scorer: Scorer + Drop;

    // The weights of terms and the norms of lengths by which it scores. One that knows only the sum of several weights
    // scores by all that have this sum.
    ghost scores_by: { Self → Similarity → Type 0 };

    // The query.
    ghost query: { Self → Query };

    /// Returns a scorer of the documents of the segment that match, with their scores under `boost`.
    fn scorer(
        &self,
        alloc: Global,
        reader: &SegmentReader<'a>,
        boost: Score,
    ) -> Result<Self::Scorer, AllocError>
        requires positive { pos 0 ≤ℤ boost }
        requires small { natural boost ≤ max_score }
        requires accepted { IsWeighed (scores_by self.now) (natural boost) (query self.now) }
        ensures { (sim : Similarity) → scores_by self.now sim → IfOk result (λ scorer. Scores sim (natural boost)
            (query self.now) reader.now (Self.Scorer.entries scorer)) };
}

/// What is asked of a query that was made ready, in a segment.
pub trait Weight<'a>: SegmentWeight<'a> {
    /// Explains the score of `doc`; `InvalidArgument` if `doc` doesn't match.
    fn explain(
        &self,
        alloc: Global,
        reader: &SegmentReader<'a>,
        doc: DocId,
    ) -> Result<Explanation, Fault>
        requires { IsWeighed (Self.scores_by self.now) 1 (Self.query self.now) }
        ensures ok { (schema : Schema) (analyze : Analyzer) (sim : Similarity) (docs : List Document)
            → StandsFor schema analyze docs reader.now
            → Self.scores_by self.now sim
            → tree_fault schema sim.weight 1 (Self.query self.now) ≡ None
            → IfOk result (λ explanation. option_map pos (score_at schema analyze sim 1 (Self.query self.now) docs doc)
            ≡ Some (explained_value explanation)) }
        ensures err { (schema : Schema) (analyze : Analyzer) (sim : Similarity) (docs : List Document)
            → StandsFor schema analyze docs reader.now
            → Self.scores_by self.now sim
            → tree_fault schema sim.weight 1 (Self.query self.now) ≡ None
            → IfErr result (λ fault. fault ≢ faults.OutOfMemory
            → score_at schema analyze sim 1 (Self.query self.now) docs doc ≡ None) }
        ensures fault { IfErr result (λ fault. fault ≢ faults.OutOfMemory → fault ≡ faults.InvalidArgument) };

    /// Counts the living documents of the segment that match.
    fn count(&self, alloc: Global, reader: &SegmentReader<'a>) -> Result<u32, AllocError>
        requires { IsWeighed (Self.scores_by self.now) 1 (Self.query self.now) }
        ensures { (schema : Schema) (analyze : Analyzer) (sim : Similarity) (rows : Segment)
            → HasRows schema analyze rows reader.now
            → Self.scores_by self.now sim
            → tree_fault schema sim.weight 1 (Self.query self.now) ≡ None
            → IfOk result (λ count. count ≡ living_count schema analyze (Self.query self.now) rows) };

    /// Lists the documents of the segment that match, in order, each with its score.
    fn for_each(
        &self,
        alloc: Global,
        reader: &SegmentReader<'a>,
    ) -> Result<Vec<(DocId, Score)>, AllocError>
        requires { IsWeighed (Self.scores_by self.now) 1 (Self.query self.now) }
        ensures { (schema : Schema) (analyze : Analyzer) (sim : Similarity) (docs : List Document)
            → StandsFor schema analyze docs reader.now
            → Self.scores_by self.now sim
            → tree_fault schema sim.weight 1 (Self.query self.now) ≡ None
            → IfOk result (λ pairs. pairs.items
            ≡ signed_pairs (answers schema analyze sim 1 (Self.query self.now) docs)) };

    /// Feeds the documents of the segment that match to `sink`, in order, in blocks of at most 64; none if out of
    /// memory.
    fn for_each_no_score<K: BlockSink>(
        &self,
        alloc: Global,
        reader: &SegmentReader<'a>,
        sink: &mut K,
    ) -> Result<(), AllocError>
        requires { IsWeighed (Self.scores_by self.now) 1 (Self.query self.now) }
        ensures fed { (schema : Schema) (analyze : Analyzer) (sim : Similarity) (docs : List Document)
            → StandsFor schema analyze docs reader.now
            → Self.scores_by self.now sim
            → tree_fault schema sim.weight 1 (Self.query self.now) ≡ None
            → OnOk result (IsFedInBlocks K.taken (K.state sink.old) (matching schema analyze (Self.query self.now) docs)
            (K.state sink.new)) }
        ensures same { OnErr result (sink.new ≡ sink.old) };

    /// Feeds each document of the segment that matches with its score to `sink`, in order, if the score is above the
    /// sink's threshold by then; none if out of memory.
    fn for_each_pruning<K: Sink>(
        &self,
        alloc: Global,
        threshold: Score,
        reader: &SegmentReader<'a>,
        sink: &mut K,
    ) -> Result<(), AllocError>
        requires accepted { IsWeighed (Self.scores_by self.now) 1 (Self.query self.now) }
        requires threshold { threshold ≡ K.limit (K.state sink.old) }
        requires room { max_doc_of reader.now ≤ K.room sink.old }
        ensures fed { (schema : Schema) (analyze : Analyzer) (sim : Similarity) (docs : List Document)
            → StandsFor schema analyze docs reader.now
            → Self.scores_by self.now sim
            → tree_fault schema sim.weight 1 (Self.query self.now) ≡ None
            → OnOk result (K.state sink.new ≡ fed K.limit K.taken (K.state sink.old)
            (answers schema analyze sim 1 (Self.query self.now) docs)) }
        ensures listed { OnOk result (IsFedBelow K.limit K.taken (K.state sink.old) (max_doc_of reader.now)
            (K.state sink.new)) }
        ensures same { OnErr result (sink.new ≡ sink.old) };
}
