//! The weight by which a query is searched.

ghost use Rattle.std.specs.Prelude.{◌≡◌, ◌≤◌, IfOk, List, None, OnOk, ℕ};
ghost use Rattle.definitions.specs.Analyzers.{Analyzer};
ghost use Rattle.definitions.specs.Answers.{answers};
ghost use Rattle.definitions.specs.Query.{term};
ghost use Rattle.definitions.specs.Refusing.{tree_fault};
ghost use Rattle.definitions.specs.Schema.{IndexRecordOption as Asked, Schema};
ghost use Rattle.definitions.specs.Scoring.{Similarity};
ghost use Rattle.definitions.specs.Sinks.{fed};
ghost use Rattle.definitions.specs.TermBlocks.{scored_blocks};
ghost use Rattle.definitions.specs.Values.{Document};
ghost use Rattle.walks.specs.Feeding.{IsFedBelow};
ghost use Rattle.query_trees.specs.Queries.{query_of};
ghost use Rattle.segment_reader.specs.Scorings.{statistics_asked};
ghost use Rattle.segment_reader.specs.SegmentReaders.{StandsFor, max_doc_of};
ghost use Rattle.segment_search.specs.Counted.{IsTermQuery};
ghost use Rattle.segment_search.specs.CountedWeights.{CountedScoresBy, CountsTerms, counted_query};
ghost use Rattle.leaf_weights.specs.DecodedBlocks.{decoded_for};
ghost use Rattle.weights.specs.Given.{given_similarity};
ghost use Rattle.weights.specs.Unscored.{similarity_given};
ghost use Rattle.weights.specs.Weighing.{IsWeighed};

use common::Score;
use leaf_weights::TermWeight;
use query::{Query, SpecializedWeight};
use query_trees::AnyQuery;
use reader_scorers::LeafWeights;
use segment_reader::{EnableScoring, SegmentReader};
use settings::Statistics;
use std::alloc::{AllocError, Global};
use walks::Sink;
use weights::{AnyWeight, GivenWeights, Weight};

/// The weight of a query, which counts the blocks of postings that it decodes if the query is one term. `W` makes the
/// scorers of its leaves.
#[derive(Drop)]
pub(crate) enum CountedWeight<'q, 'a, W> {
    /// Of the documents that hold a term.
    Term(TermWeight<'q, 'a>),
    /// Of a query of another form.
    Other(AnyWeight<'q, W>),
}

/// Makes `query` ready to be asked of segments.
pub(crate) fn weigh_query<'q, 'a, S: Statistics>(
    query: &'q AnyQuery,
    enable_scoring: EnableScoring<'a, S>,
) -> CountedWeight<'q, 'a, GivenWeights<'a, S>>
    ensures query { counted_query result ≡ query_of query.now }
    ensures scores { CountedScoresBy (given_similarity S.similarity) result
        (similarity_given S.similarity (statistics_asked enable_scoring.entry)) }
    ensures counts { CountsTerms result }
{
    if let AnyQuery::Term(query) = query {
        return CountedWeight::Term(query.specialized_weight(enable_scoring));
    }
    CountedWeight::Other(query.weight(enable_scoring))
}

impl<'q, 'a, W: LeafWeights<'a>> CountedWeight<'q, 'a, W> {
    /// Feeds each document of the segment that matches with its score to `sink`, in order, if the score is above the
    /// sink's threshold by then. Returns how many blocks of postings were decoded if the query is one term, and else 0.
    pub(crate) fn for_each_pruning_counted<K: Sink>(
        &self,
        alloc: Global,
        threshold: Score,
        reader: &SegmentReader<'a>,
        sink: &mut K,
    ) -> Result<u64, AllocError>
        requires accepted { IsWeighed (CountedScoresBy W.similarity self.now) 1 (counted_query self.now) }
        requires counts { CountsTerms self.now }
        requires threshold { threshold ≡ K.limit (K.state sink.old) }
        requires room { max_doc_of reader.now ≤ K.room sink.old }
        ensures fed { (schema : Schema) (analyze : Analyzer) (sim : Similarity) (docs : List Document)
            → StandsFor schema analyze docs reader.now
            → CountedScoresBy W.similarity self.now sim
            → tree_fault schema sim.weight 1 (counted_query self.now) ≡ None
            → OnOk result (K.state sink.new ≡ fed K.limit K.taken (K.state sink.old)
            (answers schema analyze sim 1 (counted_query self.now) docs)) }
        ensures listed { OnOk result (IsFedBelow K.limit K.taken (K.state sink.old) (max_doc_of reader.now)
            (K.state sink.new)) }
        ensures counted { (schema : Schema) (analyze : Analyzer) (sim : Similarity) (docs : List Document)
            (t : List ℕ) (option : Asked)
            → StandsFor schema analyze docs reader.now
            → CountedScoresBy W.similarity self.now sim
            → counted_query self.now ≡ term t option
            → IfOk result (λ blocks. blocks ≡ decoded_for K.limit K.taken (K.state sink.old)
            (answers schema analyze sim 1 (counted_query self.now) docs)
            (scored_blocks schema analyze sim 1 t option docs)) }
        ensures uncounted { (¬ IsTermQuery (counted_query self.now)) → IfOk result (λ blocks. blocks ≡ 0) }
    {
        match self {
            CountedWeight::Term(weight) => weight.for_each_pruning_counted(threshold, reader, sink),
            CountedWeight::Other(weight) => {
                weight.for_each_pruning(alloc, threshold, reader, sink)?;
                Ok(0)
            }
        }
    }
}
