//! The weight of the best of several queries.

ghost use Rattle.std.specs.Prelude.{◌≡◌};
ghost use Rattle.definitions.specs.Query as definitions;
ghost use Rattle.query_trees.specs.Queries.{queries_of};

use crate::calls;
use crate::weight::{SegmentWeight, Weight};
use common::{DocId, Score};
use compound_walks::{count_disjuncts, feed_disjuncts};
use definitions::Fault;
use query_scorers::max_scorer;
use query_trees::AnyQuery;
use reader_scorers::{LeafWeights, ReaderScorers, ScorerBy};
use segment_reader::SegmentReader;
use std::alloc::{AllocError, Global};
use term_scorer::Explanation;
use walks::{BlockSink, Sink};

/// The weight of several queries: each document scores the best of them, and a part of the others. The queries are
/// borrowed; `weights` makes the scorers of their leaves.
#[derive(Drop)]
pub struct DisjunctionMaxWeight<'q, W> {
    disjuncts: &'q [AnyQuery],
    tie_breaker: Score,
    weights: W,
}

impl<'q, W> DisjunctionMaxWeight<'q, W> {
    ghost use Rattle.weights.specs.Trees.{disjuncts_in, max_weights, tie_in};

    /// Returns the weight of `disjuncts`, with `tie_breaker` thousandths of the scores below the best, by `weights`.
    pub fn new(
        disjuncts: &'q [AnyQuery],
        tie_breaker: Score,
        weights: W,
    ) -> DisjunctionMaxWeight<'q, W>
        ensures disjuncts { disjuncts_in result ≡ queries_of disjuncts.now }
        ensures tie { tie_in result ≡ tie_breaker }
        ensures weights { max_weights result ≡ weights }
    {
        DisjunctionMaxWeight {
            disjuncts,
            tie_breaker,
            weights,
        }
    }
}

impl<'q, 'a, W: LeafWeights<'a>> SegmentWeight<'a> for DisjunctionMaxWeight<'q, W> {
    type Scorer = ScorerBy<'a, W>;

    ghost scores_by = { λ w sim. sim ≡ W.similarity w.weights };

    ghost query = { λ w. definitions.disjunction_max (queries_of w.disjuncts.now) w.tie_breaker };

    fn scorer(
        &self,
        alloc: Global,
        reader: &SegmentReader<'a>,
        boost: Score,
    ) -> Result<ScorerBy<'a, W>, AllocError> {
        let forms = ReaderScorers::new(reader, &self.weights);
        let tie_breaker = self.tie_breaker;
        max_scorer(alloc, &forms, self.disjuncts, tie_breaker, boost as u64)
    }
}

impl<'q, 'a, W: LeafWeights<'a>> Weight<'a> for DisjunctionMaxWeight<'q, W> {
    fn explain(
        &self,
        alloc: Global,
        reader: &SegmentReader<'a>,
        doc: DocId,
    ) -> Result<Explanation, Fault> {
        calls::explain(alloc, self, reader, doc, "the best of several queries")
    }

    fn count(&self, alloc: Global, reader: &SegmentReader<'a>) -> Result<u32, AllocError> {
        let forms = ReaderScorers::new(reader, &self.weights);
        count_disjuncts(alloc, &forms, self.disjuncts)
    }

    fn for_each(
        &self,
        alloc: Global,
        reader: &SegmentReader<'a>,
    ) -> Result<Vec<(DocId, Score)>, AllocError> {
        calls::for_each(alloc, self, reader)
    }

    fn for_each_no_score<K: BlockSink>(
        &self,
        alloc: Global,
        reader: &SegmentReader<'a>,
        sink: &mut K,
    ) -> Result<(), AllocError> {
        calls::for_each_no_score(alloc, self, reader, sink)
    }

    fn for_each_pruning<K: Sink>(
        &self,
        alloc: Global,
        threshold: Score,
        reader: &SegmentReader<'a>,
        sink: &mut K,
    ) -> Result<(), AllocError> {
        let forms = ReaderScorers::new(reader, &self.weights);
        feed_disjuncts(
            alloc,
            &forms,
            self.disjuncts,
            self.tie_breaker,
            threshold,
            sink,
        )
    }
}
