//! The weight of clauses.

ghost use Rattle.std.specs.Prelude.{◌≡◌};
ghost use Rattle.definitions.specs.Query as definitions;
ghost use Rattle.query_trees.specs.Queries.{clauses_of};

use crate::calls;
use crate::weight::{SegmentWeight, Weight};
use common::{DocId, Score};
use compound_walks::{count_clauses, feed_clauses};
use definitions::Fault;
use query_scorers::boolean_scorer;
use query_trees::{AnyQuery, Occur};
use reader_scorers::{LeafWeights, ReaderScorers, ScorerBy};
use segment_reader::SegmentReader;
use std::alloc::{AllocError, Global};
use term_scorer::Explanation;
use walks::{BlockSink, Sink};

/// The weight of clauses, of which a minimum of the `Should` ones must match. The clauses are borrowed; `weights` makes
/// the scorers of their leaves.
#[derive(Drop)]
pub struct BooleanWeight<'q, W> {
    clauses: &'q [(Occur, AnyQuery)],
    minimum_number_should_match: usize,
    weights: W,
}

impl<'q, W> BooleanWeight<'q, W> {
    ghost use Rattle.weights.specs.Trees.{boolean_weights, clauses_in, minimum_in};

    /// Returns the weight of `clauses`, of which one of the `Should` ones must match, by `weights`.
    pub fn new(clauses: &'q [(Occur, AnyQuery)], weights: W) -> BooleanWeight<'q, W>
        ensures clauses { clauses_in result ≡ clauses_of clauses.now }
        ensures minimum { minimum_in result ≡ 1 }
        ensures weights { boolean_weights result ≡ weights }
    {
        BooleanWeight::with_minimum_number_should_match(clauses, 1, weights)
    }

    /// Returns the weight of `clauses`, of which `minimum_number_should_match` of the `Should` ones must match, by
    /// `weights`.
    pub fn with_minimum_number_should_match(
        clauses: &'q [(Occur, AnyQuery)],
        minimum_number_should_match: usize,
        weights: W,
    ) -> BooleanWeight<'q, W>
        ensures clauses { clauses_in result ≡ clauses_of clauses.now }
        ensures minimum { minimum_in result ≡ minimum_number_should_match }
        ensures weights { boolean_weights result ≡ weights }
    {
        BooleanWeight {
            clauses,
            minimum_number_should_match,
            weights,
        }
    }
}

impl<'q, 'a, W: LeafWeights<'a>> SegmentWeight<'a> for BooleanWeight<'q, W> {
    type Scorer = ScorerBy<'a, W>;

    ghost scores_by = { λ w sim. sim ≡ W.similarity w.weights };

    ghost query = { λ w. definitions.boolean (clauses_of w.clauses.now) w.minimum_number_should_match };

    fn scorer(
        &self,
        alloc: Global,
        reader: &SegmentReader<'a>,
        boost: Score,
    ) -> Result<ScorerBy<'a, W>, AllocError> {
        let forms = ReaderScorers::new(reader, &self.weights);
        let minimum = self.minimum_number_should_match;
        boolean_scorer(alloc, &forms, self.clauses, minimum, boost as u64)
    }
}

impl<'q, 'a, W: LeafWeights<'a>> Weight<'a> for BooleanWeight<'q, W> {
    fn explain(
        &self,
        alloc: Global,
        reader: &SegmentReader<'a>,
        doc: DocId,
    ) -> Result<Explanation, Fault> {
        calls::explain(alloc, self, reader, doc, "clauses")
    }

    fn count(&self, alloc: Global, reader: &SegmentReader<'a>) -> Result<u32, AllocError> {
        let forms = ReaderScorers::new(reader, &self.weights);
        let minimum = self.minimum_number_should_match;
        count_clauses(alloc, &forms, self.clauses, minimum)
    }

    fn for_each(
        &self,
        alloc: Global,
        reader: &SegmentReader<'a>,
    ) -> Result<Vec<(DocId, Score)>, AllocError> {
        calls::for_each(alloc, self, reader)
    }

    fn for_each_no_score<K: BlockSink>(
        &self,
        alloc: Global,
        reader: &SegmentReader<'a>,
        sink: &mut K,
    ) -> Result<(), AllocError> {
        calls::for_each_no_score(alloc, self, reader, sink)
    }

    fn for_each_pruning<K: Sink>(
        &self,
        alloc: Global,
        threshold: Score,
        reader: &SegmentReader<'a>,
        sink: &mut K,
    ) -> Result<(), AllocError> {
        let forms = ReaderScorers::new(reader, &self.weights);
        let minimum = self.minimum_number_should_match;
        feed_clauses(alloc, &forms, self.clauses, minimum, threshold, sink)
    }
}
