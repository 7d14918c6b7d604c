//! The weight of a query of any form.

ghost use Rattle.std.specs.Prelude.{◌≡◌};
ghost use Rattle.query_trees.specs.Queries.{query_of};

use crate::scorer_weight::ScorerWeight;
use crate::weight::SegmentWeight;
use common::Score;
use query_scorers::scorer_of;
use query_trees::AnyQuery;
use reader_scorers::{LeafWeights, ReaderScorers, ScorerBy};
use segment_reader::SegmentReader;
use std::alloc::{AllocError, Global};

/// The weight of a query of any form, as it stands below another. The query is borrowed; `weights` makes the scorers of
/// its leaves.
#[derive(Drop)]
pub struct QueryWeight<'q, W> {
    query: &'q AnyQuery,
    weights: W,
}

impl<'q, W> QueryWeight<'q, W> {
    ghost use Rattle.weights.specs.Trees.{query_in, query_weights};

    /// Returns the weight of `query`, by `weights`.
    pub fn new(query: &'q AnyQuery, weights: W) -> QueryWeight<'q, W>
        ensures query { query_in result ≡ query_of query.now }
        ensures weights { query_weights result ≡ weights }
    {
        QueryWeight { query, weights }
    }
}

impl<'q, 'a, W: LeafWeights<'a>> SegmentWeight<'a> for QueryWeight<'q, W> {
    type Scorer = ScorerBy<'a, W>;

    ghost scores_by = { λ w sim. sim ≡ W.similarity w.weights };

    ghost query = { λ w. query_of w.query.now };

    fn scorer(
        &self,
        alloc: Global,
        reader: &SegmentReader<'a>,
        boost: Score,
    ) -> Result<ScorerBy<'a, W>, AllocError> {
        let forms = ReaderScorers::new(reader, &self.weights);
        scorer_of(alloc, &forms, self.query, boost as u64)
    }
}

impl<'q, 'a, W: LeafWeights<'a>> ScorerWeight<'a> for QueryWeight<'q, W> {
    fn description(&self) -> &'static str {
        "a query"
    }
}
