//! The weight of a query of any form with a constant score.

ghost use Rattle.std.specs.Prelude.{◌≡◌};
ghost use Rattle.definitions.specs.Query as definitions;
ghost use Rattle.query_trees.specs.Queries.{query_of};

use crate::scorer_weight::ScorerWeight;
use crate::weight::SegmentWeight;
use common::Score;
use query_scorers::constant_scorer;
use query_trees::AnyQuery;
use reader_scorers::{LeafWeights, ReaderScorers, ScorerBy};
use segment_reader::SegmentReader;
use std::alloc::{AllocError, Global};

/// The weight of a query of any form with a constant score. The query is borrowed; `weights` makes the scorers of its
/// leaves.
#[derive(Drop)]
pub struct ConstScoreWeight<'q, W> {
    query: &'q AnyQuery,
    score: Score,
    weights: W,
}

impl<'q, W> ConstScoreWeight<'q, W> {
    ghost use Rattle.weights.specs.Trees.{constant_in, constant_query_in, constant_weights};

    /// Returns the weight of `query` with `score`, by `weights`.
    pub fn new(query: &'q AnyQuery, score: Score, weights: W) -> ConstScoreWeight<'q, W>
        ensures query { constant_query_in result ≡ query_of query.now }
        ensures score { constant_in result ≡ score }
        ensures weights { constant_weights result ≡ weights }
    {
        ConstScoreWeight {
            query,
            score,
            weights,
        }
    }
}

impl<'q, 'a, W: LeafWeights<'a>> SegmentWeight<'a> for ConstScoreWeight<'q, W> {
    type Scorer = ScorerBy<'a, W>;

    ghost scores_by = { λ w sim. sim ≡ W.similarity w.weights };

    ghost query = { λ w. definitions.const_score w.score (query_of w.query.now) };

    fn scorer(
        &self,
        alloc: Global,
        reader: &SegmentReader<'a>,
        boost: Score,
    ) -> Result<ScorerBy<'a, W>, AllocError> {
        let forms = ReaderScorers::new(reader, &self.weights);
        let constant = self.score;
        constant_scorer(alloc, &forms, self.query, constant, boost as u64)
    }
}

impl<'q, 'a, W: LeafWeights<'a>> ScorerWeight<'a> for ConstScoreWeight<'q, W> {
    fn description(&self) -> &'static str {
        "a constant"
    }
}
