//! The weight of a query with a constant score.

ghost use Rattle.std.specs.Prelude.{◌≡◌};
ghost use Rattle.definitions.specs.Query as definitions;

use crate::boost_weight::product;
use crate::scorer_weight::ScorerWeight;
use crate::weight::SegmentWeight;
use common::Score;
use docsets::ConstScorer;
use segment_reader::SegmentReader;
use std::alloc::{AllocError, Global};

/// The weight of a query with a constant score: it finds the documents of another, each with the same score.
#[derive(Drop)]
pub struct ConstWeight<W> {
    weight: W,
    score: Score,
}

impl<W> ConstWeight<W> {
    ghost use Rattle.weights.specs.Boosted.{score_in, scored_in};

    /// Returns the weight that finds the documents of `weight`, each with `score`.
    pub fn new(weight: W, score: Score) -> ConstWeight<W>
        ensures weight { scored_in result ≡ weight }
        ensures score { score_in result ≡ score }
    {
        ConstWeight { weight, score }
    }
}

impl<'a, W: SegmentWeight<'a>> SegmentWeight<'a> for ConstWeight<W> {
    type Scorer = ConstScorer<W::Scorer>;

    ghost scores_by = { λ w sim. W.scores_by w.weight sim };

    ghost query = { λ w. definitions.const_score w.score (W.query w.weight) };

    fn scorer(
        &self,
        alloc: Global,
        reader: &SegmentReader<'a>,
        boost: Score,
    ) -> Result<ConstScorer<W::Scorer>, AllocError> {
        let score = product(boost, self.score);
        let scorer = self.weight.scorer(alloc, reader, boost)?;
        Ok(ConstScorer::new(scorer, score))
    }
}

impl<'a, W: SegmentWeight<'a>> ScorerWeight<'a> for ConstWeight<W> {
    fn description(&self) -> &'static str {
        "a constant"
    }
}
