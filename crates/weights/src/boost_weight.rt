//! The weight of a query with a boost.

ghost use Rattle.std.specs.Prelude.{◌*◌, ◌≡◌, ◌≤ℤ◌, ◌≤◌, pos};
ghost use Rattle.definitions.specs.Query as definitions;
ghost use Rattle.definitions.specs.Scoring.{max_score, natural};

use crate::scorer_weight::ScorerWeight;
use crate::weight::SegmentWeight;
use common::Score;
use segment_reader::SegmentReader;
use std::alloc::{AllocError, Global};

/// The weight of a query with a boost: it scores as another, times a factor.
#[derive(Drop)]
pub struct BoostWeight<W> {
    weight: W,
    boost: Score,
}

impl<W> BoostWeight<W> {
    ghost use Rattle.weights.specs.Boosted.{boost_in, boosted_in};

    /// Returns the weight that scores as `weight`, times `boost`.
    pub fn new(weight: W, boost: Score) -> BoostWeight<W>
        ensures weight { boosted_in result ≡ weight }
        ensures boost { boost_in result ≡ boost }
    {
        BoostWeight { weight, boost }
    }
}

impl<'a, W: SegmentWeight<'a>> SegmentWeight<'a> for BoostWeight<W> {
    type Scorer = W::Scorer;

    ghost scores_by = { λ w sim. W.scores_by w.weight sim };

    ghost query = { λ w. definitions.boost w.boost (W.query w.weight) };

    fn scorer(
        &self,
        alloc: Global,
        reader: &SegmentReader<'a>,
        boost: Score,
    ) -> Result<W::Scorer, AllocError> {
        let under = product(boost, self.boost);
        self.weight.scorer(alloc, reader, under)
    }
}

impl<'a, W: SegmentWeight<'a>> ScorerWeight<'a> for BoostWeight<W> {
    fn description(&self) -> &'static str {
        "a boost"
    }
}

/// Returns the product of `boost` and `factor`.
pub(crate) fn product(boost: Score, factor: Score) -> Score
    requires positive { pos 0 ≤ℤ boost }
    requires factor { pos 0 ≤ℤ factor }
    requires fits { natural boost * natural factor ≤ max_score }
    ensures positive { pos 0 ≤ℤ result }
    ensures small { result ≤ℤ pos max_score }
    ensures value { natural result ≡ natural boost * natural factor }
{
    (boost as u64 * factor as u64) as Score
}
