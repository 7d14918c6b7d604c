//! The weight of the query that no document matches.

ghost use Rattle.std.specs.Prelude.{⊤};
ghost use Rattle.definitions.specs.Query.{empty};

use crate::scorer_weight::ScorerWeight;
use crate::weight::SegmentWeight;
use common::Score;
use docsets::EmptyScorer;
use segment_reader::SegmentReader;
use std::alloc::{AllocError, Global};

/// The weight of the query that no document matches.
#[derive(Clone, Copy, Debug)]
pub struct EmptyWeight;

impl<'a> SegmentWeight<'a> for EmptyWeight {
    type Scorer = EmptyScorer;

    ghost scores_by = { λ w sim. ⊤ };

    ghost query = { λ w. empty };

    fn scorer(
        &self,
        _alloc: Global,
        _reader: &SegmentReader<'a>,
        _boost: Score,
    ) -> Result<EmptyScorer, AllocError> {
        Ok(EmptyScorer::new())
    }
}

impl<'a> ScorerWeight<'a> for EmptyWeight {
    fn description(&self) -> &'static str {
        "no document"
    }
}
