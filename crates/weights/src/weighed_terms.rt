//! The weight of a term, asked in a segment.

ghost use Rattle.definitions.specs.Query.{term};
ghost use Rattle.leaf_weights.specs.TermWeights.{ScoresBy, option_asked, term_of};

use crate::found_scorer::FoundScorer;
use crate::scorer_weight::ScorerWeight;
use crate::weight::SegmentWeight;
use common::Score;
use leaf_weights::TermWeight;
use segment_reader::SegmentReader;
use std::alloc::{AllocError, Global};
use term_scorer::TermScorer;

impl<'q, 'a> SegmentWeight<'a> for TermWeight<'q, 'a> {
    type Scorer = FoundScorer<TermScorer<'a>>;

    ghost scores_by = { λ w sim. ScoresBy sim w };

    ghost query = { λ w. term (term_of w) (option_asked w) };

    fn scorer(
        &self,
        _alloc: Global,
        reader: &SegmentReader<'a>,
        boost: Score,
    ) -> Result<FoundScorer<TermScorer<'a>>, AllocError> {
        let found = self.term_scorer(reader, boost);
        Ok(FoundScorer::new(found))
    }
}

impl<'q, 'a> ScorerWeight<'a> for TermWeight<'q, 'a> {
    fn description(&self) -> &'static str {
        "a term"
    }
}
