//! The weights of phrases and of phrase prefixes, asked in a segment.

ghost use Rattle.definitions.specs.Query.{phrase, phrase_prefix};
ghost use Rattle.leaf_weights.specs.PhrasePrefixWeights.{ScoresPrefixBy, limit_of, prefix_terms_of};
ghost use Rattle.leaf_weights.specs.PhraseWeights.{ScoresBy, slop_of, terms_of};

use crate::found_scorer::FoundScorer;
use crate::scorer_weight::ScorerWeight;
use crate::weight::SegmentWeight;
use common::Score;
use leaf_weights::{PhrasePrefixWeight, PhraseWeight, WholePhrase};
use phrases::{PhrasePrefixScorer, PhraseScorer, PostingsWithOffset};
use segment_postings::SegmentPostings;
use segment_reader::SegmentReader;
use std::alloc::{AllocError, Global};

/// The scorer of a phrase, if all its terms are in a segment.
type FoundPhrase<'a> = FoundScorer<PhraseScorer<'a, PostingsWithOffset<SegmentPostings<'a>>>>;

/// The scorer of a phrase prefix, if all whole terms are in a segment.
type FoundPrefix<'a> = FoundScorer<PhrasePrefixScorer<WholePhrase<'a>, SegmentPostings<'a>>>;

impl<'q, 'a> SegmentWeight<'a> for PhraseWeight<'q, 'a> {
    type Scorer = FoundPhrase<'a>;

    ghost scores_by = { λ w sim. ScoresBy sim w };

    ghost query = { λ w. phrase (terms_of w) (slop_of w) };

    fn scorer(
        &self,
        alloc: Global,
        reader: &SegmentReader<'a>,
        boost: Score,
    ) -> Result<FoundPhrase<'a>, AllocError> {
        let found = self.phrase_scorer(alloc, reader, boost)?;
        Ok(FoundScorer::new(found))
    }
}

impl<'q, 'a> ScorerWeight<'a> for PhraseWeight<'q, 'a> {
    fn description(&self) -> &'static str {
        "a phrase"
    }
}

impl<'q, 'a> SegmentWeight<'a> for PhrasePrefixWeight<'q, 'a> {
    type Scorer = FoundPrefix<'a>;

    ghost scores_by = { λ w sim. ScoresPrefixBy sim w };

    ghost query = { λ w. phrase_prefix (prefix_terms_of w) (limit_of w) };

    fn scorer(
        &self,
        alloc: Global,
        reader: &SegmentReader<'a>,
        boost: Score,
    ) -> Result<FoundPrefix<'a>, AllocError> {
        let found = self.phrase_prefix_scorer(alloc, reader, boost)?;
        Ok(FoundScorer::new(found))
    }
}

impl<'q, 'a> ScorerWeight<'a> for PhrasePrefixWeight<'q, 'a> {
    fn description(&self) -> &'static str {
        "a phrase with a prefix"
    }
}
