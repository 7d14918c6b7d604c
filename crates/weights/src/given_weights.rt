//! The makers of the scorers of queries that hold no other, where scores may not be asked for.

ghost use Rattle.std.specs.Prelude.{◌≡◌, option_map};
ghost use Rattle.weights.specs.Given.{given_similarity};
ghost use Rattle.weights.specs.Unscored.{similarity_given};

use crate::no_scores::NoScores;
use leaf_weights::{WholePhrase, phrase_query_scorer, prefix_query_scorer, term_query_scorer};
use phrases::{PhrasePrefixScorer, PhraseScorer, PostingsWithOffset};
use query_trees::{PhrasePrefixQuery, PhraseQuery, TermQuery};
use reader_scorers::LeafWeights;
use segment_postings::SegmentPostings;
use segment_reader::SegmentReader;
use settings::Statistics;
use std::alloc::{AllocError, Global};
use term_scorer::TermScorer;

/// The weights of an index, from its statistics; without statistics no term weighs anything, and only matches are
/// promised.
#[derive(Drop)]
pub struct GivenWeights<'a, S> {
    statistics: Option<&'a S>,
}

impl<'a, S: Statistics> GivenWeights<'a, S> {
    /// Returns the weights from `statistics`.
    pub fn new(statistics: Option<&'a S>) -> GivenWeights<'a, S>
        ensures { given_similarity S.similarity result
            ≡ similarity_given S.similarity (option_map (λ s. s.now) statistics.entry) }
    {
        GivenWeights { statistics }
    }
}

impl<'a, S: Statistics> LeafWeights<'a> for GivenWeights<'a, S> {
    type Term = TermScorer<'a>;

    type Phrase = PhraseScorer<'a, PostingsWithOffset<SegmentPostings<'a>>>;

    type PhrasePrefix = PhrasePrefixScorer<WholePhrase<'a>, SegmentPostings<'a>>;

    ghost similarity = { given_similarity S.similarity };

    fn term_scorer(
        &self,
        reader: &SegmentReader<'a>,
        query: &TermQuery,
        boost: u64,
    ) -> Option<TermScorer<'a>> {
        match self.statistics {
            Some(statistics) => term_query_scorer(reader, statistics, query, boost),
            None => term_query_scorer(reader, &NoScores, query, boost),
        }
    }

    fn phrase_scorer(
        &self,
        alloc: Global,
        reader: &SegmentReader<'a>,
        query: &PhraseQuery,
        boost: u64,
    ) -> Result<Option<PhraseScorer<'a, PostingsWithOffset<SegmentPostings<'a>>>>, AllocError> {
        match self.statistics {
            Some(statistics) => phrase_query_scorer(alloc, reader, statistics, query, boost),
            None => phrase_query_scorer(alloc, reader, &NoScores, query, boost),
        }
    }

    fn phrase_prefix_scorer(
        &self,
        alloc: Global,
        reader: &SegmentReader<'a>,
        query: &PhrasePrefixQuery,
        boost: u64,
    ) -> Result<Option<PhrasePrefixScorer<WholePhrase<'a>, SegmentPostings<'a>>>, AllocError> {
        match self.statistics {
            Some(statistics) => prefix_query_scorer(alloc, reader, statistics, query, boost),
            None => prefix_query_scorer(alloc, reader, &NoScores, query, boost),
        }
    }
}
