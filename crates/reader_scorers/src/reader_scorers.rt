//! The maker of the scorers of any query in a segment.

ghost use Rattle.std.specs.Prelude.{◌+◌, ◌≡◌, ◌≤ℤ◌, ◌≤◌, IfOk, map, pos, ℕ};
ghost use Rattle.definitions.specs.Query as definitions;
ghost use Rattle.definitions.specs.Scoring.{max_score};
ghost use Rattle.docsets.specs.Members.{greatest_sum};
ghost use Rattle.query_scorers.specs.Asked.{asked};
ghost use Rattle.query_scorers.specs.Scores.{AllScore, Scores};
ghost use Rattle.query_trees.specs.Walks.{queries_list};

use crate::leaf_weights::LeafWeights;
use crate::scorer_walks::feed_any;
use crate::terms_alone::{are_terms, into_terms};
use any_scorer::{
    AnyScorer, of_all, of_list, of_none, of_phrase, of_phrase_prefix, of_term, with_score,
};
use common::{DocId, Score};
use docsets::{AllScorer, BoostScorer, DocSet};
use query_scorers::{SegmentScorers, all_scorer, best_scorer, clauses_scorer};
use query_trees::{PhrasePrefixQuery, PhraseQuery, TermQuery};
use segment_reader::SegmentReader;
use std::alloc::{AllocError, Global};
use walks::Sink;

/// The scorer of a query of any kind, by weights.
pub type ScorerBy<'a, W> = AnyScorer<
    BoostScorer<AllScorer>,
    <W as LeafWeights<'a>>::Term,
    <W as LeafWeights<'a>>::Phrase,
    <W as LeafWeights<'a>>::PhrasePrefix,
>;

/// A segment, and the maker of the scorers of queries that hold no other in it.
#[derive(Drop)]
pub struct ReaderScorers<'r, 'a, W: LeafWeights<'a>> {
    pub reader: &'r SegmentReader<'a>,
    weights: &'r W,
}

impl<'r, 'a, W: LeafWeights<'a>> ReaderScorers<'r, 'a, W> {
    ghost use Rattle.definitions.specs.Postings.{terminated};
    ghost use Rattle.reader_scorers.specs.Scored.{segment_scored, weights_of};
    ghost use Rattle.segment_reader.specs.SegmentReaders.{max_doc_of};

    /// Returns the maker of the scorers in `reader`, by `weights`.
    pub fn new(reader: &'r SegmentReader<'a>, weights: &'r W) -> ReaderScorers<'r, 'a, W>
        ensures segment { segment_scored result ≡ reader.now }
        ensures weights { weights_of result ≡ weights.now }
    {
        ReaderScorers { reader, weights }
    }

    /// Returns the number of documents of the segment, dead or alive.
    pub fn max_doc(&self) -> DocId
        ensures value { result ≡ max_doc_of (segment_scored self.now) }
        ensures few { result ≤ terminated }
    {
        self.reader.max_doc()
    }
}

impl<'r, 'a, W: LeafWeights<'a>> SegmentScorers for ReaderScorers<'r, 'a, W> {
    type Scorer = ScorerBy<'a, W>;

    ghost similarity = { λ s. W.similarity s.weights.now };

    ghost segment = { λ s. s.reader.now };

    fn all_scorer(&self, boost: u64) -> ScorerBy<'a, W> {
        of_all(all_scorer(self.reader, boost as Score))
    }

    fn empty_scorer(&self, alloc: Global) -> ScorerBy<'a, W> {
        of_none(alloc)
    }

    fn term_scorer(&self, alloc: Global, query: &TermQuery, boost: u64) -> ScorerBy<'a, W> {
        let found = self.weights.term_scorer(self.reader, query, boost);
        of_term(alloc, found)
    }

    fn phrase_scorer(
        &self,
        alloc: Global,
        query: &PhraseQuery,
        boost: u64,
    ) -> Result<ScorerBy<'a, W>, AllocError> {
        let found = self
            .weights
            .phrase_scorer(alloc, self.reader, query, boost)?;
        Ok(of_phrase(alloc, found))
    }

    fn phrase_prefix_scorer(
        &self,
        alloc: Global,
        query: &PhrasePrefixQuery,
        boost: u64,
    ) -> Result<ScorerBy<'a, W>, AllocError> {
        let found = self
            .weights
            .phrase_prefix_scorer(alloc, self.reader, query, boost)?;
        Ok(of_phrase_prefix(alloc, found))
    }

    fn clauses_scorer(
        &self,
        alloc: Global,
        musts: Vec<ScorerBy<'a, W>>,
        shoulds: Vec<ScorerBy<'a, W>>,
        must_nots: Vec<ScorerBy<'a, W>>,
        minimum_number_should_match: usize,
    ) -> Result<ScorerBy<'a, W>, AllocError>
        requires fits { greatest_sum (map ⟦<ScorerBy<'a, W> as DocSet>⟧.entries musts.items)
            + greatest_sum (map ⟦<ScorerBy<'a, W> as DocSet>⟧.entries shoulds.items) ≤ max_score }
        ensures { (b : ℕ) (clauses : definitions.Clauses)
            → AllScore (W.similarity self.now.weights.now) b self.now.reader.now (asked definitions.must clauses)
            (map ⟦<ScorerBy<'a, W> as DocSet>⟧.entries musts.items)
            → AllScore (W.similarity self.now.weights.now) b self.now.reader.now (asked definitions.should clauses)
            (map ⟦<ScorerBy<'a, W> as DocSet>⟧.entries shoulds.items)
            → AllScore (W.similarity self.now.weights.now) b self.now.reader.now (asked definitions.must_not clauses)
            (map ⟦<ScorerBy<'a, W> as DocSet>⟧.entries must_nots.items)
            → IfOk result (λ scorer. Scores (W.similarity self.now.weights.now) b
            (definitions.boolean clauses minimum_number_should_match) self.now.reader.now
            (⟦<ScorerBy<'a, W> as DocSet>⟧.entries scorer)) }
    {
        let minimum = minimum_number_should_match;
        if are_terms(&musts) && are_terms(&shoulds) && are_terms(&must_nots) {
            // Then each move and each score is that of a term, without a match on the form of the scorer.
            let list = clauses_scorer(
                alloc,
                into_terms(alloc, musts)?,
                into_terms(alloc, shoulds)?,
                into_terms(alloc, must_nots)?,
                minimum,
                self.reader,
            )?;
            return Ok(of_list(list));
        }
        let list = clauses_scorer(alloc, musts, shoulds, must_nots, minimum, self.reader)?;
        Ok(of_list(list))
    }

    fn best_scorer(
        &self,
        alloc: Global,
        disjuncts: Vec<ScorerBy<'a, W>>,
        tie_breaker: Score,
    ) -> Result<ScorerBy<'a, W>, AllocError>
        requires positive { pos 0 ≤ℤ tie_breaker }
        requires share { tie_breaker ≤ℤ pos 1000 }
        requires fits { greatest_sum (map ⟦<ScorerBy<'a, W> as DocSet>⟧.entries disjuncts.items) ≤ max_score }
        ensures { (b : ℕ) (queries : definitions.Queries)
            → AllScore (W.similarity self.now.weights.now) b self.now.reader.now (queries_list queries)
            (map ⟦<ScorerBy<'a, W> as DocSet>⟧.entries disjuncts.items)
            → IfOk result (λ scorer. Scores (W.similarity self.now.weights.now) b
            (definitions.disjunction_max queries tie_breaker) self.now.reader.now
            (⟦<ScorerBy<'a, W> as DocSet>⟧.entries scorer)) }
    {
        let list = best_scorer(alloc, disjuncts, tie_breaker, self.reader)?;
        Ok(of_list(list))
    }

    fn constant_scorer(
        &self,
        alloc: Global,
        scorer: ScorerBy<'a, W>,
        score: u64,
    ) -> Result<ScorerBy<'a, W>, AllocError> {
        with_score(alloc, scorer, score)
    }

    fn feed<K: Sink>(scorer: ScorerBy<'a, W>, threshold: Score, sink: &mut K) {
        feed_any(scorer, threshold, sink)
    }
}
