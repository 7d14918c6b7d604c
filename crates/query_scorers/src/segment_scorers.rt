//! Makers of the scorers of each kind of query in a segment.

ghost use Rattle.std.specs.Prelude.{◌*◌, ◌+◌, ◌≡◌, ◌≤ℤ◌, ◌≤◌, IfOk, length, map, pos, ℕ, ℤ};
ghost use Rattle.definitions.specs.Query as definitions;
ghost use Rattle.definitions.specs.Scoring.{Similarity, max_score, natural};
ghost use Rattle.definitions.specs.Sinks.{fed};
ghost use Rattle.docsets.specs.Members.{greatest_sum};
ghost use Rattle.docsets.specs.ScoredEntries.{pairs_of};
ghost use Rattle.query_scorers.specs.Asked.{asked};
ghost use Rattle.query_scorers.specs.Scores.{AllScore, Scores};
ghost use Rattle.segment_reader.specs.declared.segment_reader.SegmentReader.{SegmentReader};
ghost use Rattle.query_scorers.specs.Accepted.{IsAccepted};
ghost use Rattle.query_trees.specs.Walks.{queries_list};

use common::Score;
use docsets::Scorer;
use query_trees::{PhrasePrefixQuery, PhraseQuery, TermQuery};
use std::alloc::{AllocError, Global};
use walks::Sink;

/// A maker of the scorers of each kind of query in a segment, by weights of terms and norms of lengths.
pub trait SegmentScorers {
    /// The scorer of a query of any kind.
    type Scorer: Scorer + Drop;

    // The weight of each term, and a norm for each length id.
    ghost similarity: { Self → Similarity };

    // The segment.
    ghost segment: { Self → SegmentReader };

    /// Returns a scorer of every document, by `boost`.
    fn all_scorer(&self, boost: u64) -> Self::Scorer
        requires { boost ≤ max_score }
        ensures { Scores (similarity self.now) boost definitions.all (segment self.now) (Self.Scorer.entries result) };

    /// Returns a scorer of no document.
    fn empty_scorer(&self, alloc: Global) -> Self::Scorer
        ensures { (b : ℕ)
            → Scores (similarity self.now) b definitions.empty (segment self.now) (Self.Scorer.entries result) };

    /// Returns a scorer of the documents that hold a term.
    fn term_scorer(&self, alloc: Global, query: &TermQuery, boost: u64) -> Self::Scorer
        requires small { boost ≤ max_score }
        requires accepted { IsAccepted (similarity self.now).weight boost
            (definitions.term query.now.0 query.now.1) }
        ensures { Scores (similarity self.now) boost (definitions.term query.now.0 query.now.1) (segment self.now)
            (Self.Scorer.entries result) };

    /// Returns a scorer of the documents where a phrase occurs.
    fn phrase_scorer(
        &self,
        alloc: Global,
        query: &PhraseQuery,
        boost: u64,
    ) -> Result<Self::Scorer, AllocError>
        requires small { boost ≤ max_score }
        requires accepted { IsAccepted (similarity self.now).weight boost
            (definitions.phrase query.now.0 query.now.1) }
        ensures { IfOk result (λ scorer. Scores (similarity self.now) boost
            (definitions.phrase query.now.0 query.now.1) (segment self.now) (Self.Scorer.entries scorer)) };

    /// Returns a scorer of the documents where terms that begin with a prefix follow whole terms.
    fn phrase_prefix_scorer(
        &self,
        alloc: Global,
        query: &PhrasePrefixQuery,
        boost: u64,
    ) -> Result<Self::Scorer, AllocError>
        requires small { boost ≤ max_score }
        requires accepted { IsAccepted (similarity self.now).weight boost
            (definitions.phrase_prefix query.now.0 query.now.1) }
        ensures { IfOk result (λ scorer. Scores (similarity self.now) boost
            (definitions.phrase_prefix query.now.0 query.now.1) (segment self.now) (Self.Scorer.entries scorer)) };

    /// Returns a scorer of the documents that match clauses, whose scorers are given by what the clauses ask.
    fn clauses_scorer(
        &self,
        alloc: Global,
        musts: Vec<Self::Scorer>,
        shoulds: Vec<Self::Scorer>,
        must_nots: Vec<Self::Scorer>,
        minimum_number_should_match: usize,
    ) -> Result<Self::Scorer, AllocError>
        requires fits { greatest_sum (map Self.Scorer.entries musts.items)
            + greatest_sum (map Self.Scorer.entries shoulds.items) ≤ max_score }
        ensures { (b : ℕ) (clauses : definitions.Clauses)
            → AllScore (similarity self.now) b (segment self.now) (asked definitions.must clauses)
            (map Self.Scorer.entries musts.items)
            → AllScore (similarity self.now) b (segment self.now) (asked definitions.should clauses)
            (map Self.Scorer.entries shoulds.items)
            → AllScore (similarity self.now) b (segment self.now) (asked definitions.must_not clauses)
            (map Self.Scorer.entries must_nots.items)
            → IfOk result (λ scorer. Scores (similarity self.now) b
            (definitions.boolean clauses minimum_number_should_match) (segment self.now)
            (Self.Scorer.entries scorer)) };

    /// Returns a scorer of the documents that match one of several queries, whose scorers are `disjuncts`, by the best
    /// score and `tie_breaker` thousandths of the others.
    fn best_scorer(
        &self,
        alloc: Global,
        disjuncts: Vec<Self::Scorer>,
        tie_breaker: Score,
    ) -> Result<Self::Scorer, AllocError>
        requires positive { pos 0 ≤ℤ tie_breaker }
        requires share { tie_breaker ≤ℤ pos 1000 }
        requires fits { greatest_sum (map Self.Scorer.entries disjuncts.items) ≤ max_score }
        ensures { (b : ℕ) (queries : definitions.Queries)
            → AllScore (similarity self.now) b (segment self.now) (queries_list queries)
            (map Self.Scorer.entries disjuncts.items)
            → IfOk result (λ scorer. Scores (similarity self.now) b
            (definitions.disjunction_max queries tie_breaker) (segment self.now) (Self.Scorer.entries scorer)) };

    /// Returns the documents of `scorer`, each with `score`, which is the boost times the constant.
    fn constant_scorer(
        &self,
        alloc: Global,
        scorer: Self::Scorer,
        score: u64,
    ) -> Result<Self::Scorer, AllocError>
        requires { score ≤ max_score }
        ensures { (b : ℕ) (constant : ℤ) (query : definitions.Query)
            → score ≡ b * natural constant
            → Scores (similarity self.now) b query (segment self.now) (Self.Scorer.entries scorer)
            → IfOk result (λ scored. Scores (similarity self.now) b (definitions.const_score constant query)
            (segment self.now) (Self.Scorer.entries scored)) };

    /// Feeds each document of `scorer` with its score to `sink`, in order, if the score is above the sink's threshold by
    /// then. The kind of scorer is looked at once, and not for each document.
    fn feed<K: Sink>(scorer: Self::Scorer, threshold: Score, sink: &mut K)
        requires threshold { threshold ≡ K.limit (K.state sink.old) }
        requires room { length (Self.Scorer.entries scorer) ≤ K.room sink.old }
        ensures { K.state sink.new
            ≡ fed K.limit K.taken (K.state sink.old) (pairs_of (Self.Scorer.entries scorer)) };
}
