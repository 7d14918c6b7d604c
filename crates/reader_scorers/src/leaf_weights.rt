//! Makers of the scorers of queries that hold no other in a segment.

ghost use Rattle.std.specs.Prelude.{[], ◌≤◌, IfNone, IfOk, IfSome};
ghost use Rattle.definitions.specs.Query as definitions;
ghost use Rattle.definitions.specs.Scoring.{Similarity, max_score};
ghost use Rattle.query_scorers.specs.Scores.{Scores};
ghost use Rattle.query_scorers.specs.Accepted.{IsAccepted};

use docsets::Scorer;
use query_trees::{PhrasePrefixQuery, PhraseQuery, TermQuery};
use segment_reader::SegmentReader;
use std::alloc::{AllocError, Global};

/// A maker of the scorers of terms, phrases and phrase prefixes in a segment, by weights of terms and norms of lengths.
pub trait LeafWeights<'a> {
    /// The scorer of a term.
    type Term: Scorer + Drop;

    /// The scorer of a phrase.
    type Phrase: Scorer + Drop;

    /// The scorer of a phrase prefix.
    type PhrasePrefix: Scorer + Drop;

    // The weight of each term, and a norm for each length id.
    ghost similarity: { Self → Similarity };

    /// Returns a scorer of the documents that hold a term; `None` if no document holds it.
    fn term_scorer(
        &self,
        reader: &SegmentReader<'a>,
        query: &TermQuery,
        boost: u64,
    ) -> Option<Self::Term>
        requires small { boost ≤ max_score }
        requires accepted { IsAccepted (similarity self.now).weight boost
            (definitions.term query.now.0 query.now.1) }
        ensures some { IfSome result (λ scorer. Scores (similarity self.now) boost
            (definitions.term query.now.0 query.now.1) reader.now (Self.Term.entries scorer)) }
        ensures none { IfNone result
            (Scores (similarity self.now) boost (definitions.term query.now.0 query.now.1) reader.now []) };

    /// Returns a scorer of the documents where a phrase occurs; `None` if one of its terms is in no document.
    fn phrase_scorer(
        &self,
        alloc: Global,
        reader: &SegmentReader<'a>,
        query: &PhraseQuery,
        boost: u64,
    ) -> Result<Option<Self::Phrase>, AllocError>
        requires small { boost ≤ max_score }
        requires accepted { IsAccepted (similarity self.now).weight boost
            (definitions.phrase query.now.0 query.now.1) }
        ensures some { IfOk result (λ found. IfSome found (λ scorer. Scores (similarity self.now) boost
            (definitions.phrase query.now.0 query.now.1) reader.now (Self.Phrase.entries scorer))) }
        ensures none { IfOk result (λ found. IfNone found
            (Scores (similarity self.now) boost (definitions.phrase query.now.0 query.now.1) reader.now [])) };

    /// Returns a scorer of the documents where terms that begin with a prefix follow whole terms; `None` if one of
    /// these is in no document.
    fn phrase_prefix_scorer(
        &self,
        alloc: Global,
        reader: &SegmentReader<'a>,
        query: &PhrasePrefixQuery,
        boost: u64,
    ) -> Result<Option<Self::PhrasePrefix>, AllocError>
        requires small { boost ≤ max_score }
        requires accepted { IsAccepted (similarity self.now).weight boost
            (definitions.phrase_prefix query.now.0 query.now.1) }
        ensures some { IfOk result (λ found. IfSome found (λ scorer. Scores (similarity self.now) boost
            (definitions.phrase_prefix query.now.0 query.now.1) reader.now (Self.PhrasePrefix.entries scorer))) }
        ensures none { IfOk result (λ found. IfNone found
            (Scores (similarity self.now) boost (definitions.phrase_prefix query.now.0 query.now.1) reader.now [])) };
}
