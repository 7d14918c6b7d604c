//! The scorers of queries that hold no other.

ghost use Rattle.std.specs.Prelude.{[], ◌≡◌, ◌≤◌, IfNone, IfOk, IfSome};
ghost use Rattle.definitions.specs.Query.{phrase, phrase_prefix, term};
ghost use Rattle.definitions.specs.Scoring.{max_score, weight_sum};
ghost use Rattle.query_scorers.specs.Scores.{Scores};
ghost use Rattle.term_scorer.specs.ScoredTerms.{scored_left};
ghost use Rattle.leaf_weights.specs.TermWeights.{ScoresBy, option_asked, term_of};
ghost use Rattle.query_scorers.specs.Accepted.{IsAccepted};
ghost use Rattle.leaf_weights.specs.Weighed.{under};

use crate::{PhrasePrefixWeight, PhraseWeight, TermWeight, WholePhrase};
use common::Score;
use docsets::DocSet;
use phrases::{PhrasePrefixScorer, PhraseScorer, PostingsWithOffset};
use query_trees::{PhrasePrefixQuery, PhraseQuery, TermQuery};
use segment_postings::SegmentPostings;
use segment_reader::SegmentReader;
use settings::Statistics;
use std::alloc::{AllocError, Global};
use term_scorer::TermScorer;
use terms::Term;

/// Returns the sum of the weights of `terms`, repeats counted.
pub fn sum_of_weights<S: Statistics>(statistics: &S, terms: &[(usize, Term)]) -> u64
    requires { weight_sum (S.similarity statistics.now).weight terms.now ≤ max_score }
    ensures { result ≡ weight_sum (S.similarity statistics.now).weight terms.now }
{
    let mut sum = 0;
    for (_offset, term) in terms {
        sum += statistics.weight_of(term);
    }
    sum
}

/// Returns the weight of the terms of a phrase under `boost`: 0 if the boost is 0, which no score shows.
fn weight_under<S: Statistics>(statistics: &S, terms: &[(usize, Term)], boost: u64) -> u64
    requires { 1 ≤ boost → weight_sum (S.similarity statistics.now).weight terms.now ≤ max_score }
    ensures { result ≡ weight_sum (under boost (S.similarity statistics.now)).weight terms.now }
{
    if boost == 0 {
        return 0;
    }
    sum_of_weights(statistics, terms)
}

/// Returns the weight of a term, by `statistics`.
pub fn weigh_term<'q, 'a, S: Statistics>(
    query: &'q TermQuery,
    statistics: &'a S,
) -> TermWeight<'q, 'a>
    ensures term { term_of result ≡ query.now.0 }
    ensures option { option_asked result ≡ query.now.1 }
    ensures scores { ScoresBy (S.similarity statistics.now) result }
{
    let term = query.term();
    let weight = statistics.weight_of(term);
    TermWeight::new(
        term,
        query.index_record_option(),
        weight,
        statistics.norms(),
    )
}

/// Returns a scorer of the documents that hold a term, with their scores under `boost`; `None` if no document holds it.
pub fn term_query_scorer<'a, S: Statistics>(
    reader: &SegmentReader<'a>,
    statistics: &'a S,
    query: &TermQuery,
    boost: u64,
) -> Option<TermScorer<'a>>
    requires small { boost ≤ max_score }
    requires accepted { IsAccepted (S.similarity statistics.now).weight boost (term query.now.0 query.now.1) }
    ensures some { IfSome result (λ scorer. Scores (S.similarity statistics.now) boost
        (term query.now.0 query.now.1) reader.now (scored_left scorer)) }
    ensures none { IfNone result
        (Scores (S.similarity statistics.now) boost (term query.now.0 query.now.1) reader.now []) }
{
    weigh_term(query, statistics).term_scorer(reader, boost as Score)
}

/// Returns a scorer of the documents where a phrase occurs, with their scores under `boost`; `None` if one of its terms
/// is in no document.
pub fn phrase_query_scorer<'a, S: Statistics>(
    alloc: Global,
    reader: &SegmentReader<'a>,
    statistics: &'a S,
    query: &PhraseQuery,
    boost: u64,
) -> Result<Option<PhraseScorer<'a, PostingsWithOffset<SegmentPostings<'a>>>>, AllocError>
    requires small { boost ≤ max_score }
    requires accepted { IsAccepted (S.similarity statistics.now).weight boost (phrase query.now.0 query.now.1) }
    ensures some { IfOk result (λ found. IfSome found (λ scorer. Scores (S.similarity statistics.now) boost
        (phrase query.now.0 query.now.1) reader.now
        (⟦<PhraseScorer<'a, PostingsWithOffset<SegmentPostings<'a>>> as DocSet>⟧.entries scorer))) }
    ensures none { IfOk result (λ found. IfNone found
        (Scores (S.similarity statistics.now) boost (phrase query.now.0 query.now.1) reader.now [])) }
{
    let norms = statistics.norms();
    let weight = weight_under(statistics, query.terms(), boost);
    let phrase = PhraseWeight::new(query.terms(), query.slop(), weight, norms);
    phrase.phrase_scorer(alloc, reader, boost as Score)
}

/// Returns a scorer of the documents where terms that begin with a prefix follow whole terms, with their scores under
/// `boost`; `None` if one of the whole terms is in no document.
pub fn prefix_query_scorer<'a, S: Statistics>(
    alloc: Global,
    reader: &SegmentReader<'a>,
    statistics: &'a S,
    query: &PhrasePrefixQuery,
    boost: u64,
) -> Result<Option<PhrasePrefixScorer<WholePhrase<'a>, SegmentPostings<'a>>>, AllocError>
    requires small { boost ≤ max_score }
    requires accepted { IsAccepted (S.similarity statistics.now).weight boost
        (phrase_prefix query.now.0 query.now.1) }
    ensures some { IfOk result (λ found. IfSome found (λ scorer. Scores (S.similarity statistics.now) boost
        (phrase_prefix query.now.0 query.now.1) reader.now
        (⟦<PhrasePrefixScorer<WholePhrase<'a>, SegmentPostings<'a>> as DocSet>⟧.entries scorer))) }
    ensures none { IfOk result (λ found. IfNone found
        (Scores (S.similarity statistics.now) boost (phrase_prefix query.now.0 query.now.1) reader.now [])) }
{
    let norms = statistics.norms();
    let weight = weight_under(statistics, query.whole_terms(), boost);
    let phrase = PhrasePrefixWeight::new(query.terms(), query.max_expansions(), weight, norms);
    phrase.phrase_prefix_scorer(alloc, reader, boost as Score)
}
