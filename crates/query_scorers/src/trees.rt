//! The scorers of queries of any form.

ghost use Rattle.std.specs.Prelude.{◌*◌, ◌≡◌, ◌≤ℤ◌, ◌≤◌, IfOk, map, pos};
ghost use Rattle.definitions.specs.Query as definitions;
ghost use Rattle.definitions.specs.Query.{clauses_depth, depth, queries_depth};
ghost use Rattle.definitions.specs.Scoring.{max_score, natural};
ghost use Rattle.query_scorers.specs.Asked.{asked, is_same};
ghost use Rattle.query_scorers.specs.Scores.{AllScore, Scores};
ghost use Rattle.query_trees.specs.Queries.{clauses_of, occur_of, queries_of, query_of};
ghost use Rattle.query_scorers.specs.Accepted.{AreAccepted, AreAcceptedClauses, IsAccepted};
ghost use Rattle.query_trees.specs.Walks.{queries_list};

use crate::segment_scorers::SegmentScorers;
use common::Score;
use docsets::Scorer;
use query_trees::{AnyQuery, Occur};
use std::alloc::{AllocError, Global};

/// Returns a scorer of the documents of a segment that match `query`, with their scores under `boost`. Calls nest as
/// deep as the tree.
#[cycle(scorer_of)]
pub fn scorer_of<F: SegmentScorers>(
    alloc: Global,
    forms: &F,
    query: &AnyQuery,
    boost: u64,
) -> Result<F::Scorer, AllocError>
    requires small { boost ≤ max_score }
    requires accepted { IsAccepted (F.similarity forms.now).weight boost (query_of query.now) }
    ensures { IfOk result (λ scorer. Scores (F.similarity forms.now) boost (query_of query.now) (F.segment forms.now)
        (F.Scorer.entries scorer)) }
{
    match query {
        AnyQuery::All(_) => Ok(forms.all_scorer(boost)),
        AnyQuery::Empty(_) => Ok(forms.empty_scorer(alloc)),
        AnyQuery::Term(query) => Ok(forms.term_scorer(alloc, query, boost)),
        AnyQuery::Phrase(query) => forms.phrase_scorer(alloc, query, boost),
        AnyQuery::PhrasePrefix(query) => forms.phrase_prefix_scorer(alloc, query, boost),
        AnyQuery::Boolean(query) => {
            let minimum = query.get_minimum_number_should_match();
            boolean_scorer(alloc, forms, query.clauses(), minimum, boost)
        }
        AnyQuery::DisjunctionMax(query) => {
            max_scorer(alloc, forms, query.disjuncts(), query.tie_breaker(), boost)
        }
        AnyQuery::Boost(query) => {
            boosted_scorer(alloc, forms, query.query(), query.boost(), boost)
        }
        AnyQuery::ConstScore(query) => {
            constant_scorer(alloc, forms, query.query(), query.score(), boost)
        }
    }
}

/// Returns a scorer of the documents that match `clauses`, and at least `minimum_number_should_match` of the `Should`
/// ones.
#[cycle(scorer_of)]
pub fn boolean_scorer<F: SegmentScorers>(
    alloc: Global,
    forms: &F,
    clauses: &[(Occur, AnyQuery)],
    minimum_number_should_match: usize,
    boost: u64,
) -> Result<F::Scorer, AllocError>
    requires small { boost ≤ max_score }
    requires accepted { IsAccepted (F.similarity forms.now).weight boost
        (definitions.boolean (clauses_of clauses.now) minimum_number_should_match) }
    ensures { IfOk result (λ scorer. Scores (F.similarity forms.now) boost
        (definitions.boolean (clauses_of clauses.now) minimum_number_should_match) (F.segment forms.now)
        (F.Scorer.entries scorer)) }
{
    let musts = scorers_asked(alloc, forms, clauses, Occur::Must, boost)?;
    let shoulds = scorers_asked(alloc, forms, clauses, Occur::Should, boost)?;
    let must_nots = scorers_asked(alloc, forms, clauses, Occur::MustNot, boost)?;
    forms.clauses_scorer(
        alloc,
        musts,
        shoulds,
        must_nots,
        minimum_number_should_match,
    )
}

/// Returns the scorers of the clauses that ask `occur`, in order.
#[cycle(scorer_of)]
pub fn scorers_asked<F: SegmentScorers>(
    alloc: Global,
    forms: &F,
    clauses: &[(Occur, AnyQuery)],
    occur: Occur,
    boost: u64,
) -> Result<Vec<F::Scorer>, AllocError>
    requires small { boost ≤ max_score }
    requires accepted { AreAcceptedClauses (F.similarity forms.now).weight boost (clauses_of clauses.now) }
    ensures { IfOk result (λ scorers. AllScore (F.similarity forms.now) boost (F.segment forms.now)
        (asked (occur_of occur) (clauses_of clauses.now)) (map F.Scorer.entries scorers.items)) }
{
    let mut scorers = Vec::new(alloc);
    for (asks, query) in clauses {
        if is_same(occur, *asks) {
            scorers.push(scorer_of(alloc, forms, query, boost)?)?;
        }
    }
    Ok(scorers)
}

/// Whether `one` and `other` ask the same.
fn is_same(one: Occur, other: Occur) -> bool
    ensures { result ≡ is_same (occur_of one) (occur_of other) }
{
    one == other
}

/// Returns a scorer of the documents that match one of `disjuncts`, by the best score and `tie_breaker` thousandths of
/// the others.
#[cycle(scorer_of)]
pub fn max_scorer<F: SegmentScorers>(
    alloc: Global,
    forms: &F,
    disjuncts: &[AnyQuery],
    tie_breaker: Score,
    boost: u64,
) -> Result<F::Scorer, AllocError>
    requires small { boost ≤ max_score }
    requires accepted { IsAccepted (F.similarity forms.now).weight boost
        (definitions.disjunction_max (queries_of disjuncts.now) tie_breaker) }
    ensures { IfOk result (λ scorer. Scores (F.similarity forms.now) boost
        (definitions.disjunction_max (queries_of disjuncts.now) tie_breaker) (F.segment forms.now)
        (F.Scorer.entries scorer)) }
{
    let scorers = scorers_of(alloc, forms, disjuncts, boost)?;
    forms.best_scorer(alloc, scorers, tie_breaker)
}

/// Returns the scorers of `queries`, in order.
#[cycle(scorer_of)]
pub fn scorers_of<F: SegmentScorers>(
    alloc: Global,
    forms: &F,
    queries: &[AnyQuery],
    boost: u64,
) -> Result<Vec<F::Scorer>, AllocError>
    requires small { boost ≤ max_score }
    requires accepted { AreAccepted (F.similarity forms.now).weight boost (queries_of queries.now) }
    ensures { IfOk result (λ scorers. AllScore (F.similarity forms.now) boost (F.segment forms.now)
        (queries_list (queries_of queries.now)) (map F.Scorer.entries scorers.items)) }
{
    let mut scorers = Vec::with_capacity(alloc, queries.len())?;
    for query in queries {
        scorers.push(scorer_of(alloc, forms, query, boost)?)?;
    }
    Ok(scorers)
}

/// Returns a scorer of the documents that match `query`, boosted once more by `factor`.
#[cycle(scorer_of)]
pub fn boosted_scorer<F: SegmentScorers>(
    alloc: Global,
    forms: &F,
    query: &AnyQuery,
    factor: Score,
    boost: u64,
) -> Result<F::Scorer, AllocError>
    requires small { boost ≤ max_score }
    requires accepted { IsAccepted (F.similarity forms.now).weight boost
        (definitions.boost factor (query_of query.now)) }
    ensures { IfOk result (λ scorer. Scores (F.similarity forms.now) boost
        (definitions.boost factor (query_of query.now)) (F.segment forms.now) (F.Scorer.entries scorer)) }
{
    scorer_of(alloc, forms, query, product(boost, factor))
}

/// Returns a scorer of the documents that match `query`, each with the score `constant` under `boost`.
#[cycle(scorer_of)]
pub fn constant_scorer<F: SegmentScorers>(
    alloc: Global,
    forms: &F,
    query: &AnyQuery,
    constant: Score,
    boost: u64,
) -> Result<F::Scorer, AllocError>
    requires small { boost ≤ max_score }
    requires accepted { IsAccepted (F.similarity forms.now).weight boost
        (definitions.const_score constant (query_of query.now)) }
    ensures { IfOk result (λ scorer. Scores (F.similarity forms.now) boost
        (definitions.const_score constant (query_of query.now)) (F.segment forms.now) (F.Scorer.entries scorer)) }
{
    let scorer = scorer_of(alloc, forms, query, boost)?;
    forms.constant_scorer(alloc, scorer, product(boost, constant))
}

/// Returns the product of `boost` and `factor`.
fn product(boost: u64, factor: Score) -> u64
    requires positive { pos 0 ≤ℤ factor }
    requires fits { boost * natural factor ≤ max_score }
    ensures { result ≡ boost * natural factor }
{
    boost * factor as u64
}
