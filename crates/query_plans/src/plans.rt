//! Plans of queries of any form.

ghost use Rattle.std.specs.Prelude.{◌*◌, ◌≡◌, ◌≤◌, IfOk, IfSome, if◌then◌else◌, pos, true};
ghost use Rattle.definitions.specs.Query as definitions;
ghost use Rattle.definitions.specs.Matching.{is_counted};
ghost use Rattle.definitions.specs.Query.{Query, clauses_depth, depth};
ghost use Rattle.definitions.specs.Scoring.{max_score, natural};
ghost use Rattle.query_plans.specs.Plans.{ArePlans, EachPlan, IsPlan, asked_for, asked_occur, is_itself, num_should};
ghost use Rattle.query_trees.specs.Queries.{clauses_of, occur_of, queries_of, query_of};

use crate::joined_clauses::push_clause;
use crate::raised_unions::{num_should, raised};
use common::MAX_SCORE;
use query_trees::{
    AnyQuery, BooleanQuery, BoostQuery, ConstScoreQuery, DisjunctionMaxQuery, Occur, QueryClone,
};
use std::alloc::{AllocError, Global};

/// The tie breaker by which a DisMax scores the sum of what it finds.
const WHOLE_TIE: i64 = 1000;

/// Returns a query that finds the same documents as `query`, with the same scores, in a form of which scorers leave more
/// out: boosts stand right above leaves, a Bool or a DisMax of one query is that query, a Bool gives its clauses to the
/// one around it where they may stand there, and a DisMax that adds scores is a Bool. Calls nest as deep as the tree.
pub fn plan(alloc: Global, query: &AnyQuery) -> Result<AnyQuery, AllocError>
    ensures { IfOk result (λ plan. IsPlan 1 (query_of query.now) (query_of plan)) }
{
    planned(alloc, query, 1)
}

/// Plans `query` under `boost`.
#[cycle(planned)]
fn planned(alloc: Global, query: &AnyQuery, boost: u64) -> Result<AnyQuery, AllocError>
    requires { boost ≤ max_score }
    ensures { IfOk result (λ plan. IsPlan boost (query_of query.now) (query_of plan)) }
{
    match query {
        AnyQuery::Boolean(inner) => planned_bool(
            alloc,
            inner.clauses(),
            inner.get_minimum_number_should_match(),
            boost,
        ),
        AnyQuery::DisjunctionMax(inner) => {
            planned_max(alloc, inner.disjuncts(), inner.tie_breaker(), boost)
        }
        AnyQuery::Boost(inner) => planned_boost(alloc, inner.query(), inner.boost(), boost),
        AnyQuery::ConstScore(inner) => planned_const(alloc, inner.query(), inner.score(), boost),
        AnyQuery::All(_)
        | AnyQuery::Empty(_)
        | AnyQuery::Term(_)
        | AnyQuery::Phrase(_)
        | AnyQuery::PhrasePrefix(_) => boosted(alloc, query.try_clone(alloc)?, boost),
    }
}

/// Plans a Bool of `clauses` under `boost`.
#[cycle(planned)]
fn planned_bool(
    alloc: Global,
    clauses: &[(Occur, AnyQuery)],
    minimum: usize,
    boost: u64,
) -> Result<AnyQuery, AllocError>
    requires { boost ≤ max_score }
    ensures { IfOk result (λ plan.
        IsPlan boost (definitions.boolean (clauses_of clauses.now) minimum) (query_of plan)) }
{
    if let Some(query) = only_clause(clauses, minimum) {
        return planned(alloc, query, boost);
    }
    let all = are_all_asked(clauses, minimum);
    let least = if all { 0 } else { minimum };
    let subqueries = planned_clauses(alloc, clauses, all, least, boost)?;
    raised(alloc, subqueries, least)
}

/// Returns the query of a Bool's only clause, where that is what the Bool asks.
fn only_clause(clauses: &[(Occur, AnyQuery)], minimum: usize) -> Option<&AnyQuery>
    ensures same { IfSome result (λ query.
        IsPlan 1 (definitions.boolean (clauses_of clauses.now) minimum) (query_of query.now)) }
    ensures below { IfSome result (λ query. depth (query_of query.now) ≤ clauses_depth (clauses_of clauses.now)) }
{
    if clauses.len() != 1 {
        return None;
    }
    let (occur, query) = &clauses[0];
    if is_itself(*occur, minimum) {
        return Some(query);
    }
    None
}

/// Whether a Bool of one clause that asks `occur` asks what the clause's query does.
fn is_itself(occur: Occur, minimum: usize) -> bool
    ensures { result ≡ is_itself minimum (occur_of occur) }
{
    match occur {
        Occur::Must => minimum == 0,
        Occur::Should => minimum <= 1,
        Occur::MustNot => false,
    }
}

/// Whether all of the `Should` clauses have to match, and there are some.
fn are_all_asked(clauses: &[(Occur, AnyQuery)], minimum: usize) -> bool
    ensures { result ≡ true → minimum ≡ num_should (clauses_of clauses.now) }
{
    minimum > 0 && minimum == num_should(clauses)
}

/// Plans the queries of `clauses`, in order, under `boost`; `all` says that each `Should` clause has to match, and at
/// least `least` of those that are left must. A Bool gives its clauses, where they may stand in its place.
#[cycle(planned)]
fn planned_clauses(
    alloc: Global,
    clauses: &[(Occur, AnyQuery)],
    all: bool,
    least: usize,
    boost: u64,
) -> Result<Vec<(Occur, AnyQuery)>, AllocError>
    requires { boost ≤ max_score }
    ensures { IfOk result (λ plans.
        ArePlans least boost (asked_for all (clauses_of clauses.now)) (clauses_of plans.items)) }
{
    let mut plans = Vec::with_capacity(alloc, clauses.len())?;
    for (occur, query) in clauses {
        let occur = asked_occur(all, *occur);
        let plan = planned(alloc, query, boost_below(occur, boost))?;
        push_clause(alloc, &mut plans, occur, plan, least)?;
    }
    Ok(plans)
}

/// Returns what a clause asks that asks `occur`, where `all` of the `Should` clauses have to match, or as it is.
fn asked_occur(all: bool, occur: Occur) -> Occur
    ensures { occur_of result ≡ asked_occur all (occur_of occur) }
{
    if all && occur == Occur::Should {
        return Occur::Must;
    }
    occur
}

/// Returns the boost of a clause that asks `occur`; what must not match earns nothing.
fn boost_below(occur: Occur, boost: u64) -> u64
    requires { boost ≤ max_score }
    ensures boost { result ≡ (if is_counted (occur_of occur) then boost else 1) }
    ensures small { result ≤ max_score }
{
    if occur == Occur::MustNot { 1 } else { boost }
}

/// Plans a DisMax of `disjuncts` under `boost`.
#[cycle(planned)]
fn planned_max(
    alloc: Global,
    disjuncts: &[AnyQuery],
    tie_breaker: i64,
    boost: u64,
) -> Result<AnyQuery, AllocError>
    requires { boost ≤ max_score }
    ensures { IfOk result (λ plan.
        IsPlan boost (definitions.disjunction_max (queries_of disjuncts.now) tie_breaker) (query_of plan)) }
{
    if let Some(query) = only_query(disjuncts) {
        return planned(alloc, query, boost);
    }
    if tie_breaker == WHOLE_TIE {
        return planned_sum(alloc, disjuncts, boost);
    }
    let queries = planned_queries(alloc, disjuncts, boost)?;
    Ok(AnyQuery::DisjunctionMax(DisjunctionMaxQuery::with_tie_breaker(queries, tie_breaker)))
}

/// Plans a DisMax of `disjuncts` under `boost` whose other scores count whole: a Bool of which one must match.
#[cycle(planned)]
fn planned_sum(alloc: Global, disjuncts: &[AnyQuery], boost: u64) -> Result<AnyQuery, AllocError>
    requires { boost ≤ max_score }
    ensures { IfOk result (λ plan. IsPlan boost
        (definitions.disjunction_max (queries_of disjuncts.now) (pos 1000)) (query_of plan)) }
{
    let mut plans = Vec::with_capacity(alloc, disjuncts.len())?;
    for query in disjuncts {
        let plan = planned(alloc, query, boost)?;
        push_clause(alloc, &mut plans, Occur::Should, plan, 1)?;
    }
    Ok(AnyQuery::Boolean(BooleanQuery::with_minimum_required_clauses(plans, 1)))
}

/// Returns the only one of `queries`.
fn only_query(queries: &[AnyQuery]) -> Option<&AnyQuery>
    ensures { IfSome result (λ query. queries_of queries.now ≡ definitions.query (query_of query.now) definitions.no_queries) }
{
    if queries.len() != 1 {
        return None;
    }
    Some(&queries[0])
}

/// Plans `queries`, in order, under `boost`.
#[cycle(planned)]
fn planned_queries(
    alloc: Global,
    queries: &[AnyQuery],
    boost: u64,
) -> Result<Vec<AnyQuery>, AllocError>
    requires { boost ≤ max_score }
    ensures { IfOk result (λ plans. EachPlan boost (queries_of queries.now) (queries_of plans.items)) }
{
    let mut plans = Vec::with_capacity(alloc, queries.len())?;
    for query in queries {
        plans.push(planned(alloc, query, boost)?)?;
    }
    Ok(plans)
}

/// Plans `query`, boosted by `factor`, under `boost`.
#[cycle(planned)]
fn planned_boost(
    alloc: Global,
    query: &AnyQuery,
    factor: i64,
    boost: u64,
) -> Result<AnyQuery, AllocError>
    requires { boost ≤ max_score }
    ensures { IfOk result (λ plan. IsPlan boost (definitions.boost factor (query_of query.now)) (query_of plan)) }
{
    match product(boost, factor) {
        Some(product) => planned(alloc, query, product),
        None => {
            let inner = planned(alloc, query, 1)?;
            boosted(
                alloc,
                AnyQuery::Boost(BoostQuery::new(alloc, inner, factor)?),
                boost,
            )
        }
    }
}

/// Returns the product of `boost` and `factor`, if that is a boost.
fn product(boost: u64, factor: i64) -> Option<u64>
    ensures { IfSome result (λ product. (product ≡ boost * natural factor) × (product ≤ max_score)) }
{
    if factor < 0 {
        return None;
    }
    let product = boost.checked_mul(factor as u64)?;
    if product > MAX_SCORE as u64 {
        return None;
    }
    Some(product)
}

/// Plans `query` with a constant `score`, under `boost`.
#[cycle(planned)]
fn planned_const(
    alloc: Global,
    query: &AnyQuery,
    score: i64,
    boost: u64,
) -> Result<AnyQuery, AllocError>
    requires { boost ≤ max_score }
    ensures { IfOk result (λ plan.
        IsPlan boost (definitions.const_score score (query_of query.now)) (query_of plan)) }
{
    let inner = planned(alloc, query, 1)?;
    boosted(
        alloc,
        AnyQuery::ConstScore(ConstScoreQuery::new(alloc, inner, score)?),
        boost,
    )
}

/// Boosts `query`.
fn boosted(alloc: Global, query: AnyQuery, boost: u64) -> Result<AnyQuery, AllocError>
    requires { boost ≤ max_score }
    ensures { (q : Query) → IsPlan 1 q (query_of query) → IfOk result (λ plan. IsPlan boost q (query_of plan)) }
{
    if boost == 1 {
        return Ok(query);
    }
    Ok(AnyQuery::Boost(BoostQuery::new(alloc, query, boost as i64)?))
}
