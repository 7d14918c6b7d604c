//! Copies of queries, made by calls that don't nest, however deep the tree is: all nodes are listed, and copied from
//! the last one on, each when those below it were.

ghost use Rattle.std.specs.Prelude.{[], ◌++◌, ◌<◌, ◌∷◌, ◌≡◌, IfOk, OnOk, length, map, take};
ghost use Rattle.query_trees.specs.Queries.{clauses_of, queries_of, query_of};
ghost use Rattle.query_trees.specs.Walks.{children, clauses_children, queries_list, seen, stack};

use crate::any_query::AnyQuery;
use crate::boolean_query::BooleanQuery;
use crate::boost_query::BoostQuery;
use crate::const_score_query::ConstScoreQuery;
use crate::disjunction_max_query::DisjunctionMaxQuery;
use crate::node_walks::{all_nodes, push_clauses, push_disjuncts, push_query};
use crate::occur::Occur;
use std::alloc::{AllocError, Global};

/// Copies a query.
#[tactic(auto, using(crate::proofs::CopiedNodes::one_there, crate::proofs::CopiedNodes::one_copy))]
pub(crate) fn copied_query(alloc: Global, query: &AnyQuery) -> Result<AnyQuery, AllocError>
    ensures { IfOk result (λ copy. copy ≡ query.now) }
{
    let mut waiting = Vec::new(alloc);
    push_query(&mut waiting, query)?;
    let mut copies = all_copied(alloc, waiting)?;
    Ok(last_copy(&mut copies))
}

/// Copies a boolean query.
#[tactic(auto, using(crate::proofs::CopiedNodes::all_taken))]
pub(crate) fn copied_boolean(
    alloc: Global,
    query: &BooleanQuery,
) -> Result<BooleanQuery, AllocError>
    ensures { IfOk result (λ copy. copy ≡ query.now) }
{
    let mut waiting = Vec::new(alloc);
    push_clauses(&mut waiting, query.clauses())?;
    let mut copies = all_copied(alloc, waiting)?;
    boolean_over(alloc, query, &mut copies)
}

/// Copies a query by the best score.
#[tactic(auto, using(crate::proofs::CopiedNodes::all_taken))]
pub(crate) fn copied_max(
    alloc: Global,
    query: &DisjunctionMaxQuery,
) -> Result<DisjunctionMaxQuery, AllocError>
    ensures { IfOk result (λ copy. copy ≡ query.now) }
{
    let mut waiting = Vec::new(alloc);
    push_disjuncts(&mut waiting, query.disjuncts())?;
    let mut copies = all_copied(alloc, waiting)?;
    max_over(alloc, query, &mut copies)
}

/// Copies a query with a boost.
pub(crate) fn copied_boost(alloc: Global, query: &BoostQuery) -> Result<BoostQuery, AllocError>
    ensures { IfOk result (λ copy. copy ≡ query.now) }
{
    let inner = copied_query(alloc, query.query())?;
    BoostQuery::new(alloc, inner, query.boost())
}

/// Copies a query with a constant score.
pub(crate) fn copied_const_score(
    alloc: Global,
    query: &ConstScoreQuery,
) -> Result<ConstScoreQuery, AllocError>
    ensures { IfOk result (λ copy. copy ≡ query.now) }
{
    let inner = copied_query(alloc, query.query())?;
    ConstScoreQuery::new(alloc, inner, query.score())
}

/// Copies the queries that are `waiting`, in order.
fn all_copied(alloc: Global, waiting: Vec<&AnyQuery>) -> Result<Vec<AnyQuery>, AllocError>
    ensures { IfOk result (λ copies. map query_of copies.items ≡ map seen waiting.entry.items) }
{
    let mut nodes = all_nodes(alloc, waiting)?;
    let mut copies = Vec::new(alloc);
    while let Some(node) = nodes.pop() {
        let copy = node_over(alloc, node, &mut copies)?;
        copies.push(copy)?;
    }
    Ok(copies)
}

/// Copies `node` over the last of `copies`, which are of the queries right below it, and of which the first is last.
fn node_over(
    alloc: Global,
    node: &AnyQuery,
    copies: &mut Vec<AnyQuery>,
) -> Result<AnyQuery, AllocError>
    requires { take (length (children (query_of node.now))) (stack copies.old.items) ≡ children (query_of node.now) }
    ensures copy { IfOk result (λ copy. query_of copy ≡ query_of node.now) }
    ensures rest { OnOk result (stack copies.old.items ≡ children (query_of node.now) ++ stack copies.new.items) }
{
    Ok(match node {
        AnyQuery::All(query) => AnyQuery::All(*query),
        AnyQuery::Empty(query) => AnyQuery::Empty(*query),
        AnyQuery::Term(query) => AnyQuery::Term(query.copied(alloc)?),
        AnyQuery::Phrase(query) => AnyQuery::Phrase(query.copied(alloc)?),
        AnyQuery::PhrasePrefix(query) => AnyQuery::PhrasePrefix(query.copied(alloc)?),
        AnyQuery::Boolean(query) => AnyQuery::Boolean(boolean_over(alloc, query, copies)?),
        AnyQuery::DisjunctionMax(query) => {
            AnyQuery::DisjunctionMax(max_over(alloc, query, copies)?)
        }
        AnyQuery::Boost(query) => AnyQuery::Boost(boost_over(alloc, query, copies)?),
        AnyQuery::ConstScore(query) => {
            AnyQuery::ConstScore(const_score_over(alloc, query, copies)?)
        }
    })
}

/// Copies a query with a boost over the last of `copies`, which is of the query that is boosted.
#[tactic(auto, using(crate::proofs::CopiedNodes::some_copy, crate::proofs::CopiedNodes::first_copied))]
fn boost_over(
    alloc: Global,
    query: &BoostQuery,
    copies: &mut Vec<AnyQuery>,
) -> Result<BoostQuery, AllocError>
    requires { take 1 (stack copies.old.items) ≡ query.now.0 ∷ [] }
    ensures copy { IfOk result (λ copy. copy ≡ query.now) }
    ensures rest { OnOk result (stack copies.old.items ≡ query.now.0 ∷ stack copies.new.items) }
{
    let inner = last_copy(copies);
    BoostQuery::new(alloc, inner, query.boost())
}

/// Copies a query with a constant score over the last of `copies`, which is of the query that the documents match.
#[tactic(auto, using(crate::proofs::CopiedNodes::some_copy, crate::proofs::CopiedNodes::first_copied))]
fn const_score_over(
    alloc: Global,
    query: &ConstScoreQuery,
    copies: &mut Vec<AnyQuery>,
) -> Result<ConstScoreQuery, AllocError>
    requires { take 1 (stack copies.old.items) ≡ query.now.0 ∷ [] }
    ensures copy { IfOk result (λ copy. copy ≡ query.now) }
    ensures rest { OnOk result (stack copies.old.items ≡ query.now.0 ∷ stack copies.new.items) }
{
    let inner = last_copy(copies);
    ConstScoreQuery::new(alloc, inner, query.score())
}

/// Copies a boolean query over the last of `copies`, which are of the queries of its clauses.
fn boolean_over(
    alloc: Global,
    query: &BooleanQuery,
    copies: &mut Vec<AnyQuery>,
) -> Result<BooleanQuery, AllocError>
    requires { take (length (clauses_children query.now.0)) (stack copies.old.items) ≡ clauses_children query.now.0 }
    ensures copy { IfOk result (λ copy. copy ≡ query.now) }
    ensures rest { OnOk result (stack copies.old.items ≡ clauses_children query.now.0 ++ stack copies.new.items) }
{
    let subqueries = clauses_over(alloc, query.clauses(), copies)?;
    Ok(BooleanQuery::with_minimum_required_clauses(
        subqueries,
        query.get_minimum_number_should_match(),
    ))
}

/// Copies a query by the best score over the last of `copies`, which are of its queries.
fn max_over(
    alloc: Global,
    query: &DisjunctionMaxQuery,
    copies: &mut Vec<AnyQuery>,
) -> Result<DisjunctionMaxQuery, AllocError>
    requires { take (length (queries_list query.now.0)) (stack copies.old.items) ≡ queries_list query.now.0 }
    ensures copy { IfOk result (λ copy. copy ≡ query.now) }
    ensures rest { OnOk result (stack copies.old.items ≡ queries_list query.now.0 ++ stack copies.new.items) }
{
    let disjuncts = queries_over(alloc, query.disjuncts(), copies)?;
    Ok(DisjunctionMaxQuery::with_tie_breaker(disjuncts, query.tie_breaker()))
}

/// Copies clauses, in order, over the last of `copies`.
fn clauses_over(
    alloc: Global,
    clauses: &[(Occur, AnyQuery)],
    copies: &mut Vec<AnyQuery>,
) -> Result<Vec<(Occur, AnyQuery)>, AllocError>
    requires { let queries = clauses_children (clauses_of clauses.now)
        in take (length queries) (stack copies.old.items) ≡ queries }
    ensures copies { IfOk result (λ copied. copied.items ≡ clauses.now) }
    ensures rest { OnOk result (stack copies.old.items
        ≡ clauses_children (clauses_of clauses.now) ++ stack copies.new.items) }
{
    let mut copied = Vec::with_capacity(alloc, clauses.len())?;
    for (occur, _query) in clauses {
        copied.push((*occur, last_copy(copies)))?;
    }
    Ok(copied)
}

/// Copies `queries`, in order, over the last of `copies`.
fn queries_over(
    alloc: Global,
    queries: &[AnyQuery],
    copies: &mut Vec<AnyQuery>,
) -> Result<Vec<AnyQuery>, AllocError>
    requires { let queries = queries_list (queries_of queries.now)
        in take (length queries) (stack copies.old.items) ≡ queries }
    ensures copies { IfOk result (λ copied. copied.items ≡ queries.now) }
    ensures rest { OnOk result (stack copies.old.items
        ≡ queries_list (queries_of queries.now) ++ stack copies.new.items) }
{
    let mut copied = Vec::with_capacity(alloc, queries.len())?;
    for _query in queries {
        copied.push(last_copy(copies))?;
    }
    Ok(copied)
}

/// Takes the last of `copies`.
fn last_copy(copies: &mut Vec<AnyQuery>) -> AnyQuery
    requires { 0 < length copies.old.items }
    ensures { stack copies.old.items ≡ query_of result ∷ stack copies.new.items }
{
    copies.pop().unwrap()
}
