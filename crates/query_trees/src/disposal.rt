//! How queries are let go: node by node, by calls that don't nest, however deep the tree is, and without asking for
//! memory.
//!
//! On the way down the first query of each list is taken out, and what is above the list is put in its place. On the
//! way up the last query of the list above is next; the first one of a list leads up to the list before.

ghost use Rattle.std.specs.Prelude.{◌+◌, ◌<◌, IfSome};
ghost use Rattle.query_trees.specs.Nodes.{clauses_above, clauses_nodes, nodes, nodes_above};
ghost use Rattle.query_trees.specs.Nodes.{queries_above, queries_nodes};
ghost use Rattle.query_trees.specs.Queries.{clauses_of, queries_of, query_of};

use crate::any_query::AnyQuery;
use crate::boolean_query::BooleanQuery;
use crate::disjunction_max_query::DisjunctionMaxQuery;
use crate::empty_query::EmptyQuery;
use crate::occur::Occur;
use std::mem;

/// Lets `query` go, with all below it.
pub(crate) fn let_go(query: AnyQuery) {
    let mut node = query;
    let mut above = AnyQuery::Empty(EmptyQuery);
    loop {
        match next_node(node, above) {
            Some((next, rest)) => {
                node = next;
                above = rest;
            }
            None => return,
        }
    }
}

/// Lets `node` go, and takes out the node that is next: its first child, or else the last one of those `above`.
fn next_node(node: AnyQuery, above: AnyQuery) -> Option<(AnyQuery, AnyQuery)>
    ensures { IfSome result (λ next. nodes (query_of next.0) + nodes_above (query_of next.1)
        < nodes (query_of node) + nodes_above (query_of above)) }
{
    match node {
        AnyQuery::Boolean(query) => first_clause(query.into_clauses(), above),
        AnyQuery::DisjunctionMax(query) => first_disjunct(query.into_disjuncts(), above),
        AnyQuery::Boost(query) => Some((query.into_query(), above)),
        AnyQuery::ConstScore(query) => Some((query.into_query(), above)),
        AnyQuery::All(_)
        | AnyQuery::Empty(_)
        | AnyQuery::Term(_)
        | AnyQuery::Phrase(_)
        | AnyQuery::PhrasePrefix(_) => last_above(above),
    }
}

/// Takes out the query of the first of `clauses`, and puts what is `above` in its place.
fn first_clause(clauses: Vec<(Occur, AnyQuery)>, above: AnyQuery) -> Option<(AnyQuery, AnyQuery)>
    ensures { IfSome result (λ next. nodes (query_of next.0) + nodes_above (query_of next.1)
        < 2 + clauses_nodes (clauses_of clauses.items) + nodes_above (query_of above)) }
{
    let mut clauses = clauses;
    if clauses.is_empty() {
        clauses.destroy_empty();
        return last_above(above);
    }
    let first = mem::replace(&mut clauses[0].1, above);
    let rest = BooleanQuery::with_minimum_required_clauses(clauses, 0);
    Some((first, AnyQuery::Boolean(rest)))
}

/// Takes out the first of `disjuncts`, and puts what is `above` in its place.
fn first_disjunct(disjuncts: Vec<AnyQuery>, above: AnyQuery) -> Option<(AnyQuery, AnyQuery)>
    ensures { IfSome result (λ next. nodes (query_of next.0) + nodes_above (query_of next.1)
        < 2 + queries_nodes (queries_of disjuncts.items) + nodes_above (query_of above)) }
{
    let mut disjuncts = disjuncts;
    if disjuncts.is_empty() {
        disjuncts.destroy_empty();
        return last_above(above);
    }
    let first = mem::replace(&mut disjuncts[0], above);
    let rest = DisjunctionMaxQuery::new(disjuncts);
    Some((first, AnyQuery::DisjunctionMax(rest)))
}

/// Takes out the last node of those `above`.
fn last_above(above: AnyQuery) -> Option<(AnyQuery, AnyQuery)>
    ensures { IfSome result (λ next. nodes (query_of next.0) + nodes_above (query_of next.1)
        < 1 + nodes_above (query_of above)) }
{
    match above {
        AnyQuery::Boolean(query) => last_clause(query.into_clauses()),
        AnyQuery::DisjunctionMax(query) => last_disjunct(query.into_disjuncts()),
        AnyQuery::Boost(query) => Some((query.into_query(), AnyQuery::Empty(EmptyQuery))),
        AnyQuery::ConstScore(query) => Some((query.into_query(), AnyQuery::Empty(EmptyQuery))),
        AnyQuery::All(_)
        | AnyQuery::Empty(_)
        | AnyQuery::Term(_)
        | AnyQuery::Phrase(_)
        | AnyQuery::PhrasePrefix(_) => None,
    }
}

/// Takes out the query of the last of `clauses`. The first of them is what is above the others.
fn last_clause(clauses: Vec<(Occur, AnyQuery)>) -> Option<(AnyQuery, AnyQuery)>
    ensures { IfSome result (λ next. nodes (query_of next.0) + nodes_above (query_of next.1)
        < 1 + clauses_above (clauses_of clauses.items)) }
{
    let mut clauses = clauses;
    let Some((_occur, last)) = clauses.pop() else {
        clauses.destroy_empty();
        return None;
    };
    if clauses.is_empty() {
        clauses.destroy_empty();
        return Some((AnyQuery::Empty(EmptyQuery), last));
    }
    let rest = BooleanQuery::with_minimum_required_clauses(clauses, 0);
    Some((last, AnyQuery::Boolean(rest)))
}

/// Takes out the last of `disjuncts`. The first of them is what is above the others.
fn last_disjunct(disjuncts: Vec<AnyQuery>) -> Option<(AnyQuery, AnyQuery)>
    ensures { IfSome result (λ next. nodes (query_of next.0) + nodes_above (query_of next.1)
        < 1 + queries_above (queries_of disjuncts.items)) }
{
    let mut disjuncts = disjuncts;
    let Some(last) = disjuncts.pop() else {
        disjuncts.destroy_empty();
        return None;
    };
    if disjuncts.is_empty() {
        disjuncts.destroy_empty();
        return Some((AnyQuery::Empty(EmptyQuery), last));
    }
    Some((
        last,
        AnyQuery::DisjunctionMax(DisjunctionMaxQuery::new(disjuncts)),
    ))
}
