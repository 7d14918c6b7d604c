//! Walks down queries: all nodes in order, by calls that don't nest, however deep the tree is.

ghost use Rattle.std.specs.Prelude.{[], ◌++◌, ◌∷◌, ◌≡◌, IfOk, OnOk, map, reverse};
ghost use Rattle.query_trees.specs.Queries.{clauses_of, queries_of, query_of};
ghost use Rattle.query_trees.specs.Walks.{children, clauses_children, queries_list, seen, walk_back};

use crate::any_query::AnyQuery;
use crate::occur::Occur;
use std::alloc::{AllocError, Global};

/// Lists the nodes of the queries that are `waiting`, from the last of these to the first: each node before those
/// below it, which are in order.
pub(crate) fn all_nodes<'a>(
    alloc: Global,
    waiting: Vec<&'a AnyQuery>,
) -> Result<Vec<&'a AnyQuery>, AllocError>
    ensures { IfOk result (λ nodes. map seen nodes.items ≡ walk_back (map seen waiting.entry.items)) }
{
    let mut waiting = waiting;
    let mut nodes = Vec::new(alloc);
    while let Some(node) = waiting.pop() {
        push_children(&mut waiting, node)?;
        nodes.push(node)?;
    }
    Ok(nodes)
}

/// Appends the queries right below `node`, the first one last.
fn push_children<'a>(waiting: &mut Vec<&'a AnyQuery>, node: &'a AnyQuery) -> Result<(), AllocError>
    ensures { OnOk result (map seen waiting.new.items
        ≡ map seen waiting.old.items ++ reverse (children (query_of node.now))) }
{
    match node {
        AnyQuery::Boolean(query) => push_clauses(waiting, query.clauses()),
        AnyQuery::DisjunctionMax(query) => push_disjuncts(waiting, query.disjuncts()),
        AnyQuery::Boost(query) => push_query(waiting, query.query()),
        AnyQuery::ConstScore(query) => push_query(waiting, query.query()),
        AnyQuery::All(_)
        | AnyQuery::Empty(_)
        | AnyQuery::Term(_)
        | AnyQuery::Phrase(_)
        | AnyQuery::PhrasePrefix(_) => Ok(()),
    }
}

/// Appends the queries of `clauses`, the first one last.
pub(crate) fn push_clauses<'a>(
    waiting: &mut Vec<&'a AnyQuery>,
    clauses: &'a [(Occur, AnyQuery)],
) -> Result<(), AllocError>
    ensures { OnOk result (map seen waiting.new.items
        ≡ map seen waiting.old.items ++ reverse (clauses_children (clauses_of clauses.now))) }
{
    for (_occur, query) in clauses.iter().rev() {
        waiting.push(query)?;
    }
    Ok(())
}

/// Appends `disjuncts`, the first one last.
pub fn push_disjuncts<'a>(
    waiting: &mut Vec<&'a AnyQuery>,
    disjuncts: &'a [AnyQuery],
) -> Result<(), AllocError>
    ensures { OnOk result (map seen waiting.new.items
        ≡ map seen waiting.old.items ++ reverse (queries_list (queries_of disjuncts.now))) }
{
    for query in disjuncts.iter().rev() {
        waiting.push(query)?;
    }
    Ok(())
}

/// Appends `query`.
pub fn push_query<'a>(
    waiting: &mut Vec<&'a AnyQuery>,
    query: &'a AnyQuery,
) -> Result<(), AllocError>
    ensures { OnOk result (map seen waiting.new.items ≡ map seen waiting.old.items ++ (query_of query.now) ∷ []) }
{
    waiting.push(query)?;
    Ok(())
}
