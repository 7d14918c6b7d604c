//! Clauses side by side, and the query that they make.

ghost use Rattle.std.specs.Prelude.{◌++◌, ◌≡◌, IfOk, OnOk, map};
ghost use Rattle.query_text.specs.Clauses.{clause_of};
ghost use Rattle.query_text.specs.Groups.{alternative_of};
ghost use Rattle.query_text.specs.Reading as definitions;
ghost use Rattle.query_trees.specs.Queries.{occur_of, query_of};

use query_trees::{AllQuery, AnyQuery, BooleanQuery, Occur, with_occur};
use std::alloc::{AllocError, Global};

/// Clauses that stand side by side, by their marks.
#[derive(Drop)]
pub(crate) struct Alternative {
    required: Vec<AnyQuery>,
    unmarked: Vec<AnyQuery>,
    excluded: Vec<AnyQuery>,
}

/// Makes an alternative without clauses.
pub(crate) fn nothing_asked(alloc: Global) -> Alternative
    ensures { alternative_of result ≡ definitions.nothing_asked }
{
    Alternative {
        required: Vec::new(alloc),
        unmarked: Vec::new(alloc),
        excluded: Vec::new(alloc),
    }
}

/// Appends a clause.
pub(crate) fn with_clause(
    alternative: Alternative,
    occur: Occur,
    query: AnyQuery,
) -> Result<Alternative, AllocError>
    ensures { IfOk result (λ longer. alternative_of longer
        ≡ definitions.with_clause (occur_of occur) (query_of query) (alternative_of alternative)) }
{
    let Alternative {
        mut required,
        mut unmarked,
        mut excluded,
    } = alternative;
    match occur {
        Occur::Must => required.push(query)?,
        Occur::Should => unmarked.push(query)?,
        Occur::MustNot => excluded.push(query)?,
    }
    Ok(Alternative {
        required,
        unmarked,
        excluded,
    })
}

/// Whether there is no clause.
pub(crate) fn is_empty(alternative: &Alternative) -> bool
    ensures { result ≡ definitions.is_empty (alternative_of alternative.now) }
{
    alternative.required.is_empty()
        && alternative.unmarked.is_empty()
        && alternative.excluded.is_empty()
}

/// Makes the query of the clauses of `alternative`.
pub(crate) fn alternative_query(
    alloc: Global,
    alternative: Alternative,
) -> Result<AnyQuery, AllocError>
    ensures { IfOk result (λ query. query_of query
        ≡ definitions.query_of (definitions.clauses_of (alternative_of alternative))) }
{
    let mut clauses = all_others(alloc, &alternative)?;
    let unmarked_occur = unmarked_occur(&alternative);
    let Alternative {
        required,
        unmarked,
        excluded,
    } = alternative;
    push_clauses(alloc, &mut clauses, Occur::Must, required)?;
    push_clauses(alloc, &mut clauses, unmarked_occur, unmarked)?;
    push_clauses(alloc, &mut clauses, Occur::MustNot, excluded)?;
    Ok(query_of_clauses(clauses))
}

/// Makes a clause that every document matches, if `alternative` only says which documents don't match.
fn all_others(
    alloc: Global,
    alternative: &Alternative,
) -> Result<Vec<(Occur, AnyQuery)>, AllocError>
    ensures { IfOk result (λ clauses. map clause_of clauses.items
        ≡ definitions.all_others (alternative_of alternative.now)) }
{
    let mut clauses = Vec::new(alloc);
    if alternative.required.is_empty() && alternative.unmarked.is_empty() {
        clauses.push((Occur::Must, AnyQuery::All(AllQuery)))?;
    }
    Ok(clauses)
}

/// Returns what clauses without a mark ask of documents.
fn unmarked_occur(alternative: &Alternative) -> Occur
    ensures { occur_of result ≡ definitions.unmarked_occur (alternative_of alternative.now) }
{
    if alternative.required.is_empty() {
        Occur::Must
    } else {
        Occur::Should
    }
}

/// Makes the query for documents that match one of `queries`.
pub(crate) fn any_of(alloc: Global, queries: Vec<AnyQuery>) -> Result<AnyQuery, AllocError>
    ensures { IfOk result (λ query. query_of query ≡ definitions.any_of (map query_of queries.items)) }
{
    let clauses = asked_clauses(alloc, Occur::Should, queries)?;
    Ok(query_of_clauses(clauses))
}

/// Makes the query of `clauses`; one clause is its query.
#[tactic(auto, using(crate::proofs::ClauseLists::one_clause, crate::proofs::ClauseLists::other_clauses))]
fn query_of_clauses(clauses: Vec<(Occur, AnyQuery)>) -> AnyQuery
    ensures { query_of result ≡ definitions.query_of (map clause_of clauses.items) }
{
    let mut clauses = clauses;
    if clauses.len() != 1 {
        return AnyQuery::Boolean(BooleanQuery::new(clauses));
    }
    let (_occur, query) = clauses.pop().unwrap();
    query
}

/// Appends a clause for each of `queries`, all with `occur`.
fn push_clauses(
    alloc: Global,
    clauses: &mut Vec<(Occur, AnyQuery)>,
    occur: Occur,
    queries: Vec<AnyQuery>,
) -> Result<(), AllocError>
    ensures { OnOk result (map clause_of clauses.new.items
        ≡ map clause_of clauses.old.items ++ definitions.asking (occur_of occur) (map query_of queries.items)) }
{
    let mut added = asked_clauses(alloc, occur, queries)?;
    clauses.append(&mut added)
}

/// Makes a clause of each of `queries`, all with `occur`.
fn asked_clauses(
    alloc: Global,
    occur: Occur,
    queries: Vec<AnyQuery>,
) -> Result<Vec<(Occur, AnyQuery)>, AllocError>
    ensures { IfOk result (λ clauses. map clause_of clauses.items
        ≡ definitions.asking (occur_of occur) (map query_of queries.items)) }
{
    let clauses = with_occur(alloc, occur, queries)?;
    Ok(clauses)
}
