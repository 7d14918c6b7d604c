//! Unions that must match, whose clauses stand beside those that must match too.

ghost use Rattle.std.specs.Prelude.{◌<◌, ◌≡◌, ◌≤◌, IfOk, IfSome, length, true};
ghost use Rattle.definitions.specs.Query as definitions;
ghost use Rattle.query_plans.specs.Plans.{IsPlan, each_asking, is_some, joined, num_should, one_if_should};
ghost use Rattle.query_trees.specs.Queries.{clauses_of, occur_of, query_of};

use crate::joined_clauses::{ask_all, push_each};
use query_trees::{AnyQuery, BooleanQuery, Occur};
use std::alloc::{AllocError, Global};

/// Returns a Bool that asks what `clauses` do, of which at least `least` of the `Should` ones must match. Where one of
/// them is a union that must match beside a narrower query that must, its queries stand among the clauses, and at least
/// one of them must match: so the union is asked for the documents of the narrower one alone.
pub(crate) fn raised(
    alloc: Global,
    clauses: Vec<(Occur, AnyQuery)>,
    least: usize,
) -> Result<AnyQuery, AllocError>
    ensures { IfOk result (λ plan. IsPlan 1 (definitions.boolean (clauses_of clauses.items) least) (query_of plan)) }
{
    let Some(index) = raisable(&clauses, least) else {
        return Ok(AnyQuery::Boolean(BooleanQuery::with_minimum_required_clauses(clauses, least)));
    };
    let mut clauses = clauses;
    let (occur, query) = clauses.remove(index);
    let minimum = push_raised(alloc, &mut clauses, occur, query)?;
    Ok(AnyQuery::Boolean(BooleanQuery::with_minimum_required_clauses(clauses, minimum)))
}

/// Returns which of `clauses` is a union that may be raised, where none of them should match, and a narrower one must.
fn raisable(clauses: &[(Occur, AnyQuery)], least: usize) -> Option<usize>
    ensures at { IfSome result (λ index. index < length clauses.now) }
    ensures none { IfSome result (λ index. (least ≡ 0) × (num_should (clauses_of clauses.now) ≡ 0)) }
{
    if least > 0 || num_should(clauses) > 0 || !has_narrow(clauses) {
        return None;
    }
    first_union(clauses)
}

/// Returns how many of `clauses` should match.
pub(crate) fn num_should(clauses: &[(Occur, AnyQuery)]) -> usize
    ensures { result ≡ num_should (clauses_of clauses.now) }
{
    let mut num_should = 0;
    for (occur, _query) in clauses {
        num_should += one_if_should(*occur);
    }
    num_should
}

/// Returns 1 for a clause that should match, and 0 for others.
fn one_if_should(occur: Occur) -> usize
    ensures { result ≡ one_if_should (occur_of occur) }
{
    match occur {
        Occur::Should => 1,
        Occur::Must | Occur::MustNot => 0,
    }
}

/// Whether one of `clauses` that must match isn't a union of several queries.
fn has_narrow(clauses: &[(Occur, AnyQuery)]) -> bool {
    for (occur, query) in clauses {
        if *occur == Occur::Must && is_narrow(query) {
            return true;
        }
    }
    false
}

/// Whether a query isn't one of several queries.
fn is_narrow(query: &AnyQuery) -> bool {
    match query {
        AnyQuery::Boolean(_) | AnyQuery::DisjunctionMax(_) => false,
        AnyQuery::All(_)
        | AnyQuery::Empty(_)
        | AnyQuery::Term(_)
        | AnyQuery::Phrase(_)
        | AnyQuery::PhrasePrefix(_)
        | AnyQuery::Boost(_)
        | AnyQuery::ConstScore(_) => true,
    }
}

/// Returns which of `clauses` is the first that is a union and must match.
fn first_union(clauses: &[(Occur, AnyQuery)]) -> Option<usize>
    ensures { IfSome result (λ index. index < length clauses.now) }
{
    for index in 0..clauses.len() {
        let (occur, query) = &clauses[index];
        if is_required_union(*occur, query) {
            return Some(index);
        }
    }
    None
}

/// Whether a clause that asks `occur` of `query` is a union that must match.
fn is_required_union(occur: Occur, query: &AnyQuery) -> bool {
    match query {
        AnyQuery::Boolean(inner) => is_union(occur, inner.clauses()),
        _ => false,
    }
}

/// Whether `clauses` are those of a union, which must match as `occur` says.
fn is_union(occur: Occur, clauses: &[(Occur, AnyQuery)]) -> bool
    ensures asked { result ≡ true → occur_of occur ≡ definitions.must }
    ensures alike { result ≡ true
        → clauses_of clauses.now ≡ each_asking definitions.should (clauses_of clauses.now) }
{
    if occur != Occur::Must {
        return false;
    }
    ask_all(Occur::Should, clauses)
}

/// Appends to `clauses`, none of which should match, the queries of a union that must match, or another clause; returns
/// how many of those that should match must then.
fn push_raised(
    alloc: Global,
    clauses: &mut Vec<(Occur, AnyQuery)>,
    occur: Occur,
    query: AnyQuery,
) -> Result<usize, AllocError>
    requires { num_should (clauses_of clauses.old.items) ≡ 0 }
    ensures { IfOk result (λ least. IsPlan 1 (definitions.boolean (joined (clauses_of clauses.old.items)
        (definitions.clause (occur_of occur) (query_of query) definitions.no_clauses)) 0)
        (definitions.boolean (clauses_of clauses.new.items) least)) }
{
    match query {
        AnyQuery::Boolean(inner) => {
            let minimum = inner.get_minimum_number_should_match();
            if is_union(occur, inner.clauses()) {
                push_each(alloc, clauses, Occur::Should, inner.into_clauses())?;
                return Ok(minimum.max(1));
            }
            clauses.push((occur, AnyQuery::Boolean(inner)))?;
            Ok(0)
        }
        query => {
            clauses.push((occur, query))?;
            Ok(0)
        }
    }
}
