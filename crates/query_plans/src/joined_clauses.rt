//! Clauses that stand in place of a Bool of them.

ghost use Rattle.std.specs.Prelude.{◌≡◌, IfOk, OnOk, map, true};
ghost use Rattle.definitions.specs.Query as definitions;
ghost use Rattle.query_plans.specs.Plans.{ArePlans, each_asking, is_some, joined};
ghost use Rattle.query_trees.specs.Queries.{clauses_of, occur_of, query_of};

use query_trees::{AnyQuery, Occur};
use std::alloc::{AllocError, Global};

/// Appends a clause that asks `occur` of `query`, or the clauses of `query` where they may stand in its place, among
/// clauses of which at least `least` of the `Should` ones must match.
pub(crate) fn push_clause(
    alloc: Global,
    clauses: &mut Vec<(Occur, AnyQuery)>,
    occur: Occur,
    query: AnyQuery,
    least: usize,
) -> Result<(), AllocError>
    ensures { OnOk result (ArePlans least 1 (joined (clauses_of clauses.old.items)
        (definitions.clause (occur_of occur) (query_of query) definitions.no_clauses)) (clauses_of clauses.new.items)) }
{
    match query {
        AnyQuery::Boolean(inner) => {
            let minimum = inner.get_minimum_number_should_match();
            if may_join(occur, inner.clauses(), minimum, least) {
                push_each(alloc, clauses, occur, inner.into_clauses())?;
                return Ok(());
            }
            clauses.push((occur, AnyQuery::Boolean(inner)))?;
            Ok(())
        }
        query => {
            clauses.push((occur, query))?;
            Ok(())
        }
    }
}

/// Whether the queries of `clauses`, each asked for as `occur` says, may stand in place of a Bool of `clauses` that is
/// asked for so.
fn may_join(occur: Occur, clauses: &[(Occur, AnyQuery)], minimum: usize, least: usize) -> bool
    ensures { result ≡ true → ArePlans least 1
        (definitions.clause (occur_of occur) (definitions.boolean (clauses_of clauses.now) minimum) definitions.no_clauses)
        (each_asking (occur_of occur) (clauses_of clauses.now)) }
{
    match occur {
        Occur::Must => minimum == 0 && ask_all(Occur::Must, clauses),
        Occur::Should => minimum.max(least) <= 1 && ask_all(Occur::Should, clauses),
        Occur::MustNot => minimum <= 1 && ask_all(Occur::Should, clauses),
    }
}

/// Whether there are `clauses`, and each asks `occur`.
pub(crate) fn ask_all(occur: Occur, clauses: &[(Occur, AnyQuery)]) -> bool
    ensures alike { result ≡ true → clauses_of clauses.now ≡ each_asking (occur_of occur) (clauses_of clauses.now) }
    ensures some { result ≡ true → is_some (clauses_of clauses.now) ≡ true }
{
    for (asks, _query) in clauses {
        if !is_same(*asks, occur) {
            return false;
        }
    }
    !clauses.is_empty()
}

/// Whether two clauses ask the same.
fn is_same(asks: Occur, occur: Occur) -> bool
    ensures { result ≡ true → occur_of asks ≡ occur_of occur }
{
    asks == occur
}

/// Appends the queries of `others`, each asked for as `occur` says.
pub(crate) fn push_each(
    alloc: Global,
    clauses: &mut Vec<(Occur, AnyQuery)>,
    occur: Occur,
    others: Vec<(Occur, AnyQuery)>,
) -> Result<(), AllocError>
    ensures { OnOk result (clauses_of clauses.new.items
        ≡ joined (clauses_of clauses.old.items) (each_asking (occur_of occur) (clauses_of others.items))) }
{
    let mut asked = each_asked(alloc, occur, others)?;
    clauses.append(&mut asked)?;
    Ok(())
}

/// Returns the queries of `clauses`, each asked for as `occur` says.
fn each_asked(
    alloc: Global,
    occur: Occur,
    clauses: Vec<(Occur, AnyQuery)>,
) -> Result<Vec<(Occur, AnyQuery)>, AllocError>
    ensures { IfOk result (λ asked. asked.items ≡ map (λ clause. (occur, clause.1)) clauses.items) }
{
    clauses
        .into_iter()
        .map(|clause| (occur, clause.1))
        .collect(alloc)
}
