//! Clauses of queries, and the minimum of them that must match.

ghost use Rattle.std.specs.Prelude.{◌++◌, ◌≡◌, OnOk, map};
ghost use Rattle.query_checks.specs.ReadQueries.{Gives, least_query};
ghost use Rattle.query_trees.specs.Queries.{clauses_of, query_of};
ghost use Rattle.serde_json.specs.View.{view};

use definitions::Fault;
use query_trees::{AnyQuery, BooleanQuery, Occur, with_occur};
use schema::number_in;
use serde_json::Value as Json;
use std::alloc::{AllocError, Global};

/// Makes the query of `clauses`, of which at least `min` of the `Should` ones must match.
pub(crate) fn read_minimum(json: &Json, clauses: Vec<(Occur, AnyQuery)>) -> Result<AnyQuery, Fault>
    ensures { Gives query_of result (least_query (view json.now) (clauses_of clauses.items)) }
{
    let Some(minimum) = json.get("min") else {
        return Ok(AnyQuery::Boolean(BooleanQuery::new(clauses)));
    };
    match number_in(minimum) {
        Some(minimum) => Ok(AnyQuery::Boolean(BooleanQuery::with_minimum_required_clauses(
            clauses,
            minimum as usize,
        ))),
        None => Err(Fault::BadQuery),
    }
}

/// Appends a clause for each of `queries`, all with `occur`.
pub(crate) fn push_clauses(
    alloc: Global,
    clauses: &mut Vec<(Occur, AnyQuery)>,
    occur: Occur,
    queries: Vec<AnyQuery>,
) -> Result<(), AllocError>
    ensures { OnOk result (clauses.new.items ≡ clauses.old.items ++ map (λ q. (occur, q)) queries.items) }
{
    let mut added = with_occur(alloc, occur, queries)?;
    clauses.append(&mut added)
}
