//! The query that is asked over the segment that is held.

ghost use Rattle.std.specs.Prelude.{◌≡◌, length};
ghost use Rattle.definitions.specs.Settings.{similarity_of};
ghost use Rattle.query_trees.specs.Queries.{query_of};
ghost use Rattle.segment.specs.Opened.{num_docs_of};
ghost use Rattle.query_scorers.specs.Accepted.{IsAccepted};

use crate::plain_queries::query_of_two;
use crate::searched_queries::searched;
use case_lines::{Arguments, Refusal, items_in, query_by_steps, term_in};
use case_segments::Held;
use common::AliveBitSet;
use query::{AnyQuery, accept_query};
use segment::Segment;
use serde_json::Value;
use std::alloc::Global;
use weights::Searcher;

/// What an operation on a query answers, and what refuses the query where something does.
pub(crate) fn answer(
    held: &Held,
    operation: &str,
    arguments: &Arguments,
) -> Result<Value, Refusal> {
    let query = asked_query(held.alloc, operation, arguments)?;
    accept_query(&held.schema, &held.settings, &query)?;
    let segment = held.segment()?;
    let alive = held.alive(&segment)?;
    by_searcher(held, &segment, &alive, &query, operation)
}

/// The query of an operation: what it makes of two terms, or what steps make.
fn asked_query(alloc: Global, operation: &str, arguments: &Arguments) -> Result<AnyQuery, Refusal> {
    match operation {
        "in-a-row" | "begun-in-a-row" | "both" => {
            let first = term_in(alloc, arguments.value(0)?)?;
            let second = term_in(alloc, arguments.value(1)?)?;
            query_of_two(alloc, operation, first, second)
        }
        _ => query_by_steps(alloc, items_in(arguments.value(0)?)?),
    }
}

/// What an operation on a query answers over a searcher of a segment whose documents are alive that a set has.
fn by_searcher(
    held: &Held,
    segment: &Segment,
    alive: &AliveBitSet,
    query: &AnyQuery,
    operation: &str,
) -> Result<Value, Refusal>
    requires flagged { length alive.now ≡ num_docs_of segment.now }
    requires accepted { IsAccepted (similarity_of held.now.settings).weight 1 (query_of query.now) }
{
    let alloc = held.alloc;
    let readers = vec![in alloc; segment.reader(Some(alive))]?;
    let searcher = Searcher::new(&held.schema, &held.settings, readers);
    searched(alloc, &searcher, query, operation)
}
