//! What is made of the scorers of clauses, and of those of several queries by the best.

use crate::given_lists::lists;
use crate::moves::moved;
use any_scorer::{boolean_scorer, disjunction_max_scorer, intersect_scorers};
use case_lines::{Arguments, Refusal};
use serde_json::Value;
use std::alloc::Global;

/// The documents that match clauses: lists that they must have, that they should have and that they must not have,
/// and how many of the second.
pub(crate) fn clauses(alloc: Global, arguments: &Arguments) -> Result<Value, Refusal> {
    let musts = lists(alloc, arguments.list(0)?)?;
    let shoulds = lists(alloc, arguments.list(1)?)?;
    let must_nots = lists(alloc, arguments.list(2)?)?;
    let minimum = arguments.small_number(3)? as usize;
    let mut scorer = boolean_scorer(alloc, musts, shoulds, must_nots, minimum, 0)?;
    moved(alloc, &mut scorer, arguments.list(4)?)
}

/// The documents that all of several lists have, each with the sum of its scores; none of no list.
pub(crate) fn intersected(alloc: Global, arguments: &Arguments) -> Result<Value, Refusal> {
    let lists = lists(alloc, arguments.list(0)?)?;
    let mut scorer = intersect_scorers(alloc, lists)?;
    moved(alloc, &mut scorer, arguments.list(1)?)
}

/// The documents that one of several lists has, by the best score and some thousandths of the others.
pub(crate) fn best(alloc: Global, arguments: &Arguments) -> Result<Value, Refusal> {
    let disjuncts = lists(alloc, arguments.list(0)?)?;
    let tie = arguments.signed_number(1)?;
    if tie < 0 || tie > 1000 {
        return Err(Refusal::NotAsked);
    }
    let mut scorer = disjunction_max_scorer(alloc, disjuncts, tie, 0)?;
    moved(alloc, &mut scorer, arguments.list(2)?)
}
