//! Unions, intersections, differences, and required scorers with optional ones.

ghost use Rattle.std.specs.Prelude.{◌≤◌, IfOk};

use crate::given_lists::{list, lists, singles};
use crate::moves::moved;
use case_lines::{Arguments, Refusal};
use scorers::{
    BufferedUnionScorer, Disjunction, DisjunctionMaxCombiner, DoNothingCombiner, Exclude,
    ExclusionList, Intersection, RequiredOptionalScorer, ScoreCombiner, ScorerWrapper, SumCombiner,
};
use serde_json::Value;
use std::alloc::Global;

/// The documents that some list has.
pub(crate) fn union(alloc: Global, arguments: &Arguments) -> Result<Value, Refusal> {
    match arguments.text(0)? {
        "nothing" => union_by(alloc, DoNothingCombiner::default(), arguments),
        "max" => union_by(alloc, DisjunctionMaxCombiner::default(), arguments),
        _ => union_by(alloc, SumCombiner::default(), arguments),
    }
}

/// The documents that some list has, each with what a combiner makes of its scores.
fn union_by<C: ScoreCombiner>(
    alloc: Global,
    combiner: C,
    arguments: &Arguments,
) -> Result<Value, Refusal> {
    let lists = lists(alloc, arguments.list(1)?)?;
    let mut scorer = BufferedUnionScorer::build(alloc, lists, combiner, 0)?;
    moved(alloc, &mut scorer, arguments.list(2)?)
}

/// The documents that at least a given number of lists have.
pub(crate) fn disjunction(alloc: Global, arguments: &Arguments) -> Result<Value, Refusal> {
    match arguments.text(1)? {
        "nothing" => disjunction_by(alloc, DoNothingCombiner::default(), arguments),
        "max" => disjunction_by(alloc, DisjunctionMaxCombiner::default(), arguments),
        _ => disjunction_by(alloc, SumCombiner::default(), arguments),
    }
}

/// The documents that at least a given number of lists have, each with what a combiner makes of its scores.
fn disjunction_by<C: ScoreCombiner>(
    alloc: Global,
    combiner: C,
    arguments: &Arguments,
) -> Result<Value, Refusal> {
    let minimum = minimum(arguments)?;
    let lists = lists(alloc, arguments.list(2)?)?;
    let mut scorer = Disjunction::new(lists, combiner, minimum);
    moved(alloc, &mut scorer, arguments.list(3)?)
}

/// How many lists are asked at least, one or more.
fn minimum(arguments: &Arguments) -> Result<usize, Refusal>
    ensures { IfOk result (λ minimum. 1 ≤ minimum) }
{
    let minimum = arguments.number(0)?;
    if minimum < 1 {
        return Err(Refusal::NotAsked);
    }
    Ok(minimum as usize)
}

/// The documents that at least a given number of many lists have, where each list has one document.
pub(crate) fn disjunction_of_singles(
    alloc: Global,
    arguments: &Arguments,
) -> Result<Value, Refusal> {
    let minimum = minimum(arguments)?;
    let lists = singles(
        alloc,
        arguments.small_number(1)?,
        arguments.small_number(2)?,
        arguments.small_number(3)?,
    )?;
    let mut scorer = Disjunction::new(lists, SumCombiner::default(), minimum);
    moved(alloc, &mut scorer, arguments.list(4)?)
}

/// The documents that all lists have.
pub(crate) fn intersection(alloc: Global, arguments: &Arguments) -> Result<Value, Refusal> {
    let lists = lists(alloc, arguments.list(0)?)?;
    if lists.len() < 2 {
        return Err(Refusal::NotAsked);
    }
    moved(alloc, &mut Intersection::new(lists), arguments.list(1)?)
}

/// The documents of a list that none of the others has.
pub(crate) fn exclude(alloc: Global, arguments: &Arguments) -> Result<Value, Refusal> {
    let underlying = list(alloc, arguments.value(0)?)?;
    let excluded = lists(alloc, arguments.list(1)?)?;
    let mut scorer = Exclude::new(underlying, ExclusionList::new(excluded));
    moved(alloc, &mut scorer, arguments.list(2)?)
}

/// The documents of a list that another one doesn't have.
pub(crate) fn exclude_one(alloc: Global, arguments: &Arguments) -> Result<Value, Refusal> {
    let underlying = list(alloc, arguments.value(0)?)?;
    let excluded = list(alloc, arguments.value(1)?)?;
    let mut scorer = Exclude::new(underlying, excluded);
    moved(alloc, &mut scorer, arguments.list(2)?)
}

/// The documents of a list, with the scores of another one added.
pub(crate) fn required_optional(alloc: Global, arguments: &Arguments) -> Result<Value, Refusal> {
    let required = list(alloc, arguments.value(0)?)?;
    let optional = list(alloc, arguments.value(1)?)?;
    let mut scorer = RequiredOptionalScorer::new(required, optional, SumCombiner::default());
    moved(alloc, &mut scorer, arguments.list(2)?)
}

/// Whether the wrapper of a list is less than, equal to or greater than that of another one, by their documents.
pub(crate) fn wrapped(alloc: Global, arguments: &Arguments) -> Result<Value, Refusal> {
    let first = ScorerWrapper::new(list(alloc, arguments.value(0)?)?);
    let second = ScorerWrapper::new(list(alloc, arguments.value(1)?)?);
    Ok(Value::from(if first < second {
        -1
    } else if first > second {
        1
    } else {
        0
    }))
}
