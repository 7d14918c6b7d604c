//! Combinators of combinators: unions of intersections, and intersections of unions and differences.

ghost use Rattle.std.specs.Prelude.{◌≡◌, ◌≤◌, IfOk, length, map};
ghost use Rattle.docsets.specs.ScoredEntries.{greatest_score};
ghost use Rattle.docsets.specs.Members.{greatest_sum};

use crate::given_lists::lists;
use crate::moves::moved;
use case_lines::{Arguments, Refusal};
use docsets::DocSet;
use scorers::{
    BufferedUnionScorer, Disjunction, Exclude, ExclusionList, Intersection, ListScorer, Scorer,
    SimpleUnion, SumCombiner,
};
use serde_json::Value;
use std::alloc::Global;

/// The documents that all of several lists have.
type Meeting = Intersection<ListScorer>;

/// The documents that some of several lists have and none of others.
type Difference = Exclude<BufferedUnionScorer<ListScorer, SumCombiner>, ExclusionList<ListScorer>>;

/// The documents that some of three intersections have.
pub(crate) fn union_of_meetings(alloc: Global, arguments: &Arguments) -> Result<Value, Refusal> {
    let members = meetings(alloc, arguments)?;
    let mut scorer = BufferedUnionScorer::build(alloc, members, SumCombiner::default(), 0)?;
    moved(alloc, &mut scorer, arguments.list(3)?)
}

/// The documents that some of three intersections have, by a union that looks no further than its members.
pub(crate) fn simple_union_of_meetings(
    alloc: Global,
    arguments: &Arguments,
) -> Result<Value, Refusal> {
    let mut scorer = SimpleUnion::without_positions(meetings(alloc, arguments)?);
    moved(alloc, &mut scorer, arguments.list(3)?)
}

/// The documents that two of three intersections have.
pub(crate) fn two_of_meetings(alloc: Global, arguments: &Arguments) -> Result<Value, Refusal> {
    let mut scorer = Disjunction::new(meetings(alloc, arguments)?, SumCombiner::default(), 2);
    moved(alloc, &mut scorer, arguments.list(3)?)
}

/// The documents that three differences have, each of a union and other lists.
pub(crate) fn meeting_of_differences(
    alloc: Global,
    arguments: &Arguments,
) -> Result<Value, Refusal> {
    let first = difference(alloc, arguments.list(0)?)?;
    let second = difference(alloc, arguments.list(1)?)?;
    let third = difference(alloc, arguments.list(2)?)?;
    let members = of_three(alloc, first, second, third)?;
    moved(alloc, &mut Intersection::new(members), arguments.list(3)?)
}

/// Three members.
fn of_three<S: DocSet + Drop>(
    alloc: Global,
    first: S,
    second: S,
    third: S,
) -> Result<Vec<S>, Refusal>
    requires first { greatest_score (S.entries first) ≤ 100000000000000 }
    requires second { greatest_score (S.entries second) ≤ 100000000000000 }
    requires third { greatest_score (S.entries third) ≤ 100000000000000 }
    ensures sum { IfOk result (λ members. greatest_sum (map S.entries members.items) ≤ 300000000000000) }
    ensures many { IfOk result (λ members. length members.items ≡ 3) }
{
    let mut members = Vec::new(alloc);
    members.push(first)?;
    members.push(second)?;
    members.push(third)?;
    Ok(members)
}

/// Three intersections of lists.
fn meetings(alloc: Global, arguments: &Arguments) -> Result<Vec<Meeting>, Refusal>
    ensures { IfOk result (λ all. greatest_sum (map ⟦<Intersection<ListScorer> as DocSet>⟧.entries all.items)
        ≤ 300000000000000) }
{
    let first = meeting_of(lists(alloc, arguments.list(0)?)?)?;
    let second = meeting_of(lists(alloc, arguments.list(1)?)?)?;
    let third = meeting_of(lists(alloc, arguments.list(2)?)?)?;
    of_three(alloc, first, second, third)
}

/// The intersection of lists.
fn meeting_of<S: DocSet + Drop>(lists: Vec<S>) -> Result<Intersection<S>, Refusal>
    requires { greatest_sum (map S.entries lists.items) ≤ 100000000000000 }
    ensures { IfOk result (λ all. greatest_score (⟦<Intersection<S> as DocSet>⟧.entries all) ≤ 100000000000000) }
{
    if lists.len() < 2 {
        return Err(Refusal::NotAsked);
    }
    Ok(Intersection::new(lists))
}

/// The union of lists, without the documents of others.
fn difference(alloc: Global, values: &[Value]) -> Result<Difference, Refusal>
    ensures { IfOk result (λ all. greatest_score
        (⟦<Exclude<BufferedUnionScorer<ListScorer, SumCombiner>, ExclusionList<ListScorer>> as DocSet>⟧.entries all)
        ≤ 100000000000000) }
{
    let union = union_of(alloc, lists(alloc, part(values, 0)?)?)?;
    let excluded = lists(alloc, part(values, 1)?)?;
    Ok(without(union, excluded))
}

/// The union of lists.
fn union_of<S: Scorer + Drop>(
    alloc: Global,
    lists: Vec<S>,
) -> Result<BufferedUnionScorer<S, SumCombiner>, Refusal>
    requires { greatest_sum (map S.entries lists.items) ≤ 100000000000000 }
    ensures { IfOk result (λ all. greatest_score (⟦<BufferedUnionScorer<S, SumCombiner> as DocSet>⟧.entries all)
        ≤ 100000000000000) }
{
    Ok(BufferedUnionScorer::build(alloc, lists, SumCombiner::default(), 0)?)
}

/// A cursor without the documents of others.
fn without<S: DocSet, D: DocSet>(underlying: S, excluded: Vec<D>) -> Exclude<S, ExclusionList<D>>
    requires { greatest_score (S.entries underlying) ≤ 100000000000000 }
    ensures { greatest_score (⟦<Exclude<S, ExclusionList<D>> as DocSet>⟧.entries result) ≤ 100000000000000 }
{
    Exclude::new(underlying, ExclusionList::new(excluded))
}

/// The list at an index of a list.
fn part(values: &[Value], index: usize) -> Result<&[Value], Refusal> {
    match values.get(index).and_then(Value::as_array) {
        Some(part) => Ok(part),
        None => Err(Refusal::NotAsked),
    }
}
