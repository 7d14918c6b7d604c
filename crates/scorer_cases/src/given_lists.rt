//! Lists of documents with scores, as cases give them.

ghost use Rattle.std.specs.Prelude.{◌*◌, ◌≡◌, ◌≤◌, IfOk, OnOk, length, map, true};
ghost use Rattle.docsets.specs.ScoredEntries.{greatest_score, naturals, scored};
ghost use Rattle.docsets.specs.Members.{greatest_sum};

use crate::leaves::are_scores;
use case_lines::Refusal;
use common::{DocId, Score};
use docsets::DocSet;
use scorers::ListScorer;
use serde_json::Value;
use std::alloc::Global;

/// The greatest score of a list.
const GREATEST: Score = 1_000_000_000;

/// The most lists.
const MOST: usize = 100_000;

/// Several lists.
pub(crate) fn lists(alloc: Global, values: &[Value]) -> Result<Vec<ListScorer>, Refusal>
    ensures { IfOk result (λ lists. greatest_sum (map ⟦<ListScorer as DocSet>⟧.entries lists.items) ≤ 100000000000000) }
{
    let mut lists = Vec::new(alloc);
    for value in values {
        add(&mut lists, list(alloc, value)?)?;
    }
    Ok(lists)
}

/// A number of lists of one document, each a step behind the one before, with score 1.
pub(crate) fn singles(
    alloc: Global,
    first: DocId,
    step: DocId,
    count: u32,
) -> Result<Vec<ListScorer>, Refusal>
    ensures { IfOk result (λ lists. greatest_sum (map ⟦<ListScorer as DocSet>⟧.entries lists.items) ≤ 100000000000000) }
{
    let mut lists = Vec::new(alloc);
    let mut doc = first;
    for _ in 0..count {
        add(&mut lists, scorer(vec![in alloc; (doc, 1)]?)?)?;
        doc = doc.checked_add(step).ok_or(Refusal::NotAsked)?;
    }
    Ok(lists)
}

/// Adds a list, of which there aren't too many.
fn add(lists: &mut Vec<ListScorer>, list: ListScorer) -> Result<(), Refusal>
    requires small { greatest_score (⟦<ListScorer as DocSet>⟧.entries list) ≤ 1000000000 }
    requires so_far { greatest_sum (map ⟦<ListScorer as DocSet>⟧.entries lists.old.items)
        ≤ length lists.old.items * 1000000000 }
    ensures sum { OnOk result (greatest_sum (map ⟦<ListScorer as DocSet>⟧.entries lists.new.items)
        ≤ length lists.new.items * 1000000000) }
    ensures few { OnOk result (length lists.new.items ≤ 100000) }
{
    if lists.len() >= MOST {
        return Err(Refusal::NotAsked);
    }
    lists.push(list)?;
    Ok(())
}

/// A list: each document stands as its number, with score 1, or as a pair with its score.
pub(crate) fn list(alloc: Global, value: &Value) -> Result<ListScorer, Refusal>
    ensures { IfOk result (λ list. greatest_score (⟦<ListScorer as DocSet>⟧.entries list) ≤ 1000000000) }
{
    let mut pairs = Vec::new(alloc);
    for part in value.as_array().ok_or(Refusal::NotAsked)? {
        pairs.push(pair(part)?)?;
    }
    scorer(pairs)
}

/// The scorer of a list that ascends and whose scores are small.
fn scorer(pairs: Vec<(DocId, Score)>) -> Result<ListScorer, Refusal>
    ensures { IfOk result (λ list. greatest_score (⟦<ListScorer as DocSet>⟧.entries list) ≤ 1000000000) }
{
    if !are_scores(&pairs, 0) || !are_small(&pairs) {
        return Err(Refusal::NotAsked);
    }
    Ok(ListScorer::new(pairs))
}

/// A document with its score.
fn pair(value: &Value) -> Result<(DocId, Score), Refusal> {
    if let Some(doc) = value.as_u64() {
        return Ok((u32::try_from(doc).ok().ok_or(Refusal::NotAsked)?, 1));
    }
    let doc = value
        .get(0)
        .and_then(Value::as_u64)
        .and_then(|doc| u32::try_from(doc).ok())
        .ok_or(Refusal::NotAsked)?;
    let score = value
        .get(1)
        .and_then(Value::as_i64)
        .ok_or(Refusal::NotAsked)?;
    Ok((doc, score))
}

/// Whether no score is above the greatest.
fn are_small(pairs: &[(DocId, Score)]) -> bool
    ensures { result ≡ true → greatest_score (scored (naturals pairs.now)) ≤ 1000000000 }
{
    let Some((first, rest)) = pairs.split_first() else {
        return true;
    };
    first.1 <= GREATEST && are_small(rest)
}
