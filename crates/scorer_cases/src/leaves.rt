//! Scorers over one list of documents.

ghost use Rattle.std.specs.Prelude.{◌≡◌, ◌≤◌, true};
ghost use Rattle.definitions.specs.ScoredLists.{AreScoredFrom, each_scoring};
ghost use Rattle.docsets.specs.ScoredEntries.{AreScores};

use crate::moves::moved;
use case_lines::{Arguments, Refusal};
use common::{BitSet, DocId, MAX_SCORE, Score, TERMINATED};
use scorers::{AllScorer, BitSetDocSet, ConstScorer, EmptyScorer, ListScorer, VecDocSet};
use serde_json::Value;
use std::alloc::Global;

/// The documents below a number.
pub(crate) fn all(alloc: Global, arguments: &Arguments) -> Result<Value, Refusal> {
    let mut scorer = all_below(arguments.small_number(0)?)?;
    moved(alloc, &mut scorer, arguments.list(1)?)
}

/// A scorer of all documents below a number.
pub(crate) fn all_below(max_doc: u32) -> Result<AllScorer, Refusal> {
    if max_doc > TERMINATED {
        return Err(Refusal::NotAsked);
    }
    Ok(AllScorer::new(max_doc))
}

/// No document.
pub(crate) fn none(alloc: Global, arguments: &Arguments) -> Result<Value, Refusal> {
    moved(alloc, &mut EmptyScorer::new(), arguments.list(0)?)
}

/// The documents below a number, with a constant score.
pub(crate) fn constant(alloc: Global, arguments: &Arguments) -> Result<Value, Refusal> {
    let all = all_below(arguments.small_number(0)?)?;
    let score = arguments.signed_number(1)?;
    if score < 0 || score > MAX_SCORE {
        return Err(Refusal::NotAsked);
    }
    let mut scorer = ConstScorer::new(all, score);
    moved(alloc, &mut scorer, arguments.list(2)?)
}

/// A list of documents, each with score 1.
pub(crate) fn documents(alloc: Global, arguments: &Arguments) -> Result<Value, Refusal> {
    let docs = arguments.numbers(alloc, 0)?;
    if !ascend(&docs, 0) {
        return Err(Refusal::NotAsked);
    }
    let mut scorer = ConstScorer::from(VecDocSet::from(docs));
    moved(alloc, &mut scorer, arguments.list(1)?)
}

/// Whether documents ascend from one on, below the end.
pub(crate) fn ascend(docs: &[DocId], least: DocId) -> bool
    requires { least ≤ 2147483647 }
    ensures { result ≡ true → AreScoredFrom least (each_scoring 0 docs.now) }
{
    let Some((first, rest)) = docs.split_first() else {
        return true;
    };
    *first >= least && *first < TERMINATED && ascend(rest, *first + 1)
}

/// A set of documents below a number, each with score 1.
pub(crate) fn set(alloc: Global, arguments: &Arguments) -> Result<Value, Refusal> {
    let docs = set_of(
        alloc,
        arguments.small_number(0)?,
        &arguments.numbers(alloc, 1)?,
    )?;
    if docs.max_value() > TERMINATED {
        return Err(Refusal::NotAsked);
    }
    let mut scorer = ConstScorer::from(BitSetDocSet::from(docs));
    moved(alloc, &mut scorer, arguments.list(2)?)
}

/// A set of documents below a number.
pub(crate) fn set_of(alloc: Global, bound: u32, docs: &[DocId]) -> Result<BitSet, Refusal> {
    let mut set = BitSet::with_max_value(alloc, bound)?;
    for doc in docs {
        put(&mut set, *doc)?;
    }
    Ok(set)
}

/// Puts a document into a set.
fn put(docs: &mut BitSet, doc: DocId) -> Result<(), Refusal> {
    if doc >= docs.max_value() {
        return Err(Refusal::NotAsked);
    }
    docs.insert(doc);
    Ok(())
}

/// A list of documents with scores.
pub(crate) fn pairs(alloc: Global, arguments: &Arguments) -> Result<Value, Refusal> {
    let mut pairs = Vec::new(alloc);
    for (index, doc) in arguments.numbers(alloc, 0)?.iter().enumerate() {
        pairs.push((*doc, score_at(arguments.list(1)?, index)?))?;
    }
    if !are_scores(&pairs, 0) {
        return Err(Refusal::NotAsked);
    }
    moved(alloc, &mut ListScorer::new(pairs), arguments.list(2)?)
}

/// The score at an index.
fn score_at(scores: &[Value], index: usize) -> Result<Score, Refusal> {
    scores
        .get(index)
        .and_then(Value::as_i64)
        .ok_or(Refusal::NotAsked)
}

/// Whether documents ascend from one on, below the end, with scores from 0 to the greatest.
pub(crate) fn are_scores(pairs: &[(DocId, Score)], least: DocId) -> bool
    requires { least ≤ 2147483647 }
    ensures { result ≡ true → AreScores least pairs.now }
{
    let Some((first, rest)) = pairs.split_first() else {
        return true;
    };
    let (doc, score) = *first;
    if doc < least || doc >= TERMINATED || score < 0 || score > MAX_SCORE {
        return false;
    }
    are_scores(rest, doc + 1)
}
