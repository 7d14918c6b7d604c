//! Moves of a scorer: `doc`, `advance`, `fill`, `count`, `score`, a number, which is sought, or `[number]`, which is
//! asked for by `seek_danger`.

use case_lines::{Refusal, flag, number, numbers};
use common::TERMINATED;
use docsets::{DocSet, SeekDangerResult};
use scorers::Scorer;
use serde_json::Value;
use std::alloc::Global;

/// What each move answers, in order.
pub(crate) fn moved<S: Scorer>(
    alloc: Global,
    scorer: &mut S,
    moves: &[Value],
) -> Result<Value, Refusal> {
    let mut answers = Vec::new(alloc);
    for asked in moves {
        answers.push(moved_once(alloc, scorer, asked)?)?;
    }
    Ok(Value::Array(answers))
}

/// What a move answers.
pub(crate) fn moved_once<S: Scorer>(
    alloc: Global,
    scorer: &mut S,
    asked: &Value,
) -> Result<Value, Refusal> {
    if asked.as_str() == Some("score") {
        return score(scorer);
    }
    walked(alloc, scorer, asked)
}

/// What a move of a cursor answers.
pub(crate) fn walked<D: DocSet>(
    alloc: Global,
    cursor: &mut D,
    asked: &Value,
) -> Result<Value, Refusal> {
    if let Some(target) = asked.as_u64() {
        return sought(cursor, target);
    }
    if let Some(target) = asked.get(0) {
        return found(cursor, target);
    }
    match asked.as_str().ok_or(Refusal::NotAsked)? {
        "doc" => Ok(number(u64::from(cursor.doc()))),
        "advance" => Ok(number(u64::from(cursor.advance()))),
        "count" => Ok(number(u64::from(cursor.count_including_deleted()))),
        "fill" => filled(alloc, cursor),
        _ => Err(Refusal::NotAsked),
    }
}

/// The document at which a seek ends.
fn sought<D: DocSet>(cursor: &mut D, target: u64) -> Result<Value, Refusal> {
    let target = u32::try_from(target).ok().ok_or(Refusal::NotAsked)?;
    if cursor.doc() > target || target > TERMINATED {
        return Err(Refusal::NotAsked);
    }
    Ok(number(u64::from(cursor.seek(target))))
}

/// Whether a document remains.
fn found<D: DocSet>(cursor: &mut D, target: &Value) -> Result<Value, Refusal> {
    let target = target.as_u64().ok_or(Refusal::NotAsked)?;
    let target = u32::try_from(target).ok().ok_or(Refusal::NotAsked)?;
    if target >= TERMINATED {
        return Err(Refusal::NotAsked);
    }
    Ok(match cursor.seek_danger(target) {
        SeekDangerResult::Found => flag(true),
        SeekDangerResult::SeekLowerBound(_) => flag(false),
    })
}

/// The documents that fill a buffer.
fn filled<D: DocSet>(alloc: Global, cursor: &mut D) -> Result<Value, Refusal> {
    let mut buffer = [0; 64];
    let filled = cursor.fill_buffer(&mut buffer);
    Ok(numbers(alloc, &buffer[..filled])?)
}

/// The score of the current document.
fn score<S: Scorer>(scorer: &mut S) -> Result<Value, Refusal> {
    if scorer.doc() >= TERMINATED {
        return Err(Refusal::NotAsked);
    }
    Ok(Value::from(scorer.score()))
}
