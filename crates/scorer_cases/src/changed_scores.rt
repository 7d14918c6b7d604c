//! Scores that are boosted, a combiner that is cleared, and a reason that is given.

use crate::combined_scores::{score_of, take_score};
use crate::moves::moved;
use case_lines::{Arguments, Refusal, number, pair};
use common::{MAX_SCORE, TERMINATED};
use scorers::{AllScorer, BoostScorer, DisjunctionMaxCombiner, Explanation, ScoreCombiner};
use serde_json::Value;
use std::alloc::Global;

/// The documents below a number, each with a boost for its score.
pub(crate) fn boosted(alloc: Global, arguments: &Arguments) -> Result<Value, Refusal> {
    let max_doc = arguments.small_number(0)?;
    if max_doc > TERMINATED {
        return Err(Refusal::NotAsked);
    }
    let boost = i64::from(arguments.small_number(1)?);
    let mut scorer = BoostScorer::new(AllScorer::new(max_doc), boost);
    moved(alloc, &mut scorer, arguments.list(2)?)
}

/// What a combiner with a tie makes of scores, that has taken another before it was cleared.
pub(crate) fn cleared(alloc: Global, arguments: &Arguments) -> Result<Value, Refusal> {
    let tie = arguments.signed_number(0)?;
    let score = arguments.signed_number(1)?;
    if tie < 0 || tie > 1000 || score < 0 || score > MAX_SCORE {
        return Err(Refusal::NotAsked);
    }
    let mut combiner = DisjunctionMaxCombiner::with_tie_breaker(tie);
    take_score(alloc, &mut combiner, score)?;
    combiner.clear();
    score_of(alloc, combiner, arguments.list(2)?)
}

/// The value of an explanation, and its text.
pub(crate) fn reason(alloc: Global, arguments: &Arguments) -> Result<Value, Refusal> {
    let mut explanation = Explanation::new(alloc, arguments.text(0)?, arguments.signed_number(1)?)?;
    for context in arguments.texts(alloc, 2)? {
        explanation.add_context(context.to_string(alloc)?)?;
    }
    let text = explanation.to_pretty_json(alloc)?;
    Ok(pair(alloc, Value::from(explanation.value()), Value::String(text))?)
}

/// The number of bytes of the text of explanations that follow from one another, each between others, and whether the
/// text is cut.
pub(crate) fn reasons(alloc: Global, arguments: &Arguments) -> Result<Value, Refusal> {
    let levels = arguments.small_number(0)?;
    let beside = arguments.small_number(1)?;
    let mut explanation = Explanation::new(alloc, "last", 0)?;
    for _ in 1..levels {
        let mut above = Explanation::new(alloc, "sum", 0)?;
        add_consts(alloc, &mut above, beside)?;
        above.add_detail(explanation)?;
        add_consts(alloc, &mut above, beside)?;
        explanation = above;
    }
    let text = explanation.to_pretty_json(alloc)?;
    Ok(pair(
        alloc,
        number(text.len() as u64),
        Value::Bool(text.contains("..")),
    )?)
}

/// Adds values to what an explanation follows from.
fn add_consts(alloc: Global, explanation: &mut Explanation, count: u32) -> Result<(), Refusal> {
    for _ in 0..count {
        explanation.add_const(alloc, "part", 1)?;
    }
    Ok(())
}
