//! Scores that a combiner makes one of.

ghost use Rattle.std.specs.Prelude.{◌+◌, ◌≡◌, ◌≤◌, ◌≤ℤ◌, OnOk, pos};
ghost use Rattle.definitions.specs.Scoring.{max_score, natural};

use case_lines::{Arguments, Refusal};
use common::{MAX_SCORE, Score};
use scorers::{DisjunctionMaxCombiner, DoNothingCombiner, ListScorer, ScoreCombiner, SumCombiner};
use serde_json::Value;
use std::alloc::Global;

/// What a combiner makes of scores.
pub(crate) fn combined(alloc: Global, arguments: &Arguments) -> Result<Value, Refusal> {
    let scores = arguments.list(1)?;
    match arguments.text(0)? {
        "nothing" => score_of(alloc, DoNothingCombiner::default(), scores),
        "sum" => score_of(alloc, SumCombiner::default(), scores),
        "max" => score_of(alloc, DisjunctionMaxCombiner::default(), scores),
        _ => {
            let tie = arguments.signed_number(2)?;
            if tie < 0 || tie > 1000 {
                return Err(Refusal::NotAsked);
            }
            score_of(alloc, DisjunctionMaxCombiner::with_tie_breaker(tie), scores)
        }
    }
}

/// What a combiner that has taken no score makes of scores.
pub(crate) fn score_of<C: ScoreCombiner>(
    alloc: Global,
    combiner: C,
    scores: &[Value],
) -> Result<Value, Refusal>
    requires { C.total combiner ≡ 0 }
{
    let mut combiner = combiner;
    let mut taken = 0u64;
    for score in scores {
        let score = score.as_i64().ok_or(Refusal::NotAsked)?;
        if score < 0 || score > MAX_SCORE || taken + score as u64 > MAX_SCORE as u64 {
            return Err(Refusal::NotAsked);
        }
        take_score(alloc, &mut combiner, score)?;
        taken += score as u64;
    }
    Ok(Value::from(combiner.score()))
}

/// Takes the score of a document.
pub(crate) fn take_score<C: ScoreCombiner>(
    alloc: Global,
    combiner: &mut C,
    score: Score,
) -> Result<(), Refusal>
    requires positive { pos 0 ≤ℤ score }
    requires fits { C.total combiner.old + natural score ≤ max_score }
    ensures { OnOk result (C.total combiner.new ≤ C.total combiner.old + natural score) }
{
    let mut scorer = ListScorer::new(vec![in alloc; (0, score)]?);
    combiner.update(&mut scorer);
    Ok(())
}
