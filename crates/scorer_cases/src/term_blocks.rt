//! Moves over the blocks of a term: those of `moves`, and `{"block":NUMBER}`, which reaches the block that may contain a
//! number without decoding it. Each is answered by what it answers itself (a block by the current document), the bound
//! of the block reached, its last document, and the number of blocks that were decoded.

ghost use Rattle.std.specs.Prelude.{◌≤◌, IfOk, IfSome};
ghost use Rattle.definitions.specs.Postings.{terminated};

use crate::moves::{moved_once, walked};
use crate::scored_terms::{counts_in, docs_in, lengths_of};
use crate::written_terms::{opened, written};
use case_lines::{Arguments, Refusal, number};
use common::TERMINATED;
use docsets::DocSet;
use scorers::TermScorer;
use segment_postings::SegmentPostings;
use serde_json::Value;
use std::alloc::{AllocError, Global};

/// What each move of a cursor answers. A bound is a length id and a count.
pub(crate) fn bounds(alloc: Global, arguments: &Arguments) -> Result<Value, Refusal> {
    told(alloc, arguments, TERMINATED)
}

/// What a cursor tells, made of counts, documents and their length ids; of null as documents it is made exhausted. A
/// field that keeps no lengths has `num_docs` documents.
fn told(alloc: Global, arguments: &Arguments, num_docs: u32) -> Result<Value, Refusal> {
    let moves = arguments.list(3)?;
    if arguments.value(1)?.is_null() {
        return moved_postings(alloc, &mut SegmentPostings::empty(), moves);
    }
    let (recorded, reads) = counts_in(arguments.value(0)?)?;
    let docs = docs_in(alloc, arguments.list(1)?)?;
    let ids = arguments.bytes(alloc, 2)?;
    let bytes = written(alloc, &docs, recorded, lengths_of(&ids, num_docs)?)?;
    let mut postings = opened(&bytes, docs.len() as u32, recorded, reads);
    moved_postings(alloc, &mut postings, moves)
}

/// What each move of a cursor answers.
fn moved_postings(
    alloc: Global,
    postings: &mut SegmentPostings<'_>,
    moves: &[Value],
) -> Result<Value, Refusal> {
    let mut answers = Vec::new(alloc);
    for asked in moves {
        let answer = match target_in(asked)? {
            Some(target) => {
                postings.seek_block(target);
                number(u64::from(postings.doc()))
            }
            None => walked(alloc, postings, asked)?,
        };
        answers.push(Value::Array(vec![in alloc;
            answer,
            bound(alloc, postings)?,
            number(u64::from(postings.last_doc_in_block())),
            number(postings.decoded_blocks()),
        ]?))?;
    }
    Ok(Value::Array(answers))
}

/// The bound of the block reached: a length id and a count, or null.
fn bound(alloc: Global, postings: &SegmentPostings<'_>) -> Result<Value, AllocError> {
    let Some((least_id, greatest_count)) = postings.block_bound() else {
        return Ok(Value::Null);
    };
    Ok(Value::Array(vec![in alloc;
        number(u64::from(least_id)),
        number(u64::from(greatest_count)),
    ]?))
}

/// What each move of a scorer answers. A bound is a score.
pub(crate) fn moved_scorer(
    alloc: Global,
    scorer: &mut TermScorer<'_>,
    moves: &[Value],
) -> Result<Value, Refusal> {
    let mut answers = Vec::new(alloc);
    for asked in moves {
        let answer = match target_in(asked)? {
            Some(target) => {
                scorer.seek_block(target);
                number(u64::from(scorer.doc()))
            }
            None => moved_once(alloc, scorer, asked)?,
        };
        answers.push(Value::Array(vec![in alloc;
            answer,
            Value::from(scorer.block_max_score()),
            number(u64::from(scorer.last_doc_in_block())),
            number(scorer.decoded_blocks()),
        ]?))?;
    }
    Ok(Value::Array(answers))
}

/// The number whose block a move reaches, if it is such a move.
fn target_in(asked: &Value) -> Result<Option<u32>, Refusal>
    ensures { IfOk result (λ target. IfSome target (λ doc. doc ≤ terminated)) }
{
    let Some(target) = asked.get("block") else {
        return Ok(None);
    };
    match target.as_u64() {
        Some(target) if target <= u64::from(TERMINATED) => Ok(Some(target as u32)),
        _ => Err(Refusal::NotAsked),
    }
}
