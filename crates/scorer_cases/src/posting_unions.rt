//! Unions of terms with positions. Their moves are those of cursors, and `freq`, `positions`, and `{"append":[N, ..]}`,
//! which puts positions, each plus the first number, to the other numbers.

ghost use Rattle.std.specs.Prelude.{◌≡◌, true};
ghost use Rattle.scorers.specs.Documents.{documents};

use crate::leaves::set_of;
use crate::moves::walked;
use crate::terms_with_positions::{all_opened_twice, small, terms_with_positions};
use case_lines::{Arguments, Refusal, number, numbers};
use common::TERMINATED;
use docsets::{DocSet, Postings};
use scorers::{BitSetDocSet, BitSetPostingUnion, SimpleUnion};
use serde_json::Value;
use std::alloc::Global;

/// The greatest offset.
const MOST_OFFSET: u32 = 2147483647;

/// The union of terms.
pub(crate) fn union_of_terms(alloc: Global, arguments: &Arguments) -> Result<Value, Refusal> {
    let terms = terms_with_positions(alloc, arguments.list(0)?)?;
    let (docsets, _) = all_opened_twice(alloc, &terms)?;
    let mut union = SimpleUnion::build(alloc, docsets)?;
    told(alloc, &mut union, arguments.list(1)?)
}

/// The union of terms beside a set, where the set has the documents of the union.
pub(crate) fn union_beside_set(alloc: Global, arguments: &Arguments) -> Result<Value, Refusal> {
    let docs = set_of(
        alloc,
        arguments.small_number(1)?,
        &arguments.numbers(alloc, 2)?,
    )?;
    if docs.max_value() > TERMINATED {
        return Err(Refusal::NotAsked);
    }
    let terms = terms_with_positions(alloc, arguments.list(0)?)?;
    let (docsets, walked) = all_opened_twice(alloc, &terms)?;
    let mut walked = SimpleUnion::build(alloc, walked)?;
    let mut walked_set = BitSetDocSet::from(docs.try_clone(alloc)?);
    if !have_same_documents(&mut walked, &mut walked_set) {
        return Err(Refusal::NotAsked);
    }
    let mut union = BitSetPostingUnion::build(alloc, docsets, BitSetDocSet::from(docs))?;
    told(alloc, &mut union, arguments.list(3)?)
}

/// Whether two cursors have the same documents.
fn have_same_documents<A: DocSet, B: DocSet>(first: &mut A, second: &mut B) -> bool
    ensures { result ≡ true → documents (A.entries first.old) ≡ documents (B.entries second.old) }
{
    let mut doc = first.doc();
    while doc < TERMINATED {
        if second.doc() != doc {
            return false;
        }
        doc = first.advance();
        second.advance();
    }
    second.doc() == TERMINATED
}

/// What each move answers.
fn told<P: Postings>(alloc: Global, postings: &mut P, moves: &[Value]) -> Result<Value, Refusal> {
    let mut answers = Vec::new(alloc);
    for asked in moves {
        answers.push(told_once(alloc, postings, asked)?)?;
    }
    Ok(Value::Array(answers))
}

/// What a move answers.
fn told_once<P: Postings>(
    alloc: Global,
    postings: &mut P,
    asked: &Value,
) -> Result<Value, Refusal> {
    if let Some(parts) = asked.get("append").and_then(Value::as_array) {
        return appended(alloc, postings, parts);
    }
    match asked.as_str() {
        Some("freq") => freq(postings),
        Some("positions") => positions(alloc, postings),
        _ => walked(alloc, postings, asked),
    }
}

/// How often the terms stand in the current document.
fn freq<P: Postings>(postings: &mut P) -> Result<Value, Refusal> {
    if postings.doc() >= TERMINATED {
        return Err(Refusal::NotAsked);
    }
    Ok(number(u64::from(postings.term_freq())))
}

/// The positions in the current document.
fn positions<P: Postings>(alloc: Global, postings: &mut P) -> Result<Value, Refusal> {
    if postings.doc() >= TERMINATED {
        return Err(Refusal::NotAsked);
    }
    let mut output = Vec::new(alloc);
    postings.positions(&mut output)?;
    Ok(numbers(alloc, &output)?)
}

/// Numbers behind the first, which is an offset, with the positions in the current document, each plus the offset.
fn appended<P: Postings>(
    alloc: Global,
    postings: &mut P,
    parts: &[Value],
) -> Result<Value, Refusal> {
    let mut output = Vec::new(alloc);
    for part in parts {
        output.push(small(part)?)?;
    }
    if output.is_empty() || postings.doc() >= TERMINATED {
        return Err(Refusal::NotAsked);
    }
    let offset = output.remove(0);
    if offset > MOST_OFFSET {
        return Err(Refusal::NotAsked);
    }
    postings.append_positions_with_offset(offset, &mut output)?;
    Ok(numbers(alloc, &output)?)
}
