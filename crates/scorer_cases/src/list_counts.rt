//! How many documents a list has, and how many are alive.

ghost use Rattle.std.specs.Prelude.{[], ◌≡◌, OnOk, length, true};
ghost use Rattle.docsets.specs.Entries.{from};

use crate::leaves::ascend;
use case_lines::{Arguments, Refusal, number};
use common::{AliveBitSet, DocId, HasLen, TERMINATED};
use docsets::DocSet;
use scorers::{AllScorer, VecDocSet};
use serde_json::Value;
use std::alloc::Global;

/// How many documents a list has, wherever its cursor stands.
pub(crate) fn list_len(alloc: Global, arguments: &Arguments) -> Result<Value, Refusal> {
    let docs = arguments.numbers(alloc, 0)?;
    if !ascend(&docs, 0) {
        return Err(Refusal::NotAsked);
    }
    let mut docs = VecDocSet::from(docs);
    docs.advance();
    Ok(number(docs.len() as u64))
}

/// How many of the documents below a number are alive, of a set that has a flag for each.
pub(crate) fn alive(alloc: Global, arguments: &Arguments) -> Result<Value, Refusal> {
    let max_doc = arguments.small_number(0)?;
    let num_docs = arguments.small_number(1)?;
    if max_doc > TERMINATED || !are_below(&mut AllScorer::new(max_doc), num_docs) {
        return Err(Refusal::NotAsked);
    }
    let mut alive = AliveBitSet::for_max_doc(alloc, num_docs)?;
    for doc in &arguments.numbers(alloc, 2)? {
        kill(&mut alive, *doc)?;
    }
    Ok(number(u64::from(AllScorer::new(max_doc).count(&alive))))
}

/// Whether all documents are below a number.
fn are_below<S: DocSet>(docs: &mut S, num_docs: u32) -> bool
    ensures { result ≡ true → from num_docs (S.entries docs.old) ≡ [] }
{
    if num_docs > TERMINATED || docs.doc() > num_docs {
        return false;
    }
    docs.seek(num_docs) == TERMINATED
}

/// Lets a document be dead.
fn kill(alive: &mut AliveBitSet, doc: DocId) -> Result<(), Refusal>
    ensures { OnOk result (length alive.new ≡ length alive.old) }
{
    if doc as usize >= alive.len() {
        return Err(Refusal::NotAsked);
    }
    alive.kill(doc);
    Ok(())
}
