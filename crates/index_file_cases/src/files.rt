//! Files, opened.

use bytes::Bytes;
use case_lines::{Refusal, number, pair, text};
use common::AliveBitSet;
use definitions::Fault;
use index_file::{IndexFile, Member};
use schema::Schema;
use serde_json::Value;
use std::alloc::{AllocError, Global};

/// The offset of the closed gate, and of each segment after the last record how many documents it has and which of them
/// are dead; of a damaged file the refusal, and the gate from which on it is damaged.
pub(crate) fn opened(alloc: Global, bytes: &[u8]) -> Result<Value, Refusal> {
    let bytes = Bytes::copy_from_slice(alloc, bytes)?;
    match IndexFile::open(alloc, bytes) {
        Ok(file) => Ok(shown(alloc, &file)?),
        Err(Fault::Damaged(Some(gate))) => Ok(pair(alloc, text(alloc, "Damaged")?, number(gate))?),
        Err(Fault::NoIndex) => Ok(text(alloc, "NoIndex")?),
        Err(fault) => Err(Refusal::Fault(fault)),
    }
}

/// The stored values of the living documents of each segment after the last record.
pub(crate) fn documents(alloc: Global, bytes: &[u8]) -> Result<Value, Refusal> {
    let bytes = Bytes::copy_from_slice(alloc, bytes)?;
    let IndexFile {
        schema,
        members,
        ..
    } = IndexFile::open(alloc, bytes)?;
    let mut lists = Vec::new(alloc);
    for member in members {
        lists.push(living(alloc, &schema, member)?)?;
    }
    Ok(Value::Array(lists))
}

/// The stored values of the living documents of a segment.
fn living(alloc: Global, schema: &Schema, member: Member) -> Result<Value, Refusal> {
    let Member { mut segment, alive } = member;
    let mut list = Vec::new(alloc);
    for doc in 0..segment.num_docs() {
        if (doc as usize) < alive.len() && alive.is_alive(doc) {
            let doc = segment.document(schema, doc)?;
            list.push(doc.to_named_doc(alloc, schema)?.to_json_value(alloc)?)?;
        }
    }
    Ok(Value::Array(list))
}

/// A gate and members.
fn shown(alloc: Global, file: &IndexFile) -> Result<Value, AllocError> {
    let mut list = Vec::new(alloc);
    for member in &file.members {
        list.push(shown_member(alloc, member)?)?;
    }
    pair(alloc, number(file.gate as u64), Value::Array(list))
}

/// How many documents a member has, and which of them are dead.
fn shown_member(alloc: Global, member: &Member) -> Result<Value, AllocError> {
    pair(
        alloc,
        number(u64::from(member.segment.num_docs())),
        Value::Array(dead_of(alloc, &member.alive)?),
    )
}

/// The documents that are dead.
fn dead_of(alloc: Global, alive: &AliveBitSet) -> Result<Vec<Value>, AllocError> {
    let mut dead = Vec::new(alloc);
    for doc in 0..alive.len() {
        if !alive.is_alive(doc as u32) {
            dead.push(number(doc as u64))?;
        }
    }
    Ok(dead)
}
