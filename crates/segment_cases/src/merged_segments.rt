//! Merges of segments that are written of the documents of a line.

ghost use Rattle.std.specs.Prelude.{IfOk};
ghost use Rattle.segment.specs.Members.{AreOpened, IsMember};

use crate::held::Held;
use crate::record_bodies::alive_set;
use crate::segments::{CACHE_NUM_BLOCKS, opened};
use crate::written_segments::written;
use case_lines::{Arguments, Refusal, flag, number, number_in, part, text_in};
use common::{AliveBitSet, take_u32, take_u64};
use schema::Schema;
use segment::{Segment, merge_segments};
use serde_json::Value;
use std::alloc::Global;

/// Merges segments `[[DOCUMENTS, BLOCK_SIZE, FLAGS], ..]` under a block size and holds what comes of it. Answers how many
/// documents there are; nothing where none is alive.
pub(crate) fn merged(held: &mut Held, arguments: &Arguments) -> Result<Value, Refusal> {
    let alloc = held.alloc;
    let members = members(alloc, &held.schema, arguments.list(0)?)?;
    let block_size = arguments.number(1)? as usize;
    match merge_segments(alloc, &held.schema, block_size, CACHE_NUM_BLOCKS, &members)? {
        Some(segment) => {
            let bytes = segment.to_bytes()?;
            held.bytes = bytes.as_slice().to_vec(alloc)?;
            Ok(number(u64::from(segment.num_docs())))
        }
        None => Ok(Value::Null),
    }
}

/// The segments of a list, and which of their documents are alive.
fn members(
    alloc: Global,
    schema: &Schema,
    list: &[Value],
) -> Result<Vec<(Segment, AliveBitSet)>, Refusal>
    ensures { IfOk result (λ members. AreOpened schema.now members.items) }
{
    let mut members = Vec::with_capacity(alloc, list.len())?;
    for member in list {
        members.push(member_of(alloc, schema, member)?)?;
    }
    Ok(members)
}

/// A segment that is written of documents, and which of these are alive.
fn member_of(
    alloc: Global,
    schema: &Schema,
    member: &Value,
) -> Result<(Segment, AliveBitSet), Refusal>
    ensures { IfOk result (IsMember schema.now) }
{
    let docs = part(member, 0)?.as_array().ok_or(Refusal::NotAsked)?;
    let block_size = number_in(part(member, 1)?)? as usize;
    let segment = opened(alloc, schema, &written(alloc, schema, docs, block_size)?)?;
    let alive = alive_set(alloc, text_in(part(member, 2)?)?)?;
    if alive.len() != segment.num_docs() as usize {
        return Err(Refusal::NotAsked);
    }
    Ok((segment, alive))
}

/// Whether the segment that is held has the terms, the postings, the positions, the lengths and the slots of the segment
/// that is written of documents under a block size.
pub(crate) fn same(held: &Held, arguments: &Arguments) -> Result<Value, Refusal> {
    let alloc = held.alloc;
    let block_size = arguments.number(1)? as usize;
    let written = written(alloc, &held.schema, arguments.list(0)?, block_size)?;
    let mut told = Vec::new(alloc);
    let (_, mut left) = take_u32(&held.bytes)?;
    let (_, mut others) = take_u32(&written)?;
    for _ in 0..4 {
        let (section, rest) = take_section(left)?;
        let (other, behind) = take_section(others)?;
        told.push(flag(section == other))?;
        (left, others) = (rest, behind);
    }
    told.push(flag(same_slots(alloc, &held.schema, &held.bytes, &written)?))?;
    Ok(Value::Array(told))
}

/// A section behind its length, and what follows it.
fn take_section(bytes: &[u8]) -> Result<(&[u8], &[u8]), Refusal> {
    let (len, rest) = take_u64(bytes)?;
    if len > rest.len() as u64 {
        return Err(Refusal::NotAsked);
    }
    Ok(rest.split_at(len as usize))
}

/// Whether two segments have the same slots.
fn same_slots(
    alloc: Global,
    schema: &Schema,
    bytes: &[u8],
    others: &[u8],
) -> Result<bool, Refusal> {
    let segment = opened(alloc, schema, bytes)?;
    let other = opened(alloc, schema, others)?;
    if segment.num_docs() != other.num_docs() {
        return Ok(false);
    }
    for doc in 0..segment.num_docs() {
        let slot = segment.store().read_document_bytes(doc)?;
        if slot.as_slice() != other.store().read_document_bytes(doc)?.as_slice() {
            return Ok(false);
        }
    }
    Ok(true)
}
