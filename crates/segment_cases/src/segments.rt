//! Segments: their bytes, their documents, and what deletions leave of them.

ghost use Rattle.std.specs.Prelude.{IfOk};
ghost use Rattle.segment.specs.Opened.{IsOpened};

use crate::held::Held;
use crate::merged_segments;
use crate::record_bodies::{alive_set, shown_set};
use crate::written_segments::written;
use bytes::Bytes;
use case_lines::{Arguments, Refusal, hex, number};
use definitions::Fault;
use md5::{Digest, Md5};
use schema::{Schema, Term};
use segment::{Segment, delete_in};
use serde_json::Value;
use std::alloc::Global;

/// How many blocks the caches of segments keep.
pub(crate) const CACHE_NUM_BLOCKS: usize = 2;

/// What an operation on segments answers.
pub(crate) fn answer(
    held: &mut Held,
    operation: &str,
    arguments: &Arguments,
) -> Result<Value, Refusal> {
    let alloc = held.alloc;
    match operation {
        "segment-written" => {
            let block_size = arguments.number(1)? as usize;
            held.bytes = written(alloc, &held.schema, arguments.list(0)?, block_size)?;
            num_docs(held)
        }
        "segment-opened" => {
            held.bytes = arguments.bytes(alloc, 0)?;
            num_docs(held)
        }
        "segment-bytes" => Ok(hex(alloc, &held.bytes)?),
        "segment-digest" => Ok(hex(alloc, &digest(&held.bytes))?),
        "segment-documents" => documents(alloc, &held.schema, &held.bytes),
        "segment-read" => documents(alloc, &held.schema, &arguments.bytes(alloc, 0)?),
        "segment-document" => document(held, arguments.small_number(0)?),
        "segment-deleted" => deleted(held, arguments),
        "segment-same" => merged_segments::same(held, arguments),
        "segments-merged" => merged_segments::merged(held, arguments),
        _ => Err(Refusal::NotAsked),
    }
}

/// The digest MD5 of bytes.
fn digest(bytes: &[u8]) -> [u8; 16] {
    let mut hasher = Md5::new();
    hasher.update(bytes);
    hasher.finalize()
}

/// A segment of the schema.
pub(crate) fn opened(alloc: Global, schema: &Schema, bytes: &[u8]) -> Result<Segment, Fault>
    ensures { IfOk result (IsOpened schema.now) }
{
    let bytes = Bytes::copy_from_slice(alloc, bytes)?;
    Segment::open(alloc, schema, bytes, CACHE_NUM_BLOCKS)
}

/// How many documents the segment has that is held.
fn num_docs(held: &Held) -> Result<Value, Refusal> {
    let segment = opened(held.alloc, &held.schema, &held.bytes)?;
    Ok(number(u64::from(segment.num_docs())))
}

/// The stored values of each document of a segment.
fn documents(alloc: Global, schema: &Schema, bytes: &[u8]) -> Result<Value, Refusal> {
    let mut segment = opened(alloc, schema, bytes)?;
    let mut list = Vec::new(alloc);
    for doc in 0..segment.num_docs() {
        list.push(stored_values(alloc, schema, &mut segment, doc)?)?;
    }
    Ok(Value::Array(list))
}

/// The stored values of a document of the segment that is held.
fn document(held: &Held, doc: u32) -> Result<Value, Refusal> {
    let mut segment = opened(held.alloc, &held.schema, &held.bytes)?;
    stored_values(held.alloc, &held.schema, &mut segment, doc)
}

/// The stored values of a document.
fn stored_values(
    alloc: Global,
    schema: &Schema,
    segment: &mut Segment,
    doc: u32,
) -> Result<Value, Refusal> {
    let doc = segment.document(schema, doc)?;
    Ok(doc.to_named_doc(alloc, schema)?.to_json_value(alloc)?)
}

/// The alive set after the documents with a term, given by its bytes, died in the segment that is held.
fn deleted(held: &Held, arguments: &Arguments) -> Result<Value, Refusal> {
    let alloc = held.alloc;
    let term = Term::wrap(arguments.bytes(alloc, 0)?)?;
    let mut alive = alive_set(alloc, arguments.text(1)?)?;
    let segment = opened(alloc, &held.schema, &held.bytes)?;
    if alive.len() != segment.num_docs() as usize {
        return Err(Refusal::NotAsked);
    }
    delete_in(&segment, &term, &mut alive);
    Ok(shown_set(alloc, &alive)?)
}
