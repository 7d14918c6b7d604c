//! Checkpoints of a store's blocks, and its footer.

use case_lines::{Arguments, Refusal, hex, number, numbers, pair};
use serde_json::Value;
use std::alloc::{AllocError, Global};
use store::{Checkpoint, DocStoreFooter, DocStoreVersion, SkipIndex, SkipIndexBuilder};

/// What an operation on checkpoints or on footers answers.
pub(crate) fn answer(
    alloc: Global,
    operation: &str,
    arguments: &Arguments,
) -> Result<Value, Refusal> {
    match operation {
        "checkpoints" => checkpoints(alloc, arguments),
        "checkpoints-read" => checkpoints_read(alloc, arguments),
        "checkpoint-of" => checkpoint_of(alloc, arguments),
        "versions" => Ok(versions(alloc)?),
        "footer" => footer(alloc, arguments),
        "footer-read" => footer_read(alloc, arguments),
        _ => Err(Refusal::NotAsked),
    }
}

/// The versions as they print.
fn versions(alloc: Global) -> Result<Value, AllocError> {
    let text = format!(in alloc; "{} {}", DocStoreVersion::V1, DocStoreVersion::V2)?;
    Ok(Value::String(text))
}

/// The bytes of checkpoints, each by its first document, the one behind its last, and the same of its bytes.
fn checkpoints(alloc: Global, arguments: &Arguments) -> Result<Value, Refusal> {
    let mut builder = SkipIndexBuilder::new(alloc);
    let all = arguments.numbers(alloc, 0)?;
    for four in all.chunks_exact(4) {
        builder.insert(checkpoint(four[0], four[1], four[2], four[3]))?;
    }
    let mut bytes = Vec::new(alloc);
    builder.serialize_into(&mut bytes)?;
    Ok(hex(alloc, &bytes)?)
}

/// The checkpoint of documents and bytes, each by its first and the one behind its last.
fn checkpoint(first_doc: u32, end_doc: u32, first_byte: u32, end_byte: u32) -> Checkpoint {
    Checkpoint {
        doc_range: first_doc..end_doc,
        byte_range: first_byte as usize..end_byte as usize,
    }
}

/// The four numbers of a checkpoint.
fn four_of(reach: &Checkpoint) -> [u32; 4] {
    [
        reach.doc_range.start,
        reach.doc_range.end,
        u32::try_from(reach.byte_range.start).unwrap_or(u32::MAX),
        u32::try_from(reach.byte_range.end).unwrap_or(u32::MAX),
    ]
}

/// The checkpoints of bytes, as `checkpoints` takes them.
fn checkpoints_read(alloc: Global, arguments: &Arguments) -> Result<Value, Refusal> {
    let index = SkipIndex::open(alloc, &arguments.bytes(alloc, 0)?)?;
    let mut list = Vec::new(alloc);
    for reach in index.checkpoints() {
        list.extend_from_slice(&four_of(reach))?;
    }
    Ok(numbers(alloc, &list)?)
}

/// The first document of the checkpoint that a document belongs to.
fn checkpoint_of(alloc: Global, arguments: &Arguments) -> Result<Value, Refusal> {
    let index = SkipIndex::open(alloc, &arguments.bytes(alloc, 0)?)?;
    match index.seek(arguments.small_number(1)?) {
        Some(reach) => Ok(number(u64::from(reach.doc_range.start))),
        None => Ok(Value::Null),
    }
}

/// The bytes of a footer.
fn footer(alloc: Global, arguments: &Arguments) -> Result<Value, Refusal> {
    let mut bytes = Vec::new(alloc);
    DocStoreFooter::new(arguments.number(0)?).serialize(&mut bytes)?;
    Ok(hex(alloc, &bytes)?)
}

/// Where the index of the blocks begins, as a footer says, and the bytes behind the footer.
fn footer_read(alloc: Global, arguments: &Arguments) -> Result<Value, Refusal> {
    let bytes = arguments.bytes(alloc, 0)?;
    let (footer, rest) = DocStoreFooter::deserialize(&bytes)?;
    Ok(pair(alloc, number(footer.offset), hex(alloc, rest)?)?)
}
