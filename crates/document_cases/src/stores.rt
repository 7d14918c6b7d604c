//! Stores of documents as bytes: whole ones, their layers, checkpoints and footers.

use crate::documents::values;
use crate::{checkpoints, mixed_stores};
use case_lines::{Arguments, Refusal, bytes_of_digits, hex, number, pair, text};
use definitions::Fault;
use document::CompactDoc;
use schema::Schema;
use serde_json::Value;
use std::alloc::Global;
use store::{Bytes, DocStoreFooter, StoreReader, StoreWriter};

/// What an operation on stores answers.
pub(crate) fn answer(
    alloc: Global,
    schema: &Schema,
    operation: &str,
    arguments: &Arguments,
) -> Result<Value, Refusal> {
    if let Some(rest) = operation.strip_prefix("mixed-") {
        return mixed_stores::answer(alloc, rest, arguments);
    }
    match operation {
        "of-slots" => Ok(hex(alloc, &of_slots(alloc, arguments)?)?),
        "of-documents" => Ok(hex(alloc, &of_documents(alloc, schema, arguments)?)?),
        "documents" => documents(alloc, schema, arguments),
        "document" => document(alloc, of_documents(alloc, schema, arguments)?, arguments),
        "document-in-slot" => document(alloc, of_slots(alloc, arguments)?, arguments),
        "slots-taken" => slots_taken(alloc, arguments),
        "layers" => layers(alloc, arguments),
        _ => checkpoints::answer(alloc, operation, arguments),
    }
}

/// The size of a block, the second argument.
fn block_size(arguments: &Arguments) -> Result<usize, Refusal> {
    Ok(arguments.number(1)? as usize)
}

/// The bytes of a slot, and how often it comes.
fn slot(alloc: Global, value: &Value) -> Result<(Vec<u8>, u64), Refusal> {
    let Some(run) = value.as_array() else {
        return Ok((bytes_of_digits(alloc, value)?, 1));
    };
    let bytes = run.first().ok_or(Refusal::NotAsked)?;
    let times = run.get(1).and_then(Value::as_u64).ok_or(Refusal::NotAsked)?;
    Ok((bytes_of_digits(alloc, bytes)?, times))
}

/// The store of slots, by their bytes.
fn of_slots(alloc: Global, arguments: &Arguments) -> Result<Vec<u8>, Refusal> {
    let mut writer = StoreWriter::new(alloc, block_size(arguments)?);
    for value in arguments.list(0)? {
        let (bytes, times) = slot(alloc, value)?;
        add_times(&mut writer, &bytes, times)?;
    }
    Ok(writer.close()?)
}

/// Adds a slot a given number of times.
fn add_times(writer: &mut StoreWriter, bytes: &[u8], times: u64) -> Result<(), Refusal> {
    for _ in 0..times {
        writer.store_bytes(bytes)?;
    }
    Ok(())
}

/// The store of documents, by their JSON.
fn of_documents(alloc: Global, schema: &Schema, arguments: &Arguments) -> Result<Vec<u8>, Refusal> {
    let mut writer = StoreWriter::new(alloc, block_size(arguments)?);
    for json in arguments.list(0)? {
        let doc = CompactDoc::from_json_object(alloc, schema, json)?;
        if !doc.indexable(schema) {
            return Err(Refusal::Fault(Fault::NotIndexable));
        }
        writer.store(&doc, schema)?;
    }
    Ok(writer.close()?)
}

/// A reader of a store that keeps a given number of blocks.
pub(crate) fn reader(alloc: Global, bytes: &[u8], capacity: usize) -> Result<StoreReader, Refusal> {
    let shared = Bytes::copy_from_slice(alloc, bytes)?;
    Ok(StoreReader::open(alloc, shared, capacity)?)
}

/// The values of each document of a store, got by its number.
fn documents(alloc: Global, schema: &Schema, arguments: &Arguments) -> Result<Value, Refusal> {
    let mut reader = reader(alloc, &of_documents(alloc, schema, arguments)?, 2)?;
    all_values(alloc, &mut reader)
}

/// The values of each document of a reader.
fn all_values(alloc: Global, reader: &mut StoreReader) -> Result<Value, Refusal> {
    let mut list = Vec::new(alloc);
    for doc in 0..reader.num_docs() {
        list.push(values_of(alloc, reader, doc)?)?;
    }
    Ok(Value::Array(list))
}

/// The values of the document with a number.
fn values_of(alloc: Global, reader: &mut StoreReader, doc: u32) -> Result<Value, Refusal> {
    let doc = reader.get(doc)?;
    Ok(values(alloc, &doc)?)
}

/// The values of the document with a number, the third argument.
fn document(alloc: Global, bytes: Vec<u8>, arguments: &Arguments) -> Result<Value, Refusal> {
    let doc = arguments.small_number(2)?;
    let mut reader = reader(alloc, &bytes, 2)?;
    values_of(alloc, &mut reader, doc)
}

/// Of each slot that is added the refusal's name, or null.
fn slots_taken(alloc: Global, arguments: &Arguments) -> Result<Value, Refusal> {
    let mut writer = StoreWriter::new(alloc, block_size(arguments)?);
    let mut list = Vec::new(alloc);
    for value in arguments.list(0)? {
        list.push(taken(alloc, &mut writer, value)?)?;
    }
    Ok(Value::Array(list))
}

/// Adds a slot, and answers the refusal's name, or null.
fn taken(alloc: Global, writer: &mut StoreWriter, value: &Value) -> Result<Value, Refusal> {
    let (bytes, _) = slot(alloc, value)?;
    match writer.store_bytes(&bytes) {
        Ok(()) => Ok(Value::Null),
        Err(fault) => Ok(text(alloc, fault.name())?),
    }
}

/// Where the index of a store's blocks begins, and the byte that stands there: how many layers it has.
fn layers(alloc: Global, arguments: &Arguments) -> Result<Value, Refusal> {
    let bytes = of_slots(alloc, arguments)?;
    let (footer, rest) = DocStoreFooter::extract_footer(&bytes)?;
    let first = rest.get(footer.offset as usize).ok_or(Refusal::NotAsked)?;
    Ok(pair(alloc, number(footer.offset), hex(alloc, &[*first])?)?)
}
