//! Lengths of fields, as one byte each.

use case_lines::{Arguments, Refusal, hex, number, pair};
use codes::{
    FieldNormReader, FieldNormReaders, FieldNormsSerializer, fieldnorm_to_id, id_to_fieldnorm,
};
use serde_json::Value;
use std::alloc::Global;

/// What an operation on lengths answers.
pub(crate) fn answer(
    alloc: Global,
    operation: &str,
    arguments: &Arguments,
) -> Result<Value, Refusal> {
    match operation {
        "id" => Ok(number(u64::from(fieldnorm_to_id(arguments.number(0)? as usize)))),
        "of-id" => Ok(number(u64::from(id_to_fieldnorm(arguments.byte(0)?)))),
        "ids-kept" => Ok(number(ids_kept())),
        "section" => section(alloc, arguments),
        "of-section" => of_section(alloc, arguments),
        "reader" => reader(alloc, arguments),
        "constant" => Ok(number(u64::from(FieldNormReader::constant(
            arguments.small_number(0)?,
            arguments.number(1)? as usize,
        ).num_docs()))),
        _ => Err(Refusal::NotAsked),
    }
}

/// How many ids are those of the lengths that they stand for.
fn ids_kept() -> u64 {
    let mut kept = 0u64;
    for id in 0..=u8::MAX {
        if fieldnorm_to_id(id_to_fieldnorm(id) as usize) == id {
            kept = kept.saturating_add(1);
        }
    }
    kept
}

/// The section of one field, by its number and its documents' ids.
fn section(alloc: Global, arguments: &Arguments) -> Result<Value, Refusal> {
    let mut serializer = FieldNormsSerializer::from_write(Vec::new(alloc));
    serializer.serialize_field(arguments.small_number(0)?, &arguments.bytes(alloc, 1)?)?;
    Ok(hex(alloc, &serializer.close())?)
}

/// The lengths and their ids in a section of one field, by how many documents there are and the field's number.
fn of_section(alloc: Global, arguments: &Arguments) -> Result<Value, Refusal> {
    let bytes = arguments.bytes(alloc, 0)?;
    let field = arguments.small_number(2)?;
    let docs = arguments.small_number(1)?;
    let fields = [field];
    let readers = FieldNormReaders::open(&bytes, docs, &fields)?;
    match readers.get_field(field) {
        Some(reader) => lengths(alloc, &reader),
        None => Ok(Value::Null),
    }
}

/// The lengths of a field's ids, for a given number of documents.
fn reader(alloc: Global, arguments: &Arguments) -> Result<Value, Refusal> {
    let ids = arguments.bytes(alloc, 0)?;
    lengths(
        alloc,
        &FieldNormReader::open(&ids, arguments.small_number(1)?)?,
    )
}

/// The id and the length of each document.
fn lengths(alloc: Global, reader: &FieldNormReader<'_>) -> Result<Value, Refusal> {
    let mut list = Vec::new(alloc);
    for doc in 0..reader.num_docs() {
        let id = number(u64::from(reader.fieldnorm_id(doc)));
        list.push(pair(alloc, id, number(u64::from(reader.fieldnorm(doc))))?)?;
    }
    Ok(Value::Array(list))
}
