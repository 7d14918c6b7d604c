//! Values and JSON that calls make, nested as deep as is asked.

use case_lines::{Arguments, Refusal, flag, number, pair};
use document::{CompactDoc, OwnedValue, value_to_json};
use schema::{Field, Schema};
use serde_json::{Map, Value};
use std::alloc::{AllocError, Global};

/// What an operation on what nests `arguments[0]` deep answers.
pub(crate) fn answer(
    alloc: Global,
    schema: &Schema,
    operation: &str,
    arguments: &Arguments,
) -> Result<Value, Refusal> {
    let levels = arguments.number(0)?;
    match operation {
        "value" => added(alloc, schema, &arrays(alloc, levels)?),
        "object" => object_added(alloc, schema, levels),
        "printed" => {
            drop(value_to_json(alloc, &arrays(alloc, levels)?)?);
            Ok(flag(true))
        }
        "json" => {
            let doc = CompactDoc::from_json_object(alloc, schema, &objects(alloc, levels)?)?;
            told(alloc, schema, &doc)
        }
        _ => Err(Refusal::NotAsked),
    }
}

/// Adds `value` to the first field of a document.
fn added(alloc: Global, schema: &Schema, value: &OwnedValue) -> Result<Value, Refusal> {
    let mut doc = CompactDoc::new(alloc);
    doc.add_field_value(Field::from_field_id(0), value)?;
    told(alloc, schema, &doc)
}

/// Adds an object that nests `levels` deep to the first field of a document.
fn object_added(alloc: Global, schema: &Schema, levels: u64) -> Result<Value, Refusal> {
    let mut members = Vec::new(alloc);
    let inside = arrays(alloc, levels.saturating_sub(1))?;
    members.push((String::from_str(alloc, "data")?, inside))?;
    let mut doc = CompactDoc::new(alloc);
    doc.add_object(Field::from_field_id(0), &members)?;
    told(alloc, schema, &doc)
}

/// How many values a document has, and whether it can be indexed.
fn told(alloc: Global, schema: &Schema, doc: &CompactDoc) -> Result<Value, Refusal> {
    Ok(pair(alloc, number(doc.len() as u64), flag(doc.indexable(schema)))?)
}

/// Arrays in one another.
fn arrays(alloc: Global, levels: u64) -> Result<OwnedValue, AllocError> {
    let mut value = OwnedValue::Null;
    for _ in 0..levels {
        let mut values = Vec::new(alloc);
        values.push(value)?;
        value = OwnedValue::Array(values);
    }
    Ok(value)
}

/// Objects in one another, each at `data` of the one around it.
fn objects(alloc: Global, levels: u64) -> Result<Value, AllocError> {
    let mut value = Value::Null;
    for _ in 0..levels {
        let mut members = Map::new(alloc);
        drop(members.insert(String::from_str(alloc, "data")?, value)?);
        value = Value::Object(members);
    }
    Ok(value)
}
