//! Documents: read, printed, written, copied and compared.

use crate::shown_values::{owned_value, shown, value_list};
use case_lines::{Arguments, Refusal, document_of_values, flag, hex, number, pair, text};
use definitions::Fault;
use document::{CompactDoc, CompactDocValue, OwnedValue, put_value, take_value};
use schema::{Field, Schema};
use serde_json::Value;
use std::alloc::Global;

/// What an operation on documents answers. Its first argument is a document: as JSON, as bytes, or as a list of
/// values that are added.
pub(crate) fn answer(
    alloc: Global,
    schema: &Schema,
    operation: &str,
    arguments: &Arguments,
) -> Result<Value, Refusal> {
    if operation == "of-json" {
        let doc = CompactDoc::from_json_object(alloc, schema, arguments.value(0)?)?;
        return Ok(values(alloc, &doc)?);
    }
    match operation.strip_prefix("value-") {
        Some(rest) => answer_on_value(alloc, rest, arguments),
        None => answer_on_document(alloc, schema, operation, arguments),
    }
}

/// What an operation on a document answers.
fn answer_on_document(
    alloc: Global,
    schema: &Schema,
    operation: &str,
    arguments: &Arguments,
) -> Result<Value, Refusal> {
    let doc = document(alloc, schema, arguments, 0)?;
    match operation {
        "values" => Ok(values(alloc, &doc)?),
        "first" => first(alloc, &doc, field(arguments)?),
        "all" => Ok(value_list(alloc, doc.get_all(field(arguments)?))?),
        "length" => Ok(pair(alloc, number(doc.len() as u64), flag(doc.is_empty()))?),
        "written" => Ok(hex(alloc, &written(alloc, schema, &doc)?)?),
        "indexable" => Ok(flag(doc.indexable(schema))),
        _ => answer_on_copies(alloc, schema, operation, arguments, &doc),
    }
}

/// What an operation on a document and what is made of it answers.
fn answer_on_copies(
    alloc: Global,
    schema: &Schema,
    operation: &str,
    arguments: &Arguments,
    doc: &CompactDoc,
) -> Result<Value, Refusal> {
    match operation {
        "printed" => printed(alloc, schema, doc),
        "reads-back" => reads_back(alloc, schema, doc),
        "named" => named(alloc, schema, doc),
        "copied" => copied(alloc, doc),
        "same" => Ok(flag(*doc == document(alloc, schema, arguments, 1)?)),
        _ => Err(Refusal::NotAsked),
    }
}

/// The bytes of a document's stored values; a document that can't be indexed has none.
fn written(alloc: Global, schema: &Schema, doc: &CompactDoc) -> Result<Vec<u8>, Refusal> {
    if !doc.indexable(schema) {
        return Err(Refusal::Fault(Fault::NotIndexable));
    }
    Ok(doc.serialize(alloc, schema)?)
}

/// The second argument, a field by its number.
fn field(arguments: &Arguments) -> Result<Field, Refusal> {
    Ok(Field::from_field_id(arguments.small_number(1)?))
}

/// The document at an index: a text is its bytes, and a list what is added to an empty one.
pub(crate) fn document(
    alloc: Global,
    schema: &Schema,
    arguments: &Arguments,
    index: usize,
) -> Result<CompactDoc, Refusal> {
    match arguments.value(index)? {
        Value::String(_) => document_of_bytes(alloc, arguments, index),
        Value::Array(values) => document_of_values(alloc, values),
        json => Ok(CompactDoc::from_json_object(alloc, schema, json)?),
    }
}

/// The document of the bytes at an index.
fn document_of_bytes(
    alloc: Global,
    arguments: &Arguments,
    index: usize,
) -> Result<CompactDoc, Refusal> {
    let bytes = arguments.bytes(alloc, index)?;
    Ok(CompactDoc::deserialize(alloc, &bytes)?)
}

/// Each value of a document with its field's number.
pub(crate) fn values(alloc: Global, doc: &CompactDoc) -> Result<Value, Fault> {
    let mut list = Vec::new(alloc);
    for (field, value) in doc.field_values() {
        list.push(field_value(alloc, field, value)?)?;
    }
    Ok(Value::Array(list))
}

/// A field's number and a value.
fn field_value(alloc: Global, field: Field, value: CompactDocValue<'_>) -> Result<Value, Fault> {
    let id = number(u64::from(field.field_id()));
    Ok(pair(alloc, id, shown(alloc, value)?)?)
}

/// The first value of a field.
fn first(alloc: Global, doc: &CompactDoc, field: Field) -> Result<Value, Refusal> {
    match doc.get_first(field) {
        Some(value) => Ok(shown(alloc, value)?),
        None => Ok(Value::Null),
    }
}

/// The JSON of a document, as it is printed: a text of another form is answered as a text.
fn printed(alloc: Global, schema: &Schema, doc: &CompactDoc) -> Result<Value, Refusal> {
    let printed = doc.to_json(alloc, schema)?;
    if let Ok(json) = Value::from_str(alloc, &printed) {
        if json.to_string(alloc)? == printed {
            return Ok(json);
        }
    }
    Ok(Value::String(printed))
}

/// Whether what is printed of a document is read as a document with the same bytes.
fn reads_back(alloc: Global, schema: &Schema, doc: &CompactDoc) -> Result<Value, Refusal> {
    let Ok(json) = Value::from_str(alloc, &doc.to_json(alloc, schema)?) else {
        return Ok(flag(false));
    };
    let again = CompactDoc::from_json_object(alloc, schema, &json)?;
    Ok(flag(written(alloc, schema, &again)? == written(alloc, schema, doc)?))
}

/// The names of a document's fields, each with its values.
fn named(alloc: Global, schema: &Schema, doc: &CompactDoc) -> Result<Value, Refusal> {
    let doc = doc.to_named_doc(alloc, schema)?;
    let mut list = Vec::new(alloc);
    for (name, _) in doc.fields() {
        let values = doc.get(name).unwrap_or(&[]);
        list.push(named_values(alloc, name, values)?)?;
    }
    Ok(Value::Array(list))
}

/// A name and its values.
fn named_values(alloc: Global, name: &str, values: &[OwnedValue]) -> Result<Value, Fault> {
    let values = owned(alloc, values)?;
    Ok(pair(alloc, text(alloc, name)?, values)?)
}

/// Values that own what they hold.
fn owned(alloc: Global, values: &[OwnedValue]) -> Result<Value, Fault> {
    let mut list = Vec::new(alloc);
    for value in values {
        list.push(owned_value(alloc, value)?)?;
    }
    Ok(Value::Array(list))
}

/// Copies each value into another document, and answers how many it has and whether it is the same.
fn copied(alloc: Global, doc: &CompactDoc) -> Result<Value, Refusal> {
    let mut copy = CompactDoc::new(alloc);
    for (field, value) in doc.field_values() {
        add_copy(alloc, &mut copy, field, value)?;
    }
    Ok(pair(alloc, number(copy.len() as u64), flag(copy == *doc))?)
}

/// Copies a value into a document.
fn add_copy(
    alloc: Global,
    copy: &mut CompactDoc,
    field: Field,
    value: CompactDocValue<'_>,
) -> Result<(), Refusal> {
    let owned = OwnedValue::from_compact(alloc, value)?;
    Ok(copy.add_field_value(field, &owned)?)
}

/// What an operation on the bytes of one value answers.
fn answer_on_value(
    alloc: Global,
    operation: &str,
    arguments: &Arguments,
) -> Result<Value, Refusal> {
    let bytes = arguments.bytes(alloc, 0)?;
    let (value, rest) = take_value(&bytes)?;
    match operation {
        "rest" => Ok(hex(alloc, rest)?),
        "again" => {
            let mut out = Vec::new(alloc);
            put_value(&mut out, value)?;
            Ok(hex(alloc, &out)?)
        }
        _ => Err(Refusal::NotAsked),
    }
}
