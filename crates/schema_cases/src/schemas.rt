//! Schemas: fields that are added one by one, and JSON.

use case_lines::{Arguments, Refusal, flag, made, number, pair, text};
use options::IndexRecordOption;
use schema::{FieldEntry, Schema, is_valid_field_name};
use serde_json::Value;
use std::alloc::Global;

/// What an operation on schemas answers. `read` and `built` make the schema that later cases are about.
pub(crate) fn answer(
    alloc: Global,
    schema: &mut Schema,
    operation: &str,
    arguments: &Arguments,
) -> Result<Value, Refusal> {
    match operation {
        "fields" => fields(alloc, schema),
        "options" => options_of_fields(alloc, schema),
        "field" => Ok(number(u64::from(schema.get_field(arguments.text(0)?)?.field_id()))),
        "find-field" => found_field(alloc, schema, arguments.text(0)?),
        "name-valid" => Ok(flag(is_valid_field_name(arguments.text(0)?))),
        _ => made(alloc, schema, operation, arguments),
    }
}

/// Each field's number and name.
fn fields(alloc: Global, schema: &Schema) -> Result<Value, Refusal> {
    let mut list = Vec::new(alloc);
    for (field, entry) in schema.fields() {
        let id = number(u64::from(field.field_id()));
        list.push(pair(alloc, id, text(alloc, entry.name())?)?)?;
    }
    Ok(Value::Array(list))
}

/// The field at the front of a path, and the rest of the path.
fn found_field(alloc: Global, schema: &Schema, path: &str) -> Result<Value, Refusal> {
    match schema.find_field(path) {
        Some((field, rest)) => {
            let id = number(u64::from(field.field_id()));
            Ok(pair(alloc, id, text(alloc, rest)?)?)
        }
        None => Ok(Value::Null),
    }
}

/// What the options of each field say.
fn options_of_fields(alloc: Global, schema: &Schema) -> Result<Value, Refusal> {
    let mut list = Vec::new(alloc);
    for (_, entry) in schema.fields() {
        list.push(options_of(alloc, entry)?)?;
    }
    Ok(Value::Array(list))
}

/// A field's name, whether it is stored, indexed and keeps lengths, what is recorded of its terms, its type and its gap.
fn options_of(alloc: Global, entry: &FieldEntry) -> Result<Value, Refusal> {
    let recorded = match entry.field_type().get_index_record_option() {
        Some(option) => text(alloc, recorded_name(option))?,
        None => Value::Null,
    };
    Ok(Value::Array(vec![in alloc;
        text(alloc, entry.name())?,
        flag(entry.is_stored()),
        flag(entry.is_indexed()),
        flag(entry.has_fieldnorms()),
        recorded,
        text(alloc, entry.field_type().value_type().name())?,
        number(u64::from(entry.gap())),
    ]?))
}

/// The name of what is recorded, as the JSON of schemas has it.
fn recorded_name(option: IndexRecordOption) -> &'static str {
    match option {
        IndexRecordOption::Basic => "basic",
        IndexRecordOption::WithFreqs => "freq",
        IndexRecordOption::WithFreqsAndPositions => "position",
    }
}
