//! Fields that are added to a schema, by their options' names.

use crate::added_values::{part, text_in};
use crate::{Refusal, number, text};
use definitions::Fault;
use options::{
    FacetOptions, INDEXED, IndexRecordOption, JsonObjectOptions, NumericOptions, STORED, STRING,
    TEXT, TextFieldIndexing, TextOptions,
};
use schema::{Field, SchemaBuilder};
use serde_json::Value;
use std::alloc::Global;

/// Adds the field of a list of its type, its name and its options, and answers its number or the refusal's name.
pub(crate) fn answer_to_add(
    alloc: Global,
    builder: &mut SchemaBuilder,
    field: &Value,
) -> Result<Value, Refusal> {
    let kind = text_in(part(field, 0)?)?;
    let name = text_in(part(field, 1)?)?;
    match add(builder, kind, name, text_in(part(field, 2)?)?)? {
        Ok(field) => Ok(number(u64::from(field.field_id()))),
        Err(fault) => Ok(text(alloc, fault.name())?),
    }
}

/// Adds a field.
fn add(
    builder: &mut SchemaBuilder,
    kind: &str,
    name: &str,
    options: &str,
) -> Result<Result<Field, Fault>, Refusal> {
    match kind {
        "text" => Ok(builder.add_text_field(name, text_options(options)?)),
        "u64" => Ok(builder.add_u64_field(name, number_options(options)?)),
        "facet" => Ok(builder.add_facet_field(name, FacetOptions::default())),
        "json" => Ok(builder.add_json_field(name, json_options())),
        _ if options == "INDEXED" => add_indexed(builder, kind, name),
        _ => Err(Refusal::NotAsked),
    }
}

/// Adds an indexed field of a further type.
fn add_indexed(
    builder: &mut SchemaBuilder,
    kind: &str,
    name: &str,
) -> Result<Result<Field, Fault>, Refusal> {
    match kind {
        "i64" => Ok(builder.add_i64_field(name, INDEXED)),
        "bool" => Ok(builder.add_bool_field(name, INDEXED)),
        "date" => Ok(builder.add_date_field(name, INDEXED)),
        "bytes" => Ok(builder.add_bytes_field(name, INDEXED)),
        "ip_addr" => Ok(builder.add_ip_addr_field(name, INDEXED)),
        _ => Err(Refusal::NotAsked),
    }
}

/// The options of a JSON field whose texts are indexed with positions.
fn json_options() -> JsonObjectOptions {
    let indexing = TextFieldIndexing::default().set_index_option(
        IndexRecordOption::WithFreqsAndPositions,
    );
    JsonObjectOptions::default().set_indexing_options(indexing)
}

/// The options of a text field.
fn text_options(options: &str) -> Result<TextOptions, Refusal> {
    match options {
        "TEXT" => Ok(TEXT.into()),
        "STRING" => Ok(STRING.into()),
        "STORED" => Ok(STORED.into()),
        "TEXT | STORED" => Ok(TEXT | STORED),
        _ => Err(Refusal::NotAsked),
    }
}

/// The options of a field of numbers.
fn number_options(options: &str) -> Result<NumericOptions, Refusal> {
    match options {
        "INDEXED" => Ok(INDEXED.into()),
        "STORED" => Ok(STORED.into()),
        "INDEXED | STORED" => Ok((INDEXED | STORED).into()),
        _ => Err(Refusal::NotAsked),
    }
}
