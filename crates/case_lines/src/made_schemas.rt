//! Schemas that lines make: by fields that are added one by one, and by JSON.

use crate::schema_fields::answer_to_add;
use crate::{Arguments, Refusal, number, pair};
use schema::Schema;
use serde_json::Value;
use std::alloc::Global;

/// What `read` and `built` answer; the schema is then the one that they make.
pub fn made(
    alloc: Global,
    schema: &mut Schema,
    operation: &str,
    arguments: &Arguments,
) -> Result<Value, Refusal> {
    match operation {
        "read" => read(alloc, schema, arguments.value(0)?),
        "built" => built(alloc, schema, arguments),
        _ => Err(Refusal::NotAsked),
    }
}

/// Reads a schema, and answers it as it is written.
fn read(alloc: Global, schema: &mut Schema, value: &Value) -> Result<Value, Refusal> {
    *schema = Schema::from_json_value(alloc, value)?;
    Ok(schema.to_json_value(alloc)?)
}

/// Adds fields, and answers for each its number or why it was refused, and how many fields the schema has then.
fn built(alloc: Global, schema: &mut Schema, arguments: &Arguments) -> Result<Value, Refusal> {
    let mut builder = Schema::builder(alloc);
    let mut added = Vec::new(alloc);
    for field in arguments.list(0)? {
        added.push(answer_to_add(alloc, &mut builder, field)?)?;
    }
    *schema = builder.build();
    Ok(pair(
        alloc,
        Value::Array(added),
        number(schema.num_fields() as u64),
    )?)
}
