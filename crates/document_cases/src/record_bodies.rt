//! The body of a file's first record.

use case_lines::{Arguments, Refusal, number, pair};
use index_file::{put_first_body, read_first_body};
use schema::Schema;
use serde_json::Value;
use settings::Settings;
use std::alloc::{AllocError, Global};

/// What an operation on bodies answers.
pub(crate) fn answer(
    alloc: Global,
    operation: &str,
    arguments: &Arguments,
) -> Result<Value, Refusal> {
    match operation {
        "first" => first(alloc, arguments),
        _ => Err(Refusal::NotAsked),
    }
}

/// How many fields the first body's schema has and its settings' weights; both again of the body put anew.
fn first(alloc: Global, arguments: &Arguments) -> Result<Value, Refusal> {
    let body = arguments.bytes(alloc, 0)?;
    let Some((schema, settings)) = read_first_body(alloc, &body)? else {
        return Ok(Value::Null);
    };
    let mut out = Vec::new(alloc);
    put_first_body(alloc, &mut out, &schema, &settings)?;
    let read = fields_and_weights(alloc, &schema, &settings)?;
    match read_first_body(alloc, &out)? {
        Some((schema, settings)) => {
            let again = fields_and_weights(alloc, &schema, &settings)?;
            Ok(pair(alloc, read, again)?)
        }
        None => Ok(Value::Null),
    }
}

/// How many fields a schema has, and the weights of terms.
fn fields_and_weights(
    alloc: Global,
    schema: &Schema,
    settings: &Settings,
) -> Result<Value, AllocError> {
    let mut weights = Vec::new(alloc);
    for (_, weight) in settings.weights() {
        weights.push(number(*weight))?;
    }
    pair(
        alloc,
        number(schema.num_fields() as u64),
        Value::Array(weights),
    )
}
