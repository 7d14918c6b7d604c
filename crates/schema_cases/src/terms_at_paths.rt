//! Terms at the paths of JSON fields, as bytes.

use crate::made_terms::field;
use case_lines::{Arguments, Refusal, hex};
use schema::{DateTime, Term};
use serde_json::Value;
use std::alloc::Global;

/// What an operation on terms at paths answers.
pub(crate) fn answer(
    alloc: Global,
    operation: &str,
    arguments: &Arguments,
) -> Result<Value, Refusal> {
    let term = match operation {
        "path" => path(alloc, arguments, arguments.flag(2)?)?,
        "keys" => keys(alloc, arguments)?,
        _ => value(alloc, operation, arguments)?,
    };
    Ok(hex(alloc, term.serialized_term())?)
}

/// The start of the terms at a field's path.
fn path(alloc: Global, arguments: &Arguments, expand_dots: bool) -> Result<Term, Refusal> {
    let field = field(arguments)?;
    Ok(Term::from_field_json_path(alloc, field, arguments.text(1)?, expand_dots)?)
}

/// The start of the terms at a field's path, by its keys.
fn keys(alloc: Global, arguments: &Arguments) -> Result<Term, Refusal> {
    let keys = arguments.texts(alloc, 1)?;
    Ok(Term::from_field_json_keys(alloc, field(arguments)?, &keys, arguments.flag(2)?)?)
}

/// The term of a value at a field's path, whose dots stand in keys.
fn value(alloc: Global, kind: &str, arguments: &Arguments) -> Result<Term, Refusal> {
    let mut term = path(alloc, arguments, false)?;
    append(&mut term, kind, arguments)?;
    Ok(term)
}

/// Appends the third argument, a value of that kind.
fn append(term: &mut Term, kind: &str, arguments: &Arguments) -> Result<(), Refusal> {
    let appended = match kind {
        "path-text" => term.append_type_and_str(arguments.text(2)?),
        "path-u64" => term.append_type_and_fast_value(arguments.number(2)?),
        "path-i64" => term.append_type_and_fast_value(arguments.signed_number(2)?),
        "path-bool" => term.append_type_and_fast_value(arguments.flag(2)?),
        "path-date" => term.append_type_and_fast_value(date(arguments)?),
        _ => return Err(Refusal::NotAsked),
    };
    Ok(appended?)
}

/// The third argument, nanoseconds since 1970.
fn date(arguments: &Arguments) -> Result<DateTime, Refusal> {
    Ok(DateTime::from_timestamp_nanos(arguments.signed_number(2)?))
}
