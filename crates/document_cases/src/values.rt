//! Values of fields as texts and as JSON.

ghost use Rattle.std.specs.Prelude.{◌≢◌, IfOk};
ghost use Rattle.definitions.specs.Schema.{json_kind};
ghost use Rattle.terms.specs.Kinds.{kind_of};

use case_lines::{Arguments, Refusal, bits_of, flag, hex, number, text};
use schema::{DateTime, Type};
use serde_json::{Number, Value};
use std::alloc::Global;
use values_json::{
    address_text, bytes_text, date_text, has_float, leaf_to_json, read_address, read_bool_text,
    read_bytes, read_date, read_facet, read_i64_number, read_i64_text, read_leaf, read_u64_number,
    read_u64_text,
};

/// What an operation on values answers.
pub(crate) fn answer(
    alloc: Global,
    operation: &str,
    arguments: &Arguments,
) -> Result<Value, Refusal> {
    match operation.strip_prefix("of-text-") {
        Some(kind) => of_text(alloc, kind, arguments.text(0)?),
        None => of_json(alloc, operation, arguments),
    }
}

/// The value that a text stands for.
fn of_text(alloc: Global, kind: &str, written: &str) -> Result<Value, Refusal> {
    match kind {
        "u64" => Ok(number(read_u64_text(written)?)),
        "i64" => Ok(Value::from(read_i64_text(written)?)),
        "bool" => Ok(flag(read_bool_text(written)?)),
        "date" => Ok(Value::from(read_date(written)?.into_timestamp_nanos())),
        "facet" => Ok(text(alloc, read_facet(alloc, written)?.encoded_str())?),
        "bytes" => Ok(hex(alloc, &read_bytes(alloc, written)?)?),
        "ip_addr" => address(alloc, written),
        _ => Err(Refusal::NotAsked),
    }
}

/// The sixteen bytes of an address, the highest first.
fn address(alloc: Global, written: &str) -> Result<Value, Refusal> {
    match read_address(written) {
        Some(bits) => Ok(hex(alloc, &bits.to_be_bytes())?),
        None => Ok(Value::Null),
    }
}

/// What an operation that reads or prints JSON answers.
fn of_json(alloc: Global, operation: &str, arguments: &Arguments) -> Result<Value, Refusal> {
    match operation {
        "of-json" => leaf(alloc, arguments),
        "u64-of-number" => Ok(number(read_u64_number(argument_number(arguments)?)?)),
        "i64-of-number" => Ok(Value::from(read_i64_number(argument_number(arguments)?)?)),
        "text-of-date" => text_of_date(alloc, arguments),
        "text-of-bytes" => Ok(Value::String(bytes_text(alloc, &arguments.bytes(alloc, 0)?)?)),
        "text-of-ip_addr" => Ok(Value::String(address_text(
            alloc,
            bits_of(&arguments.bytes(alloc, 0)?),
        )?)),
        _ => Err(Refusal::NotAsked),
    }
}

/// The first argument, a number of JSON.
fn argument_number(arguments: &Arguments) -> Result<&Number, Refusal> {
    arguments.value(0)?.as_number().ok_or(Refusal::NotAsked)
}

/// The text of an instant, by its nanoseconds.
fn text_of_date(alloc: Global, arguments: &Arguments) -> Result<Value, Refusal> {
    let date = DateTime::from_timestamp_nanos(arguments.signed_number(0)?);
    Ok(Value::String(date_text(alloc, date)?))
}

/// The value that JSON stands for in a field of a type, printed as JSON.
fn leaf(alloc: Global, arguments: &Arguments) -> Result<Value, Refusal> {
    let kind = leaf_type(arguments.text(0)?)?;
    let coerce = arguments.flag(1)?;
    let json = arguments.value(2)?;
    if coerce && has_float(json) {
        return Err(Refusal::NotAsked);
    }
    Ok(leaf_to_json(alloc, &read_leaf(alloc, kind, coerce, json)?)?)
}

/// The type of that name, unless it is that of objects.
fn leaf_type(name: &str) -> Result<Type, Refusal>
    ensures { IfOk result (λ kind. kind_of kind ≢ json_kind) }
{
    match name {
        "text" => Ok(Type::Str),
        "u64" => Ok(Type::U64),
        "i64" => Ok(Type::I64),
        "bool" => Ok(Type::Bool),
        "date" => Ok(Type::Date),
        "facet" => Ok(Type::Facet),
        "bytes" => Ok(Type::Bytes),
        "ip_addr" => Ok(Type::IpAddr),
        _ => Err(Refusal::NotAsked),
    }
}
