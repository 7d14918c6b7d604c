//! Values of documents, each with the name of its kind.

use case_lines::{hex, pair, text};
use definitions::Fault;
use document::{CompactDocValue, OwnedValue, ValuesOfField, value_to_json};
use serde_json::Value;
use std::alloc::Global;

/// The values of a field, in order.
pub(crate) fn value_list(alloc: Global, values: ValuesOfField<'_>) -> Result<Value, Fault> {
    let mut list = Vec::new(alloc);
    for value in values {
        list.push(shown(alloc, value)?)?;
    }
    Ok(Value::Array(list))
}

/// A value that is lent from a document.
pub(crate) fn shown(alloc: Global, value: CompactDocValue<'_>) -> Result<Value, Fault> {
    owned_value(alloc, &OwnedValue::from_compact(alloc, value)?)
}

/// The name of a value's kind, and the value: an instant by its nanoseconds, bytes by their digits, an address by
/// its sixteen bytes, and any other value as JSON.
pub(crate) fn owned_value(alloc: Global, value: &OwnedValue) -> Result<Value, Fault> {
    let told = match value {
        OwnedValue::Date(time) => Value::from(time.into_timestamp_nanos()),
        OwnedValue::Bytes(bytes) => hex(alloc, bytes)?,
        OwnedValue::IpAddr(bits) => hex(alloc, &bits.to_be_bytes())?,
        _ => value_to_json(alloc, value)?,
    };
    Ok(pair(alloc, text(alloc, kind_of_value(value))?, told)?)
}

/// The name of a value's kind.
fn kind_of_value(value: &OwnedValue) -> &'static str {
    match value {
        OwnedValue::Str(_) => "text",
        OwnedValue::PreTokStr(_) => "tokens",
        OwnedValue::U64(_) => "u64",
        OwnedValue::I64(_) => "i64",
        OwnedValue::Bool(_) => "bool",
        OwnedValue::Date(_) => "date",
        OwnedValue::Facet(_) => "facet",
        OwnedValue::Bytes(_) => "bytes",
        OwnedValue::IpAddr(_) => "ip_addr",
        OwnedValue::Null => "null",
        OwnedValue::Array(_) => "array",
        OwnedValue::Object(_) => "object",
    }
}
