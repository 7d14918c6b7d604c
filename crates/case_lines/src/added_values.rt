//! Documents whose values are added one by one: `[FIELD, KIND, VALUE]` each.

use crate::{Refusal, bytes_of_digits};
use common::{PreTokenizedString, Token};
use document::{CompactDoc, OwnedValue};
use schema::{DateTime, Facet, Field};
use serde_json::Value;
use std::alloc::Global;

/// The document of the values that are added to an empty one.
pub fn document_of_values(alloc: Global, values: &[Value]) -> Result<CompactDoc, Refusal> {
    let mut doc = CompactDoc::new(alloc);
    for value in values {
        let kind = text_in(part(value, 1)?)?;
        add(
            alloc,
            &mut doc,
            field_in(part(value, 0)?)?,
            kind,
            part(value, 2)?,
        )?;
    }
    Ok(doc)
}

/// The item at an index of a list.
pub fn part(list: &Value, index: usize) -> Result<&Value, Refusal> {
    list.get(index).ok_or(Refusal::NotAsked)
}

/// The text that a value is.
pub fn text_in(value: &Value) -> Result<&str, Refusal> {
    value.as_str().ok_or(Refusal::NotAsked)
}

/// The number that a value is.
pub fn number_in(value: &Value) -> Result<u64, Refusal> {
    value.as_u64().ok_or(Refusal::NotAsked)
}

/// The number, negative or not, that a value is.
pub fn signed_in(value: &Value) -> Result<i64, Refusal> {
    value.as_i64().ok_or(Refusal::NotAsked)
}

/// The field with the number that a value is.
pub fn field_in(value: &Value) -> Result<Field, Refusal> {
    match u32::try_from(number_in(value)?) {
        Ok(id) => Ok(Field::from_field_id(id)),
        Err(_) => Err(Refusal::NotAsked),
    }
}

/// Adds a value by the call for its kind.
fn add(
    alloc: Global,
    doc: &mut CompactDoc,
    field: Field,
    kind: &str,
    value: &Value,
) -> Result<(), Refusal> {
    match kind {
        "text" => Ok(doc.add_text(field, text_in(value)?)?),
        "tokens" => Ok(doc.add_pre_tokenized_text(field, &tokens_in(alloc, value)?)?),
        "u64" => Ok(doc.add_u64(field, number_in(value)?)?),
        "i64" => Ok(doc.add_i64(field, signed_in(value)?)?),
        "bool" => Ok(doc.add_bool(field, value.as_bool().ok_or(Refusal::NotAsked)?)?),
        "date" => Ok(doc.add_date(field, DateTime::from_timestamp_nanos(signed_in(value)?))?),
        _ => add_further(alloc, doc, field, kind, value),
    }
}

/// Adds a value of a further kind.
fn add_further(
    alloc: Global,
    doc: &mut CompactDoc,
    field: Field,
    kind: &str,
    value: &Value,
) -> Result<(), Refusal> {
    match kind {
        "facet" => Ok(doc.add_facet(field, &Facet::from_text(alloc, text_in(value)?)?)?),
        "bytes" => Ok(doc.add_bytes(field, &bytes_of_digits(alloc, value)?)?),
        "ip_addr" => Ok(doc.add_ip_addr(field, bits_of(&bytes_of_digits(alloc, value)?))?),
        "object" => Ok(doc.add_object(field, &members_in(alloc, value)?)?),
        "owned-object" => {
            let members = members_in(alloc, value)?;
            Ok(doc.add_field_value(field, &OwnedValue::Object(members))?)
        }
        _ => Ok(doc.add_field_value(field, &owned(alloc, kind, value)?)?),
    }
}

/// The members `[KEY, KIND, VALUE]` of an object.
fn members_in(alloc: Global, value: &Value) -> Result<Vec<(String, OwnedValue)>, Refusal> {
    let mut members = Vec::new(alloc);
    for member in value.as_array().ok_or(Refusal::NotAsked)? {
        let key = String::from_str(alloc, text_in(part(member, 0)?)?)?;
        let kind = text_in(part(member, 1)?)?;
        members.push((key, owned(alloc, kind, part(member, 2)?)?))?;
    }
    Ok(members)
}

/// A value that owns what it holds.
fn owned(alloc: Global, kind: &str, value: &Value) -> Result<OwnedValue, Refusal> {
    match kind {
        "null" => Ok(OwnedValue::Null),
        "u64" => Ok(OwnedValue::U64(number_in(value)?)),
        "owned-i64" => Ok(OwnedValue::I64(signed_in(value)?)),
        "bool" => Ok(OwnedValue::Bool(value.as_bool().ok_or(Refusal::NotAsked)?)),
        "ip_addr" => Ok(OwnedValue::IpAddr(bits_of(&bytes_of_digits(alloc, value)?))),
        "text" => Ok(OwnedValue::Str(String::from_str(alloc, text_in(value)?)?)),
        "arrays" => nested(alloc, number_in(value)?),
        _ => Err(Refusal::NotAsked),
    }
}

/// Arrays, as many as that, one in the other.
fn nested(alloc: Global, depth: u64) -> Result<OwnedValue, Refusal> {
    let mut value = OwnedValue::Array(Vec::new(alloc));
    for _ in 1..depth {
        let mut values = Vec::new(alloc);
        values.push(value)?;
        value = OwnedValue::Array(values);
    }
    Ok(value)
}

/// A text with its tokens: `[TEXT, [[POSITION, TEXT], ..]]`, or `[POSITION, TEXT, LENGTH]` where that isn't 1.
fn tokens_in(alloc: Global, value: &Value) -> Result<PreTokenizedString, Refusal> {
    let mut tokens = Vec::new(alloc);
    for token in part(value, 1)?.as_array().ok_or(Refusal::NotAsked)? {
        tokens.push(Token {
            position: number_in(part(token, 0)?)? as usize,
            position_length: length_in(token)?,
            text: String::from_str(alloc, text_in(part(token, 1)?)?)?,
        })?;
    }
    let text = String::from_str(alloc, text_in(part(value, 0)?)?)?;
    Ok(PreTokenizedString::new(text, tokens)?)
}

/// The length of a token, which is 1 where none is given.
fn length_in(token: &Value) -> Result<usize, Refusal> {
    match token.get(2) {
        Some(length) => Ok(number_in(length)? as usize),
        None => Ok(1),
    }
}

/// The number of an address, by its bytes, the highest first.
pub fn bits_of(bytes: &[u8]) -> u128 {
    let mut bits = 0u128;
    for byte in bytes {
        bits = bits.wrapping_mul(256).wrapping_add(u128::from(*byte));
    }
    bits
}
