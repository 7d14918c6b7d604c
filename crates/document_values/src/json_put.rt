//! JSON values encoded as parts of a document.

ghost use Rattle.std.specs.Prelude.{◌++◌, ◌<◌, ◌^◌, ◌≡◌, ◌∷◌, IsUtf8, IfOk, OnOk, length, true};
ghost use Rattle.definitions.specs.NumberCodes.{sized_bytes, vint_bytes};
ghost use Rattle.definitions.specs.Reading.{json_members, json_value, json_values, number_value};
ghost use Rattle.definitions.specs.Values as values;
ghost use Rattle.definitions.specs.Values.{AreMembers, AreValues};
ghost use Rattle.document_values.specs.Docs.{IsGoodPair};
ghost use Rattle.layouts.specs.DocumentReading.{deepest};
ghost use Rattle.document_values.specs.Held.{AreSized, AreSizedMembers, IsHeldValue, held_bytes, held_members, held_pair, held_values};
ghost use Rattle.serde_json.specs.View.{items_view, members_view, number_view, view};

use crate::value_writer;
use common::{put_bytes, put_u32, put_vint};
use serde_json::{Map, Number, Value as Json};
use std::alloc::{AllocError, Global};
use terms::Field;

/// Encodes a pair of `field` and an object of `members`.
pub fn json_object_pair(
    alloc: Global,
    field: Field,
    members: &Map<String, Json>,
) -> Result<Vec<u8>, AllocError>
    ensures pair { IfOk result (λ pair. pair.items
        ≡ held_pair (field, values.object (json_members (members_view members.now.entries)))) }
    ensures good { IfOk result (λ _. IsGoodPair true deepest
        (field, values.object (json_members (members_view members.now.entries)))) }
{
    let mut pair = Vec::new(alloc);
    put_u32(&mut pair, field.field_id())?;
    put_object(&mut pair, members)?;
    Ok(pair)
}

/// Appends the value of `json` as it is inside a JSON field. A float would be null.
#[cycle(put_json)]
fn put_json(out: &mut Vec<u8>, json: &Json) -> Result<(), AllocError>
    ensures put { OnOk result (out.new.items ≡ out.old.items ++ held_bytes (json_value (view json.now))) }
    ensures held { OnOk result (IsHeldValue (json_value (view json.now))) }
{
    match json {
        Json::Null => Ok(out.push(11)?),
        Json::Bool(b) => value_writer::put_bool(out, *b),
        Json::Number(number) => put_number(out, number),
        Json::String(text) => put_text(out, text.as_str()),
        Json::Array(items) => put_array(out, items.as_slice()),
        Json::Object(members) => put_object(out, members),
    }
}

/// Appends a number: an i64 where it fits, else a u64.
fn put_number(out: &mut Vec<u8>, number: &Number) -> Result<(), AllocError>
    ensures put { OnOk result (out.new.items ≡ out.old.items ++ held_bytes (number_value (number_view number.now))) }
    ensures held { IsHeldValue (number_value (number_view number.now)) }
{
    if let Some(n) = number.as_i64() {
        return value_writer::put_number(out, 2, n.cast_unsigned());
    }
    if let Some(n) = number.as_u64() {
        return value_writer::put_number(out, 1, n);
    }
    Ok(out.push(11)?)
}

/// Appends a text.
fn put_text(out: &mut Vec<u8>, text: &str) -> Result<(), AllocError>
    ensures put { OnOk result (out.new.items ≡ out.old.items ++ held_bytes (values.str text.now)) }
    ensures held { IsHeldValue (values.str text.now) }
{
    value_writer::put_sized(out, 0, text.as_bytes())
}

/// Appends `code`, and how many parts follow it.
fn put_head(out: &mut Vec<u8>, code: u8, count: usize) -> Result<(), AllocError>
    ensures put { OnOk result (out.new.items ≡ out.old.items ++ code ∷ vint_bytes count) }
    ensures few { count < 2 ^ 64 }
{
    out.push(code)?;
    put_vint(out, count as u64)
}

/// Appends an array of `items`.
#[cycle(put_json)]
fn put_array(out: &mut Vec<u8>, items: &[Json]) -> Result<(), AllocError>
    ensures put { OnOk result (out.new.items
        ≡ out.old.items ++ held_bytes (values.array (json_values (items_view items.now)))) }
    ensures held { OnOk result (IsHeldValue (values.array (json_values (items_view items.now)))) }
{
    put_head(out, 12, items.len())?;
    put_items(out, items)?;
    Ok(())
}

/// Appends each of `items`.
#[cycle(put_json)]
fn put_items(out: &mut Vec<u8>, items: &[Json]) -> Result<(), AllocError>
    ensures put { OnOk result (out.new.items ≡ out.old.items ++ held_values (json_values (items_view items.now))) }
    ensures values { OnOk result (AreValues (json_values (items_view items.now))) }
    ensures sized { OnOk result (AreSized (json_values (items_view items.now))) }
{
    for item in items {
        put_json(out, item)?;
    }
    Ok(())
}

/// Appends an object of `members`.
#[cycle(put_json)]
fn put_object(out: &mut Vec<u8>, members: &Map<String, Json>) -> Result<(), AllocError>
    ensures put { OnOk result (out.new.items
        ≡ out.old.items ++ held_bytes (values.object (json_members (members_view members.now.entries)))) }
    ensures held { OnOk result (IsHeldValue (values.object (json_members (members_view members.now.entries)))) }
{
    put_head(out, 13, members.len())?;
    put_members(out, members)?;
    Ok(())
}

/// Appends each of `members`.
#[cycle(put_json)]
fn put_members(out: &mut Vec<u8>, members: &Map<String, Json>) -> Result<(), AllocError>
    ensures put { OnOk result (out.new.items
        ≡ out.old.items ++ held_members (json_members (members_view members.now.entries))) }
    ensures members { OnOk result (AreMembers (json_members (members_view members.now.entries))) }
    ensures sized { OnOk result (AreSizedMembers (json_members (members_view members.now.entries))) }
{
    for (key, member) in members.iter() {
        put_key(out, key.as_str())?;
        put_json(out, member)?;
    }
    Ok(())
}

/// Appends a key.
fn put_key(out: &mut Vec<u8>, key: &str) -> Result<(), AllocError>
    ensures put { OnOk result (out.new.items ≡ out.old.items ++ sized_bytes key.now) }
    ensures text { IsUtf8 key.now }
    ensures short { length key.now < 2 ^ 64 }
{
    put_bytes(out, key.as_bytes())
}
