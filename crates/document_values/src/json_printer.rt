//! Values printed as JSON.

ghost use Rattle.std.specs.Prelude.{◌≡◌, ◌≢◌, IfErr, IfOk, OnOk, false, true};
ghost use Rattle.definitions.specs.GivenDepths.{is_too_deep_value};
ghost use Rattle.definitions.specs.Printed.{printed, printed_list, printed_onto};
ghost use Rattle.definitions.specs.declared.fault.Fault.TheVariants as faults;
ghost use Rattle.document_values.specs.Owned.{owned_members, owned_value, owned_values};
ghost use Rattle.layouts.specs.DocumentReading.{to_members};
ghost use Rattle.serde_json.specs.Data as json;
ghost use Rattle.serde_json.specs.View.{items_view, members_view, view};

use crate::depths::is_too_deep;
use crate::owned_value::OwnedValue;
use definitions::Fault;
use serde_json::{Map, Value as Json};
use std::alloc::{AllocError, Global};
use values_json::{address_text, bytes_text, date_text};

/// Returns the value as JSON: dates, facets, byte strings and IP addresses as texts, a pre-tokenised text as its text.
/// Of the members with one key the last is kept. A value that nests more than 256 deep is `NotIndexable`.
pub fn value_to_json(alloc: Global, value: &OwnedValue) -> Result<Json, Fault>
    ensures ok { IfOk result (λ json. view json ≡ printed (owned_value value.now)) }
    ensures shallow { OnOk result (is_too_deep_value (owned_value value.now) ≡ false) }
    ensures err { IfErr result (λ fault. fault ≢ faults.OutOfMemory
        → (fault ≡ faults.NotIndexable) × (is_too_deep_value (owned_value value.now) ≡ true)) }
{
    if is_too_deep(value) {
        return Err(Fault::NotIndexable);
    }
    Ok(print_value(alloc, value)?)
}

/// Returns the value as JSON. Calls nest as deep as the value.
#[cycle(print)]
fn print_value(alloc: Global, value: &OwnedValue) -> Result<Json, AllocError>
    ensures { IfOk result (λ json. view json ≡ printed (owned_value value.now)) }
{
    match value {
        OwnedValue::Null => Ok(Json::Null),
        OwnedValue::Str(text) => Ok(Json::String(String::from_str(alloc, text.as_str())?)),
        OwnedValue::PreTokStr(text) => Ok(Json::String(String::from_str(alloc, text.text())?)),
        OwnedValue::U64(n) => Ok(Json::from(*n)),
        OwnedValue::I64(n) => Ok(Json::from(*n)),
        OwnedValue::Bool(b) => Ok(Json::Bool(*b)),
        OwnedValue::Date(time) => Ok(Json::String(date_text(alloc, *time)?)),
        OwnedValue::Facet(facet) => Ok(Json::String(facet.to_path_string(alloc)?)),
        OwnedValue::Bytes(bytes) => Ok(Json::String(bytes_text(alloc, bytes.as_slice())?)),
        OwnedValue::IpAddr(address) => Ok(Json::String(address_text(alloc, *address)?)),
        OwnedValue::Array(values) => Ok(Json::Array(values_to_json(alloc, values.as_slice())?)),
        OwnedValue::Object(members) => Ok(Json::Object(members_to_json(
            alloc,
            members.as_slice(),
        )?)),
    }
}

/// Returns the values as JSON, in order. Calls nest as deep as they do: those of a document are at most 256 deep.
#[cycle(print)]
pub fn values_to_json(alloc: Global, values: &[OwnedValue]) -> Result<Vec<Json>, AllocError>
    ensures { IfOk result (λ items. items_view items.items ≡ printed_list (owned_values values.now)) }
{
    let mut items = Vec::with_capacity(alloc, values.len())?;
    for value in values {
        items.push(print_value(alloc, value)?)?;
    }
    Ok(items)
}

/// Returns the members as JSON, inserted one by one.
#[cycle(print)]
fn members_to_json(
    alloc: Global,
    members: &[(String, OwnedValue)],
) -> Result<Map<String, Json>, AllocError>
    ensures { IfOk result (λ printed. members_view printed.entries
        ≡ printed_onto json.no_members (to_members (owned_members members.now))) }
{
    let mut printed = Map::new(alloc);
    for (key, value) in members {
        let name = String::from_str(alloc, key.as_str())?;
        drop(printed.insert(name, print_value(alloc, value)?)?);
    }
    Ok(printed)
}
