//! Values as they are stored.

ghost use Rattle.std.specs.Prelude.{◌≡◌, IfOk, map};
ghost use Rattle.definitions.specs.Stored.{plain};
ghost use Rattle.document_values.specs.Owned.{owned_members, owned_value, owned_values};
ghost use Rattle.document_values.specs.Shown.{value_of};

use crate::compact_value::CompactDocValue;
use crate::iterators::{CompactDocArrayIter, CompactDocObjectIter};
use crate::owned_value::OwnedValue;
use std::alloc::{AllocError, Global};

/// Copies a borrowed value, with each pre-tokenised text in it as a text.
#[cycle(store)]
pub fn stored_value(alloc: Global, value: CompactDocValue<'_>) -> Result<OwnedValue, AllocError>
    ensures { IfOk result (λ stored. owned_value stored ≡ plain (value_of value.entry)) }
{
    match value {
        CompactDocValue::PreTokStr(text) => Ok(OwnedValue::Str(String::from_str(
            alloc,
            text.text(),
        )?)),
        CompactDocValue::Array(values) => Ok(OwnedValue::Array(stored_values(alloc, values)?)),
        CompactDocValue::Object(members) => Ok(OwnedValue::Object(stored_members(alloc, members)?)),
        leaf => OwnedValue::from_compact(alloc, leaf),
    }
}

/// Copies the values of an array.
#[cycle(store)]
fn stored_values(
    alloc: Global,
    values: CompactDocArrayIter<'_>,
) -> Result<Vec<OwnedValue>, AllocError>
    ensures { IfOk result (λ stored. owned_values stored.items ≡ map plain values.entry) }
{
    let mut stored = Vec::new(alloc);
    for value in values {
        stored.push(stored_value(alloc, value)?)?;
    }
    Ok(stored)
}

/// Copies the members of an object.
#[cycle(store)]
fn stored_members(
    alloc: Global,
    members: CompactDocObjectIter<'_>,
) -> Result<Vec<(String, OwnedValue)>, AllocError>
    ensures { IfOk result (λ stored. owned_members stored.items ≡ map (λ m. (m.0, plain m.1)) members.entry) }
{
    let mut stored = Vec::new(alloc);
    for (key, value) in members {
        let name = String::from_str(alloc, key)?;
        stored.push((name, stored_value(alloc, value)?))?;
    }
    Ok(stored)
}
