//! Values copied out of a document.

ghost use Rattle.std.specs.Prelude.{◌≡◌, IfOk};
ghost use Rattle.document_values.specs.Owned.{owned_members, owned_value, owned_values};
ghost use Rattle.document_values.specs.Shown.{value_of};

use crate::compact_value::CompactDocValue;
use crate::iterators::{CompactDocArrayIter, CompactDocObjectIter};
use crate::owned_value::OwnedValue;
use std::alloc::{AllocError, Global};
use terms::Facet;

impl OwnedValue {
    /// Copies a borrowed value, with its texts, bytes and parts.
    pub fn from_compact(alloc: Global, lent: CompactDocValue<'_>) -> Result<OwnedValue, AllocError>
        ensures { IfOk result (λ owned. owned_value owned ≡ value_of lent.entry) }
    {
        own(alloc, lent)
    }
}

#[cycle(own)]
fn own(alloc: Global, value: CompactDocValue<'_>) -> Result<OwnedValue, AllocError>
    ensures { IfOk result (λ owned. owned_value owned ≡ value_of value.entry) }
{
    match value {
        CompactDocValue::Null => Ok(OwnedValue::Null),
        CompactDocValue::Str(text) => Ok(OwnedValue::Str(String::from_str(alloc, text)?)),
        CompactDocValue::PreTokStr(text) => Ok(OwnedValue::PreTokStr(text.to_pre_tokenized_string(
            alloc,
        )?)),
        CompactDocValue::U64(n) => Ok(OwnedValue::U64(n)),
        CompactDocValue::I64(n) => Ok(OwnedValue::I64(n)),
        CompactDocValue::Bool(b) => Ok(OwnedValue::Bool(b)),
        CompactDocValue::Date(time) => Ok(OwnedValue::Date(time)),
        CompactDocValue::Facet(steps) => Ok(OwnedValue::Facet(Facet::from_separated(
            alloc, steps,
        )?)),
        CompactDocValue::Bytes(bytes) => Ok(OwnedValue::Bytes(Vec::from_slice(alloc, bytes)?)),
        CompactDocValue::IpAddr(address) => Ok(OwnedValue::IpAddr(address)),
        CompactDocValue::Array(values) => Ok(OwnedValue::Array(own_values(alloc, values)?)),
        CompactDocValue::Object(members) => Ok(OwnedValue::Object(own_members(alloc, members)?)),
    }
}

#[cycle(own)]
fn own_values(alloc: Global, values: CompactDocArrayIter<'_>) -> Result<Vec<OwnedValue>, AllocError>
    ensures { IfOk result (λ owned. owned_values owned.items ≡ values.entry) }
{
    let mut owned = Vec::new(alloc);
    for value in values {
        owned.push(own(alloc, value)?)?;
    }
    Ok(owned)
}

#[cycle(own)]
fn own_members(
    alloc: Global,
    members: CompactDocObjectIter<'_>,
) -> Result<Vec<(String, OwnedValue)>, AllocError>
    ensures { IfOk result (λ owned. owned_members owned.items ≡ members.entry) }
{
    let mut owned = Vec::new(alloc);
    for (key, value) in members {
        let name = String::from_str(alloc, key)?;
        owned.push((name, own(alloc, value)?))?;
    }
    Ok(owned)
}
