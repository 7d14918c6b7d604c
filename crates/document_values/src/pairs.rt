//! Pairs of a field and a value, encoded as a document holds them.

ghost use Rattle.std.specs.Prelude.{[], ◌%◌, ◌++◌, ◌/◌, ◌<◌, ◌^◌, ◌∷◌, ◌≡◌, true, IfOk, OnErr, OnOk, length};
ghost use Rattle.definitions.specs.NumberCodes.{sized_bytes, u32_bytes, u64_bytes};
ghost use Rattle.definitions.specs.Values as values;
ghost use Rattle.document_values.specs.Docs.{IsGoodPair};
ghost use Rattle.document_values.specs.Held.{IsHeldValue, held_bytes, held_pair};
ghost use Rattle.document_values.specs.Owned.{owned_members, owned_value};
ghost use Rattle.layouts.specs.DocumentReading.{deepest, to_members};

use crate::held_values::{put_owned, put_owned_members, put_pre_tokenized};
use crate::owned_value::OwnedValue;
use crate::value_writer::put_address;
use common::{PreTokenizedString, put_bytes, put_u32};
use std::alloc::{AllocError, Global};
use terms::Field;

/// Appends `first` and then `second`, or nothing.
pub fn append(heap: &mut Vec<u8>, first: &[u8], second: &[u8]) -> Result<(), AllocError>
    ensures ok { OnOk result (heap.new.items ≡ heap.old.items ++ (first.now ++ second.now)) }
    ensures err { OnErr result (heap.new.items ≡ heap.old.items) }
{
    let start = heap.len();
    heap.extend_from_slice(first)?;
    if heap.extend_from_slice(second).is_err() {
        heap.truncate(start);
        return Err(AllocError);
    }
    Ok(())
}

/// Appends `first`, the length of `second`, and `second`; or nothing.
pub fn append_sized(heap: &mut Vec<u8>, first: [u8; 5], second: &[u8]) -> Result<(), AllocError>
    ensures ok { OnOk result (heap.new.items ≡ heap.old.items ++ (first ++ sized_bytes second.now)) }
    ensures err { OnErr result (heap.new.items ≡ heap.old.items) }
    ensures few { length second.now < 2 ^ 64 }
{
    let start = heap.len();
    heap.reserve(second.len() + 15)?;
    heap.extend_from_slice(&first)?;
    if put_bytes(heap, second).is_err() {
        heap.truncate(start);
        return Err(AllocError);
    }
    Ok(())
}

/// Returns the bytes of `field` and `code`, which come before a value.
pub fn value_head(field: Field, code: u8) -> [u8; 5]
    ensures head { result ≡ u32_bytes field ++ (code ∷ []) }
    ensures field { field < 2 ^ 32 }
{
    let [first, second, third, fourth] = u32::to_le_bytes(field.field_id());
    [first, second, third, fourth, code]
}

/// Encodes a pair of `field` and a text with its tokens.
pub fn tokens_pair(
    alloc: Global,
    field: Field,
    text: &PreTokenizedString,
) -> Result<Vec<u8>, AllocError>
    ensures pair { IfOk result (λ pair. pair.items
        ≡ u32_bytes field ++ held_bytes (values.pre_tok_str text.now.0 text.now.1)) }
    ensures held { IfOk result (λ _. IsHeldValue (values.pre_tok_str text.now.0 text.now.1)) }
    ensures field { field < 2 ^ 32 }
{
    let mut pair = Vec::new(alloc);
    put_u32(&mut pair, field.field_id())?;
    put_pre_tokenized(&mut pair, text)?;
    Ok(pair)
}

/// Encodes a pair of `field` and `value`.
pub fn owned_pair(alloc: Global, field: Field, value: &OwnedValue) -> Result<Vec<u8>, AllocError>
    ensures pair { IfOk result (λ pair. pair.items ≡ held_pair (field, owned_value value.now)) }
    ensures good { IfOk result (λ _. IsGoodPair true deepest (field, owned_value value.now)) }
{
    let mut pair = Vec::new(alloc);
    put_u32(&mut pair, field.field_id())?;
    put_owned(&mut pair, value)?;
    Ok(pair)
}

/// Encodes a pair of `field` and an object of `members`.
pub fn object_pair(
    alloc: Global,
    field: Field,
    members: &[(String, OwnedValue)],
) -> Result<Vec<u8>, AllocError>
    ensures pair { IfOk result (λ pair. pair.items
        ≡ held_pair (field, values.object (to_members (owned_members members.now)))) }
    ensures good { IfOk result (λ _. IsGoodPair true deepest
        (field, values.object (to_members (owned_members members.now)))) }
{
    let mut pair = Vec::new(alloc);
    put_u32(&mut pair, field.field_id())?;
    put_owned_members(&mut pair, members)?;
    Ok(pair)
}

/// Encodes a pair of `field` and an IP address.
pub fn address_pair(alloc: Global, field: Field, address: u128) -> Result<Vec<u8>, AllocError>
    ensures pair { IfOk result (λ pair. pair.items ≡ u32_bytes field ++ (10
        ∷ (u64_bytes (address % 2 ^ 64) ++ u64_bytes (address / 2 ^ 64)))) }
    ensures field { field < 2 ^ 32 }
{
    let mut pair = Vec::with_capacity(alloc, 21)?;
    put_u32(&mut pair, field.field_id())?;
    put_address(&mut pair, address)?;
    Ok(pair)
}
