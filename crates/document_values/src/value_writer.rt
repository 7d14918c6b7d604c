//! Values encoded in the binary form.

ghost use Rattle.std.specs.Prelude.{[], ◌%◌, ◌++◌, ◌/◌, ◌^◌, ◌≡◌, ◌∷◌, OnOk};
ghost use Rattle.std.specs.Int.{from_bool};
ghost use Rattle.definitions.specs.NumberCodes.{sized_bytes, u64_bytes};
ghost use Rattle.definitions.specs.Values.{array, object};
ghost use Rattle.document_values.specs.Shown.{value_of};
ghost use Rattle.layouts.specs.DocumentReading.{to_members, to_values};
ghost use Rattle.layouts.specs.DocumentBytes.{value_bytes};

use crate::compact_value::CompactDocValue;
use crate::iterators::{CompactDocArrayIter, CompactDocObjectIter};
use common::{put_bytes, put_u64, put_vint};
use std::alloc::AllocError;

/// Appends a value in the binary form, a pre-tokenised text as its text. `take_value` decodes what nests at most 128
/// deep.
#[cycle(put_value)]
pub fn put_value(out: &mut Vec<u8>, value: CompactDocValue<'_>) -> Result<(), AllocError>
    ensures { OnOk result (out.new.items ≡ out.old.items ++ value_bytes (value_of value.entry)) }
{
    match value {
        CompactDocValue::Null => Ok(out.push(11)?),
        CompactDocValue::Str(text) => put_sized(out, 0, text.as_bytes()),
        CompactDocValue::PreTokStr(tokens) => put_sized(out, 0, tokens.text().as_bytes()),
        CompactDocValue::U64(n) => put_number(out, 1, n),
        CompactDocValue::I64(n) => put_number(out, 2, n.cast_unsigned()),
        CompactDocValue::Facet(steps) => put_sized(out, 3, steps.as_bytes()),
        CompactDocValue::Bytes(bytes) => put_sized(out, 4, bytes),
        CompactDocValue::Date(time) => put_number(
            out,
            5,
            time.into_timestamp_nanos().cast_unsigned(),
        ),
        CompactDocValue::Bool(b) => put_bool(out, b),
        CompactDocValue::IpAddr(address) => put_address(out, address),
        CompactDocValue::Array(values) => put_array(out, values),
        CompactDocValue::Object(members) => put_object(out, members),
    }
}

/// Appends an array: how many values it has, and these.
#[cycle(put_value)]
fn put_array(out: &mut Vec<u8>, values: CompactDocArrayIter<'_>) -> Result<(), AllocError>
    ensures { OnOk result (out.new.items ≡ out.old.items ++ value_bytes (array (to_values values.entry))) }
{
    out.push(12)?;
    put_vint(out, values.count_left())?;
    for value in values {
        put_value(out, value)?;
    }
    Ok(())
}

/// Appends an object: how many members it has, and these.
#[cycle(put_value)]
fn put_object(out: &mut Vec<u8>, members: CompactDocObjectIter<'_>) -> Result<(), AllocError>
    ensures { OnOk result (out.new.items ≡ out.old.items ++ value_bytes (object (to_members members.entry))) }
{
    out.push(13)?;
    put_vint(out, members.count_left())?;
    for (key, value) in members {
        put_bytes(out, key.as_bytes())?;
        put_value(out, value)?;
    }
    Ok(())
}

/// Appends `code` and a byte string.
pub(crate) fn put_sized(out: &mut Vec<u8>, code: u8, bytes: &[u8]) -> Result<(), AllocError>
    ensures { OnOk result (out.new.items ≡ out.old.items ++ (code ∷ sized_bytes bytes.now)) }
{
    out.push(code)?;
    put_bytes(out, bytes)
}

/// Appends `code` and eight bytes.
pub(crate) fn put_number(out: &mut Vec<u8>, code: u8, n: u64) -> Result<(), AllocError>
    ensures { OnOk result (out.new.items ≡ out.old.items ++ (code ∷ u64_bytes n)) }
{
    out.push(code)?;
    put_u64(out, n)
}

/// Appends true or false.
pub(crate) fn put_bool(out: &mut Vec<u8>, b: bool) -> Result<(), AllocError>
    ensures { OnOk result (out.new.items ≡ out.old.items ++ (9 ∷ from_bool b ∷ [])) }
{
    out.push(9)?;
    Ok(out.push(b as u8)?)
}

/// Appends an IP address.
pub(crate) fn put_address(out: &mut Vec<u8>, address: u128) -> Result<(), AllocError>
    ensures { OnOk result (out.new.items ≡ out.old.items ++ (10
        ∷ (u64_bytes (address % 2 ^ 64) ++ u64_bytes (address / 2 ^ 64)))) }
{
    out.push(10)?;
    put_u64(out, (address % 18446744073709551616) as u64)?;
    put_u64(out, (address / 18446744073709551616) as u64)
}
