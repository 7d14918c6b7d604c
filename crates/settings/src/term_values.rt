//! Values of terms, decoded from their bytes.

ghost use Rattle.std.specs.Prelude.{◌<◌, ◌==◌, ◌≡◌, IfOk, Some, length, map, nat_lt, option_map, string_bytes};
ghost use Rattle.std.specs.Int.{byte_len, from_be_bytes, w128, w64};
ghost use Rattle.std.specs.List.{slice_split};
ghost use Rattle.std.specs.Option.{option_map_or};
ghost use Rattle.std.specs.Str.{is_utf8};
ghost use Rattle.definitions.specs.Json.{only_if};
ghost use Rattle.definitions.specs.TermData.{signed_number, value_of_bytes};
ghost use Rattle.definitions.specs.Values as values;
ghost use Rattle.terms.specs.Kinds.{kind_of};
ghost use Rattle.values_json.specs.Leaves.{value_of};

use std::alloc::{AllocError, Global};
use terms::{DateTime, Facet, SIGN_BIT, Type};
use values_json::Leaf;

/// Decodes a value of a field of the type `kind`, if `bytes` are one.
pub(crate) fn leaf_of_bytes(
    alloc: Global,
    kind: Type,
    bytes: &[u8],
) -> Result<Option<Leaf>, AllocError>
    ensures { IfOk result (λ found. option_map_or value_of found values.null
        ≡ value_of_bytes (kind_of kind) bytes.now) }
{
    match kind {
        Type::Str => Ok(text_of_bytes(alloc, bytes)?.map(Leaf::Str)),
        Type::U64 => Ok(u64_of_bytes(bytes).map(Leaf::U64)),
        Type::I64 => Ok(i64_of_bytes(bytes).map(Leaf::I64)),
        Type::Bool => Ok(bool_of_bytes(bytes).map(Leaf::Bool)),
        Type::Date => Ok(date_of_bytes(bytes).map(Leaf::Date)),
        Type::Facet => Ok(facet_of_bytes(alloc, bytes)?.map(Leaf::Facet)),
        Type::Bytes => Ok(Some(Leaf::Bytes(bytes.to_vec(alloc)?))),
        Type::Json => Ok(None),
        Type::IpAddr => Ok(u128_of_bytes(bytes).map(Leaf::IpAddr)),
    }
}

/// Decodes a text, if `bytes` are one.
fn text_of_bytes(alloc: Global, bytes: &[u8]) -> Result<Option<String>, AllocError>
    ensures { IfOk result (λ found. option_map (λ text. string_bytes text) found
        ≡ only_if (is_utf8 bytes.now) (Some bytes.now)) }
{
    match str::from_utf8(bytes) {
        Ok(text) => Ok(Some(String::from_str(alloc, text)?)),
        Err(_) => Ok(None),
    }
}

/// Decodes a facet from a text with its steps separated by U+0000, if `bytes` are a text.
fn facet_of_bytes(alloc: Global, bytes: &[u8]) -> Result<Option<Facet>, AllocError>
    ensures { IfOk result (λ found. found ≡ only_if (is_utf8 bytes.now) (Some (slice_split (◌==◌ 0) bytes.now))) }
{
    match str::from_utf8(bytes) {
        Ok(steps) => Ok(Some(Facet::from_separated(alloc, steps)?)),
        Err(_) => Ok(None),
    }
}

/// Splits `text` at an ASCII character.
pub(crate) fn parts<'a>(
    alloc: Global,
    text: &'a str,
    separator: char,
) -> Result<Vec<&'a str>, AllocError>
    requires { separator < 128 }
    ensures { IfOk result (λ parts. map (λ part. part.now) parts.items ≡ slice_split (◌==◌ separator) text.now) }
{
    text.split(separator).collect(alloc)
}

/// Decodes a number, if there are eight bytes.
fn u64_of_bytes(bytes: &[u8]) -> Option<u64>
    ensures { result ≡ only_if (length bytes.now == byte_len w64) (Some (from_be_bytes w64 bytes.now)) }
{
    let bytes = <[u8; 8]>::try_from(bytes).ok()?;
    Some(u64::from_be_bytes(bytes))
}

/// Decodes a signed number, if there are eight bytes.
fn i64_of_bytes(bytes: &[u8]) -> Option<i64>
    ensures { result ≡ only_if (length bytes.now == byte_len w64) (Some (signed_number bytes.now)) }
{
    let number = u64_of_bytes(bytes)?;
    Some(number.wrapping_sub(SIGN_BIT).cast_signed())
}

/// Decodes a bool, if there are eight bytes: whether their number is above 0.
fn bool_of_bytes(bytes: &[u8]) -> Option<bool>
    ensures { result ≡ only_if (length bytes.now == byte_len w64) (Some (nat_lt 0 (from_be_bytes w64 bytes.now))) }
{
    let number = u64_of_bytes(bytes)?;
    Some(number > 0)
}

/// Decodes a date, if there are eight bytes.
fn date_of_bytes(bytes: &[u8]) -> Option<DateTime>
    ensures { result ≡ only_if (length bytes.now == byte_len w64) (Some (signed_number bytes.now)) }
{
    let nanos = i64_of_bytes(bytes)?;
    Some(DateTime::from_timestamp_nanos(nanos))
}

/// Decodes a number of 128 bits, if there are sixteen bytes.
fn u128_of_bytes(bytes: &[u8]) -> Option<u128>
    ensures { result ≡ only_if (length bytes.now == byte_len w128) (Some (from_be_bytes w128 bytes.now)) }
{
    let bytes = <[u8; 16]>::try_from(bytes).ok()?;
    Some(u128::from_be_bytes(bytes))
}
