//! Tests of the value bytes of terms.

ghost use Rattle.std.specs.Prelude.{◌==◌, ◌≡◌};
ghost use Rattle.std.specs.List.{position};
ghost use Rattle.std.specs.Str.{is_utf8};
ghost use Rattle.definitions.specs.Schema.{bool_kind, date_kind, json_kind, u64_kind};
ghost use Rattle.segment_definitions.specs.Keys.{is_key, is_leaf, is_leaf_key, is_value_key};
ghost use Rattle.terms.specs.Kinds.{kind_of};

use terms::{NANOS_PER_SECOND, SIGN_BIT, Type};

/// Whether `key` is the value bytes of a value of `value_type`.
pub(crate) fn is_key(value_type: Type, key: &[u8]) -> bool
    ensures { result ≡ is_key (kind_of value_type) key.now }
{
    match value_type {
        Type::Json => is_json_key(key),
        _ => is_value_key(value_type, key),
    }
}

/// Whether `key` is the value bytes of a value outside a JSON object.
fn is_value_key(value_type: Type, key: &[u8]) -> bool
    ensures { result ≡ is_value_key (kind_of value_type) key.now }
{
    match value_type {
        Type::Str | Type::Facet => is_text(key),
        Type::U64 | Type::I64 => key.len() == 8,
        Type::Bool => is_bool_key(key),
        Type::Date => is_date_key(key),
        Type::Bytes => true,
        Type::Json => false,
        Type::IpAddr => key.len() == 16,
    }
}

/// Whether `bytes` are UTF-8.
fn is_text(bytes: &[u8]) -> bool
    ensures { result ≡ is_utf8 bytes.now }
{
    match str::from_utf8(bytes) {
        Ok(_) => true,
        Err(_) => false,
    }
}

/// Whether `key` is 0 or 1 in eight bytes.
fn is_bool_key(key: &[u8]) -> bool
    ensures { result ≡ is_value_key bool_kind key.now }
{
    match key.as_array::<8>() {
        Some(bytes) => u64::from_be_bytes(*bytes) < 2,
        None => false,
    }
}

/// Whether `key` is a whole second in eight bytes: as many nanoseconds before or after the start of 1970, which is
/// 2^63.
fn is_date_key(key: &[u8]) -> bool
    ensures { result ≡ is_value_key date_kind key.now }
{
    let second = NANOS_PER_SECOND as u64;
    match key.as_array::<8>() {
        Some(bytes) => u64::from_be_bytes(*bytes) % second == SIGN_BIT % second,
        None => false,
    }
}

/// Whether `key` is a path, U+0000, and a leaf.
fn is_json_key(key: &[u8]) -> bool
    ensures { result ≡ is_key json_kind key.now }
{
    match path_end(key) {
        Some(end) => is_text(&key[..end]) && is_leaf(&key[end + 1..]),
        None => false,
    }
}

/// Returns the index of the first U+0000.
fn path_end(key: &[u8]) -> Option<usize>
    ensures { result ≡ position (◌==◌ 0) key.now }
{
    key.iter().position(|byte| *byte == 0)
}

/// Whether `leaf` is the code of a type and the bytes of a value of it.
fn is_leaf(leaf: &[u8]) -> bool
    ensures { result ≡ is_leaf leaf.now }
{
    let Some((code, key)) = leaf.split_first() else {
        return false;
    };
    match *code {
        b's' => is_text(key),
        b'u' => is_large_key(key),
        b'i' => key.len() == 8,
        b'o' => is_bool_key(key),
        b'd' => is_date_key(key),
        _ => false,
    }
}

/// Whether `key` is a number in eight bytes that doesn't fit i64.
fn is_large_key(key: &[u8]) -> bool
    ensures { result ≡ is_leaf_key u64_kind key.now }
{
    match key.as_array::<8>() {
        Some(bytes) => u64::from_be_bytes(*bytes) >= SIGN_BIT,
        None => false,
    }
}
