//! Values encoded as a document holds them: as in the binary form, but pre-tokenised texts keep their tokens.

ghost use Rattle.std.specs.Prelude.{◌++◌, ◌<◌, ◌^◌, ◌≡◌, OnOk, length, map};
ghost use Rattle.common.specs.Token.{token_of};
ghost use Rattle.definitions.specs.Values.{array, bool, bytes, date, facet, i64, ip_addr, object, pre_tok_str, str, u64};
ghost use Rattle.document_values.specs.Held.{AreSizedTokens, IsHeldValue, IsSizedToken, held_bytes, token_bytes, tokens_bytes};
ghost use Rattle.document_values.specs.Owned.{owned_members, owned_value, owned_values};
ghost use Rattle.layouts.specs.DocumentReading.{to_members, to_values};

use crate::owned_value::OwnedValue;
use crate::value_writer::{put_address, put_bool, put_number, put_sized};
use common::{PreTokenizedString, Token, put_bytes, put_vint};
use std::alloc::AllocError;
use terms::{DateTime, Facet};

/// Appends a value.
#[cycle(put_owned)]
pub(crate) fn put_owned(out: &mut Vec<u8>, value: &OwnedValue) -> Result<(), AllocError>
    ensures put { OnOk result (out.new.items ≡ out.old.items ++ held_bytes (owned_value value.now)) }
    ensures held { OnOk result (IsHeldValue (owned_value value.now)) }
{
    match value {
        OwnedValue::Null => Ok(out.push(11)?),
        OwnedValue::Str(text) => put_text(out, text.as_str()),
        OwnedValue::PreTokStr(text) => put_pre_tokenized(out, text),
        OwnedValue::U64(n) => put_unsigned(out, *n),
        OwnedValue::I64(n) => put_signed(out, *n),
        OwnedValue::Bool(b) => put_bool(out, *b),
        OwnedValue::Date(time) => put_date(out, *time),
        OwnedValue::Facet(steps) => put_facet(out, steps),
        OwnedValue::Bytes(bytes) => put_byte_string(out, bytes.as_slice()),
        OwnedValue::IpAddr(address) => put_ip_addr(out, *address),
        OwnedValue::Array(values) => put_owned_values(out, values.as_slice()),
        OwnedValue::Object(members) => put_owned_members(out, members.as_slice()),
    }
}

/// Appends an array of `values`.
#[cycle(put_owned)]
fn put_owned_values(out: &mut Vec<u8>, values: &[OwnedValue]) -> Result<(), AllocError>
    ensures put { OnOk result (out.new.items
        ≡ out.old.items ++ held_bytes (array (to_values (owned_values values.now)))) }
    ensures held { OnOk result (IsHeldValue (array (to_values (owned_values values.now)))) }
{
    out.push(12)?;
    put_vint(out, values.len() as u64)?;
    for value in values {
        put_owned(out, value)?;
    }
    Ok(())
}

/// Appends an object of `members`.
#[cycle(put_owned)]
pub(crate) fn put_owned_members(
    out: &mut Vec<u8>,
    members: &[(String, OwnedValue)],
) -> Result<(), AllocError>
    ensures put { OnOk result (out.new.items
        ≡ out.old.items ++ held_bytes (object (to_members (owned_members members.now)))) }
    ensures held { OnOk result (IsHeldValue (object (to_members (owned_members members.now)))) }
{
    out.push(13)?;
    put_vint(out, members.len() as u64)?;
    for (key, value) in members {
        put_bytes(out, key.as_bytes())?;
        put_owned(out, value)?;
    }
    Ok(())
}

/// Appends a text.
fn put_text(out: &mut Vec<u8>, text: &str) -> Result<(), AllocError>
    ensures put { OnOk result (out.new.items ≡ out.old.items ++ held_bytes (str text.now)) }
    ensures held { OnOk result (IsHeldValue (str text.now)) }
{
    put_sized(out, 0, text.as_bytes())
}

/// Appends a number from 0 below 2^64.
fn put_unsigned(out: &mut Vec<u8>, n: u64) -> Result<(), AllocError>
    ensures put { OnOk result (out.new.items ≡ out.old.items ++ held_bytes (u64 n)) }
    ensures held { OnOk result (IsHeldValue (u64 n)) }
{
    put_number(out, 1, n)
}

/// Appends a number from -2^63 below 2^63.
fn put_signed(out: &mut Vec<u8>, n: i64) -> Result<(), AllocError>
    ensures put { OnOk result (out.new.items ≡ out.old.items ++ held_bytes (i64 n)) }
    ensures held { OnOk result (IsHeldValue (i64 n)) }
{
    put_number(out, 2, n.cast_unsigned())
}

/// Appends a point of time.
fn put_date(out: &mut Vec<u8>, time: DateTime) -> Result<(), AllocError>
    ensures put { OnOk result (out.new.items ≡ out.old.items ++ held_bytes (date time)) }
    ensures held { OnOk result (IsHeldValue (date time)) }
{
    put_number(out, 5, time.into_timestamp_nanos().cast_unsigned())
}

/// Appends a facet.
fn put_facet(out: &mut Vec<u8>, steps: &Facet) -> Result<(), AllocError>
    ensures put { OnOk result (out.new.items ≡ out.old.items ++ held_bytes (facet steps.now)) }
    ensures held { OnOk result (IsHeldValue (facet steps.now)) }
{
    put_sized(out, 3, steps.encoded_str().as_bytes())
}

/// Appends a byte string.
fn put_byte_string(out: &mut Vec<u8>, string: &[u8]) -> Result<(), AllocError>
    ensures put { OnOk result (out.new.items ≡ out.old.items ++ held_bytes (bytes string.now)) }
    ensures held { OnOk result (IsHeldValue (bytes string.now)) }
{
    put_sized(out, 4, string)
}

/// Appends an IP address.
fn put_ip_addr(out: &mut Vec<u8>, address: u128) -> Result<(), AllocError>
    ensures put { OnOk result (out.new.items ≡ out.old.items ++ held_bytes (ip_addr address)) }
    ensures held { OnOk result (IsHeldValue (ip_addr address)) }
{
    put_address(out, address)
}

/// Appends a text with its tokens.
pub(crate) fn put_pre_tokenized(
    out: &mut Vec<u8>,
    text: &PreTokenizedString,
) -> Result<(), AllocError>
    ensures put { OnOk result (out.new.items ≡ out.old.items ++ held_bytes (pre_tok_str text.now.0 text.now.1)) }
    ensures held { OnOk result (IsHeldValue (pre_tok_str text.now.0 text.now.1)) }
{
    put_sized(out, 8, text.text().as_bytes())?;
    put_tokens(out, text.tokens())
}

/// Appends the number of `tokens`, and these.
fn put_tokens(out: &mut Vec<u8>, tokens: &[Token]) -> Result<(), AllocError>
    ensures put { OnOk result (out.new.items ≡ out.old.items ++ tokens_bytes (map token_of tokens.now)) }
    ensures sized { OnOk result (AreSizedTokens (map token_of tokens.now)) }
    ensures few { OnOk result (length tokens.now < 2 ^ 64) }
{
    put_vint(out, tokens.len() as u64)?;
    for token in tokens {
        put_token(out, token)?;
    }
    Ok(())
}

/// Appends a token.
fn put_token(out: &mut Vec<u8>, token: &Token) -> Result<(), AllocError>
    ensures put { OnOk result (out.new.items ≡ out.old.items ++ token_bytes (token_of token.now)) }
    ensures sized { OnOk result (IsSizedToken (token_of token.now)) }
{
    put_vint(out, token.position as u64)?;
    put_vint(out, token.position_length as u64)?;
    put_bytes(out, token.text.as_bytes())
}
