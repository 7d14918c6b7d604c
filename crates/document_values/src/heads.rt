//! Heads of values: a leaf, or how much an array or object holds.

ghost use Rattle.std.specs.Prelude.{[], ◌≡◌, ◌∷◌, IfErr, IfOk, None, Some, option_map};
ghost use Rattle.definitions.specs.Json.{only_if};
ghost use Rattle.std.specs.Int.{cast_signed, w64};
ghost use Rattle.definitions.specs.NumberCodes.{take_vint};
ghost use Rattle.definitions.specs.Values.{date, facet, i64, str, u64};
ghost use Rattle.definitions.specs.declared.fault.Fault.TheVariants as faults;
ghost use Rattle.document_values.specs.CodeHeads.{head_of};
ghost use Rattle.layouts.specs.DocumentReading.{skip_tokens, skip_tokens_from, take_address_leaf, take_bool_leaf, take_bytes_leaf, take_coded, take_head, take_pre_tokenized_leaf, steps_in, take_text_leaf, take_token, take_u64_leaf, array_head, object_head, taken_map};

use crate::compact_tokens::CompactDocTokens;
use crate::compact_value::CompactDocValue;
use common::{take_bytes, take_text, take_u64, take_vint};
use definitions::Fault;
use terms::DateTime;

/// A leaf, or the number of values or members of an array or object.
#[derive(Drop)]
pub(crate) enum Head<'a> {
    Leaf(CompactDocValue<'a>),
    Array(u64),
    Object(u64),
}

/// Decodes the head at the start of `bytes`; returns it, and the bytes after it. A pre-tokenised text is refused
/// unless `tokens`.
pub(crate) fn take_head(tokens: bool, bytes: &[u8]) -> Result<(Head<'_>, &[u8]), Fault>
    ensures ok { IfOk result (λ p. take_head tokens bytes.now ≡ Some (head_of p.0, p.1.now)) }
    ensures err { IfErr result (λ fault. (fault ≡ faults.Damaged None) × (take_head tokens bytes.now ≡ None)) }
{
    match bytes.split_first() {
        Some((code, rest)) => take_coded(tokens, *code, rest),
        None => Err(Fault::Damaged(None)),
    }
}

/// Decodes what follows a code; returns it, and the bytes after it.
fn take_coded(tokens: bool, code: u8, bytes: &[u8]) -> Result<(Head<'_>, &[u8]), Fault>
    ensures ok { IfOk result (λ p. take_coded tokens code bytes.now ≡ Some (head_of p.0, p.1.now)) }
    ensures err { IfErr result (λ fault. (fault ≡ faults.Damaged None) × (take_coded tokens code bytes.now ≡ None)) }
{
    match code {
        0 => str_leaf(bytes),
        1 => u64_leaf(bytes),
        2 => i64_leaf(bytes),
        3 => facet_leaf(bytes),
        4 => bytes_leaf(bytes),
        5 => date_leaf(bytes),
        8 => tokens_leaf(tokens, bytes),
        9 => bool_leaf(bytes),
        10 => address_leaf(bytes),
        11 => Ok((Head::Leaf(CompactDocValue::Null), bytes)),
        12 => array_count(bytes),
        13 => object_count(bytes),
        _ => Err(Fault::Damaged(None)),
    }
}

fn str_leaf(bytes: &[u8]) -> Result<(Head<'_>, &[u8]), Fault>
    ensures ok { IfOk result (λ p. take_text_leaf str bytes.now ≡ Some (head_of p.0, p.1.now)) }
    ensures err { IfErr result (λ fault. (fault ≡ faults.Damaged None) × (take_text_leaf str bytes.now ≡ None)) }
{
    let (text, rest) = take_text(bytes)?;
    Ok((Head::Leaf(CompactDocValue::Str(text)), rest))
}

fn facet_leaf(bytes: &[u8]) -> Result<(Head<'_>, &[u8]), Fault>
    ensures ok { IfOk result (λ p. take_text_leaf (λ s. facet (steps_in s)) bytes.now ≡ Some (head_of p.0, p.1.now)) }
    ensures err { IfErr result (λ fault. (fault ≡ faults.Damaged None)
        × (take_text_leaf (λ s. facet (steps_in s)) bytes.now ≡ None)) }
{
    let (text, rest) = take_text(bytes)?;
    Ok((Head::Leaf(CompactDocValue::Facet(text)), rest))
}

fn u64_leaf(bytes: &[u8]) -> Result<(Head<'_>, &[u8]), Fault>
    ensures ok { IfOk result (λ p. take_u64_leaf u64 bytes.now ≡ Some (head_of p.0, p.1.now)) }
    ensures err { IfErr result (λ fault. (fault ≡ faults.Damaged None) × (take_u64_leaf u64 bytes.now ≡ None)) }
{
    let (n, rest) = take_u64(bytes)?;
    Ok((Head::Leaf(CompactDocValue::U64(n)), rest))
}

fn i64_leaf(bytes: &[u8]) -> Result<(Head<'_>, &[u8]), Fault>
    ensures ok { IfOk result (λ p. take_u64_leaf (λ n. i64 (cast_signed w64 n)) bytes.now
        ≡ Some (head_of p.0, p.1.now)) }
    ensures err { IfErr result (λ fault. (fault ≡ faults.Damaged None)
        × (take_u64_leaf (λ n. i64 (cast_signed w64 n)) bytes.now ≡ None)) }
{
    let (n, rest) = take_u64(bytes)?;
    Ok((Head::Leaf(CompactDocValue::I64(n.cast_signed())), rest))
}

fn date_leaf(bytes: &[u8]) -> Result<(Head<'_>, &[u8]), Fault>
    ensures ok { IfOk result (λ p. take_u64_leaf (λ n. date (cast_signed w64 n)) bytes.now
        ≡ Some (head_of p.0, p.1.now)) }
    ensures err { IfErr result (λ fault. (fault ≡ faults.Damaged None)
        × (take_u64_leaf (λ n. date (cast_signed w64 n)) bytes.now ≡ None)) }
{
    let (n, rest) = take_u64(bytes)?;
    let date = DateTime::from_timestamp_nanos(n.cast_signed());
    Ok((Head::Leaf(CompactDocValue::Date(date)), rest))
}

fn bytes_leaf(bytes: &[u8]) -> Result<(Head<'_>, &[u8]), Fault>
    ensures ok { IfOk result (λ p. take_bytes_leaf bytes.now ≡ Some (head_of p.0, p.1.now)) }
    ensures err { IfErr result (λ fault. (fault ≡ faults.Damaged None) × (take_bytes_leaf bytes.now ≡ None)) }
{
    let (found, rest) = take_bytes(bytes)?;
    Ok((Head::Leaf(CompactDocValue::Bytes(found)), rest))
}

fn bool_leaf(bytes: &[u8]) -> Result<(Head<'_>, &[u8]), Fault>
    ensures ok { IfOk result (λ p. take_bool_leaf bytes.now ≡ Some (head_of p.0, p.1.now)) }
    ensures err { IfErr result (λ fault. (fault ≡ faults.Damaged None) × (take_bool_leaf bytes.now ≡ None)) }
{
    match bytes.split_first() {
        Some((byte, rest)) if *byte < 2 => Ok((
            Head::Leaf(CompactDocValue::Bool(*byte == 1)),
            rest,
        )),
        _ => Err(Fault::Damaged(None)),
    }
}

fn address_leaf(bytes: &[u8]) -> Result<(Head<'_>, &[u8]), Fault>
    ensures ok { IfOk result (λ p. take_address_leaf bytes.now ≡ Some (head_of p.0, p.1.now)) }
    ensures err { IfErr result (λ fault. (fault ≡ faults.Damaged None) × (take_address_leaf bytes.now ≡ None)) }
{
    let (low, rest) = take_u64(bytes)?;
    let (high, rest) = take_u64(rest)?;
    let address = low as u128 + 18446744073709551616 * (high as u128);
    Ok((Head::Leaf(CompactDocValue::IpAddr(address)), rest))
}

fn array_count(bytes: &[u8]) -> Result<(Head<'_>, &[u8]), Fault>
    ensures ok { IfOk result (λ p. taken_map array_head (take_vint bytes.now) ≡ Some (head_of p.0, p.1.now)) }
    ensures err { IfErr result (λ fault. (fault ≡ faults.Damaged None)
        × (taken_map array_head (take_vint bytes.now) ≡ None)) }
{
    let (n, rest) = take_vint(bytes)?;
    Ok((Head::Array(n), rest))
}

fn object_count(bytes: &[u8]) -> Result<(Head<'_>, &[u8]), Fault>
    ensures ok { IfOk result (λ p. taken_map object_head (take_vint bytes.now) ≡ Some (head_of p.0, p.1.now)) }
    ensures err { IfErr result (λ fault. (fault ≡ faults.Damaged None)
        × (taken_map object_head (take_vint bytes.now) ≡ None)) }
{
    let (n, rest) = take_vint(bytes)?;
    Ok((Head::Object(n), rest))
}

fn tokens_leaf(tokens: bool, bytes: &[u8]) -> Result<(Head<'_>, &[u8]), Fault>
    ensures ok { IfOk result (λ p. only_if tokens (take_pre_tokenized_leaf bytes.now) ≡ Some (head_of p.0, p.1.now)) }
    ensures err { IfErr result (λ fault. (fault ≡ faults.Damaged None)
        × (only_if tokens (take_pre_tokenized_leaf bytes.now) ≡ None)) }
{
    if !tokens {
        return Err(Fault::Damaged(None));
    }
    let (text, behind) = take_text(bytes)?;
    let rest = skip_tokens(behind)?;
    let found = CompactDocTokens::new(text, behind);
    Ok((Head::Leaf(CompactDocValue::PreTokStr(found)), rest))
}

/// Skips the tokens at the start of `bytes`; returns the bytes after them.
fn skip_tokens(bytes: &[u8]) -> Result<&[u8], Fault>
    ensures ok { IfOk result (λ rest. skip_tokens bytes.now ≡ Some rest.now) }
    ensures err { IfErr result (λ fault. (fault ≡ faults.Damaged None) × (skip_tokens bytes.now ≡ None)) }
{
    let (count, mut rest) = take_vint(bytes)?;
    let mut least = 0;
    let mut left = count;
    while left > 0 {
        let (position, after) = skip_token(least, rest)?;
        least = position;
        rest = after;
        left -= 1;
    }
    Ok(rest)
}

/// Skips the first token, whose position must not be below `least`; returns the position, and the bytes after it.
fn skip_token(least: u64, bytes: &[u8]) -> Result<(u64, &[u8]), Fault>
    ensures ok { IfOk result (λ p. taken_map (λ t. t.position) (take_token least bytes.now) ≡ Some (p.0, p.1.now)) }
    ensures err { IfErr result (λ fault. (fault ≡ faults.Damaged None) × (take_token least bytes.now ≡ None)) }
{
    let (position, rest) = take_vint(bytes)?;
    let (_, rest) = take_vint(rest)?;
    let (_, rest) = take_text(rest)?;
    if position < least {
        return Err(Fault::Damaged(None));
    }
    Ok((position, rest))
}
