//! Number codes: numbers, byte strings and texts as bytes, encoded one after another and decoded again.
//!
//! What is decoded is borrowed from the bytes. A text is encoded by its UTF-8 bytes.

ghost use Rattle.std.specs.Prelude.{nat_eq, nat_lt, ok_or, ◌%◌, ◌&&◌, ◌*◌, ◌++◌, ◌+◌, ◌<◌, ◌≡◌, ◌≤◌, ◌^◌, ◌||◌, IfErr, IfOk, None, OnErr, OnOk, Some, length, take};
ghost use Rattle.definitions.specs.Json.{only_if};
ghost use Rattle.definitions.specs.NumberCodes.{sized_bytes, take_bytes, take_text, take_u32, take_u64, take_vint, u32_bytes, u64_bytes, vint_bytes};
ghost use Rattle.definitions.specs.declared.fault.Fault.TheVariants as faults;

use definitions::Fault;
use simdutf8::from_utf8_baseline;
use std::alloc::AllocError;

/// Encodes `n` in as few bytes of seven bits as possible, the lowest first.
pub fn put_vint(out: &mut Vec<u8>, n: u64) -> Result<(), AllocError>
    ensures ok { OnOk result (out.new.items ≡ out.old.items ++ vint_bytes n) }
    ensures err { OnErr result (take (length out.old.items) out.new.items ≡ out.old.items) }
{
    let mut high = n;
    while high >= 128 {
        out.push((high % 128) as u8)?;
        high /= 128;
    }
    out.push(128 + high as u8)?;
    Ok(())
}

/// Encodes `n` in four bytes, the lowest first.
pub fn put_u32(out: &mut Vec<u8>, n: u32) -> Result<(), AllocError>
    ensures ok { OnOk result (out.new.items ≡ out.old.items ++ u32_bytes n) }
    ensures err { OnErr result (out.new.items ≡ out.old.items) }
{
    out.extend_from_slice(&u32::to_le_bytes(n))
}

/// Encodes `n` in eight bytes, the lowest first.
pub fn put_u64(out: &mut Vec<u8>, n: u64) -> Result<(), AllocError>
    ensures ok { OnOk result (out.new.items ≡ out.old.items ++ u64_bytes n) }
    ensures err { OnErr result (out.new.items ≡ out.old.items) }
{
    out.extend_from_slice(&u64::to_le_bytes(n))
}

/// Encodes `bytes`: their number, then the bytes.
pub fn put_bytes(out: &mut Vec<u8>, bytes: &[u8]) -> Result<(), AllocError>
    ensures ok { OnOk result (out.new.items ≡ out.old.items ++ sized_bytes bytes.now) }
    ensures err { OnErr result (take (length out.old.items) out.new.items ≡ out.old.items) }
{
    put_vint(out, bytes.len() as u64)?;
    out.extend_from_slice(bytes)
}

/// Decodes a number of bytes of seven bits; returns it and the bytes after it.
pub fn take_vint(bytes: &[u8]) -> Result<(u64, &[u8]), Fault>
    ensures ok { IfOk result (λ p. take_vint bytes.now ≡ Some (p.0, p.1.now)) }
    ensures err { IfErr result (λ fault. (fault ≡ faults.Damaged None) × (take_vint bytes.now ≡ None)) }
{
    let mut value: u64 = 0;
    let mut shift = 0;
    let mut rest = bytes;
    while let Some((byte, after)) = rest.split_first() {
        if *byte >= 128 {
            let value = with_last(value, shift, *byte - 128)?;
            return Ok((value, after));
        }
        if shift == 63 {
            return Err(Fault::Damaged(None));
        }
        value += (*byte as u64) << shift;
        shift += 7;
        rest = after;
    }
    Err(Fault::Damaged(None))
}

/// Decodes a number of four bytes; returns it and the bytes after it.
pub fn take_u32(bytes: &[u8]) -> Result<(u32, &[u8]), Fault>
    ensures ok { IfOk result (λ p. take_u32 bytes.now ≡ Some (p.0, p.1.now)) }
    ensures err { IfErr result (λ fault. (fault ≡ faults.Damaged None) × (take_u32 bytes.now ≡ None)) }
{
    let (first, rest) = bytes.split_first_chunk::<4>().ok_or(Fault::Damaged(None))?;
    Ok((u32::from_le_bytes(*first), rest))
}

/// Decodes a number of eight bytes; returns it and the bytes after it.
pub fn take_u64(bytes: &[u8]) -> Result<(u64, &[u8]), Fault>
    ensures ok { IfOk result (λ p. take_u64 bytes.now ≡ Some (p.0, p.1.now)) }
    ensures err { IfErr result (λ fault. (fault ≡ faults.Damaged None) × (take_u64 bytes.now ≡ None)) }
{
    let (first, rest) = bytes.split_first_chunk::<8>().ok_or(Fault::Damaged(None))?;
    Ok((u64::from_le_bytes(*first), rest))
}

/// Decodes a byte string; returns it and the bytes after it.
pub fn take_bytes(bytes: &[u8]) -> Result<(&[u8], &[u8]), Fault>
    ensures ok { IfOk result (λ p. take_bytes bytes.now ≡ Some (p.0.now, p.1.now)) }
    ensures err { IfErr result (λ fault. (fault ≡ faults.Damaged None) × (take_bytes bytes.now ≡ None)) }
{
    let (length, rest) = take_vint(bytes)?;
    rest.split_at_checked(length as usize)
        .ok_or(Fault::Damaged(None))
}

/// Decodes a text; returns it and the bytes after it.
pub fn take_text(bytes: &[u8]) -> Result<(&str, &[u8]), Fault>
    ensures ok { IfOk result (λ p. take_text bytes.now ≡ Some (p.0.now, p.1.now)) }
    ensures err { IfErr result (λ fault. (fault ≡ faults.Damaged None) × (take_text bytes.now ≡ None)) }
{
    let (text, rest) = take_bytes(bytes)?;
    match from_utf8_baseline(text) {
        Ok(text) => Ok((text, rest)),
        Err(_) => Err(Fault::Damaged(None)),
    }
}

/// Adds the last digit to `value`; `Damaged` for a zero after other digits, and for numbers from 2^64 on.
fn with_last(value: u64, shift: u32, digit: u8) -> Result<u64, Fault>
    requires value { value < 2 ^ shift }
    requires places { shift % 7 ≡ 0 }
    requires few { shift ≤ 63 }
    requires digit { digit < 128 }
    ensures { result ≡ ok_or (only_if ((nat_eq shift 0 || nat_lt 0 digit) && nat_lt (value + 2 ^ shift * digit)
        (2 ^ 64)) (Some (value + 2 ^ shift * digit))) (faults.Damaged None) }
{
    if !is_shortest(shift, digit) || !has_room(value, shift, digit) {
        return Err(Fault::Damaged(None));
    }
    Ok(value + ((digit as u64) << shift))
}

/// Whether no shorter encoding ends with `digit`: it isn't a zero after other digits.
fn is_shortest(shift: u32, digit: u8) -> bool
    ensures { result ≡ (nat_eq shift 0 || nat_lt 0 digit) }
{
    shift == 0 || digit > 0
}

/// Whether `value` with `digit` is below 2^64.
fn has_room(value: u64, shift: u32, digit: u8) -> bool
    requires value { value < 2 ^ shift }
    requires places { shift % 7 ≡ 0 }
    requires few { shift ≤ 63 }
    requires digit { digit < 128 }
    ensures { result ≡ nat_lt (value + 2 ^ shift * digit) (2 ^ 64) }
{
    shift < 63 || digit <= 1
}
