//! The decoder of the parts of a body.

ghost use Rattle.std.specs.Prelude.{◌≡◌, ◌≢◌, IfErr, IfOk, None, Some, map};
ghost use Rattle.definitions.specs.declared.fault.Fault.TheVariants as faults;
ghost use Rattle.layouts.specs.DocumentReading.{take_many};
ghost use Rattle.index_file.specs.Parts.{part_of, take_fresh, take_kept, take_part};

use crate::part::Part;
use common::{take_u32, take_u64};
use definitions::Fault;
use std::alloc::Global;

/// Decodes `num_parts` parts; returns them and what follows.
pub(crate) fn take_parts<'a>(
    alloc: Global,
    num_parts: u32,
    bytes: &'a [u8],
) -> Result<(Vec<Part<'a>>, &'a [u8]), Fault>
    ensures ok { IfOk result (λ p. take_many take_part num_parts bytes.now ≡ Some (map part_of p.0.items, p.1.now)) }
    ensures err { IfErr result (λ fault. fault ≢ faults.OutOfMemory → take_many take_part num_parts bytes.now ≡ None) }
{
    let mut parts = Vec::new(alloc);
    let mut rest = bytes;
    for _i in 0..num_parts {
        let (part, after) = take_part(rest)?;
        parts.push(part)?;
        rest = after;
    }
    Ok((parts, rest))
}

/// Decodes a part; returns it and what follows.
fn take_part(bytes: &[u8]) -> Result<(Part<'_>, &[u8]), Fault>
    ensures ok { IfOk result (λ p. take_part bytes.now ≡ Some (part_of p.0, p.1.now)) }
    ensures err { IfErr result (λ fault. (fault ≡ faults.Damaged None) × (take_part bytes.now ≡ None)) }
{
    let (code, rest) = bytes.split_first().ok_or(Fault::Damaged(None))?;
    match *code {
        0 => take_kept(rest),
        1 => take_fresh(rest),
        _ => Err(Fault::Damaged(None)),
    }
}

/// Decodes a kept segment after its code: its index in the list before; returns it and what follows.
fn take_kept(bytes: &[u8]) -> Result<(Part<'_>, &[u8]), Fault>
    ensures ok { IfOk result (λ p. take_kept bytes.now ≡ Some (part_of p.0, p.1.now)) }
    ensures err { IfErr result (λ fault. (fault ≡ faults.Damaged None) × (take_kept bytes.now ≡ None)) }
{
    let (index, rest) = take_u32(bytes)?;
    Ok((Part::Kept(index), rest))
}

/// Decodes a new segment after its code; returns it and what follows.
fn take_fresh(bytes: &[u8]) -> Result<(Part<'_>, &[u8]), Fault>
    ensures ok { IfOk result (λ p. take_fresh bytes.now ≡ Some (part_of p.0, p.1.now)) }
    ensures err { IfErr result (λ fault. (fault ≡ faults.Damaged None) × (take_fresh bytes.now ≡ None)) }
{
    let (length, rest) = take_u64(bytes)?;
    let (segment, rest) = rest
        .split_at_checked(length as usize)
        .ok_or(Fault::Damaged(None))?;
    Ok((Part::Fresh(segment), rest))
}
