//! Numbers and byte strings, taken quickly where the number is below 128: as those of a term mostly are.

ghost use Rattle.std.specs.Prelude.{IfErr, IfOk, None, Some, ◌≡◌};
ghost use Rattle.definitions.specs.NumberCodes.{take_bytes, take_vint};
ghost use Rattle.definitions.specs.declared.fault.Fault.TheVariants as faults;

use definitions::Fault;

/// Decodes a number, like `take_vint` of `common`.
#[inline(always)]
pub(crate) fn take_vint(bytes: &[u8]) -> Result<(u64, &[u8]), Fault>
    ensures ok { IfOk result (λ p. take_vint bytes.now ≡ Some (p.0, p.1.now)) }
    ensures err { IfErr result (λ fault. (fault ≡ faults.Damaged None) × (take_vint bytes.now ≡ None)) }
{
    match bytes.split_first() {
        Some((byte, after)) if *byte >= 128 => Ok((u64::from(*byte) - 128, after)),
        _ => common::take_vint(bytes),
    }
}

/// Decodes a byte string, like `take_bytes` of `common`.
#[inline(always)]
pub(crate) fn take_bytes(bytes: &[u8]) -> Result<(&[u8], &[u8]), Fault>
    ensures ok { IfOk result (λ p. take_bytes bytes.now ≡ Some (p.0.now, p.1.now)) }
    ensures err { IfErr result (λ fault. (fault ≡ faults.Damaged None) × (take_bytes bytes.now ≡ None)) }
{
    let (length, rest) = take_vint(bytes)?;
    rest.split_at_checked(length as usize)
        .ok_or(Fault::Damaged(None))
}
