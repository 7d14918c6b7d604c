//! Numbers in bytes of seven bits, one after another.

ghost use Rattle.std.specs.Prelude.{IfErr, IfOk, None, Some, ◌≡◌};
ghost use Rattle.definitions.specs.declared.fault.Fault.TheVariants as faults;
ghost use Rattle.layouts.specs.VintBlocks.{take_number};

use codes::take_u32_vint;
use definitions::Fault;

/// Decodes the first number, which must be below 2^32; returns it, and the bytes after it. Most take one byte.
#[inline(always)]
pub(crate) fn take_number(bytes: &[u8]) -> Result<(u32, &[u8]), Fault>
    ensures ok { IfOk result (λ p. take_number bytes.now ≡ Some (p.0, p.1.now)) }
    ensures err { IfErr result (λ fault. (fault ≡ faults.Damaged None) × (take_number bytes.now ≡ None)) }
{
    match bytes.split_first() {
        Some((byte, after)) if *byte >= 128 => Ok((u32::from(*byte) - 128, after)),
        _ => take_u32_vint(bytes),
    }
}
