//! Records, decoded from the bytes of a file.

ghost use Rattle.std.specs.Prelude.{◌++◌, ◌<◌, ◌^◌, ◌≡◌, ◌≢◌, ◌∷◌, IfErr, IfOk, List, None, drop, length, ℕ};
ghost use Rattle.definitions.specs.NumberCodes.{u64_bytes};
ghost use Rattle.definitions.specs.declared.fault.Fault.TheVariants as faults;
ghost use Rattle.layouts.specs.RecordFiles.{sized_body};

use crate::frame::LENGTH_BYTES;
use bytes::Bytes;
use common::take_u64;
use definitions::Fault;

/// Splits the record whose gate is at the front of `rest` off it, and returns its body, which shares the bytes. From
/// the gate after the body on, the bytes are left in `rest`.
pub(crate) fn take_record(rest: &mut Bytes) -> Result<Bytes, Fault>
    requires { 0 < length rest.old }
    ensures ok { IfOk result (λ body. (length body < 2 ^ 64) × (drop 1 rest.old ≡ sized_body body ++ rest.new)
        × (0 < length rest.new)) }
    ensures err { IfErr result (λ fault. fault ≢ faults.OutOfMemory → (fault ≡ faults.Damaged None)
        × ((body : List ℕ) (gate : ℕ) (more : List ℕ) → length body < 2 ^ 64
        → ¬ (drop 1 rest.old ≡ sized_body body ++ gate ∷ more))) }
{
    rest.advance(1);
    let len = body_length(rest.as_slice())?;
    rest.advance(LENGTH_BYTES);
    Ok(rest.split_to(len)?)
}

/// Decodes the length at the front of `bytes`, if a body of that length and a gate follow it.
fn body_length(bytes: &[u8]) -> Result<usize, Fault>
    ensures ok { IfOk result (λ n. (bytes.now ≡ u64_bytes n ++ drop 8 bytes.now) × (n < length (drop 8 bytes.now))) }
    ensures err { IfErr result (λ fault. (fault ≡ faults.Damaged None)
        × ((body : List ℕ) (gate : ℕ) (more : List ℕ) → length body < 2 ^ 64
        → ¬ (bytes.now ≡ sized_body body ++ gate ∷ more))) }
{
    let (len, behind) = take_u64(bytes)?;
    if len >= behind.len() as u64 {
        return Err(Fault::Damaged(None));
    }
    Ok(len as usize)
}
