//! The records of the file of an index.

ghost use Rattle.std.specs.Prelude.{◌++◌, ◌<◌, ◌^◌, ◌≡◌, ◌∷◌, IfErr, IfOk, List, length, map, ℕ};
ghost use Rattle.definitions.specs.NumberCodes.{u64_bytes};
ghost use Rattle.inspect.specs.Records.{HasBody, gate_and_body, gates};
ghost use Rattle.layouts.specs.RecordFiles.{AreShort, records, sized_body};

use common::take_u64;
use definitions::Fault;
use std::alloc::{AllocError, Global};

/// A record: the offset of its gate, and its body.
#[derive(Clone, Copy, Debug)]
pub(crate) struct Record<'a> {
    pub(crate) gate: usize,
    pub(crate) body: &'a [u8],
}

/// Bytes before the body of a record: its gate, and the length.
const HEAD_BYTES: usize = 9;

/// Lists the records before the gate at `end`.
pub(crate) fn records_before(
    alloc: Global,
    bytes: &[u8],
    end: usize,
) -> Result<Vec<Record<'_>>, AllocError>
    ensures { IfOk result (λ listed. (bodies : List (List ℕ)) (gate : ℕ) (rest : List ℕ)
        → bytes.now ≡ records bodies ++ gate ∷ rest → AreShort bodies → end ≡ length (records bodies)
        → map gate_and_body listed.items ≡ gates 0 bodies) }
{
    let mut records = Vec::new(alloc);
    let mut rest = bytes;
    let mut gate = 0;
    while gate < end {
        let Ok((body, after)) = take_record(rest) else {
            return Ok(records);
        };
        records.push(Record { gate, body })?;
        gate += HEAD_BYTES + body.len();
        rest = after;
    }
    Ok(records)
}

/// Splits the record whose gate is at the front of `bytes` off them; returns its body, and the bytes from the next gate
/// on.
pub(crate) fn take_record(bytes: &[u8]) -> Result<(&[u8], &[u8]), Fault>
    ensures ok { IfOk result (λ p. (gate : ℕ) × (bytes.now ≡ gate ∷ sized_body p.0.now ++ p.1.now)
        × (length p.0.now < 2 ^ 64) × (0 < length p.1.now)) }
    ensures err { IfErr result (λ fault. (gate : ℕ) (rest body : List ℕ) → bytes.now ≡ gate ∷ rest
        → ¬ HasBody rest body) }
{
    let (_gate, rest) = bytes.split_first().ok_or(Fault::Damaged(None))?;
    let (len, behind) = take_length(rest)?;
    Ok(behind.split_at(len))
}

/// Decodes the length of a body at the front of `bytes`, if such a body and a gate follow it; returns it and what
/// follows.
fn take_length(bytes: &[u8]) -> Result<(usize, &[u8]), Fault>
    ensures ok { IfOk result (λ p. (bytes.now ≡ u64_bytes p.0 ++ p.1.now) × (p.0 < length p.1.now)) }
    ensures err { IfErr result (λ fault. (body : List ℕ) (gate : ℕ) (more : List ℕ) → length body < 2 ^ 64
        → ¬ (bytes.now ≡ sized_body body ++ gate ∷ more)) }
{
    let (len, behind) = take_u64(bytes)?;
    if len >= behind.len() as u64 {
        return Err(Fault::Damaged(None));
    }
    Ok((len as usize, behind))
}
