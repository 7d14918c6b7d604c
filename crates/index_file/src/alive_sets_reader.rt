//! The decoder of the alive sets of a body.

ghost use Rattle.std.specs.Prelude.{◌++◌, ◌<◌, ◌≡◌, ◌≢◌, ◌^◌, Bool, IfErr, IfOk, List, length, ℕ};
ghost use Rattle.std.specs.List.{AllByRecursion, flat_map};
ghost use Rattle.definitions.specs.declared.fault.Fault.TheVariants as faults;
ghost use Rattle.layouts.specs.AliveSets.{alive_bytes};
ghost use Rattle.index_file.specs.Bodies.{IsShort};

use common::{AliveBitSet, take_u32};
use definitions::Fault;
use std::alloc::Global;

/// Decodes `num_sets` alive sets; returns them and what follows.
pub(crate) fn take_sets(
    alloc: Global,
    num_sets: usize,
    bytes: &[u8],
) -> Result<(Vec<AliveBitSet>, &[u8]), Fault>
    ensures each { IfOk result (λ p. length p.0.items ≡ num_sets) }
    ensures short { IfOk result (λ p. AllByRecursion IsShort p.0.items) }
    ensures whole { IfOk result (λ p. bytes.now ≡ flat_map alive_bytes p.0.items ++ p.1.now) }
    ensures err { IfErr result (λ fault. fault ≢ faults.OutOfMemory → (sets : List (List Bool)) (rest : List ℕ)
        → length sets ≡ num_sets → AllByRecursion IsShort sets → bytes.now ≢ flat_map alive_bytes sets ++ rest) }
{
    let mut sets = Vec::new(alloc);
    let mut rest = bytes;
    for _i in 0..num_sets {
        let (set, after) = take_set(alloc, rest)?;
        sets.push(set)?;
        rest = after;
    }
    Ok((sets, rest))
}

/// Decodes an alive set; returns it and what follows.
fn take_set(alloc: Global, bytes: &[u8]) -> Result<(AliveBitSet, &[u8]), Fault>
    ensures short { IfOk result (λ p. IsShort p.0) }
    ensures whole { IfOk result (λ p. bytes.now ≡ alive_bytes p.0 ++ p.1.now) }
    ensures err { IfErr result (λ fault. fault ≢ faults.OutOfMemory → (flags : List Bool) (rest : List ℕ)
        → IsShort flags → bytes.now ≢ alive_bytes flags ++ rest) }
{
    let (num_docs, _) = take_u32(bytes)?;
    let len = 4 + 8 * ((num_docs as usize + 63) / 64);
    let Some((set, rest)) = bytes.split_at_checked(len) else {
        return Err(Fault::Damaged(None));
    };
    Ok((AliveBitSet::from_bytes(alloc, set)?, rest))
}
