//! The fields of a writer: bytes, checkpoints, and where the pending documents start.

ghost use Rattle.std.specs.Prelude.{◌++◌, ◌+◌, ◌<◌, ◌≡◌, ◌≤◌, ◌^◌, ◌∷◌, [], List, OnErr, OnOk, flat_map, length, take, ℕ};
ghost use Rattle.definitions.specs.NumberCodes.{u32_bytes};

use layouts::Checkpoint;
use std::alloc::{AllocError, Global};

/// The bytes of the closed blocks and the pending documents, the checkpoints of the blocks, and where
/// the pending documents start, counted from the first of them.
#[derive(Drop)]
pub(crate) struct Parts {
    pub(crate) out: Vec<u8>,
    pub(crate) checkpoints: Vec<Checkpoint>,
    pub(crate) starts: Vec<u32>,
    pub(crate) first_doc: u32,
    pub(crate) first_byte: usize,
}

/// Appends `starts`, and how many they are. A failed call leaves the bytes that were there.
fn put_starts(out: &mut Vec<u8>, starts: &[u32]) -> Result<(), AllocError>
    requires { length starts.now < 2 ^ 32 }
    ensures ok { OnOk result (out.new.items
        ≡ out.old.items ++ (flat_map u32_bytes starts.now ++ u32_bytes (length starts.now))) }
    ensures kept { take (length out.old.items) out.new.items ≡ out.old.items }
{
    for start in starts {
        out.extend_from_slice(&u32::to_le_bytes(*start))?;
    }
    out.extend_from_slice(&u32::to_le_bytes(starts.len() as u32))?;
    Ok(())
}

/// Appends the `starts` of documents, and how many they are. A failed call changes nothing.
pub(crate) fn put_block_end(out: &mut Vec<u8>, starts: &[u32]) -> Result<(), AllocError>
    requires { length starts.now < 2 ^ 32 }
    ensures ok { OnOk result (out.new.items
        ≡ out.old.items ++ (flat_map u32_bytes starts.now ++ u32_bytes (length starts.now))) }
    ensures err { OnErr result (out.new.items ≡ out.old.items) }
{
    let before = out.len();
    match put_starts(out, starts) {
        Ok(()) => Ok(()),
        Err(fault) => {
            out.truncate(before);
            Err(fault)
        }
    }
}
