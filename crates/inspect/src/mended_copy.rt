//! A copy of a file that opens.

ghost use Rattle.std.specs.Prelude.{[], ◌++◌, ◌∷◌, ◌≡◌, ◌≤◌, IfOk, length, map, take};
ghost use Rattle.index_file.specs.Lists.{LeavesList, member_of};
ghost use Rattle.inspect.specs.Ends.{IsLastGate};

use crate::failure::Failure;
use crate::file::shared;
use bytes::Bytes;
use definitions::Fault;
use index_file::{CLOSED, IndexFile};
use std::alloc::{AllocError, Global};
use std::fs::OpenOptions;
use std::io::Write;

/// Writes a copy of the file of these `bytes` to the new file `copy`: it ends at the closed gate or, where the file is
/// damaged, at the gate from which on it is. What is left out is told.
pub(crate) fn mend<W: Write>(
    rt: &HostRuntime,
    bytes: &Bytes,
    copy: &str,
    out: &mut W,
) -> Result<(), Failure> {
    let (mended, gate, file) = mended(rt.alloc(), bytes)?;
    let mut written = OpenOptions::new()
        .write(true)
        .create_new(true)
        .open(rt, copy)?;
    written.write_all(mended.as_slice())?;
    written.sync_all()?;
    let left_out = bytes.len().saturating_sub(mended.len());
    let segments = file.members.len();
    writeln!(
        out,
        "closed gate at {gate}, segments: {segments}, bytes that are left out: {left_out}"
    )?;
    Ok(())
}

/// Returns a copy that opens, the offset of its closed gate, and what it opens to. That gate is the file's own, or the one
/// from which on the file is damaged; before it the copy has the bytes of the file.
fn mended(alloc: Global, bytes: &Bytes) -> Result<(Bytes, usize, IndexFile), Failure>
    ensures last { IfOk result (λ made. IsLastGate bytes.now made.1) }
    ensures front { IfOk result (λ made. made.0 ≡ take made.1 bytes.now ++ 0 ∷ []) }
    ensures closed { IfOk result (λ made. made.2.gate ≡ made.1) }
    ensures opens { IfOk result (λ made. LeavesList made.2.schema made.2.settings made.0 made.2.gate
        (map member_of made.2.members.items)) }
{
    let gate = last_gate(alloc, bytes)?;
    let sound = shared(closed_at(alloc, bytes.as_slice(), gate)?)?;
    let file = IndexFile::open(alloc, sound.clone()?)?;
    if file.gate != gate {
        return Err(Failure::Unsound(Fault::Damaged(Some(gate as u64))));
    }
    Ok((sound, gate, file))
}

/// Returns the offset of the gate up to which the file of these `bytes` opens.
fn last_gate(alloc: Global, bytes: &Bytes) -> Result<usize, Failure>
    ensures within { IfOk result (λ gate. gate ≤ length bytes.now) }
    ensures last { IfOk result (λ gate. IsLastGate bytes.now gate) }
{
    let len = bytes.len();
    match IndexFile::open(alloc, bytes.clone()?) {
        Ok(file) if file.gate <= len => Ok(file.gate),
        Ok(file) => Err(Failure::Unsound(Fault::Damaged(Some(file.gate as u64)))),
        Err(Fault::Damaged(Some(gate))) if gate > 0 && gate <= len as u64 => Ok(gate as usize),
        Err(fault) => Err(Failure::Unsound(fault)),
    }
}

/// Returns the bytes before `gate`, and a closed gate there.
pub(crate) fn closed_at(alloc: Global, bytes: &[u8], gate: usize) -> Result<Vec<u8>, AllocError>
    requires { gate ≤ length bytes.now }
    ensures { IfOk result (λ sound. sound.items ≡ take gate bytes.now ++ 0 ∷ []) }
{
    let mut sound = Vec::new(alloc);
    sound.extend_from_slice(&bytes[..gate])?;
    sound.push(CLOSED)?;
    Ok(sound)
}
