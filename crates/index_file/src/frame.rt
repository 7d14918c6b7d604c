//! Records as they are written: without the open gate, and with the closed gate that follows.

ghost use Rattle.std.specs.Prelude.{◌≡◌, ◌+◌, ◌≤◌, IfOk, OnOk, drop, length};
ghost use Rattle.definitions.specs.Disk.{overwritten};
ghost use Rattle.definitions.specs.NumberCodes.{u64_bytes};
ghost use Rattle.index_file.specs.Frames.{frame_bytes};

use common::put_u64;
use std::alloc::{AllocError, Global};

/// The number of bytes of a body's length.
pub(crate) const LENGTH_BYTES: usize = 8;

/// The byte of an open gate.
pub(crate) const OPEN: u8 = 165;

/// The byte of a closed gate.
pub const CLOSED: u8 = 0;

/// Starts a frame with eight bytes of room for the length of the body, which is then appended to them.
pub fn start_frame(alloc: Global) -> Result<Vec<u8>, AllocError>
    ensures { IfOk result (λ frame. frame.items ≡ u64_bytes 0) }
{
    let mut frame = Vec::new(alloc);
    put_u64(&mut frame, 0)?;
    Ok(frame)
}

/// Writes the length of the body after the room into it, and appends a closed gate.
pub fn finish_frame(frame: &mut Vec<u8>) -> Result<(), AllocError>
    requires { 8 ≤ length frame.old.items }
    ensures { OnOk result (frame.new.items ≡ frame_bytes (drop 8 frame.old.items)) }
{
    let body_length = (frame.len() - LENGTH_BYTES) as u64;
    frame.push(CLOSED)?;
    overwrite(frame, 0, &u64::to_le_bytes(body_length));
    Ok(())
}

/// Overwrites the bytes at offset `at`.
pub(crate) fn overwrite(frame: &mut Vec<u8>, at: usize, bytes: &[u8])
    requires { at + length bytes.now ≤ length frame.old.items }
    ensures { frame.new.items ≡ overwritten at bytes.now frame.old.items }
{
    let end = at + bytes.len();
    frame[at..end].copy_from_slice(bytes);
}
