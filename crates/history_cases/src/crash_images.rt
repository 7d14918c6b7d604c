//! What a crash leaves of a device.

ghost use Rattle.std.specs.Prelude.{◌≡◌, ◌≤◌, IfOk, length};
ghost use Rattle.definitions.specs.Disk.{IsImage, settled};
ghost use Rattle.common.specs.MemoryDevices.{content_of, unsynced_of};

use common::{MemoryDevice, write_synced};
use definitions::Fault;
use std::alloc::Global;

/// Which length a crash leaves, of those that it may.
#[derive(Clone, Copy)]
pub(crate) enum Left {
    /// The least: of what was written past the end and isn't sure, nothing stands.
    Least,
    /// The greatest: all that was written past the end and isn't sure stands, with any bytes.
    Greatest,
}

/// Makes a device of what a crash leaves, in which each byte that isn't sure to be on the disk is the given one.
pub(crate) fn after_crash(
    alloc: Global,
    device: &MemoryDevice,
    byte: u8,
    left: Left,
) -> Result<MemoryDevice, Fault>
    ensures image { IfOk result (λ after.
        IsImage (content_of device.now) (unsynced_of device.now) (content_of after)) }
    ensures settled { IfOk result (λ after. unsynced_of after ≡ settled (length (content_of after))) }
{
    let (least, greatest) = device.crash_lens();
    let len = match left {
        Left::Least => least,
        Left::Greatest => greatest,
    };
    after_crash_to_length(alloc, device, len, byte)
}

/// Makes a device of what a crash leaves, of one of the lengths that it may have, in which each byte that isn't sure to
/// be on the disk is the given one.
pub(crate) fn after_crash_to_length(
    alloc: Global,
    device: &MemoryDevice,
    len: usize,
    byte: u8,
) -> Result<MemoryDevice, Fault>
    requires no_shorter { (unsynced_of device.now).least ≤ len }
    requires no_longer { len ≤ (unsynced_of device.now).greatest }
    ensures image { IfOk result (λ after.
        IsImage (content_of device.now) (unsynced_of device.now) (content_of after)) }
    ensures settled { IfOk result (λ after. unsynced_of after ≡ settled (length (content_of after))) }
{
    let image = device.crash(alloc, len, byte)?;
    let mut after = MemoryDevice::new(alloc);
    write_synced(&mut after, 0, &image)?;
    Ok(after)
}
