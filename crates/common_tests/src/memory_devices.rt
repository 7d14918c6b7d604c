//! What no clause says: that the calls of a device in memory go through, and its crashes.

use common::{Device, MemoryDevice, cut_synced, write_synced};
use definitions::Fault;
use std::alloc::Global;
use std::test::Fail;

/// Whether bytes are read after they were written at the end and inside.
fn writes_inside_are_held(alloc: Global) -> Result<bool, Fault> {
    let mut device = MemoryDevice::new(alloc);
    let new = device.read(alloc)?;
    device.write_at(0, b"abcdef")?;
    let at_the_end = device.read(alloc)?;
    device.write_at(2, b"XY")?;
    Ok(
        new.is_empty()
            && at_the_end.as_slice() == b"abcdef".as_slice()
            && device.read(alloc)?.as_slice() == b"abXYef".as_slice(),
    )
}

/// Whether they are after they were written over the end, and not at all.
fn writes_over_the_end_are_held(alloc: Global) -> Result<bool, Fault> {
    let mut device = MemoryDevice::new(alloc);
    device.write_at(0, b"abXYef")?;
    device.write_at(4, b"1234")?;
    let over_the_end = device.read(alloc)?;
    device.write_at(3, b"")?;
    device.sync()?;
    Ok(
        over_the_end.as_slice() == b"abXY1234".as_slice()
            && device.read(alloc)?.as_slice() == over_the_end.as_slice()
            && device.failures() == 0,
    )
}

#[test]
fn writes_are_read(rt: HostRuntime) -> Result<(), Fail> {
    assert!(rt; writes_inside_are_held(rt.alloc())? && writes_over_the_end_are_held(rt.alloc())?);
    Ok(())
}

/// Whether nothing is gone after a cut at the length, and all after one at 0.
fn whole_cuts_are_held(alloc: Global) -> Result<bool, Fault> {
    let mut device = MemoryDevice::new(alloc);
    device.write_at(0, b"abcdef")?;
    device.cut(6)?;
    let at_the_length = device.read(alloc)?;
    device.cut(0)?;
    Ok(at_the_length.as_slice() == b"abcdef".as_slice() && device.read(alloc)?.is_empty())
}

/// Whether what was cut is gone, and what is written then is there.
fn cuts_inside_are_held(alloc: Global) -> Result<bool, Fault> {
    let mut device = MemoryDevice::new(alloc);
    device.write_at(0, b"abcdef")?;
    device.cut(2)?;
    device.sync()?;
    let inside = device.read(alloc)?;
    device.write_at(2, b"z")?;
    Ok(
        inside.as_slice() == b"ab".as_slice()
            && device.read(alloc)?.as_slice() == b"abz".as_slice()
            && device.failures() == 0,
    )
}

#[test]
fn cuts_are_read(rt: HostRuntime) -> Result<(), Fail> {
    assert!(rt; whole_cuts_are_held(rt.alloc())? && cuts_inside_are_held(rt.alloc())?);
    Ok(())
}

/// Whether bytes are read after calls that sync themselves.
fn steps_are_held(alloc: Global) -> Result<bool, Fault> {
    let mut device = MemoryDevice::new(alloc);
    write_synced(&mut device, 0, b"abc")?;
    write_synced(&mut device, 1, b"XYZ")?;
    cut_synced(&mut device, 3)?;
    Ok(device.read(alloc)?.as_slice() == b"aXY".as_slice() && device.failures() == 0)
}

#[test]
fn steps_are_read(rt: HostRuntime) -> Result<(), Fail> {
    assert!(rt; steps_are_held(rt.alloc())?);
    Ok(())
}

/// Whether crashes leave `ab?` and `ab??` with `fill`, once `XY` is written at 2 after a sync of `abc`.
fn crashes_are_filled(alloc: Global, fill: u8) -> Result<bool, Fault> {
    let mut device = MemoryDevice::new(alloc);
    write_synced(&mut device, 0, b"abc")?;
    device.write_at(2, b"XY")?;
    let (least, greatest) = device.crash_lens();
    let shortest = device.crash(alloc, least, fill)?;
    let longest = device.crash(alloc, greatest, fill)?;
    Ok(
        shortest.as_slice() == [b'a', b'b', fill].as_slice()
            && longest.as_slice() == [b'a', b'b', fill, fill].as_slice(),
    )
}

#[test]
fn crashes_leave_images(rt: HostRuntime) -> Result<(), Fail> {
    assert!(rt;
        crashes_are_filled(rt.alloc(), 0x00)?
            && crashes_are_filled(rt.alloc(), 0xa5)?
            && crashes_are_filled(rt.alloc(), 0xff)?
    );
    Ok(())
}

/// Whether a crash leaves the length and the bytes of before a cut, and nothing else after a sync.
fn cuts_are_undone_by_crashes(alloc: Global) -> Result<bool, Fault> {
    let mut device = MemoryDevice::new(alloc);
    write_synced(&mut device, 0, b"abc")?;
    device.cut(1)?;
    let (least, greatest) = device.crash_lens();
    let longest = device.crash(alloc, greatest, b'?')?;
    device.sync()?;
    let (synced, _) = device.crash_lens();
    let after = device.crash(alloc, synced, b'?')?;
    Ok(
        least == 1
            && longest.as_slice() == b"a??".as_slice()
            && after.as_slice() == b"a".as_slice()
            && device.crash_lens() == (1, 1),
    )
}

#[test]
fn cuts_may_be_undone(rt: HostRuntime) -> Result<(), Fail> {
    assert!(rt; cuts_are_undone_by_crashes(rt.alloc())?);
    Ok(())
}
