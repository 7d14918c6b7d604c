//! Devices with a fuse, called three times.

use common::{Device, FuseDevice, MemoryDevice};
use definitions::Fault;
use std::alloc::Global;
use std::test::Fail;

/// Whether of a write, a sync and a read those from the `k`-th on fail, and all three count.
fn fails_from(alloc: Global, k: u64) -> bool {
    let mut fused = FuseDevice::new(MemoryDevice::new(alloc), k);
    let written = fused.write_at(0, b"abc").is_ok();
    let synced = fused.sync().is_ok();
    let read = fused.read(alloc).is_ok();
    written == (k > 1)
        && synced == (k > 2)
        && read == (k > 3)
        && fused.calls() == 3
        && fused.failures() == 4u64.saturating_sub(k)
}

#[test]
fn fuses_fail_from_a_call_on(rt: HostRuntime) -> Result<(), Fail> {
    assert!(rt;
        fails_from(rt.alloc(), 1)
            && fails_from(rt.alloc(), 2)
            && fails_from(rt.alloc(), 3)
            && fails_from(rt.alloc(), 4)
    );
    Ok(())
}

/// Whether a write and a sync under a fuse leave the device inside with this content and these lengths of its images.
fn leaves(alloc: Global, k: u64, content: &[u8], lens: (usize, usize)) -> Result<bool, Fault> {
    let mut fused = FuseDevice::new(MemoryDevice::new(alloc), k);
    let _written = fused.write_at(0, b"abc");
    let _synced = fused.sync();
    let mut device = fused.into_inner();
    Ok(
        device.read(alloc)?.as_slice() == content
            && device.crash_lens() == lens
            && device.failures() == 0,
    )
}

#[test]
fn failed_calls_do_nothing(rt: HostRuntime) -> Result<(), Fail> {
    assert!(rt;
        leaves(rt.alloc(), 1, b"", (0, 0))?
            && leaves(rt.alloc(), 2, b"abc", (0, 3))?
            && leaves(rt.alloc(), 3, b"abc", (3, 3))?
    );
    Ok(())
}
