//! Calls that the system refuses are the device's fault, and are counted.

use common::{Device, FileDevice};
use definitions::Fault;
use std::fs::File;
use std::test::Fail;

// A file that two devices ask for.
const SHARED: &str = "shared_books.idx";

// A regular file that is only read, and can't be synced.
const READ_ONLY: &str = "/proc/self/status";

// No regular file.
const ENDLESS: &str = "/dev/zero";

#[test]
fn refused_calls_are_counted(rt: HostRuntime) -> Result<(), Fail> {
    let mut device = FileDevice::new(File::open(&rt, READ_ONLY)?)?;
    let written = device.write_at(0, b"a");
    let cut = device.cut(0);
    let synced = device.sync();
    let refused = Err(Fault::Device);
    assert!(rt;
        written == refused && cut == refused && synced == refused && device.failures() == 3
    );
    Ok(())
}

#[test]
fn what_is_no_file_is_not_opened(rt: HostRuntime) -> Result<(), Fail> {
    let missing = FileDevice::open(&rt, "missing/books.idx").err();
    let endless = FileDevice::open(&rt, ENDLESS).err();
    assert!(rt; missing == Some(Fault::Device) && endless == Some(Fault::Device));
    Ok(())
}

#[test]
fn a_file_in_use_is_not_opened(rt: HostRuntime) -> Result<(), Fail> {
    let first = FileDevice::open(&rt, SHARED)?;
    let in_use = FileDevice::open(&rt, SHARED).err() == Some(Fault::Device);
    drop(first);
    let reopens = FileDevice::open(&rt, SHARED).is_ok();
    assert!(rt; in_use && reopens);
    Ok(())
}
