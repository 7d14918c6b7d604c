//! The file that is inspected.

ghost use Rattle.std.specs.Prelude.{◌≡◌, IfOk};

use crate::failure::Failure;
use bytes::Bytes;
use common::{Device, FileDevice};
use definitions::Fault;
use std::fs::File;

/// Reads the bytes of the file at `path`, which is opened for reading alone. One that another program has is an error.
pub(crate) fn read_file(rt: &HostRuntime, path: &str) -> Result<Bytes, Failure> {
    let Ok(file) = File::open(rt, path) else {
        return Err(Failure::Unsound(Fault::Device));
    };
    let mut device = FileDevice::new(file)?;
    let bytes = device.read(rt.alloc())?;
    Ok(shared(bytes)?)
}

/// Returns these bytes, so that they can be shared.
pub(crate) fn shared(bytes: Vec<u8>) -> Result<Bytes, Fault>
    ensures { IfOk result (λ shared. shared ≡ bytes.items) }
{
    Ok(Bytes::from_vec(bytes)?)
}
