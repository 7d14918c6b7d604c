//! Operations on the next device, and the bytes that it holds: `file`, `append`, `bytes` and `fuse`.

use crate::answers::ok;
use crate::cases::{CaseDevice, Cases};
use common::{Device, FuseDevice, MemoryDevice};
use definitions::Fault;
use std::alloc::Global;

impl Cases {
    /// The answer, if this is such an operation.
    pub(crate) fn answer_of_file(
        &mut self,
        operation: &str,
        arguments: &str,
    ) -> Result<Option<String>, Fault> {
        let answer = match operation {
            "file" => self.put_file(arguments)?,
            "append" => self.append(arguments)?,
            "bytes" => hex::encode(self.alloc, self.file.as_slice())?,
            "fuse" => self.put_fuse(arguments)?,
            _ => return Ok(None),
        };
        Ok(Some(answer))
    }

    /// Puts these bytes in place of all.
    fn put_file(&mut self, digits: &str) -> Result<String, Fault> {
        self.file = bytes_in(self.alloc, digits)?;
        ok(self.alloc)
    }

    /// Puts these bytes behind the others.
    fn append(&mut self, digits: &str) -> Result<String, Fault> {
        let bytes = bytes_in(self.alloc, digits)?;
        self.file.extend_from_slice(&bytes)?;
        ok(self.alloc)
    }

    /// Lets the k-th call of the next device fail, and all after it.
    fn put_fuse(&mut self, k: &str) -> Result<String, Fault> {
        let Ok(k) = k.parse::<u64>() else {
            return Err(Fault::BadRequest);
        };
        self.fuse = k;
        ok(self.alloc)
    }

    /// A device that holds the bytes. The one after it has no fuse that blows.
    pub(crate) fn device(&mut self) -> Result<CaseDevice, Fault> {
        let mut device = MemoryDevice::new(self.alloc);
        device.write_at(0, &self.file)?;
        device.sync()?;
        let fused = FuseDevice::new(device, self.fuse);
        self.fuse = u64::MAX;
        Ok(fused)
    }

    /// Lets what a device holds, below its fuse, be the file from now on.
    pub(crate) fn keep(&mut self, device: CaseDevice) -> Result<(), Fault> {
        self.file = device.into_inner().read(self.alloc)?;
        Ok(())
    }
}

/// The bytes that pairs of hexadecimal digits stand for.
fn bytes_in(alloc: Global, digits: &str) -> Result<Vec<u8>, Fault> {
    match hex::decode(alloc, digits) {
        Ok(bytes) => Ok(bytes),
        Err(_) => Err(Fault::BadRequest),
    }
}
