//! The index of a file.

use crate::failure::Failure;
use file_run::{Seeded, open_device};
use index::{Fault, FileDevice, Index};
use languages::Languages;
use std::fs::File;

/// The index of a file, whose texts are cut by any of the analyzers.
pub(crate) type FileIndex = Index<FileDevice, Seeded<Languages>>;

/// Opens the index of the file at `path`, which has to be there; what is printed may not go into it.
pub(crate) fn open(rt: &HostRuntime, path: &str) -> Result<FileIndex, Failure> {
    if File::open(rt, path).is_err() {
        return Err(Failure::Unreadable);
    }
    let device = open_device(rt, path).ok_or(Failure::Refused(Fault::Device))?;
    match Index::open(rt.alloc(), device, Seeded::draw(rt, Languages)) {
        Ok(index) => Ok(index),
        Err(refused) => Err(Failure::Refused(refused.fault)),
    }
}
