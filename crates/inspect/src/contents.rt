//! What a file has: its records, and what they open to.

ghost use Rattle.std.specs.Prelude.{IfOk};
ghost use Rattle.inspect.specs.Contents.{AreContents};

use crate::failure::Failure;
use crate::records::{Record, records_before};
use bytes::Bytes;
use definitions::Fault;
use index_file::IndexFile;
use std::alloc::Global;

/// What the records of a file open to, or the gate from which on the file is damaged.
#[derive(Drop)]
pub(crate) enum Opened {
    /// The file opens.
    Whole(IndexFile),
    /// The record whose gate stands here may not follow those before it.
    DamagedAt(usize),
}

/// The records of a file up to its closed gate, or up to the damage, and what they open to.
#[derive(Drop)]
pub(crate) struct Contents<'a> {
    pub(crate) records: Vec<Record<'a>>,
    pub(crate) opened: Opened,
}

/// Opens the file of these `bytes`, and lists its records.
pub(crate) fn contents_of(alloc: Global, bytes: &Bytes) -> Result<Contents<'_>, Failure>
    ensures { IfOk result (AreContents bytes.now) }
{
    let all = bytes.as_slice();
    match IndexFile::open(alloc, bytes.clone()?) {
        Ok(file) => {
            let records = records_before(alloc, all, file.gate)?;
            let opened = Opened::Whole(file);
            Ok(Contents { records, opened })
        }
        Err(Fault::Damaged(Some(gate))) => {
            let records = records_before(alloc, all, gate as usize)?;
            let opened = Opened::DamagedAt(gate as usize);
            Ok(Contents { records, opened })
        }
        Err(fault) => Err(Failure::Unsound(fault)),
    }
}
