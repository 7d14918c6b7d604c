//! Files that are cut or changed: what is opened of them, and what is damage.

use crate::books::{BOOKS, MemoryIndex, new_index};
use crate::changed_files::answers_each_call;
use common::{Device, MemoryDevice, RawAndDefault};
use definitions::Fault;
use index::Index;
use std::alloc::Global;
use std::test::Fail;

// The file of an index, when it was made and after each of two commits.
#[derive(Drop)]
pub(crate) struct Files {
    pub(crate) made: Vec<u8>,
    pub(crate) once: Vec<u8>,
    pub(crate) twice: Vec<u8>,
}

// The index of a file of these bytes.
fn opened(alloc: Global, bytes: &[u8]) -> Result<MemoryIndex, Fault> {
    let mut device = MemoryDevice::new(alloc);
    device.write_at(0, bytes)?;
    device.sync()?;
    Ok(Index::open(alloc, device, RawAndDefault)?)
}

// The bytes of an index's file.
fn file_of(alloc: Global, index: MemoryIndex) -> Result<Vec<u8>, Fault> {
    let (mut device, _analyzer) = index.into_device();
    device.read(alloc)
}

// The file that one more document is committed to.
fn file_with(alloc: Global, file: &[u8], doc: &str) -> Result<Vec<u8>, Fault> {
    let mut index = opened(alloc, file)?;
    index.add_json(doc)?;
    index.commit()?;
    file_of(alloc, index)
}

// The files of an index with two commits.
pub(crate) fn written(alloc: Global) -> Result<Files, Fault> {
    let made = file_of(alloc, new_index(alloc, MemoryDevice::new(alloc))?)?;
    let once = file_with(alloc, &made, BOOKS[0])?;
    let twice = file_with(alloc, &once, BOOKS[1])?;
    Ok(Files { made, once, twice })
}

// Damage of the last file's record in which an offset is. The last byte of each file is the gate of the next record.
fn damage_at(offset: usize, files: &Files) -> Fault {
    if offset < files.made.len() {
        Fault::Damaged(Some(0))
    } else if offset < files.once.len() {
        Fault::Damaged(Some(files.made.len().saturating_sub(1) as u64))
    } else {
        Fault::Damaged(Some(files.once.len().saturating_sub(1) as u64))
    }
}

// What the last file is at a length.
fn cut_fault(len: usize, files: &Files) -> Fault {
    if len < 10 {
        Fault::NoIndex
    } else {
        damage_at(len, files)
    }
}

// Whether each shorter file is refused as it is to be, and the whole one is opened.
fn are_cuts_refused(alloc: Global) -> Result<bool, Fault> {
    let files = written(alloc)?;
    for len in 0..files.twice.len() {
        let refused = opened(alloc, &files.twice[..len]).err();
        if refused != Some(cut_fault(len, &files)) {
            return Ok(false);
        }
    }
    Ok(opened(alloc, &files.twice).is_ok())
}

// What the last file is with another byte at an offset, where no index is opened: its first gate is then closed.
fn change_fault(offset: usize, files: &Files) -> Fault {
    if offset == 0 {
        Fault::NoIndex
    } else {
        damage_at(offset, files)
    }
}

// Whether a changed file is refused at the gate of the record that was changed, or its index answers each call.
fn is_change_answered(alloc: Global, bytes: &[u8], fault: Fault) -> Result<bool, Fault> {
    match opened(alloc, bytes) {
        Ok(index) => answers_each_call(alloc, index),
        Err(refused) => Ok(refused == fault),
    }
}

// Whether the last file is answered with this byte at each offset.
fn are_changes_answered(alloc: Global, changed: u8) -> Result<bool, Fault> {
    let files = written(alloc)?;
    for i in 0..files.twice.len() {
        let mut bytes = files.twice.to_vec(alloc)?;
        bytes[i] = changed;
        if !is_change_answered(alloc, &bytes, change_fault(i, &files))? {
            return Ok(false);
        }
    }
    Ok(true)
}

#[test]
fn files_that_are_cut(rt: HostRuntime) -> Result<(), Fail> {
    assert!(rt; are_cuts_refused(rt.alloc())?);
    Ok(())
}

#[test]
fn files_with_a_byte_changed(rt: HostRuntime) -> Result<(), Fail> {
    let zeros = are_changes_answered(rt.alloc(), 0x00)?;
    let ones = are_changes_answered(rt.alloc(), 0xff)?;
    assert!(rt; zeros && ones);
    Ok(())
}
