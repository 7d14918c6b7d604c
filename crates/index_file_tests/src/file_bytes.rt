//! The bytes of an index's file are those of the same calls over memory.

use crate::books::{BOOKS, new_index, query_for_sea};
use common::{Device, FileDevice, MemoryDevice, RawAndDefault, Score};
use definitions::Fault;
use index::{Hit, Index};
use std::alloc::Global;
use std::fs;
use std::fs::OpenOptions;
use std::io::Write;
use std::test::Fail;

const PATH: &str = "books.idx";

const OTHER_PATH: &str = "other_books.idx";

// The device of a new index of two books, which are committed.
fn with_two_books<D: Device + Drop>(alloc: Global, device: D) -> Result<D, Fault> {
    let mut index = new_index(alloc, device)?;
    index.add_json(BOOKS[0])?;
    index.add_json(BOOKS[1])?;
    index.commit()?;
    let (device, _analyzer) = index.into_device();
    Ok(device)
}

// Whether the hits of `sea` in the index of a file are these, downwards.
fn is_sea_found(alloc: Global, device: FileDevice, scores: &[Score]) -> Result<bool, Fault> {
    let mut index = Index::open(alloc, device, RawAndDefault)?;
    let hits = index.search(&query_for_sea(alloc)?, 10)?;
    Ok(have_scores(&hits, scores))
}

// Whether the hits have these scores, in their order.
fn have_scores(hits: &[Hit], scores: &[Score]) -> bool {
    hits.len() == scores.len()
        && hits
            .iter()
            .zip(scores)
            .all(|(hit, score)| hit.score == *score)
}

#[test]
fn a_file_has_the_bytes_of_a_device_in_memory(rt: HostRuntime) -> Result<(), Fail> {
    let alloc = rt.alloc();
    drop(with_two_books(alloc, FileDevice::open(&rt, PATH)?)?);
    let mut memory = with_two_books(alloc, MemoryDevice::new(alloc))?;
    assert!(rt; fs::read(&rt, PATH)? == memory.read(alloc)?);
    Ok(())
}

#[test]
fn a_byte_behind_the_end_is_cut(rt: HostRuntime) -> Result<(), Fail> {
    let alloc = rt.alloc();
    drop(with_two_books(alloc, FileDevice::open(&rt, OTHER_PATH)?)?);
    let earlier = fs::read(&rt, OTHER_PATH)?;
    OpenOptions::new()
        .append(true)
        .open(&rt, OTHER_PATH)?
        .write_all(&[0xff])?;
    let is_longer = fs::read(&rt, OTHER_PATH)?.len() == earlier.len() + 1;
    let is_found = is_sea_found(alloc, FileDevice::open(&rt, OTHER_PATH)?, &[40, 30])?;
    assert!(rt; is_longer && is_found && fs::read(&rt, OTHER_PATH)? == earlier);
    Ok(())
}
