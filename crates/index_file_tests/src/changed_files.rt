//! Indexes of files that were changed: each call answers as the documents say that are there, or tells damage.

use crate::books::{BOOKS, MemoryIndex, query_for_sea, sea};
use common::RawAndDefault;
use definitions::Fault;
use index::{AllQuery, AnyQuery, Index, Status};
use std::alloc::Global;

// How many documents there are, if a count says so too, and a search shows as many or tells damage.
fn counted(index: &mut MemoryIndex) -> Option<u64> {
    let all = AnyQuery::All(AllQuery);
    let docs = index.num_docs();
    let are_shown = match index.search(&all, 9) {
        Ok(hits) => hits.len() as u64 == docs,
        Err(fault) => fault == Fault::Damaged(None),
    };
    if are_shown && index.count(&all) == Ok(docs) {
        Some(docs)
    } else {
        None
    }
}

// Whether one document is added, those with `sea` are deleted, and a commit leaves as many as that says.
fn is_changed_further(alloc: Global, index: &mut MemoryIndex, docs: u64) -> Result<bool, Fault> {
    let found = index.count(&query_for_sea(alloc)?)?;
    index.add_json(BOOKS[2])?;
    index.delete_term(&sea(alloc)?)?;
    index.commit()?;
    Ok(counted(index) == Some(docs.saturating_sub(found).saturating_add(1)))
}

// Whether all segments are merged, or none because one is damaged, and the documents stay.
fn is_merged(index: &mut MemoryIndex) -> bool {
    let docs = index.num_docs();
    let segments = index.num_segments();
    let left = match index.merge(0..segments) {
        Ok(()) => 1,
        Err(Fault::Damaged(None)) => segments,
        Err(_) => return false,
    };
    index.num_segments() == left && counted(index) == Some(docs)
}

// Whether an index goes through an add, a deletion, a commit and a merge, and is then opened with the same documents.
pub(crate) fn answers_each_call(alloc: Global, mut index: MemoryIndex) -> Result<bool, Fault> {
    let Some(docs) = counted(&mut index) else {
        return Ok(false);
    };
    let goes_on = is_changed_further(alloc, &mut index, docs)? && is_merged(&mut index);
    let left = index.num_docs();
    let is_ready = index.state() == Status::Ready;
    let (device, _analyzer) = index.into_device();
    let mut again = Index::open(alloc, device, RawAndDefault)?;
    Ok(goes_on && is_ready && counted(&mut again) == Some(left))
}
