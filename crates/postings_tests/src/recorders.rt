//! What recorders keep of a term.

use definitions::Fault;
use postings_writer::{DocIdRecorder, TermFrequencyRecorder, TfAndPositionRecorder};
use std::alloc::Global;
use std::test::Fail;

// Documents and positions, in the order in which they are recorded.
const RECORDS: [(u32, u32); 4] = [(3, 7), (3, 7), (3, 2), (5, 0)];

/// Whether documents are kept, each once.
fn keeps_docs(alloc: Global) -> Result<bool, Fault> {
    let mut docs = DocIdRecorder::new(alloc);
    for (doc, _) in RECORDS {
        docs.record(doc)?;
    }
    Ok(docs.docs() == [3, 5].as_slice())
}

/// Whether documents are kept with how often each was recorded.
fn keeps_counts(alloc: Global) -> Result<bool, Fault> {
    let mut counts = TermFrequencyRecorder::new(alloc);
    for (doc, _) in RECORDS {
        counts.record(doc)?;
    }
    Ok(counts.counts() == [(3, 3), (5, 1)].as_slice())
}

/// Whether documents are kept with their positions.
fn keeps_positions(alloc: Global) -> Result<bool, Fault> {
    let mut positions = TfAndPositionRecorder::new(alloc);
    for (doc, position) in RECORDS {
        positions.record(doc, position)?;
    }
    let mut copied = Vec::new(alloc);
    positions.copy_places(&mut copied)?;
    Ok(positions.len() == RECORDS.len() && copied.as_slice() == RECORDS.as_slice())
}

#[test]
fn recorders_keep_what_is_recorded(rt: HostRuntime) -> Result<(), Fail> {
    let alloc = rt.alloc();
    assert!(rt; keeps_docs(alloc)? && keeps_counts(alloc)? && keeps_positions(alloc)?);
    Ok(())
}
