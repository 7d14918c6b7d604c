//! The best hits of a term in the segment that is held, by the walk that leaves blocks out.

use crate::term_answers::WEIGHT;
use case_lines::{Refusal, number, pair};
use common::AliveBitSet;
use leaf_weights::TermWeight;
use schema::{IndexRecordOption, Term};
use segment::BestK;
use segment_reader::SegmentReader;
use serde_json::Value;
use std::alloc::{AllocError, Global};
use walks::Sink;

/// The best `k` hits, each its score and its document, and how many blocks were decoded.
pub(crate) fn best_counted(
    alloc: Global,
    reader: &SegmentReader<'_>,
    alive: &AliveBitSet,
    term: &Term,
    k: u32,
) -> Result<Value, Refusal> {
    let norms = [1; 256];
    let weight = TermWeight::new(term, IndexRecordOption::WithFreqs, WEIGHT, &norms);
    let mut best = BestK::new(alloc, k as usize);
    best.enter(0, alive);
    let blocks = feed(&weight, reader, &mut best)?;
    let mut hits = Vec::new(alloc);
    for (score, _, doc) in best.into_hits() {
        hits.push(pair(alloc, number(score), number(u64::from(doc)))?)?;
    }
    Ok(pair(alloc, Value::Array(hits), number(blocks))?)
}

/// Feeds the documents that hold the term to `best`; returns how many blocks were decoded.
fn feed<'a>(
    weight: &TermWeight<'_, 'a>,
    reader: &SegmentReader<'a>,
    best: &mut BestK<'_>,
) -> Result<u64, AllocError> {
    best.reserve(reader.max_doc() as usize)?;
    let threshold = best.threshold();
    weight.for_each_pruning_counted(threshold, reader, best)
}
