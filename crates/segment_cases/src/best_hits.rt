//! The best hits of a term, kept through two segments that are both the one that is held.

use crate::term_answers::scorer_of;
use case_lines::{Refusal, number, pair, triple};
use common::{AliveBitSet, TERMINATED};
use schema::Term;
use scorer_answers::for_each_pruning;
use segment::BestK;
use segment_reader::SegmentReader;
use serde_json::Value;
use std::alloc::{AllocError, Global};
use term_scorer::TermScorer;
use walks::Sink;

/// The best `k` hits, each its score, its segment's number and its document, and the threshold behind them.
pub(crate) fn best(
    alloc: Global,
    reader: &SegmentReader<'_>,
    alive: &AliveBitSet,
    term: &Term,
    k: u32,
) -> Result<Value, Refusal> {
    let norms = [1; 256];
    let mut best = BestK::new(alloc, k as usize);
    for segment in 0..2 {
        best.enter(segment, alive);
        if let Some(mut scorer) = scorer_of(reader, term, &norms) {
            feed(&mut scorer, &mut best)?;
        }
    }
    let threshold = best.threshold();
    let mut hits = Vec::new(alloc);
    for (score, segment, doc) in best.into_hits() {
        hits.push(triple(
            alloc,
            number(score),
            number(u64::from(segment)),
            number(u64::from(doc)),
        )?)?;
    }
    Ok(pair(alloc, Value::Array(hits), Value::from(threshold))?)
}

/// Feeds the documents of `scorer` to `best`.
fn feed(scorer: &mut TermScorer<'_>, best: &mut BestK<'_>) -> Result<(), AllocError> {
    best.reserve(TERMINATED as usize)?;
    let threshold = best.threshold();
    for_each_pruning(scorer, threshold, best);
    Ok(())
}
