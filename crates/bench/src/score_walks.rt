//! How long a step of a scorer over a term takes.

ghost use Rattle.std.specs.Prelude.{[], ◌≡◌, ◌≤◌, IfOk, List, length, true, false, ℕ};
ghost use Rattle.docsets.specs.Entries.{from};
ghost use Rattle.definitions.specs.Scoring.{DontFall};
ghost use Rattle.segment_postings.specs.Cursors.{entries_left};
ghost use Rattle.segment_postings.specs.Reading.{HasPostings};

use crate::spread_terms::{opened, written};
use crate::times::{nanos_since, now};
use codes::FieldNormReader;
use common::{MAX_SCORE, TERMINATED};
use definitions::Fault;
use postings::{DocSet, Postings, SegmentPostings};
use scorers::{Scorer, Similarity, TermScorer};
use std::alloc::Global;
use std::time::Clock;

/// How many runs the best is taken of.
const RUNS: u32 = 60;

/// A weight whose product with a count is below 2^32, and one whose product isn't.
const WEIGHTS: [u64; 2] = [1000, 1_000_000_000_000];

/// What a term is scored by.
#[derive(Drop)]
struct Scoring<'a> {
    weight: u64,
    ids: &'a [u8],
    norms: &'a [u32],
}

/// Prints a row for each term and each weight.
pub(crate) fn measure(rt: &HostRuntime, alloc: Global) -> Result<(), Fault> {
    let _ = println!(rt; "| postings | weight | scores, ps each | always by 64 bits, ps each |");
    let _ = println!(rt; "|---|---|---|---|");
    rows(rt, alloc, 24064)?;
    rows(rt, alloc, 1000000)
}

/// Prints what a term of a given number of documents takes, by each weight.
fn rows(rt: &HostRuntime, alloc: Global, num_docs: u32) -> Result<(), Fault>
    requires { num_docs ≤ 1000000 }
{
    let mut plain = Vec::new(alloc);
    let ids = length_ids(alloc, num_docs as usize * 100)?;
    let bytes = written(alloc, &mut plain, num_docs, lengths_of(&ids)?)?;
    let norms = norms(alloc)?;
    for weight in WEIGHTS {
        let scoring = Scoring {
            weight,
            ids: &ids,
            norms: &norms,
        };
        row(rt, &bytes, num_docs, &scoring)?;
    }
    Ok(())
}

/// Prints what a walk takes.
fn row(rt: &HostRuntime, bytes: &[u8], num_docs: u32, scoring: &Scoring<'_>) -> Result<(), Fault>
    requires { (docs counts : List ℕ) × (known : HasPostings true false num_docs bytes.now docs counts)
        × (known.ids ≡ scoring.now.ids.now) }
{
    let mut best = u128::MAX;
    let mut plain_best = u128::MAX;
    let mut same = true;
    for _ in 0..RUNS {
        let (nanos, seen) = scored(rt, bytes, num_docs, scoring)?;
        best = best.min(nanos);
        let begun = now(rt)?;
        let plain_seen = walk_dividing(&mut opened(bytes, num_docs), scoring);
        plain_best = plain_best.min(nanos_since(rt, begun)?);
        same = same && seen == plain_seen;
    }
    let step = best.saturating_mul(1000) / u128::from(num_docs.max(1));
    let plain_step = plain_best.saturating_mul(1000) / u128::from(num_docs.max(1));
    let weight = scoring.weight;
    let _ = println!(rt; "| {num_docs} | {weight} | {step} | {plain_step} |");
    if !same {
        let _ = println!(rt; "(the walks differ)");
    }
    Ok(())
}

/// The lengths of as many documents as there are ids.
fn lengths_of(ids: &[u8]) -> Result<FieldNormReader<'_>, Fault>
    ensures { IfOk result (λ lengths. lengths ≡ ids.now) }
{
    let count = u32::try_from(ids.len()).ok().ok_or(Fault::Limit)?;
    FieldNormReader::open(ids, count)
}

/// Length ids below 40 without order.
fn length_ids(alloc: Global, count: usize) -> Result<Vec<u8>, Fault> {
    let mut ids = Vec::with_capacity(alloc, count)?;
    let mut state = 7u32;
    for _ in 0..count {
        state = state.wrapping_mul(1664525).wrapping_add(1013904223);
        ids.push((state / 65536 % 40) as u8)?;
    }
    Ok(ids)
}

/// Norms that rise by 3.
fn norms(alloc: Global) -> Result<Vec<u32>, Fault> {
    let mut norms = Vec::with_capacity(alloc, 256)?;
    for id in 0..256u32 {
        norms.push(id * 3)?;
    }
    Ok(norms)
}

/// Whether norms don't fall.
fn rise(norms: &[u32]) -> bool
    ensures { result ≡ true → DontFall norms.now }
{
    let Some((first, rest)) = norms.split_first() else {
        return true;
    };
    let Some(second) = rest.first() else {
        return true;
    };
    *first <= *second && rise(rest)
}

/// Whether all documents are below a number.
fn are_below(postings: &mut SegmentPostings<'_>, num_docs: u32) -> bool
    ensures { result ≡ true → from num_docs (entries_left postings.old) ≡ [] }
{
    if num_docs > TERMINATED || postings.doc() > num_docs {
        return false;
    }
    postings.seek(num_docs) == TERMINATED
}

/// The nanoseconds that a scorer took, from the opening of its term on, and what it saw.
fn scored(
    clock: &impl Clock,
    bytes: &[u8],
    num_docs: u32,
    scoring: &Scoring<'_>,
) -> Result<(u128, u64), Fault>
    requires { (docs counts : List ℕ) × (known : HasPostings true false num_docs bytes.now docs counts)
        × (known.ids ≡ scoring.now.ids.now) }
{
    let lengths = lengths_of(scoring.ids)?;
    let similarity = similarity(scoring.weight, scoring.norms)?;
    if !are_below(&mut opened(bytes, num_docs), lengths.num_docs()) {
        return Err(Fault::Limit);
    }
    let begun = now(clock)?;
    let postings = opened(bytes, num_docs);
    let seen = walk(&mut TermScorer::new(postings, lengths, similarity));
    Ok((nanos_since(clock, begun)?, seen))
}

/// A weight with norms.
fn similarity(weight: u64, norms: &[u32]) -> Result<Similarity<'_>, Fault> {
    if weight > MAX_SCORE as u64 || norms.len() != 256 || !rise(norms) {
        return Err(Fault::Limit);
    }
    Ok(Similarity::new(weight as i64, 1, norms))
}

/// Goes over all documents with their scores.
fn walk<S: Scorer>(scorer: &mut S) -> u64 {
    let mut seen = 0u64;
    let mut doc = scorer.doc();
    while doc < TERMINATED {
        seen = seen.wrapping_add(scorer.score() as u64 ^ u64::from(doc));
        doc = scorer.advance();
    }
    seen
}

/// Goes over all documents with their scores, by divisions of 64 bits.
fn walk_dividing(postings: &mut SegmentPostings<'_>, scoring: &Scoring<'_>) -> u64 {
    let mut seen = 0u64;
    let mut doc = postings.doc();
    while doc < TERMINATED {
        let score = divided(scoring, doc, postings.term_freq());
        seen = seen.wrapping_add(score ^ u64::from(doc));
        doc = postings.advance();
    }
    seen
}

/// The score of a document.
#[inline]
fn divided(scoring: &Scoring<'_>, doc: u32, count: u32) -> u64 {
    let id = scoring.ids.get(doc as usize).copied().unwrap_or(0);
    let norm = scoring.norms.get(id as usize).copied().unwrap_or(0);
    let whole = u64::from(count) + u64::from(norm);
    scoring.weight.wrapping_mul(u64::from(count)) / whole.max(1)
}
