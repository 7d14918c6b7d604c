//! How long a step of a cursor over postings takes.

ghost use Rattle.std.specs.Prelude.{◌≤◌, List, true, false, ℕ};
ghost use Rattle.segment_postings.specs.Reading.{HasPostings};

use crate::spread_terms::{opened, written};
use crate::times::{nanos_since, now};
use codes::FieldNormReader;
use common::TERMINATED;
use definitions::Fault;
use postings::{DocSet, Postings};
use std::alloc::Global;
use std::time::Clock;

/// How far the targets of seeks are from one another.
const STEP: u32 = 20000;

/// How many runs the best is taken of.
const RUNS: u32 = 60;

/// What is measured.
#[derive(Clone, Copy)]
enum Work {
    Walk,
    Seeks,
    PlainWalk,
}

/// Prints a row for each term.
pub(crate) fn measure(rt: &HostRuntime, alloc: Global) -> Result<(), Fault> {
    let _ = println!(rt;
        "| postings | bytes | walk, ps each | plain list, ps each | seeks | ns each |"
    );
    let _ = println!(rt; "|---|---|---|---|---|---|");
    row(rt, alloc, 24064)?;
    row(rt, alloc, 1000000)
}

/// Prints what a term of a given number of documents takes.
fn row(rt: &HostRuntime, alloc: Global, num_docs: u32) -> Result<(), Fault>
    requires { num_docs ≤ 1000000 }
{
    let mut plain = Vec::new(alloc);
    let lengths = FieldNormReader::constant(num_docs * 100, 1);
    let bytes = written(alloc, &mut plain, num_docs, lengths)?;
    let (walk, seen) = best(rt, &bytes, &plain, num_docs, Work::Walk)?;
    let (list, same) = best(rt, &bytes, &plain, num_docs, Work::PlainWalk)?;
    let (seeks, count) = best(rt, &bytes, &plain, num_docs, Work::Seeks)?;
    let len = bytes.len();
    let step = walk.saturating_mul(1000) / u128::from(num_docs.max(1));
    let plain_step = list.saturating_mul(1000) / u128::from(num_docs.max(1));
    let seek = seeks / u128::from(count.max(1));
    let _ = println!(rt; "| {num_docs} | {len} | {step} | {plain_step} | {count} | {seek} |");
    if seen != same {
        let _ = println!(rt; "(the walks differ)");
    }
    Ok(())
}

/// The nanoseconds of the best run, and what it saw.
fn best(
    clock: &impl Clock,
    bytes: &[u8],
    plain: &[(u32, u32)],
    num_docs: u32,
    work: Work,
) -> Result<(u128, u64), Fault>
    requires { (docs counts : List ℕ) × HasPostings true false num_docs bytes.now docs counts }
{
    let mut best = u128::MAX;
    let mut seen = 0;
    for _ in 0..RUNS {
        let begun = now(clock)?;
        seen = match work {
            Work::Walk => walk(&mut opened(bytes, num_docs)),
            Work::Seeks => seeks(&mut opened(bytes, num_docs)),
            Work::PlainWalk => plain_walk(plain),
        };
        best = best.min(nanos_since(clock, begun)?);
    }
    Ok((best, seen))
}

/// Goes over all documents with their counts.
fn walk<P: Postings>(postings: &mut P) -> u64 {
    let mut seen = 0u64;
    let mut doc = postings.doc();
    while doc < TERMINATED {
        seen = seen.wrapping_add(u64::from(doc ^ postings.term_freq()));
        doc = postings.advance();
    }
    seen
}

/// Seeks in steps; answers how many seeks there were.
fn seeks<D: DocSet>(postings: &mut D) -> u64 {
    for count in 0..1000000 {
        let doc = postings.doc();
        if doc >= TERMINATED {
            return count;
        }
        postings.seek(doc.saturating_add(STEP).min(TERMINATED));
    }
    0
}

/// Goes over the plain list.
fn plain_walk(plain: &[(u32, u32)]) -> u64 {
    let mut seen = 0u64;
    for (doc, count) in plain {
        seen = seen.wrapping_add(u64::from(*doc ^ *count));
    }
    seen
}
