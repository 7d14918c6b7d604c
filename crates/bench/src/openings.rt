//! How long it takes to open a term with positions.

ghost use Rattle.std.specs.Prelude.{[], ◌≡◌, ◌≤◌, IfOk, List, None, OnOk, length, true, ℕ};
ghost use Rattle.definitions.specs.Schema.{has_freq};
ghost use Rattle.layouts.specs.Positions.{ArePositions};
ghost use Rattle.segment_postings.specs.Reading.{HasPostings};
ghost use Rattle.segment_postings.specs.TermEntries.{HasPositions};
ghost use Rattle.postings_writer.specs.TermWriting.{AreWritten};

use crate::times::{nanos_since, now};
use codes::{PositionReader, PositionSerializer, Recorded};
use definitions::Fault;
use options::IndexRecordOption;
use postings::{DocSet, Postings, PostingsSerializer, SegmentPostings};
use std::alloc::Global;
use std::time::Clock;

/// How many runs the best is taken of.
const RUNS: u32 = 20;

/// How often a run opens a term.
const OPENINGS: u32 = 1000;

/// What is asked of a term that is opened.
#[derive(Clone, Copy)]
enum Work {
    FirstDocument,
    MostPositions,
}

/// Prints a row for each term.
pub(crate) fn measure(rt: &HostRuntime, alloc: Global) -> Result<(), Fault> {
    let _ = println!(rt;
        "| postings with positions | bytes | opening, ns each | opening and how many positions a document has at most, ns each |"
    );
    let _ = println!(rt; "|---|---|---|---|");
    row(rt, alloc, 24064)?;
    row(rt, alloc, 1000000)
}

/// Prints what a term of a given number of documents takes.
fn row(rt: &HostRuntime, alloc: Global, num_docs: u32) -> Result<(), Fault>
    requires { num_docs ≤ 1000000 }
{
    let (postings, positions) = written(alloc, num_docs)?;
    let (first, seen) = best(rt, &postings, &positions, num_docs, Work::FirstDocument)?;
    let (most, _) = best(rt, &postings, &positions, num_docs, Work::MostPositions)?;
    let len = postings.len().saturating_add(positions.len());
    let opening = first / u128::from(OPENINGS);
    let asking = most / u128::from(OPENINGS);
    let _ = println!(rt; "| {num_docs} | {len} | {opening} | {asking} |");
    if seen != 0 {
        let _ = println!(rt; "(the first document differs)");
    }
    Ok(())
}

/// The nanoseconds of the best run, and the sum of what it saw.
fn best(
    clock: &impl Clock,
    postings: &[u8],
    positions: &[u8],
    num_docs: u32,
    work: Work,
) -> Result<(u128, u64), Fault>
    requires { (docs counts : List ℕ) × (lists : List (List ℕ)) × (numbers : List ℕ)
        × HasPostings true true num_docs postings.now docs counts × HasPositions counts lists numbers
        × ArePositions numbers positions.now }
{
    let mut best = u128::MAX;
    let mut seen = 0u64;
    for _ in 0..RUNS {
        let begun = now(clock)?;
        for _ in 0..OPENINGS {
            let term = opened(postings, positions, num_docs);
            seen = seen.wrapping_add(asked(&term, work));
        }
        best = best.min(nanos_since(clock, begun)?);
    }
    Ok((best, seen))
}

/// What a term tells.
fn asked<P: Postings>(term: &P, work: Work) -> u64 {
    match work {
        Work::FirstDocument => u64::from(term.doc()),
        Work::MostPositions => term.most_positions() as u64,
    }
}

/// Adds documents, each three behind the one before and with one position, which is its index.
fn write_with_positions(
    serializer: &mut PostingsSerializer,
    positions: &mut PositionSerializer,
    num_docs: u32,
) -> Result<(), Fault>
    requires few { num_docs ≤ 1000000 }
    requires next { serializer.old.next ≡ 0 }
    requires lengths { serializer.old.norms ≡ None }
    requires counted { has_freq serializer.old.option ≡ true }
    requires nothing { AreWritten serializer.old [] [] }
    requires none { positions.old ≡ ([], []) }
    ensures written { OnOk result ((docs counts : List ℕ) × (lists : List (List ℕ))
        × AreWritten serializer.new docs counts × (length docs ≡ num_docs)
        × HasPositions counts lists positions.new.1) }
    ensures same { OnOk result ((serializer.new.option ≡ serializer.old.option) × (serializer.new.norms ≡ None)
        × (positions.new.0 ≡ [])) }
{
    for index in 0..num_docs {
        serializer.write_doc(3 * index, 1)?;
        positions.write_positions_delta(&[index])?;
    }
    Ok(())
}

/// The bytes of the postings of a term of a given number of documents, and those of its positions.
fn written(alloc: Global, num_docs: u32) -> Result<(Vec<u8>, Vec<u8>), Fault>
    requires { num_docs ≤ 1000000 }
    ensures { IfOk result (λ bytes. (docs counts : List ℕ) × (lists : List (List ℕ)) × (numbers : List ℕ)
        × HasPostings true true num_docs bytes.0.items docs counts × HasPositions counts lists numbers
        × ArePositions numbers bytes.1.items) }
{
    let mut serializer = PostingsSerializer::new(
        alloc,
        IndexRecordOption::WithFreqsAndPositions,
        None,
    );
    let mut positions = PositionSerializer::new(alloc, Vec::new(alloc));
    let mut bytes = Vec::new(alloc);
    write_with_positions(&mut serializer, &mut positions, num_docs)?;
    serializer.close_term(num_docs, &mut bytes)?;
    positions.close_term()?;
    Ok((bytes, positions.close()))
}

/// The cursor at its first document.
fn opened<'a>(postings: &'a [u8], positions: &'a [u8], num_docs: u32) -> SegmentPostings<'a>
    requires { (docs counts : List ℕ) × (lists : List (List ℕ)) × (numbers : List ℕ)
        × HasPostings true true num_docs postings.now docs counts × HasPositions counts lists numbers
        × ArePositions numbers positions.now }
{
    let recorded = Recorded {
        counts: true,
        positions: true,
    };
    SegmentPostings::with_positions(postings, num_docs, recorded, PositionReader::new(positions))
}
