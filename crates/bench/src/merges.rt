//! How long segments take to be merged, and how long their documents take to be indexed: one document for each line of a
//! text, JSON with a title, a body, a section and a size.

ghost use Rattle.std.specs.Prelude.{◌≡◌, IfOk, length};
ghost use Rattle.segment.specs.Members.{AreOpened, IsMember};

use crate::segment_steps::{BLOCK_SIZE, CACHE_NUM_BLOCKS, writing};
use crate::segments::{documents, schema_with_lengths, values};
use crate::times::{nanos_since, now};
use common::AliveBitSet;
use definitions::Fault;
use document::CompactDoc;
use schema::Schema;
use segment::{Segment, merge_segments};
use std::alloc::{AllocError, Global};
use store::Bytes;

/// How many segments are merged.
const NUM_SEGMENTS: usize = 10;

/// How far the dead documents of a segment are from one another, where some are dead.
const DEAD_STEP: u32 = 10;

/// How many runs the best is taken of.
const RUNS: u32 = 5;

/// What was measured of a merge: times in nanoseconds, and numbers of bytes.
#[derive(Clone, Copy)]
struct Merge {
    indexing: u128,
    merging: u128,
    members: usize,
    merged: usize,
}

impl Merge {
    /// The shorter time of each step.
    fn best_of(&self, other: &Merge) -> Merge {
        Merge {
            indexing: self.indexing.min(other.indexing),
            merging: self.merging.min(other.merging),
            members: self.members,
            merged: self.merged,
        }
    }
}

/// Measures lines, and prints the best of some runs.
pub(crate) fn measure(rt: &HostRuntime, alloc: Global, text: &str) -> Result<(), Fault> {
    let schema = schema_with_lengths(alloc)?;
    let lines = values(alloc, text)?;
    let docs = documents(alloc, &schema, &lines)?;
    let alive = best(rt, alloc, &schema, &docs, false)?;
    let some_dead = best(rt, alloc, &schema, &docs, true)?;
    let indexing = alive.indexing.min(some_dead.indexing);
    let bytes = [text.len(), alive.members];
    let _ = println!(rt;
        "| {} documents, {} bytes of lines, {} bytes of segments | ms | MB of lines a second | MB of segments a second |",
        docs.len(),
        bytes[0],
        bytes[1]
    );
    let _ = println!(rt; "|---|---|---|---|");
    print_step(rt, "adding and closing", indexing, bytes);
    print_step(rt, "merging, all alive", alive.merging, bytes);
    print_step(rt, "merging, a tenth dead", some_dead.merging, bytes);
    let _ = println!(rt;
        "(merges of {} and {} bytes)",
        alive.merged, some_dead.merged
    );
    Ok(())
}

/// Prints the time of a step, and how many millions of bytes of lines and of segments it takes a second.
fn print_step(rt: &HostRuntime, name: &str, nanos: u128, bytes: [usize; 2]) {
    let millis = nanos / 1000000;
    let of_lines = (bytes[0] as u128).saturating_mul(1000) / nanos.max(1);
    let of_segments = (bytes[1] as u128).saturating_mul(1000) / nanos.max(1);
    let _ = println!(rt; "| {name} | {millis} | {of_lines} | {of_segments} |");
}

/// The shortest times of some runs.
fn best(
    rt: &HostRuntime,
    alloc: Global,
    schema: &Schema,
    docs: &[CompactDoc],
    some_dead: bool,
) -> Result<Merge, Fault> {
    let mut best = merge_of(rt, alloc, schema, docs, some_dead)?;
    for _ in 1..RUNS {
        best = best.best_of(&merge_of(rt, alloc, schema, docs, some_dead)?);
    }
    Ok(best)
}

/// One run: the documents become segments of equal parts, and these are merged.
fn merge_of(
    rt: &HostRuntime,
    alloc: Global,
    schema: &Schema,
    docs: &[CompactDoc],
    some_dead: bool,
) -> Result<Merge, Fault> {
    let (members, indexing) = members_of(rt, alloc, schema, docs, some_dead)?;
    let mut len = 0usize;
    for member in &members {
        len = len.saturating_add(member.0.to_bytes()?.as_slice().len());
    }
    let begun = now(rt)?;
    let merged = merge_segments(alloc, schema, BLOCK_SIZE, CACHE_NUM_BLOCKS, &members)?;
    let merging = nanos_since(rt, begun)?;
    let merged = match merged {
        Some(segment) => segment.to_bytes()?.as_slice().len(),
        None => 0,
    };
    Ok(Merge {
        indexing,
        merging,
        members: len,
        merged,
    })
}

/// Segments of equal parts of the documents, and how long these took to be added and closed.
fn members_of(
    rt: &HostRuntime,
    alloc: Global,
    schema: &Schema,
    docs: &[CompactDoc],
    some_dead: bool,
) -> Result<(Vec<(Segment, AliveBitSet)>, u128), Fault>
    ensures { IfOk result (λ r. AreOpened schema.now r.0.items) }
{
    let len = docs.len().div_ceil(NUM_SEGMENTS).max(1);
    let mut members = Vec::with_capacity(alloc, NUM_SEGMENTS)?;
    let mut nanos = 0u128;
    for part in docs.chunks(len) {
        let (adding, closing, bytes) = writing(rt, alloc, schema, part)?;
        nanos = nanos.saturating_add(adding).saturating_add(closing);
        members.push(member_of(alloc, schema, bytes, some_dead)?)?;
    }
    Ok((members, nanos))
}

/// A segment with all of its documents alive, or some of them.
fn member_of(
    alloc: Global,
    schema: &Schema,
    bytes: Vec<u8>,
    some_dead: bool,
) -> Result<(Segment, AliveBitSet), Fault>
    ensures { IfOk result (IsMember schema.now) }
{
    let bytes = Bytes::from_vec(bytes)?;
    let segment = Segment::open(alloc, schema, bytes, CACHE_NUM_BLOCKS)?;
    let alive = alive_set(alloc, segment.num_docs(), some_dead)?;
    Ok((segment, alive))
}

/// `num_docs` documents, of which all are alive, or some.
fn alive_set(alloc: Global, num_docs: u32, some_dead: bool) -> Result<AliveBitSet, AllocError>
    ensures { IfOk result (λ alive. length alive ≡ num_docs) }
{
    let mut alive = AliveBitSet::for_max_doc(alloc, num_docs)?;
    if !some_dead {
        return Ok(alive);
    }
    for doc in 0..num_docs {
        if doc % DEAD_STEP == 0 {
            alive.kill(doc);
        }
    }
    Ok(alive)
}
