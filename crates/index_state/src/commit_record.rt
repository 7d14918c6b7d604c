//! The record of a commit, laid out in memory.

ghost use Rattle.std.specs.Prelude.{◌++◌, ◌+◌, ◌<◌, ◌^◌, ◌≡◌, ◌⊎◌, IfErr, IfOk, List, OnErr, OnOk, drop, length, map, replicate, true, ℕ};
ghost use Rattle.definitions.specs.Analyzers as definitions;
ghost use Rattle.definitions.specs.declared.fault.Fault.TheVariants as faults;
ghost use Rattle.index_state.specs.CommitRecords.{LastPasses, LeavesRows, SomeStandBehind, StandBehind, StayOpened, commit_frame_bytes};
ghost use Rattle.index_state.specs.Commits.{frame_in, sets_in};
ghost use Rattle.index_state.specs.Flags.{AreFlagged};
ghost use Rattle.index_state.specs.Merges.{all_alive};
ghost use Rattle.index_state.specs.Pending.{HoldsSome, num_segments_in};
ghost use Rattle.segment.specs.declared.segment.Segment as code;

use crate::commit_frame::{commit_frame, framed, put_kept};
use crate::committed_alive_sets::next_sets;
use crate::deletions::Deletion;
use crate::merged_alive_sets::push_copies;
use crate::new_segments::{NewSegment, open_news};
use crate::pending_segments::PendingSegments;
use crate::prepared::Prepared;
use bytes::Bytes;
use common::AliveBitSet;
use definitions::Fault;
use index_file::SegmentsBodyWriter;
use schema::Schema;
use segment::Segment;
use std::alloc::{AllocError, Global};

/// Lays out the record of a commit of `pending` and `deletions`, and appends the new segments to `segments`, opened; some
/// of them after an error. Each of `segments` has its alive set in `alive`.
pub(crate) fn commit_record(
    alloc: Global,
    schema: &Schema,
    cache_num_blocks: usize,
    segments: &mut Vec<Segment>,
    alive: &[AliveBitSet],
    pending: PendingSegments,
    deletions: &[Deletion],
) -> Result<Prepared, Fault>
    requires held { ∥ ((analyze : definitions.Analyzer) × (block_size : ℕ)
        × HoldsSome schema.now analyze block_size pending) ∥₁ }
    requires flagged { AreFlagged segments.old.items alive.now }
    requires each { length segments.old.items ≡ length alive.now }
    requires few { length alive.now + num_segments_in pending < 2 ^ 32 }
    ensures opened { StayOpened schema.now segments.old.items segments.new.items }
    ensures behind { (more : List code.Segment) × (segments.new.items ≡ segments.old.items ++ more) }
    ensures ok { OnOk result (StandBehind schema.now pending segments.old.items segments.new.items) }
    ensures count { OnOk result (length segments.new.items ≡ length segments.old.items + num_segments_in pending) }
    ensures err { OnErr result (SomeStandBehind schema.now pending segments.old.items segments.new.items) }
    ensures fault { IfErr result (λ fault. (fault ≡ faults.OutOfMemory) ⊎ (fault ≡ faults.Limit)) }
    ensures limit { IfErr result (LastPasses schema.now pending) }
    ensures flagged { IfOk result (λ prepared. AreFlagged segments.new.items (sets_in prepared)) }
    ensures each { IfOk result (λ prepared. length (sets_in prepared) ≡ length segments.new.items) }
    ensures rows { IfOk result (λ prepared.
        LeavesRows alive.now deletions.now segments.new.items (sets_in prepared)) }
    ensures frame { IfOk result (λ prepared.
        frame_in prepared ≡ commit_frame_bytes alive.now segments.new.items (sets_in prepared)) }
{
    if deletions.is_empty() {
        return record_in_place(alloc, schema, cache_num_blocks, segments, alive, pending);
    }
    record_of_opened(
        alloc,
        schema,
        cache_num_blocks,
        segments,
        alive,
        pending,
        deletions,
    )
}

/// Like `commit_record`, where nothing is deleted: each new segment is encoded where it stands in the record, and opened
/// over its bytes there.
fn record_in_place(
    alloc: Global,
    schema: &Schema,
    cache_num_blocks: usize,
    segments: &mut Vec<Segment>,
    alive: &[AliveBitSet],
    pending: PendingSegments,
) -> Result<Prepared, Fault>
    requires held { ∥ ((analyze : definitions.Analyzer) × (block_size : ℕ)
        × HoldsSome schema.now analyze block_size pending) ∥₁ }
    requires flagged { AreFlagged segments.old.items alive.now }
    requires each { length segments.old.items ≡ length alive.now }
    requires few { length alive.now + num_segments_in pending < 2 ^ 32 }
    ensures opened { StayOpened schema.now segments.old.items segments.new.items }
    ensures behind { (more : List code.Segment) × (segments.new.items ≡ segments.old.items ++ more) }
    ensures ok { OnOk result (StandBehind schema.now pending segments.old.items segments.new.items) }
    ensures count { OnOk result (length segments.new.items ≡ length segments.old.items + num_segments_in pending) }
    ensures err { OnErr result (SomeStandBehind schema.now pending segments.old.items segments.new.items) }
    ensures fault { IfErr result (λ fault. (fault ≡ faults.OutOfMemory) ⊎ (fault ≡ faults.Limit)) }
    ensures limit { IfErr result (LastPasses schema.now pending) }
    ensures sets { IfOk result (λ prepared. sets_in prepared
        ≡ alive.now ++ map all_alive (drop (length alive.now) segments.new.items)) }
    ensures frame { IfOk result (λ prepared.
        frame_in prepared ≡ commit_frame_bytes alive.now segments.new.items (sets_in prepared)) }
{
    let num_segments = alive.len() + pending.num_segments();
    let mut body = SegmentsBodyWriter::begin(alloc, num_segments as u32)?;
    put_kept(&mut body, 0, alive.len())?;
    let (body, news) = pending.encode(schema, body)?;
    let sets = sets_with_new(alloc, alive, &news)?;
    let frame = Bytes::from_vec(framed(body, &sets)?)?;
    open_news(alloc, schema, cache_num_blocks, &frame, &news, segments)?;
    Ok(Prepared { frame, alive: sets })
}

/// Returns copies of the sets of `alive`, and one for each new segment, in which all documents are alive.
fn sets_with_new(
    alloc: Global,
    alive: &[AliveBitSet],
    news: &[NewSegment],
) -> Result<Vec<AliveBitSet>, AllocError>
    ensures { IfOk result (λ sets. sets.items ≡ alive.now ++ map (λ new. replicate new.num_docs true) news.now) }
{
    let mut sets = Vec::with_capacity(alloc, alive.len())?;
    push_copies(alloc, alive, &mut sets)?;
    for new in news {
        sets.push(AliveBitSet::for_max_doc(alloc, new.num_docs)?)?;
    }
    Ok(sets)
}

/// Like `commit_record`, where something is deleted: the new segments are opened before the record is laid out, since it
/// says which of their documents are alive, and copied into it.
fn record_of_opened(
    alloc: Global,
    schema: &Schema,
    cache_num_blocks: usize,
    segments: &mut Vec<Segment>,
    alive: &[AliveBitSet],
    pending: PendingSegments,
    deletions: &[Deletion],
) -> Result<Prepared, Fault>
    requires held { ∥ ((analyze : definitions.Analyzer) × (block_size : ℕ)
        × HoldsSome schema.now analyze block_size pending) ∥₁ }
    requires flagged { AreFlagged segments.old.items alive.now }
    requires each { length segments.old.items ≡ length alive.now }
    requires few { length alive.now + num_segments_in pending < 2 ^ 32 }
    ensures opened { StayOpened schema.now segments.old.items segments.new.items }
    ensures behind { (more : List code.Segment) × (segments.new.items ≡ segments.old.items ++ more) }
    ensures ok { OnOk result (StandBehind schema.now pending segments.old.items segments.new.items) }
    ensures count { OnOk result (length segments.new.items ≡ length segments.old.items + num_segments_in pending) }
    ensures err { OnErr result (SomeStandBehind schema.now pending segments.old.items segments.new.items) }
    ensures fault { IfErr result (λ fault. (fault ≡ faults.OutOfMemory) ⊎ (fault ≡ faults.Limit)) }
    ensures limit { IfErr result (LastPasses schema.now pending) }
    ensures flagged { IfOk result (λ prepared. AreFlagged segments.new.items (sets_in prepared)) }
    ensures each { IfOk result (λ prepared. length (sets_in prepared) ≡ length segments.new.items) }
    ensures rows { IfOk result (λ prepared.
        LeavesRows alive.now deletions.now segments.new.items (sets_in prepared)) }
    ensures frame { IfOk result (λ prepared.
        frame_in prepared ≡ commit_frame_bytes alive.now segments.new.items (sets_in prepared)) }
{
    let mut pending = pending;
    pending.close(schema)?;
    pending.open_into(schema, cache_num_blocks, segments)?;
    let sets = next_sets(alloc, segments, alive, deletions)?;
    let frame = commit_frame(alloc, segments, alive.len(), &sets)?;
    Ok(Prepared {
        frame: Bytes::from_vec(frame)?,
        alive: sets,
    })
}
