//! The frame of a commit's record.

ghost use Rattle.std.specs.Prelude.{◌++◌, ◌-◌, ◌<◌, ◌^◌, ◌≡◌, ◌≤◌, IfErr, IfOk, OnOk, flat_map, length, map};
ghost use Rattle.definitions.specs.declared.fault.Fault.TheVariants as faults;
ghost use Rattle.layouts.specs.AliveSets.{alive_bytes};
ghost use Rattle.index_file.specs.Frames.{frame_bytes};
ghost use Rattle.segment.specs.Opened.{bytes_of};
ghost use Rattle.index_state.specs.Bodies.{kept_from, next_parts};
ghost use Rattle.segment_definitions.specs.ListBodies.{fresh, part_bytes, segments_body};

use common::AliveBitSet;
use definitions::Fault;
use index_file::SegmentsBodyWriter;
use segment::Segment;
use std::alloc::{AllocError, Global};

/// Encodes a commit record: the first `num_committed` of `segments` by index, the rest inline, then the set of `alive`
/// for each.
pub(crate) fn commit_frame(
    alloc: Global,
    segments: &[Segment],
    num_committed: usize,
    alive: &[AliveBitSet],
) -> Result<Vec<u8>, Fault>
    requires few { length segments.now < 2 ^ 32 }
    requires within { num_committed ≤ length segments.now }
    ensures ok { IfOk result (λ frame. frame.items
        ≡ frame_bytes (segments_body (next_parts num_committed (map bytes_of segments.now)) alive.now)) }
    ensures err { IfErr result (λ fault. fault ≡ faults.OutOfMemory) }
{
    let mut body = SegmentsBodyWriter::begin(alloc, segments.len() as u32)?;
    put_kept(&mut body, 0, num_committed)?;
    put_fresh(&mut body, &segments[num_committed..])?;
    Ok(framed(body, alive)?)
}

/// Encodes the kept segments `from..to`, by index.
pub(crate) fn put_kept(
    body: &mut SegmentsBodyWriter,
    from: usize,
    to: usize,
) -> Result<(), AllocError>
    requires within { from ≤ to }
    requires few { to < 2 ^ 32 }
    ensures { OnOk result (body.new ≡ body.old ++ flat_map part_bytes (kept_from from (to - from))) }
{
    for index in from as u32..to as u32 {
        body.put_kept(index)?;
    }
    Ok(())
}

/// Encodes new segments inline.
pub(crate) fn put_fresh(body: &mut SegmentsBodyWriter, segments: &[Segment]) -> Result<(), Fault>
    ensures ok { OnOk result (body.new ≡ body.old ++ flat_map part_bytes (map fresh (map bytes_of segments.now))) }
    ensures err { IfErr result (λ fault. fault ≡ faults.OutOfMemory) }
{
    for segment in segments {
        body.put_fresh(segment.to_bytes()?.as_slice())?;
    }
    Ok(())
}

/// Appends the alive sets to the body of a record, and frames it.
pub(crate) fn framed(body: SegmentsBodyWriter, alive: &[AliveBitSet]) -> Result<Vec<u8>, AllocError>
    ensures { IfOk result (λ frame. frame.items ≡ frame_bytes (body ++ flat_map alive_bytes alive.now)) }
{
    let mut body = body;
    body.put_sets(alive)?;
    body.finish()
}
