//! Why a record may not follow those before it.

ghost use Rattle.std.specs.Prelude.{◌≡◌, ◌≤◌, false, IfNone, IfOk, IfSome, List, drop, length, map, true, ℕ};
ghost use Rattle.std.specs.List.{AllByRecursion};
ghost use Rattle.index_file.specs.Parts.{part_of};
ghost use Rattle.inspect.specs.Reasons.{IsDamageOf, IsNewSegment, IsNoSegment, IsReason, IsUnfit};
ghost use Rattle.layouts.specs.RecordFiles.{IsDamaged};
ghost use Rattle.segment_definitions.specs.ListBodies.{fresh};
ghost use Rattle.segment_definitions.specs.IndexFiles.{TakesSegments};
ghost use Rattle.segment_definitions.specs.Segments.{IsSegment};

use crate::damage::{Damage, Reason};
use crate::failure::Failure;
use crate::file::shared;
use crate::mended_copy::closed_at;
use crate::records::take_record;
use bytes::Bytes;
use definitions::Fault;
use index_file::{IndexFile, Part, places_follow, read_segments_body};
use schema::Schema;
use segment::Segment;
use std::alloc::{AllocError, Global};

/// Returns what is wrong with the file of these `bytes`, which is damaged from the gate at `gate` on, behind `number`
/// records.
pub(crate) fn damage_at(
    alloc: Global,
    bytes: &Bytes,
    number: usize,
    gate: usize,
) -> Result<Damage, Failure>
    requires { (damaged : IsDamaged TakesSegments bytes.now gate) × (number ≡ length damaged.bodies) }
    ensures { IfOk result (IsDamageOf bytes.now) }
{
    let reason = reason_at(alloc, bytes, gate)?;
    Ok(Damage {
        number,
        gate,
        reason,
    })
}

/// Returns why the file of these `bytes` is damaged from the record on whose gate stands at `gate`.
fn reason_at(alloc: Global, bytes: &Bytes, gate: usize) -> Result<Reason, Failure>
    requires { IsDamaged TakesSegments bytes.now gate }
    ensures { (damaged : IsDamaged TakesSegments bytes.now gate)
        → IfOk result (IsReason bytes.now gate damaged.rest) }
{
    let all = bytes.as_slice();
    let rest = from(all, gate);
    let Ok((body, _next)) = take_record(rest) else {
        return Ok(Reason::CutOff);
    };
    if gate == 0 {
        return Ok(Reason::NoMaking);
    }
    let front = shared(closed_at(alloc, all, gate)?)?;
    let before = IndexFile::open(alloc, front)?;
    let reason = reason_of(alloc, &before.schema, before.members.len(), body)?;
    Ok(reason)
}

/// Returns the bytes from the offset `start` on.
fn from(bytes: &[u8], start: usize) -> &[u8]
    requires { start ≤ length bytes.now }
    ensures { result.now ≡ drop start bytes.now }
{
    let (_before, after) = bytes.split_at(start);
    after
}

/// Returns why `body` makes no list of one of `num_before` segments, where it makes none.
fn reason_of(
    alloc: Global,
    schema: &Schema,
    num_before: usize,
    body: &[u8],
) -> Result<Reason, AllocError>
    ensures { IfOk result (IsUnfit schema.now num_before body.now) }
{
    let Some(read) = read_segments_body(alloc, body)? else {
        return Ok(Reason::NoList);
    };
    if !places_follow(&read.parts, num_before) {
        return Ok(Reason::KeptSegments);
    }
    match first_unfit(alloc, schema, &read.parts)? {
        Some(number) => Ok(Reason::NewSegment(number)),
        None => Ok(Reason::AliveSets),
    }
}

/// Returns the index of the first new segment in `parts` that isn't one.
fn first_unfit(
    alloc: Global,
    schema: &Schema,
    parts: &[Part<'_>],
) -> Result<Option<usize>, AllocError>
    ensures some { IfOk result (λ found. IfSome found
        (IsNoSegment schema.now (map part_of parts.now))) }
    ensures none { IfOk result (λ found. IfNone found
        (AllByRecursion (IsNewSegment schema.now) (map part_of parts.now))) }
{
    for (number, part) in parts.iter().enumerate() {
        let fits = is_fit(alloc, schema, part)?;
        if !fits {
            return Ok(Some(number));
        }
    }
    Ok(None)
}

/// Returns whether `part` is a kept segment, or a new one that is a segment.
fn is_fit(alloc: Global, schema: &Schema, part: &Part<'_>) -> Result<bool, AllocError>
    ensures yes { IfOk result (λ is. is ≡ true → IsNewSegment schema.now (part_of part.now)) }
    ensures no { IfOk result (λ is. is ≡ false → (segment : List ℕ) × (part_of part.now ≡ fresh segment)
        × ((num_docs : ℕ) → ¬ IsSegment schema.now num_docs segment)) }
{
    match part {
        Part::Kept(_) => Ok(true),
        Part::Fresh(bytes) => is_segment(alloc, schema, bytes),
    }
}

/// Returns whether `bytes` are a segment of documents of `schema`. The blocks of its store aren't looked at.
fn is_segment(alloc: Global, schema: &Schema, bytes: &[u8]) -> Result<bool, AllocError>
    ensures yes { IfOk result (λ is. is ≡ true → (num_docs : ℕ) × IsSegment schema.now num_docs bytes.now) }
    ensures no { IfOk result (λ is. is ≡ false → (num_docs : ℕ) → ¬ IsSegment schema.now num_docs bytes.now) }
{
    let shared = Bytes::copy_from_slice(alloc, bytes)?;
    opens(alloc, schema, shared)
}

/// Like `is_segment`, for shared bytes.
fn opens(alloc: Global, schema: &Schema, bytes: Bytes) -> Result<bool, AllocError>
    ensures yes { IfOk result (λ is. is ≡ true → (num_docs : ℕ) × IsSegment schema.now num_docs bytes) }
    ensures no { IfOk result (λ is. is ≡ false → (num_docs : ℕ) → ¬ IsSegment schema.now num_docs bytes) }
{
    match Segment::open(alloc, schema, bytes, 0) {
        Ok(_) => Ok(true),
        Err(Fault::OutOfMemory) => Err(AllocError),
        Err(_) => Ok(false),
    }
}
