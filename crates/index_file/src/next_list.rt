//! The list of segments that a body makes of the list before.

ghost use Rattle.std.specs.Prelude.{◌++◌, ◌≡◌, ◌≢◌, IfErr, IfOk, IfSome, List, None, Some, flat_map, length, map, true, ℕ};
ghost use Rattle.std.specs.List.{AllByRecursion};
ghost use Rattle.definitions.specs.declared.fault.Fault.TheVariants as faults;
ghost use Rattle.segment.specs.Opened.{num_docs_of};
ghost use Rattle.index_file.specs.Bodies.{IsBody};
ghost use Rattle.index_file.specs.Parts.{part_of};
ghost use Rattle.index_file.specs.Places.{places_rise};
ghost use Rattle.index_file.specs.Lists.{AreNext, IsListed, member_of};
ghost use Rattle.segment_definitions.specs.ListBodies as layout;
ghost use Rattle.segment_definitions.specs.ListBodies.{Makes, part_bytes};
ghost use Rattle.segment_definitions.specs.Segments.{IsSegment};

use crate::member::Member;
use crate::part::{HEAD_BYTES, Part};
use crate::part_reader::PartReader;
use crate::segment_opener::Opener;
use crate::{places_follow, read_segments_body};
use bytes::Bytes;
use common::AliveBitSet;
use definitions::Fault;
use segment::Segment;
use std::collections::VecDeque;

/// Applies `body` to the list `before` and returns the list that it makes; a body that makes none is an error. Segments
/// that aren't kept are freed, and new ones are opened, which share the bytes of the body.
pub(crate) fn next_list(
    opener: Opener<'_>,
    before: Vec<Member>,
    body: Bytes,
) -> Result<Vec<Member>, Fault>
    requires { AllByRecursion (IsListed opener.schema.now) before.items }
    ensures ok { IfOk result (λ after.
        Makes (IsSegment opener.entry.schema.now) (map member_of before.items) (map member_of after.items) body) }
    ensures listed { IfOk result (λ after. AllByRecursion (IsListed opener.entry.schema.now) after.items) }
    ensures err { IfErr result (λ fault. fault ≢ faults.OutOfMemory → (after : List layout.Member)
        → ¬ Makes (IsSegment opener.entry.schema.now) (map member_of before.items) after body) }
{
    let Some(read) = read_segments_body(opener.alloc, body.as_slice())? else {
        return Err(Fault::Damaged(None));
    };
    make_list(opener, before, read.parts, read.alive, &body)
}

/// Applies the body of `parts` and `alive` to the list `before`.
fn make_list(
    opener: Opener<'_>,
    before: Vec<Member>,
    parts: Vec<Part<'_>>,
    alive: Vec<AliveBitSet>,
    body: &Bytes,
) -> Result<Vec<Member>, Fault>
    requires listed { AllByRecursion (IsListed opener.schema.now) before.items }
    requires body { IsBody (map part_of parts.items) alive.items body.now }
    ensures ok { IfOk result (λ after.
        Makes (IsSegment opener.entry.schema.now) (map member_of before.items) (map member_of after.items) body.now) }
    ensures listed { IfOk result (λ after. AllByRecursion (IsListed opener.entry.schema.now) after.items) }
    ensures err { IfErr result (λ fault. fault ≢ faults.OutOfMemory → (after : List layout.Member)
        → ¬ Makes (IsSegment opener.entry.schema.now) (map member_of before.items) after body.now) }
{
    if !places_follow(&parts, before.len()) {
        return Err(Fault::Damaged(None));
    }
    let mut bytes = body.clone()?;
    bytes.advance(HEAD_BYTES);
    take_members(opener, before, &parts, alive, bytes)
}

/// Reads the segments of `parts` from the front of `bytes`, each with its alive set.
fn take_members(
    opener: Opener<'_>,
    before: Vec<Member>,
    parts: &[Part<'_>],
    alive: Vec<AliveBitSet>,
    bytes: Bytes,
) -> Result<Vec<Member>, Fault>
    requires listed { AllByRecursion (IsListed opener.schema.now) before.items }
    requires rise { places_rise 0 (length before.items) (map part_of parts.now) ≡ true }
    requires each { length alive.items ≡ length parts.now }
    requires bytes { (more : List ℕ) × (bytes ≡ flat_map part_bytes (map part_of parts.now) ++ more) }
    ensures ok { IfOk result (λ after.
        AreNext opener.entry.schema.now (map member_of before.items) (map part_of parts.now) alive.items
        (map member_of after.items)) }
    ensures listed { IfOk result (λ after. AllByRecursion (IsListed opener.entry.schema.now) after.items) }
    ensures err { IfErr result (λ fault. fault ≢ faults.OutOfMemory → (after : List layout.Member)
        → ¬ AreNext opener.entry.schema.now (map member_of before.items) (map part_of parts.now) alive.items after) }
{
    let mut reader = PartReader {
        opener,
        before: VecDeque::from_vec(before),
        passed: 0,
        bytes,
    };
    let mut alive = VecDeque::from_vec(alive);
    let mut members = Vec::new(opener.alloc);
    for part in parts {
        let segment = reader.take(part)?;
        let member = flagged(segment, alive.pop_front())?;
        members.push(member)?;
    }
    Ok(members)
}

/// Pairs `segment` with `alive`; `Damaged` if there is none, or one for another number of documents.
fn flagged(segment: Segment, alive: Option<AliveBitSet>) -> Result<Member, Fault>
    ensures ok { IfOk result (λ m. (m.segment ≡ segment) × (Some m.alive ≡ alive)
        × (length m.alive ≡ num_docs_of segment)) }
    ensures err { IfErr result (λ fault. (fault ≡ faults.Damaged None)
        × IfSome alive (λ flags. length flags ≢ num_docs_of segment)) }
{
    match alive {
        Some(alive) if alive.len() == segment.num_docs() as usize => Ok(Member { segment, alive }),
        _ => Err(Fault::Damaged(None)),
    }
}
