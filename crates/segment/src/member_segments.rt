//! The members of a merge, borrowed.

ghost use Rattle.std.specs.Prelude.{◌≡◌, IfOk, length, map};
ghost use Rattle.std.specs.List.{zip};
ghost use Rattle.segment.specs.Members.{member_of};

use crate::Segment;
use common::AliveBitSet;
use std::alloc::{AllocError, Global};

/// A member of a merge: a segment, and which of its documents are alive.
#[derive(Drop)]
pub(crate) struct MemberSegment<'a> {
    pub(crate) segment: &'a Segment,
    pub(crate) alive: &'a AliveBitSet,
}

/// Borrows the members of `pairs`.
pub(crate) fn members_of_pairs<'a>(
    alloc: Global,
    pairs: &'a [(Segment, AliveBitSet)],
) -> Result<Vec<MemberSegment<'a>>, AllocError>
    ensures { IfOk result (λ members. map member_of members.items ≡ pairs.now) }
{
    let mut members = Vec::with_capacity(alloc, pairs.len())?;
    for pair in pairs {
        members.push(MemberSegment {
            segment: &pair.0,
            alive: &pair.1,
        })?;
    }
    Ok(members)
}

/// Pairs each of `segments` with the alive set at its index in `sets`.
pub(crate) fn members_of_lists<'a>(
    alloc: Global,
    segments: &'a [Segment],
    sets: &'a [AliveBitSet],
) -> Result<Vec<MemberSegment<'a>>, AllocError>
    requires { length segments.now ≡ length sets.now }
    ensures { IfOk result (λ members. map member_of members.items ≡ zip segments.now sets.now) }
{
    let mut members = Vec::with_capacity(alloc, segments.len())?;
    for index in 0..segments.len() {
        members.push(MemberSegment {
            segment: &segments[index],
            alive: &sets[index],
        })?;
    }
    Ok(members)
}
