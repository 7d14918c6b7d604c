//! The segments of a list, apart from their alive sets.

ghost use Rattle.std.specs.Prelude.{◌≡◌, IfOk, map};
ghost use Rattle.index_state.specs.Parts.{flags_in, segment_in};

use common::AliveBitSet;
use index_file::Member;
use segment::Segment;
use std::alloc::{AllocError, Global};
use std::collections::VecDeque;

/// Splits `members` into their segments and their alive sets.
pub(crate) fn parted(
    alloc: Global,
    members: Vec<Member>,
) -> Result<(Vec<Segment>, Vec<AliveBitSet>), AllocError>
    ensures segments { IfOk result (λ parts. parts.0.items ≡ map segment_in members.items) }
    ensures alive { IfOk result (λ parts. parts.1.items ≡ map flags_in members.items) }
{
    let mut segments = Vec::with_capacity(alloc, members.len())?;
    let mut sets = Vec::with_capacity(alloc, members.len())?;
    let mut left = VecDeque::from_vec(members);
    while let Some(member) = left.pop_front() {
        let Member { segment, alive } = member;
        segments.push(segment)?;
        sets.push(alive)?;
    }
    Ok((segments, sets))
}
