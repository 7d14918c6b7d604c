//! The number of living documents of a merge.

ghost use Rattle.std.specs.Prelude.{◌<◌, ◌≡◌, ◌≤◌, IfErr, IfOk, map};
ghost use Rattle.definitions.specs.declared.fault.Fault.TheVariants as faults;
ghost use Rattle.layouts.specs.Stores.{max_docs};
ghost use Rattle.segment.specs.Members.{living_count, member_of};

use crate::member_segments::MemberSegment;
use common::TERMINATED;
use definitions::Fault;

/// Counts the living documents of `members`; `Limit` for more than a segment may have.
pub(crate) fn num_living(members: &[MemberSegment<'_>]) -> Result<u32, Fault>
    ensures ok { IfOk result (λ n. (n ≡ living_count (map member_of members.now)) × (n ≤ max_docs)) }
    ensures err { IfErr result (λ fault. (fault ≡ faults.Limit)
        × (max_docs < living_count (map member_of members.now))) }
{
    let mut sum: u32 = 0;
    for member in members {
        let num_alive = member.alive.num_alive();
        if num_alive > (TERMINATED - sum) as usize {
            return Err(Fault::Limit);
        }
        sum += num_alive as u32;
    }
    Ok(sum)
}
