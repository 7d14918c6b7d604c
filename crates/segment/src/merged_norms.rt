//! The lengths of a merge.

ghost use Rattle.std.specs.Prelude.{◌≡◌, IfOk, List, map, ℕ};
ghost use Rattle.definitions.specs.Alive as alive;
ghost use Rattle.definitions.specs.Alive.{live};
ghost use Rattle.definitions.specs.Analyzers.{Analyzer};
ghost use Rattle.definitions.specs.KeptLengths.{length_fields, norms_of};
ghost use Rattle.definitions.specs.Schema.{Schema};
ghost use Rattle.layouts.specs.FieldNorms.{IsNorms};
ghost use Rattle.segment.specs.Members.{AreOpened, StandFor, living_count, member_of, with_lengths};

use crate::member_segments::MemberSegment;
use merging::{MemberNorms, merge_norms};
use std::alloc::{AllocError, Global};

/// Encodes the section of the lengths of the members' living documents in `fields`, those that keep lengths.
pub(crate) fn merge_lengths(
    alloc: Global,
    fields: &[u32],
    members: &[MemberSegment<'_>],
) -> Result<Vec<u8>, AllocError>
    requires { ∥ ((schema : Schema) × AreOpened schema (map member_of members.now)) ∥₁ }
    ensures opened { (schema : Schema) → fields.now ≡ length_fields schema
        → AreOpened schema (map member_of members.now)
        → IfOk result (λ bytes. (norms : List (ℕ × List ℕ))
        × IsNorms (length_fields schema) (living_count (map member_of members.now)) bytes.items norms) }
    ensures stands { (schema : Schema) (analyze : Analyzer) (segments : List alive.Segment)
        → fields.now ≡ length_fields schema → StandFor schema analyze (map member_of members.now) segments
        → IfOk result (λ bytes. IsNorms (length_fields schema) (living_count (map member_of members.now)) bytes.items
        (norms_of schema analyze (live segments))) }
{
    let lengths = member_norms(alloc, members)?;
    merge_norms(alloc, fields, &lengths)
}

/// Lists the lengths of each member, and which of its documents are alive.
fn member_norms<'a>(
    alloc: Global,
    members: &[MemberSegment<'a>],
) -> Result<Vec<MemberNorms<'a>>, AllocError>
    ensures { IfOk result (λ norms. map (λ n. (n.norms, n.alive.now)) norms.items
        ≡ map with_lengths (map member_of members.now)) }
{
    let mut lengths = Vec::with_capacity(alloc, members.len())?;
    for member in members {
        lengths.push(MemberNorms {
            norms: member.segment.fieldnorms_readers(),
            alive: member.alive,
        })?;
    }
    Ok(lengths)
}
