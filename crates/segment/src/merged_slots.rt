//! The store of a merge.

ghost use Rattle.std.specs.Prelude.{◌≡◌, IfErr, IfOk, List, map, ℕ};
ghost use Rattle.definitions.specs.Schema.{Schema};
ghost use Rattle.layouts.specs.Stores.{AreBlocks, Block, IsStore, store_bytes};
ghost use Rattle.segment.specs.Members.{AreOpened, living_count, member_of};
ghost use Rattle.segment.specs.Slots.{AreHeld, IsStoreRefusal, merged_slots, with_blocks};
ghost use Rattle.store.specs.Writing.{count_of};

use crate::member_segments::MemberSegment;
use definitions::Fault;
use merging::{MemberStore, merge_stores};
use std::alloc::{AllocError, Global};

/// Encodes the store of the living documents of `members`.
pub(crate) fn merge_slots(
    alloc: Global,
    block_size: usize,
    members: &[MemberSegment<'_>],
) -> Result<Vec<u8>, Fault>
    requires { ∥ ((schema : Schema) × AreOpened schema (map member_of members.now)) ∥₁ }
    ensures ok { (all : List (List (List ℕ))) → AreHeld (map member_of members.now) all
        → IfOk result (λ bytes. IsStore (merged_slots (map member_of members.now) all) bytes.items) }
    ensures blocks { IfOk result (λ bytes. (blocks : List Block) × AreBlocks blocks × (bytes.items ≡ store_bytes blocks)
        × (count_of blocks ≡ living_count (map member_of members.now))) }
    ensures err { IfErr result (λ fault. IsStoreRefusal fault block_size (map member_of members.now)) }
{
    let stores = member_stores(alloc, members)?;
    merge_stores(alloc, block_size, &stores)
}

/// Lists the store of each member, and which of its documents are alive.
fn member_stores<'a>(
    alloc: Global,
    members: &[MemberSegment<'a>],
) -> Result<Vec<MemberStore<'a>>, AllocError>
    ensures { IfOk result (λ stores. map (λ s. (s.store.now.blocks, s.alive.now)) stores.items
        ≡ map with_blocks (map member_of members.now)) }
{
    let mut stores = Vec::with_capacity(alloc, members.len())?;
    for member in members {
        stores.push(MemberStore {
            store: member.segment.store(),
            alive: member.alive,
        })?;
    }
    Ok(stores)
}
