//! The writing of the store of a merge.

ghost use Rattle.std.specs.Prelude.{◌≡◌, IfErr, IfOk, List, length, ℕ};
ghost use Rattle.std.specs.List.{AllByRecursion};
ghost use Rattle.layouts.specs.Stores.{AreBlocks, Block, IsStore, store_bytes};
ghost use Rattle.merging.specs.MemberStores.{AreHeld, IsFlagged, IsMergeRefusal, living_count, merged_slots};
ghost use Rattle.store.specs.Writing.{count_of};

use crate::living_slots::append_living;
use common::AliveBitSet;
use definitions::Fault;
use std::alloc::Global;
use store::{StoreReader, StoreWriter};

/// A member of a merge: the slots of its documents, and which of these are alive.
#[derive(Drop)]
pub struct MemberStore<'a> {
    pub store: &'a StoreReader,
    pub alive: &'a AliveBitSet,
}

/// Returns the store of the members' living documents, one member after another. A block is closed when its documents'
/// bytes pass `block_size`; those of members whose documents are all alive stay as they are.
pub fn merge_stores(
    alloc: Global,
    block_size: usize,
    members: &[MemberStore<'_>],
) -> Result<Vec<u8>, Fault>
    requires { AllByRecursion IsFlagged members.now }
    ensures ok { (all : List (List (List ℕ))) → AreHeld members.now all
        → IfOk result (λ bytes. IsStore (merged_slots members.now all) bytes.items) }
    ensures blocks { IfOk result (λ bytes. (blocks : List Block) × AreBlocks blocks × (bytes.items ≡ store_bytes blocks)
        × (count_of blocks ≡ living_count members.now)) }
    ensures err { IfErr result (λ fault. IsMergeRefusal fault block_size members.now) }
{
    let mut writer = StoreWriter::new(alloc, block_size);
    for member in members {
        append_living(member.store, member.alive, &mut writer)?;
    }
    let _docs = writer.num_docs();
    Ok(writer.close()?)
}
