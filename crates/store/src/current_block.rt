//! The current block of an iteration.

ghost use Rattle.std.specs.Prelude.{◌<◌, ◌≡◌, ◌≤◌, ◌⊎◌, Contains, Err, IfErr, IfOk, List, Ok, OnErr, OnOk, Some, length, nat_eq, ℕ};
ghost use Rattle.definitions.specs.declared.fault.Fault.TheVariants as faults;
ghost use Rattle.std.specs.Map.{lookup};
ghost use Rattle.store.specs.Caches.{HasRoom, entries_of, kept_of};
ghost use Rattle.store.specs.Slots.{IsBadBlock, IsOpenBlock};
ghost use Rattle.store.specs.TakenGroups.{IsDamage};
ghost use Rattle.store.specs.Walking.{IsRefusedWalk, IsTriedAt, IsWalked, stand};
ghost use Rattle.store.specs.Writing.{block_in};

use crate::block_cache::BlockCache;
use bytes::Bytes;
use definitions::Fault;
use layouts::Checkpoint;

/// The index of a block, and its bytes where it could be opened.
#[derive(Drop)]
pub(crate) struct CurrentBlock {
    pub(crate) at: usize,
    pub(crate) block: Result<Bytes, Fault>,
}

impl CurrentBlock {
    /// Shares the bytes, or returns the fault of the block.
    fn share(&self) -> Result<Bytes, Fault>
        ensures ok { IfOk result (λ bytes. self.now.block ≡ Ok bytes) }
        ensures err { IfErr result (λ fault. (fault ≡ faults.OutOfMemory) ⊎ (self.now.block ≡ Err fault)) }
    {
        match &self.block {
            Ok(bytes) => Ok(bytes.clone()?),
            Err(fault) => Err(*fault),
        }
    }
}

/// Returns the block at index `at`, which is opened unless it is the current one, and which is the current one then.
pub(crate) fn open_current(
    whole: &Bytes,
    cache: &mut BlockCache,
    current: &mut Option<CurrentBlock>,
    at: usize,
    reach: &Checkpoint,
) -> Result<Bytes, Fault>
    requires within { (reach.now.byte_range.start ≤ reach.now.byte_range.end)
        × (reach.now.byte_range.end ≤ length whole.now) }
    requires docs { reach.now.doc_range.start ≤ reach.now.doc_range.end }
    requires room { HasRoom cache.old }
    requires kept { (bytes : List ℕ) → lookup (nat_eq at) (entries_of cache.old) ≡ Some bytes
        → IsOpenBlock (block_in whole.now reach.now) bytes }
    requires current { IsTriedAt at (block_in whole.now reach.now) current.old }
    ensures ok { IfOk result (IsOpenBlock (block_in whole.now reach.now)) }
    ensures err { IfErr result (λ fault. IsDamage fault (IsBadBlock (block_in whole.now reach.now))) }
    ensures stands { stand current.new ≡ Some at }
    ensures tried { IsTriedAt at (block_in whole.now reach.now) current.new }
    ensures kept { OnOk result (IsWalked at (stand current.old) (kept_of cache.old) (kept_of cache.new)) }
    ensures missed { OnErr result (IsRefusedWalk at (stand current.old) (kept_of cache.old) (kept_of cache.new)) }
    ensures entries { (e : ℕ × List ℕ) → Contains (entries_of cache.new) e → Contains (entries_of cache.old) e
        ⊎ ((e.0 ≡ at) × IsOpenBlock (block_in whole.now reach.now) e.1) }
    ensures room { HasRoom cache.new }
{
    if let Some(open) = current {
        if open.at == at {
            return open.share();
        }
    }
    match cache.open(whole, at, reach) {
        Ok(block) => {
            let shared: Result<_, _> = block.clone();
            *current = Some(CurrentBlock {
                at,
                block: Ok(block),
            });
            Ok(shared?)
        }
        Err(fault) => {
            *current = Some(CurrentBlock {
                at,
                block: Err(fault),
            });
            Err(fault)
        }
    }
}
