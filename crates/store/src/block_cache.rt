//! Blocks that were opened and are kept, up to a number of them.

ghost use Rattle.std.specs.Prelude.{[], Contains, IfErr, IfOk, IsSome, List, None, OnErr, OnOk, Some, length, nat_eq, ℕ, ◌≡◌, ◌≤◌, ◌⊎◌};
ghost use Rattle.std.specs.Map.{lookup};
ghost use Rattle.lru.specs.LruCache.{lru_cache, promoted};
ghost use Rattle.store.specs.Caches.{HasRoom, entries_of, kept_entries, kept_of, looked_up, none_kept, opened, stats_of};
ghost use Rattle.store.specs.Slots.{IsBadBlock, IsOpenBlock};
ghost use Rattle.store.specs.TakenGroups.{IsDamage};
ghost use Rattle.store.specs.Writing.{block_in};

use crate::block::open_block;
use crate::cache_stats::CacheStats;
use bytes::Bytes;
use definitions::Fault;
use layouts::Checkpoint;
use lru::LruCache;
use std::alloc::{AllocError, Global};
use std::num::NonZeroUsize;

/// The kept blocks by their indices, where any may be kept, and how many look-ups found theirs and how
/// many didn't.
#[derive(Drop)]
pub(crate) struct BlockCache {
    cache: Option<LruCache<usize, Bytes>>,
    hits: usize,
    misses: usize,
}

/// Returns the block at index `at`, which becomes the last that was looked up.
fn look_up(cache: &mut LruCache<usize, Bytes>, at: usize) -> Result<Option<Bytes>, AllocError>
    ensures value { IfOk result (λ found. found ≡ lookup (nat_eq at) cache.old.entries) }
    ensures err { OnErr result (IsSome (lookup (nat_eq at) cache.old.entries)) }
    ensures entries { cache.new ≡ lru_cache (promoted (nat_eq at) cache.old.entries) cache.old.cap }
{
    match cache.get(&at) {
        Some(block) => Ok(Some(block.clone()?)),
        None => Ok(None),
    }
}

impl BlockCache {
    /// Returns a cache without blocks, with room for `capacity`.
    pub(crate) fn new(alloc: Global, capacity: usize) -> Result<BlockCache, AllocError>
        ensures kept { IfOk result (λ cache. kept_of cache ≡ none_kept capacity) }
        ensures entries { IfOk result (λ cache. entries_of cache ≡ []) }
        ensures room { IfOk result HasRoom }
    {
        let cache = match NonZeroUsize::new(capacity) {
            Some(capacity) => Some(LruCache::sparse(alloc, capacity)?),
            None => None,
        };
        Ok(BlockCache {
            cache,
            hits: 0,
            misses: 0,
        })
    }

    /// Returns the block at index `at`, where it is kept. The look-up is counted.
    pub(crate) fn find(&mut self, at: usize) -> Result<Option<Bytes>, AllocError>
        ensures value { IfOk result (λ found. found ≡ lookup (nat_eq at) (entries_of self.old)) }
        ensures entries { (e : ℕ × List ℕ) → Contains (entries_of self.new) e → Contains (entries_of self.old) e }
        ensures same { lookup (nat_eq at) (entries_of self.old) ≡ None → entries_of self.new ≡ entries_of self.old }
        ensures kept { kept_of self.new ≡ looked_up at (kept_of self.old) }
        ensures room { HasRoom self.old → HasRoom self.new }
    {
        let Some(cache) = &mut self.cache else {
            self.misses = self.misses.saturating_add(1);
            return Ok(None);
        };
        match look_up(cache, at) {
            Ok(None) => {
                self.misses = self.misses.saturating_add(1);
                Ok(None)
            }
            Ok(Some(block)) => {
                self.hits = self.hits.saturating_add(1);
                Ok(Some(block))
            }
            Err(fault) => {
                self.hits = self.hits.saturating_add(1);
                Err(fault)
            }
        }
    }

    /// Keeps the `block` that was opened at index `at`. A failed call changes nothing.
    pub(crate) fn keep(&mut self, at: usize, block: Bytes) -> Result<(), AllocError>
        requires absent { lookup (nat_eq at) (entries_of self.old) ≡ None }
        requires room { HasRoom self.old }
        ensures entries { OnOk result (entries_of self.new ≡ kept_entries at block self.old) }
        ensures kept { OnOk result (kept_of self.new ≡ opened at (kept_of self.old)) }
        ensures room { HasRoom self.new }
        ensures err { OnErr result (self.new ≡ self.old) }
    {
        if let Some(cache) = &mut self.cache {
            cache.put(at, block)?;
        }
        Ok(())
    }

    /// Returns the block at index `at`, kept or else checked and then kept.
    pub(crate) fn open(
        &mut self,
        whole: &Bytes,
        at: usize,
        reach: &Checkpoint,
    ) -> Result<Bytes, Fault>
        requires within { (reach.now.byte_range.start ≤ reach.now.byte_range.end)
            × (reach.now.byte_range.end ≤ length whole.now) }
        requires docs { reach.now.doc_range.start ≤ reach.now.doc_range.end }
        requires room { HasRoom self.old }
        requires kept { (bytes : List ℕ) → lookup (nat_eq at) (entries_of self.old) ≡ Some bytes
            → IsOpenBlock (block_in whole.now reach.now) bytes }
        ensures ok { IfOk result (IsOpenBlock (block_in whole.now reach.now)) }
        ensures err { IfErr result (λ fault. IsDamage fault (IsBadBlock (block_in whole.now reach.now))) }
        ensures kept { OnOk result (kept_of self.new ≡ opened at (looked_up at (kept_of self.old))) }
        ensures missed { OnErr result (kept_of self.new ≡ looked_up at (kept_of self.old)) }
        ensures entries { OnOk result ((e : ℕ × List ℕ) → Contains (entries_of self.new) e
            → Contains (entries_of self.old) e ⊎ ((e.0 ≡ at) × IsOpenBlock (block_in whole.now reach.now) e.1)) }
        ensures no_more { OnErr result ((e : ℕ × List ℕ) → Contains (entries_of self.new) e
            → Contains (entries_of self.old) e) }
        ensures room { HasRoom self.new }
    {
        if let Some(block) = self.find(at)? {
            return Ok(block);
        }
        let block = open_block(whole, reach)?;
        self.keep(at, block.clone()?)?;
        Ok(block)
    }

    /// Returns how many blocks there are, and the counts of look-ups.
    pub(crate) fn stats(&self) -> CacheStats
        ensures { result ≡ stats_of (kept_of self.now) }
    {
        let num_entries = match &self.cache {
            Some(cache) => cache.len(),
            None => 0,
        };
        CacheStats {
            num_entries,
            cache_hits: self.hits,
            cache_misses: self.misses,
        }
    }
}
