//! The reader of a store: documents by their ids, from blocks that are opened when they are reached.

ghost use Rattle.std.specs.Prelude.{[], ◌-◌, ◌<◌, ◌≡◌, ◌≤◌, IfErr, IfOk, List, None, OnErr, OnOk, Some, length, option_map, slice_index_or, ℕ};
ghost use Rattle.layouts.specs.Stores.{AreBlocks, Hold, IsBlock, IsStore, checkpoints, data_of, store_bytes};
ghost use Rattle.store.specs.Caches.{looked_up, none_kept, opened, stats_of};
ghost use Rattle.store.specs.Reading.{IsBlockOf};
ghost use Rattle.store.specs.Slots.{HasSlot, IsFile, IsNoStore, IsPast, IsSlotFault, block_number, reader};
ghost use Rattle.store.specs.Walking.{IsRefusedWalk, IsWalked};
ghost use Rattle.store.specs.TakenGroups.{IsDamage};
ghost use Rattle.store.specs.Writing.{count_of};

use crate::block::{open_block, slot_range};
use crate::block_cache::BlockCache;
use crate::cache_stats::CacheStats;
use crate::current_block::{CurrentBlock, open_current};
use crate::footer::DocStoreFooter;
use crate::skip_index::SkipIndex;
use crate::store_iter::StoreIter;
use bytes::Bytes;
use common::AliveBitSet;
use definitions::Fault;
use layouts::Checkpoint;
use std::alloc::Global;
use std::marker::Model;

/// A reader of a store. Its blocks are parts of one shared run of bytes, and are checked when they are
/// reached; the last of them are kept.
#[derive(Drop)]
pub struct StoreReader {
    pub(crate) alloc: Global,
    whole: Bytes,
    index: SkipIndex,
    cache: BlockCache,
    current: Option<CurrentBlock>,
}

impl Model for StoreReader {
    ghost use Rattle.store.specs.Caches.{kept_of};
    ghost use Rattle.store.specs.Reading.{IsBlockOf};
    ghost use Rattle.store.specs.Slots.{IsReader, Reader, reader};
    ghost use Rattle.store.specs.Walking.{IsCurrent, stand};
    ghost use Rattle.store.specs.Writing.{blocks_in};

    ghost Value = { Reader };

    ghost view = { λ r. reader (blocks_in r.whole r.index) (kept_of r.cache) (stand r.current) };

    ghost invariant = { λ r. IsReader r.whole r.index r.cache × IsCurrent r.whole r.index r.current };
}

/// Opens the skip index of a store; returns its offset, and the index.
fn open_index(alloc: Global, file: &[u8]) -> Result<(usize, SkipIndex), Fault>
    ensures ok { IfOk result (λ p. IsFile p.0 p.1 file.now) }
    ensures err { IfErr result (λ fault. IsDamage fault (IsNoStore file.now)) }
{
    let (footer, body) = DocStoreFooter::extract_footer(file)?;
    if footer.offset > body.len() as u64 {
        return Err(Fault::Damaged(None));
    }
    let (blocks, index) = body.split_at(footer.offset as usize);
    let index = SkipIndex::open(alloc, index)?;
    if index.byte_end() != blocks.len() {
        return Err(Fault::Damaged(None));
    }
    Ok((blocks.len(), index))
}

/// Returns the bytes of `doc` in its block.
fn slot_of(block: Bytes, reach: &Checkpoint, doc: u32) -> Bytes
    requires block { IsBlockOf (reach.now.doc_range.end - reach.now.doc_range.start) block }
    requires doc { (reach.now.doc_range.start ≤ doc) × (doc < reach.now.doc_range.end) }
    ensures { (docs : List (List ℕ)) → length docs ≡ reach.now.doc_range.end - reach.now.doc_range.start
        → IsBlock docs block → result ≡ slice_index_or docs (doc - reach.now.doc_range.start) [] }
{
    let count = reach.doc_range.end - reach.doc_range.start;
    let range = slot_range(block.as_slice(), count, doc - reach.doc_range.start);
    let mut slot = block;
    slot.truncate(range.end);
    slot.advance(range.start);
    slot
}

impl StoreReader {
    ghost use Rattle.store.specs.Iterations.{doc_of, flags_of, reader_of};

    /// Opens a store that keeps `cache_num_blocks` blocks at most. Its footer and its skip index are checked whole; its
    /// blocks aren't.
    pub fn open(alloc: Global, file: Bytes, cache_num_blocks: usize) -> Result<StoreReader, Fault>
        ensures ok { IfOk result (λ r. AreBlocks r.blocks × (file ≡ store_bytes r.blocks)) }
        ensures kept { IfOk result (λ r. r.kept ≡ none_kept cache_num_blocks) }
        ensures err { IfErr result (λ fault. IsDamage fault (IsNoStore file)) }
        ensures slots { (slots : List (List ℕ)) → IsStore slots file → IfOk result (λ r. Hold r.blocks slots) }
    {
        let (at, index) = open_index(alloc, file.as_slice())?;
        let cache = BlockCache::new(alloc, cache_num_blocks)?;
        let mut whole = file;
        whole.truncate(at);
        Ok(StoreReader {
            alloc,
            whole,
            index,
            cache,
            current: None,
        })
    }

    /// Returns how many documents there are.
    pub fn num_docs(&self) -> u32
        ensures count { result ≡ count_of self.now.blocks }
        ensures valid { AreBlocks self.now.blocks }
    {
        self.index.doc_end()
    }

    /// Returns the bytes of the blocks.
    pub(crate) fn bytes(&self) -> &[u8]
        ensures { result.now ≡ data_of self.now.blocks }
    {
        self.whole.as_slice()
    }

    /// Returns the checkpoints of the blocks.
    pub(crate) fn checkpoints(&self) -> &[Checkpoint]
        ensures { result.now ≡ checkpoints 0 0 self.now.blocks }
    {
        self.index.checkpoints()
    }

    /// Returns the bytes of `doc`, which are shared with the store.
    pub fn get_document_bytes(&mut self, doc: u32) -> Result<Bytes, Fault>
        ensures ok { IfOk result (HasSlot self.old.blocks doc) }
        ensures err { IfErr result (IsSlotFault self.old.blocks doc) }
        ensures slot { (slots : List (List ℕ)) → Hold self.old.blocks slots
            → IfOk result (λ bytes. bytes ≡ slice_index_or slots doc []) }
        ensures refused { (slots : List (List ℕ)) → Hold self.old.blocks slots
            → IfErr result (λ fault. IsPast fault doc (length slots)) }
        ensures blocks { self.new.blocks ≡ self.old.blocks }
        ensures current { self.new.current ≡ self.old.current }
        ensures kept { OnOk result (self.new.kept
            ≡ opened (block_number self.old.blocks doc) (looked_up (block_number self.old.blocks doc) self.old.kept)) }
        ensures missed { doc < count_of self.old.blocks
            → OnErr result (self.new.kept ≡ looked_up (block_number self.old.blocks doc) self.old.kept) }
        ensures past { count_of self.old.blocks ≤ doc → self.new ≡ self.old }
    {
        let Some((at, reach)) = self.index.find_block(doc) else {
            return Err(Fault::InvalidArgument);
        };
        let block = self.cache.open(&self.whole, at, reach)?;
        Ok(slot_of(block, reach, doc))
    }

    /// Like `get_document_bytes`, but without the cache: the block is checked anew, none is kept, and no look-up is
    /// counted.
    pub fn read_document_bytes(&self, doc: u32) -> Result<Bytes, Fault>
        ensures ok { IfOk result (HasSlot self.now.blocks doc) }
        ensures err { IfErr result (IsSlotFault self.now.blocks doc) }
        ensures slot { (slots : List (List ℕ)) → Hold self.now.blocks slots
            → IfOk result (λ bytes. bytes ≡ slice_index_or slots doc []) }
        ensures refused { (slots : List (List ℕ)) → Hold self.now.blocks slots
            → IfErr result (λ fault. IsPast fault doc (length slots)) }
    {
        let Some((_, reach)) = self.index.find_block(doc) else {
            return Err(Fault::InvalidArgument);
        };
        let block = open_block(&self.whole, reach)?;
        Ok(slot_of(block, reach, doc))
    }

    /// Returns the bytes of an iteration's next document `doc`. Its block is looked up unless it is the current one.
    pub(crate) fn next_slot(&mut self, doc: u32) -> Result<Bytes, Fault>
        requires { doc < count_of self.old.blocks }
        ensures ok { IfOk result (HasSlot self.old.blocks doc) }
        ensures err { IfErr result (IsSlotFault self.old.blocks doc) }
        ensures blocks { self.new.blocks ≡ self.old.blocks }
        ensures current { self.new.current ≡ Some (block_number self.old.blocks doc) }
        ensures kept { OnOk result
            (IsWalked (block_number self.old.blocks doc) self.old.current self.old.kept self.new.kept) }
        ensures missed { OnErr result
            (IsRefusedWalk (block_number self.old.blocks doc) self.old.current self.old.kept self.new.kept) }
    {
        match self.index.find_block(doc) {
            Some((at, reach)) => {
                let block = open_current(
                    &self.whole,
                    &mut self.cache,
                    &mut self.current,
                    at,
                    reach,
                )?;
                Ok(slot_of(block, reach, doc))
            }
            None => Err(Fault::InvalidArgument),
        }
    }

    /// Returns the documents in order, or those of them that are alive; a document past the alive set isn't. A
    /// block is looked up once, when a document of it is reached.
    pub fn iter<'a>(&'a mut self, alive_bitset: Option<&'a AliveBitSet>) -> StoreIter<'a>
        ensures doc { doc_of result ≡ 0 }
        ensures alive { flags_of result ≡ option_map (λ alive. alive.now) alive_bitset.entry }
        ensures reader { reader_of result ≡ reader self.old.blocks self.old.kept None }
    {
        self.current = None;
        StoreIter {
            reader: self,
            alive: alive_bitset,
            doc: 0,
        }
    }

    /// Returns how many blocks are kept, and how many look-ups found theirs and how many didn't.
    pub fn cache_stats(&self) -> CacheStats
        ensures { result ≡ stats_of self.now.kept }
    {
        self.cache.stats()
    }
}
