//! The writer of a store: documents are appended, and their blocks closed by size.

ghost use Rattle.std.specs.Prelude.{◌≡◌, [], IfErr, IfOk, OnErr, OnOk, false, length};
ghost use Rattle.layouts.specs.Stores.{store_bytes};
ghost use Rattle.store.specs.Stacking.{passes_docs, stacked};
ghost use Rattle.store.specs.Writing.{AreWritten, IsLimit, blocks_of, docs_of, passes_limit, stored, written};

use crate::footer::DocStoreFooter;
use crate::skip_index_builder::put_skip_index;
use crate::store_reader::StoreReader;
use crate::writer_fields::Parts;
use common::TERMINATED;
use definitions::Fault;
use std::alloc::{AllocError, Global};
use std::marker::Model;

/// A store while it is written: the blocks that are closed, and the documents of the next one. A slot is encoded in
/// bytes that are kept for the next one.
#[derive(Drop)]
pub struct StoreWriter {
    parts: Parts,
    block_size: usize,
    pub(crate) slot: Vec<u8>,
}

impl Model for StoreWriter {
    ghost use Rattle.store.specs.Writing.{AreWritten, Stand, Written, closed_in, pending_in, written};

    ghost Value = { Written };

    ghost view = { λ w. written (closed_in w.parts) (pending_in w.parts) w.block_size };

    ghost invariant = { λ w. Stand w.parts (closed_in w.parts) (pending_in w.parts) × AreWritten w.block_size (closed_in w.parts) (pending_in w.parts) };
}

impl StoreWriter {
    /// Returns a store without documents. A block is closed when its documents' bytes exceed `block_size`.
    pub fn new(alloc: Global, block_size: usize) -> StoreWriter
        ensures { result ≡ written [] [] block_size }
    {
        StoreWriter {
            parts: Parts::new(alloc),
            block_size,
            slot: Vec::new(alloc),
        }
    }

    /// Returns how many documents there are.
    pub fn num_docs(&self) -> u32
        ensures count { result ≡ docs_of self.now }
        ensures valid { AreWritten self.now.block_size self.now.blocks self.now.pending }
    {
        self.parts.first_doc + self.parts.starts.len() as u32
    }

    /// Whether a document of `len` bytes would pass a limit.
    fn passes_limit(&self, len: usize) -> bool
        ensures { result ≡ passes_limit self.now len }
    {
        let docs = self.parts.first_doc as usize + self.parts.starts.len();
        self.block_size.saturating_add(len) >= (1 << 32) - 8 || docs >= TERMINATED as usize
    }

    /// Adds a document by its bytes. A refused call changes nothing.
    pub fn store_bytes(&mut self, doc: &[u8]) -> Result<(), Fault>
        ensures ok { OnOk result (self.new ≡ stored self.old doc.now) }
        ensures within { OnOk result (passes_limit self.old (length doc.now) ≡ false) }
        ensures err { IfErr result (λ fault. IsLimit fault (passes_limit self.old (length doc.now))) }
        ensures unchanged { OnErr result (self.new ≡ self.old) }
    {
        if self.passes_limit(doc.len()) {
            return Err(Fault::Limit);
        }
        self.parts.add(doc)?;
        if self.parts.out.len() - self.parts.first_byte <= self.block_size {
            return Ok(());
        }
        match self.parts.close_block() {
            Ok(()) => Ok(()),
            Err(_) => {
                self.parts.remove_last();
                Err(Fault::OutOfMemory)
            }
        }
    }

    /// Appends the documents of `store`, by its blocks, after those that are pending. A refused call
    /// changes nothing.
    pub fn stack(&mut self, store: &StoreReader) -> Result<(), Fault>
        ensures ok { OnOk result (self.new ≡ stacked self.old store.now.blocks) }
        ensures within { OnOk result (passes_docs self.old store.now.blocks ≡ false) }
        ensures err { IfErr result (λ fault. IsLimit fault (passes_docs self.old store.now.blocks)) }
        ensures unchanged { OnErr result (self.new ≡ self.old) }
    {
        let docs = self.num_docs() as usize + store.num_docs() as usize;
        if docs > TERMINATED as usize {
            return Err(Fault::Limit);
        }
        self.parts.stack(store.bytes(), store.checkpoints())?;
        Ok(())
    }

    /// Returns the bytes of the store. The pending documents become its last block.
    pub fn close(self) -> Result<Vec<u8>, AllocError>
        ensures { IfOk result (λ bytes. bytes.items ≡ store_bytes (blocks_of self)) }
    {
        let mut parts = self.parts;
        if parts.starts.len() > 0 {
            parts.close_block()?;
        }
        let alloc = *parts.out.allocator();
        put_skip_index(alloc, &mut parts.out, &parts.checkpoints)?;
        DocStoreFooter::new(parts.first_byte as u64).serialize(&mut parts.out)?;
        Ok(parts.out)
    }
}
