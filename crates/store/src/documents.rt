//! Documents in a store: encoded by their stored pairs, and decoded from their slots.

ghost use Rattle.std.specs.Prelude.{[], ◌<◌, ◌≡◌, ◌≤◌, ◌⊎◌, IfErr, IfOk, List, OnErr, OnOk, Some, false, length, true, slice_index_or, ℕ};
ghost use Rattle.definitions.specs.Stored.{stored_pairs};
ghost use Rattle.definitions.specs.declared.fault.Fault.TheVariants as faults;
ghost use Rattle.document.specs.Shallow.{IsShallow};
ghost use Rattle.layouts.specs.DocumentReading.{read_document};
ghost use Rattle.layouts.specs.DocumentBytes.{document_bytes};
ghost use Rattle.layouts.specs.Stores.{Hold};
ghost use Rattle.store.specs.Caches.{looked_up, opened};
ghost use Rattle.store.specs.DocumentSlots.{HasDocument, IsGetFault, IsRefusedGet, IsUnread};
ghost use Rattle.store.specs.Slots.{block_number};
ghost use Rattle.store.specs.Writing.{count_of, passes_limit, stored};

use crate::store_reader::StoreReader;
use crate::store_writer::StoreWriter;
use definitions::Fault;
use document::CompactDoc;
use schema::Schema;
use std::mem;

impl StoreWriter {
    /// Adds the pairs of stored fields of `doc`, of which no value may nest more than 128 deep. Their slot reads back as
    /// the document of these pairs. A refused call changes nothing.
    pub fn store(&mut self, doc: &CompactDoc, schema: &Schema) -> Result<(), Fault>
        requires nests { IsShallow doc.now }
        ensures ok { OnOk result (self.new ≡ stored self.old (document_bytes (stored_pairs schema.now doc.now))) }
        ensures within { OnOk result (passes_limit self.old (length (document_bytes (stored_pairs schema.now doc.now)))
            ≡ false) }
        ensures err { IfErr result (λ fault. (fault ≡ faults.OutOfMemory)
            ⊎ ((fault ≡ faults.Limit)
            × (passes_limit self.old (length (document_bytes (stored_pairs schema.now doc.now))) ≡ true))) }
        ensures unchanged { OnErr result (self.new ≡ self.old) }
        ensures read_back { read_document (document_bytes (stored_pairs schema.now doc.now))
            ≡ Some (stored_pairs schema.now doc.now) }
    {
        let alloc = *self.slot.allocator();
        let mut bytes = mem::replace(&mut self.slot, Vec::new(alloc));
        bytes.clear();
        doc.serialize_into(&mut bytes, schema)?;
        let stored = self.store_bytes(bytes.as_slice());
        self.slot = bytes;
        stored
    }
}

impl StoreReader {
    /// Returns the document with the id `doc`. An id past the end is `InvalidArgument`; a damaged block, and a slot
    /// that is no document, are `Damaged`.
    pub fn get(&mut self, doc: u32) -> Result<CompactDoc, Fault>
        ensures ok { IfOk result (λ read. HasDocument self.old.blocks doc read) }
        ensures err { IfErr result (λ fault. IsGetFault self.old.blocks doc fault) }
        ensures slot { (slots : List (List ℕ)) → Hold self.old.blocks slots
            → IfOk result (λ read. read_document (slice_index_or slots doc []) ≡ Some read) }
        ensures refused { (slots : List (List ℕ)) → Hold self.old.blocks slots
            → IfErr result (λ fault. IsUnread slots doc fault) }
        ensures blocks { self.new.blocks ≡ self.old.blocks }
        ensures current { self.new.current ≡ self.old.current }
        ensures kept { OnOk result (self.new.kept
            ≡ opened (block_number self.old.blocks doc) (looked_up (block_number self.old.blocks doc) self.old.kept)) }
        ensures missed { doc < count_of self.old.blocks
            → IfErr result (IsRefusedGet self.old.blocks doc self.old.kept self.new.kept) }
        ensures past { count_of self.old.blocks ≤ doc → self.new ≡ self.old }
    {
        let bytes = self.get_document_bytes(doc)?;
        CompactDoc::deserialize(self.alloc, bytes.as_slice())
    }
}
