//! An open segment.

ghost use Rattle.std.specs.Prelude.{◌≡◌, ◌≢◌, IfErr, IfOk, List, None, Some, length, option_map, slice_get, ℕ};
ghost use Rattle.definitions.specs.Analyzers.{Analyzer};
ghost use Rattle.definitions.specs.Schema as schemas;
ghost use Rattle.definitions.specs.Stored.{stored_pairs, stored_values};
ghost use Rattle.definitions.specs.Values.{Document};
ghost use Rattle.definitions.specs.declared.fault.Fault.TheVariants as faults;
ghost use Rattle.segment.specs.OpenedParts.{AreOpenedParts};
ghost use Rattle.segment.specs.SlotDocuments.{HoldsDocument, IsDocumentFault};
ghost use Rattle.segment_definitions.specs.Segments.{IsSegment};
ghost use Rattle.segment_reader.specs.Flags.{HasFlags};
ghost use Rattle.segment_reader.specs.SegmentReaders as readers;
ghost use Rattle.store.specs.Slots.{IsPast};

use crate::documents::read_slot;
use crate::known_parts::{known_sections, known_store};
use crate::section_checks::{checked_norms, open_store};
use crate::sections::Sections;
use bytes::Bytes;
use codes::FieldNormReaders;
use common::{AliveBitSet, DocId};
use definitions::Fault;
use document::CompactDoc;
use schema::{Schema, length_fields};
use segment_reader::{InvertedIndexReader, SegmentReader};
use std::alloc::{AllocError, Global};
use store::StoreReader;

/// An open segment: its terms, the lengths of its fields, and its store, which share the segment's bytes.
#[derive(Drop)]
pub struct Segment {
    bytes: Bytes,
    num_docs: u32,
    inverted_index: InvertedIndexReader,
    // The fields that keep lengths, and their section.
    length_fields: Vec<u32>,
    norms: Bytes,
    store: StoreReader,
    ghost opened: { ∥ ((schema : schemas.Schema)
        × AreOpenedParts schema bytes num_docs inverted_index length_fields.items norms store.blocks) ∥₁ },
}

impl Segment {
    ghost use Rattle.segment.specs.Opened.{IsOpened, StandsFor, blocks_of, bytes_of, index_of, lengths_of, num_docs_of};

    /// Opens a segment of documents of `schema` from `bytes`. All of it is checked but the blocks of the store; bytes
    /// that aren't a segment are `Damaged`, as is a term without the bytes of a value of its field. Nothing is copied.
    /// The store caches up to `cache_num_blocks` blocks.
    pub fn open(
        alloc: Global,
        schema: &Schema,
        bytes: Bytes,
        cache_num_blocks: usize,
    ) -> Result<Segment, Fault>
        ensures ok { IfOk result (IsOpened schema.now) }
        ensures bytes { IfOk result (λ segment. bytes_of segment ≡ bytes) }
        ensures err { IfErr result (λ fault. fault ≢ faults.OutOfMemory → (fault ≡ faults.Damaged None)
            × ((num_docs : ℕ) → ¬ IsSegment schema.now num_docs bytes)) }
    {
        let sections = Sections::of_bytes(bytes.clone()?)?;
        let num_docs = sections.num_docs;
        let norms = sections.norms;
        let length_fields = checked_norms(alloc, schema, norms.as_slice(), num_docs)?;
        let readers = FieldNormReaders::new(norms.as_slice(), num_docs, &length_fields);
        let inverted_index = InvertedIndexReader::open(
            alloc,
            schema,
            &readers,
            num_docs,
            sections.terms,
            sections.postings,
            sections.positions,
        )?;
        let store = open_store(alloc, sections.store, num_docs, cache_num_blocks)?;
        Ok(Segment {
            bytes,
            num_docs,
            inverted_index,
            length_fields,
            norms,
            store,
        })
    }

    /// Opens a segment from `bytes` that are known to be one, since they were just written. Nothing is checked again:
    /// the section of terms is walked once, and the only error is out of memory.
    pub fn new(
        alloc: Global,
        schema: &Schema,
        bytes: Bytes,
        cache_num_blocks: usize,
    ) -> Result<Segment, AllocError>
        requires { ∥ ((num_docs : ℕ) × IsSegment schema.now num_docs bytes) ∥₁ }
        ensures ok { IfOk result (IsOpened schema.now) }
        ensures bytes { IfOk result (λ segment. bytes_of segment ≡ bytes) }
    {
        let sections = known_sections(bytes.clone()?)?;
        let num_docs = sections.num_docs;
        let length_fields = length_fields(alloc, schema)?;
        let inverted_index = InvertedIndexReader::new(
            alloc,
            schema,
            sections.terms,
            sections.postings,
            sections.positions,
        )?;
        let store = known_store(alloc, sections.store, num_docs, cache_num_blocks)?;
        Ok(Segment {
            bytes,
            num_docs,
            inverted_index,
            length_fields,
            norms: sections.norms,
            store,
        })
    }

    /// Returns the bytes of the segment, shared.
    pub fn to_bytes(&self) -> Result<Bytes, Fault>
        ensures ok { IfOk result (λ bytes. bytes ≡ bytes_of self.now) }
        ensures err { IfErr result (λ fault. fault ≡ faults.OutOfMemory) }
    {
        Ok(self.bytes.clone()?)
    }

    /// Returns the number of documents, dead or alive.
    pub fn num_docs(&self) -> u32
        ensures { result ≡ num_docs_of self.now }
    {
        self.num_docs
    }

    /// Returns a reader of the segment for queries. All documents are alive where `alive_bitset` is `None`.
    pub fn reader<'a>(&'a self, alive_bitset: Option<&'a AliveBitSet>) -> SegmentReader<'a>
        requires flagged { HasFlags (num_docs_of self.now) (option_map (λ flags. flags.now) alive_bitset) }
        ensures stands { (schema : schemas.Schema) (analyze : Analyzer) (docs : List Document)
            → StandsFor schema analyze docs self.now → readers.StandsFor schema analyze docs result }
        ensures alive { readers.alive_in result ≡ option_map (λ flags. flags.now) alive_bitset.entry }
    {
        let lengths = self.fieldnorms_readers();
        SegmentReader::new(self.num_docs, &self.inverted_index, lengths, alive_bitset)
    }

    /// Reads the stored pairs of document `doc`, pre-tokenised texts as texts. A document id past the last is
    /// `InvalidArgument`; a damaged block, and a slot that isn't a document of the schema's fields, are `Damaged`. The
    /// store's cache keeps the block.
    pub fn document(&mut self, schema: &Schema, doc: DocId) -> Result<CompactDoc, Fault>
        ensures ok { IfOk result (λ read. HoldsDocument schema.now (blocks_of self.old) doc read) }
        ensures err { IfErr result (λ fault. IsDocumentFault schema.now (blocks_of self.old) doc fault) }
        ensures stored { (analyze : Analyzer) (docs : List Document)
            → StandsFor schema.now analyze docs self.old
            → IfOk result (λ read. option_map (stored_pairs schema.now) (slice_get docs doc) ≡ Some read) }
        ensures shown { (analyze : Analyzer) (docs : List Document)
            → StandsFor schema.now analyze docs self.old
            → IfOk result (λ read. option_map (stored_values schema.now) (slice_get docs doc)
            ≡ Some (stored_values schema.now read)) }
        ensures refused { (analyze : Analyzer) (docs : List Document)
            → StandsFor schema.now analyze docs self.old
            → IfErr result (λ fault. IsPast fault doc (length docs)) }
        ensures opened { (schema : schemas.Schema) → IsOpened schema self.old → IsOpened schema self.new }
        ensures stands { (schema : schemas.Schema) (analyze : Analyzer) (docs : List Document)
            → StandsFor schema analyze docs self.old → StandsFor schema analyze docs self.new }
        ensures same { (bytes_of self.new ≡ bytes_of self.old) × (num_docs_of self.new ≡ num_docs_of self.old)
            × (index_of self.new ≡ index_of self.old) × (blocks_of self.new ≡ blocks_of self.old) }
    {
        let slot = self.store.get_document_bytes(doc)?;
        read_slot(*self.length_fields.allocator(), schema, slot.as_slice())
    }

    /// Returns the terms of the documents.
    pub fn inverted_index(&self) -> &InvertedIndexReader
        ensures { result.now ≡ index_of self.now }
    {
        &self.inverted_index
    }

    /// Returns the length ids of all fields that keep lengths.
    pub fn fieldnorms_readers(&self) -> FieldNormReaders<'_>
        ensures { result ≡ lengths_of self.now }
    {
        FieldNormReaders::new(self.norms.as_slice(), self.num_docs, &self.length_fields)
    }

    /// Returns the store: the slots of the documents, in blocks that aren't checked yet.
    pub fn store(&self) -> &StoreReader
        ensures { result.now.blocks ≡ blocks_of self.now }
    {
        &self.store
    }
}
