//! A segment while it is written.

ghost use Rattle.std.specs.Prelude.{[], ◌++◌, ◌<◌, ◌∷◌, ◌≡◌, IfErr, IfOk, List, OnErr, OnOk, drop, length, take, ℕ};
ghost use Rattle.definitions.specs.Analyzers as definitions;
ghost use Rattle.definitions.specs.KeptLengths.{norms_of};
ghost use Rattle.definitions.specs.Postings.{postings};
ghost use Rattle.definitions.specs.Schema as schemas;
ghost use Rattle.definitions.specs.Values.{Document};
ghost use Rattle.definitions.specs.declared.fault.Fault.TheVariants as faults;
ghost use Rattle.postings_writer.specs.Limits.{IsSerializeRefusal};
ghost use Rattle.segment_definitions.specs.Segments.{IsSegmentOf, IsTaken};
ghost use Rattle.segment.specs.Writers.{HasWritten, IsAddRefusal, IsWithin, PassesStore};

use crate::section_list::Sections;
use common::{Analyzer, TERMINATED};
use definitions::Fault;
use document::CompactDoc;
use document_indexer::DocumentIndexer;
use schema::Schema;
use std::alloc::Global;
use store::StoreWriter;

/// A segment while it is written: the documents' terms and lengths, and the slots of their stored values. Each call
/// takes the schema and the analyzer that all of its documents are indexed with.
#[derive(Drop)]
pub struct SegmentWriter {
    alloc: Global,
    indexer: DocumentIndexer,
    store: StoreWriter,
}

impl SegmentWriter {
    /// Returns a writer without documents, with 0 as its hash seed. A block of the store is closed when its documents'
    /// bytes exceed `block_size`.
    pub fn new(alloc: Global, schema: &Schema, block_size: usize) -> Result<SegmentWriter, Fault>
        ensures ok { (analyze : definitions.Analyzer)
            → IfOk result (λ writer. HasWritten schema.now analyze block_size writer []) }
        ensures err { IfErr result (λ fault. fault ≡ faults.OutOfMemory) }
    {
        SegmentWriter::with_hash_seed(alloc, schema, block_size, 0)
    }

    /// Like `new`, but terms are hashed by this seed.
    pub fn with_hash_seed(
        alloc: Global,
        schema: &Schema,
        block_size: usize,
        hash_seed: u128,
    ) -> Result<SegmentWriter, Fault>
        ensures ok { (analyze : definitions.Analyzer)
            → IfOk result (λ writer. HasWritten schema.now analyze block_size writer []) }
        ensures err { IfErr result (λ fault. fault ≡ faults.OutOfMemory) }
    {
        Ok(SegmentWriter {
            alloc,
            indexer: DocumentIndexer::with_hash_seed(alloc, schema, hash_seed)?,
            store: StoreWriter::new(alloc, block_size),
        })
    }

    /// Adds `doc`. If its slot would pass a limit of the store, the writer is unchanged; after any other error it is of
    /// no use.
    pub fn add<A: Analyzer>(
        &mut self,
        schema: &Schema,
        analyzer: &A,
        doc: &CompactDoc,
    ) -> Result<(), Fault>
        requires taken { IsTaken schema.now doc.now }
        requires written { ∥ ((block_size : ℕ) × (docs : List Document)
            × HasWritten schema.now (A.analyze analyzer.now) block_size self.old docs) ∥₁ }
        ensures ok { (block_size : ℕ) (docs : List Document)
            → HasWritten schema.now (A.analyze analyzer.now) block_size self.old docs
            → OnOk result (HasWritten schema.now (A.analyze analyzer.now) block_size self.new (docs ++ doc.now ∷ [])) }
        ensures within { (block_size : ℕ) (docs : List Document)
            → HasWritten schema.now (A.analyze analyzer.now) block_size self.old docs
            → OnOk result (IsWithin schema.now (A.analyze analyzer.now) block_size docs doc.now) }
        ensures err { (block_size : ℕ) (docs : List Document)
            → HasWritten schema.now (A.analyze analyzer.now) block_size self.old docs
            → IfErr result (λ fault. IsAddRefusal fault schema.now (A.analyze analyzer.now) block_size docs doc.now) }
        ensures unchanged { (block_size : ℕ) (docs : List Document)
            → HasWritten schema.now (A.analyze analyzer.now) block_size self.old docs
            → PassesStore schema.now block_size docs doc.now → OnErr result (self.new ≡ self.old) }
    {
        if self.store.num_docs() >= TERMINATED {
            return Err(Fault::Limit);
        }
        self.store.store(doc, schema)?;
        self.indexer.add(schema, analyzer, doc)?;
        Ok(())
    }

    /// Returns the number of documents added.
    pub fn num_docs(&self) -> u32
        ensures { (schema : schemas.Schema) (analyze : definitions.Analyzer) (block_size : ℕ) (docs : List Document)
            → HasWritten schema analyze block_size self.now docs → result ≡ length docs }
    {
        self.store.num_docs()
    }

    /// Encodes the segment of the documents added.
    pub fn close(self, schema: &Schema) -> Result<Vec<u8>, Fault>
        requires { ∥ ((analyze : definitions.Analyzer) × (block_size : ℕ) × (docs : List Document)
            × HasWritten schema.now analyze block_size self docs × (0 < length docs)) ∥₁ }
        ensures ok { (analyze : definitions.Analyzer) (block_size : ℕ) (docs : List Document)
            → HasWritten schema.now analyze block_size self docs
            → IfOk result (λ bytes. IsSegmentOf schema.now analyze docs bytes.items) }
        ensures err { (analyze : definitions.Analyzer) (block_size : ℕ) (docs : List Document)
            → HasWritten schema.now analyze block_size self docs
            → IfErr result (λ fault. IsSerializeRefusal fault schema.now (norms_of schema.now analyze docs)
            (λ t. postings schema.now analyze t docs)) }
    {
        let prefix = Vec::new(self.alloc);
        self.close_behind(schema, prefix)
    }

    /// Encodes the segment of the documents added behind `prefix`, in one piece of memory with it.
    pub fn close_behind(self, schema: &Schema, prefix: Vec<u8>) -> Result<Vec<u8>, Fault>
        requires { ∥ ((analyze : definitions.Analyzer) × (block_size : ℕ) × (docs : List Document)
            × HasWritten schema.now analyze block_size self docs × (0 < length docs)) ∥₁ }
        ensures front { IfOk result (λ bytes. take (length prefix.items) bytes.items ≡ prefix.items) }
        ensures ok { (analyze : definitions.Analyzer) (block_size : ℕ) (docs : List Document)
            → HasWritten schema.now analyze block_size self docs
            → IfOk result (λ bytes. IsSegmentOf schema.now analyze docs (drop (length prefix.items) bytes.items)) }
        ensures err { (analyze : definitions.Analyzer) (block_size : ℕ) (docs : List Document)
            → HasWritten schema.now analyze block_size self docs
            → IfErr result (λ fault. IsSerializeRefusal fault schema.now (norms_of schema.now analyze docs)
            (λ t. postings schema.now analyze t docs)) }
    {
        let SegmentWriter {
            alloc,
            indexer,
            store,
        } = self;
        let num_docs = store.num_docs();
        let (terms, postings, positions, norms) = indexer.serialize(alloc, schema)?;
        // The indexer's memory is freed before the bytes of the segment are put together.
        drop(indexer);
        let sections = Sections {
            terms,
            postings,
            positions,
            norms,
            store: store.close()?,
        };
        Ok(sections.put_behind(prefix, num_docs)?)
    }
}
