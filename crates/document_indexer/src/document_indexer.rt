//! The indexing of documents.

ghost use Rattle.std.specs.Prelude.{[], ◌++◌, ◌∷◌, ◌≡◌, IfErr, IfOk, List, OnOk, length};
ghost use Rattle.std.specs.List.{AllByRecursion};
ghost use Rattle.definitions.specs.Analyzers as definitions;
ghost use Rattle.definitions.specs.KeptLengths.{length_fields, norms_of};
ghost use Rattle.definitions.specs.Postings.{postings};
ghost use Rattle.definitions.specs.Schema as schemas;
ghost use Rattle.definitions.specs.Values.{Document};
ghost use Rattle.layouts.specs.FieldNorms.{IsNorms, norms_bytes};
ghost use Rattle.layouts.specs.InvertedIndexes.{AreIndexed, AreSections, IndexedField};
ghost use Rattle.postings_writer.specs.Limits.{IsFieldWithin, IsSerializeRefusal};
ghost use Rattle.document_indexer.specs.Indexed.{IsAddRefusal, IsWithinLimits};
ghost use Rattle.document_indexer.specs.Indexers.{HasIndexed, writer_of};

use crate::field_lengths::record_lengths;
use crate::index_document::index_document;
use crate::indexing_context::IndexingContext;
use codes::{FieldNormReaders, FieldNormsSerializer, FieldNormsWriter};
use common::{Analyzer, TERMINATED};
use definitions::Fault;
use document::CompactDoc;
use postings_writer::{InvertedIndexSerializer, PostingsWriter};
use schema::{Schema, length_fields};
use std::alloc::{AllocError, Global};

/// An indexer of documents, numbered from 0: of the terms of their values, by the types of their fields, and of the
/// lengths of their fields. Each call is given the schema and the analyzer that all of them are indexed by. After a
/// refused call what was recorded is of no use.
#[derive(Drop)]
pub struct DocumentIndexer {
    context: IndexingContext,
    // The length of each field in the document that was indexed last.
    lengths: Vec<u32>,
    norms: FieldNormsWriter,
}

impl DocumentIndexer {
    /// Returns an indexer for the fields of `schema`, with no document indexed and 0 as its hash seed.
    pub fn for_schema(alloc: Global, schema: &Schema) -> Result<DocumentIndexer, AllocError>
        ensures { (analyze : definitions.Analyzer) → IfOk result (λ indexer. HasIndexed schema.now analyze indexer []) }
    {
        DocumentIndexer::with_hash_seed(alloc, schema, 0)
    }

    /// Like `for_schema`, but terms are hashed by this seed.
    pub fn with_hash_seed(
        alloc: Global,
        schema: &Schema,
        hash_seed: u128,
    ) -> Result<DocumentIndexer, AllocError>
        ensures { (analyze : definitions.Analyzer) → IfOk result (λ indexer. HasIndexed schema.now analyze indexer []) }
    {
        let context = IndexingContext::for_schema(alloc, schema, hash_seed)?;
        let fields = length_fields(alloc, schema)?;
        let norms = FieldNormsWriter::for_fields(alloc, &fields)?;
        Ok(DocumentIndexer {
            context,
            lengths: Vec::new(alloc),
            norms,
        })
    }

    /// Indexes `doc` as the next document.
    pub fn add<A: Analyzer>(
        &mut self,
        schema: &Schema,
        analyzer: &A,
        doc: &CompactDoc,
    ) -> Result<(), Fault>
        requires { ∥ ((docs : List Document) × HasIndexed schema.now (A.analyze analyzer.now) self.old docs) ∥₁ }
        ensures ok { (docs : List Document) → HasIndexed schema.now (A.analyze analyzer.now) self.old docs
            → OnOk result (HasIndexed schema.now (A.analyze analyzer.now) self.new (docs ++ doc.now ∷ [])) }
        ensures within { (docs : List Document) → HasIndexed schema.now (A.analyze analyzer.now) self.old docs
            → OnOk result (IsWithinLimits schema.now (A.analyze analyzer.now) docs doc.now) }
        ensures err { (docs : List Document) → HasIndexed schema.now (A.analyze analyzer.now) self.old docs
            → IfErr result (λ fault. IsAddRefusal fault schema.now (A.analyze analyzer.now) docs doc.now) }
    {
        if self.context.doc() >= TERMINATED {
            return Err(Fault::Limit);
        }
        index_document(&mut self.context, schema, analyzer, doc, &mut self.lengths)?;
        record_lengths(&mut self.norms, self.context.doc(), &self.lengths)?;
        self.context.end_document();
        Ok(())
    }

    /// Returns the number of documents that are indexed.
    pub fn num_docs(&self) -> u32
        ensures { (schema : schemas.Schema) (analyze : definitions.Analyzer) (docs : List Document)
            → HasIndexed schema analyze self.now docs
            → result ≡ length docs }
    {
        self.context.doc()
    }

    /// Returns what is recorded.
    pub fn postings_writer(&self) -> &PostingsWriter
        ensures { result.now ≡ writer_of self.now }
    {
        self.context.postings_writer()
    }

    /// Returns the sections of terms, postings, positions and lengths of the documents.
    pub fn serialize(
        &self,
        alloc: Global,
        schema: &Schema,
    ) -> Result<(Vec<u8>, Vec<u8>, Vec<u8>, Vec<u8>), Fault>
        requires { ∥ ((analyze : definitions.Analyzer) × (docs : List Document)
            × HasIndexed schema.now analyze self.now docs) ∥₁ }
        ensures ok { (analyze : definitions.Analyzer) (docs : List Document)
            → HasIndexed schema.now analyze self.now docs
            → IfOk result (λ sections. (fields : List IndexedField)
            × AreSections schema.now (length docs) (norms_of schema.now analyze docs) fields
            sections.0.items sections.1.items sections.2.items
            × AreIndexed schema.now analyze docs fields
            × AllByRecursion (IsFieldWithin schema.now) fields) }
        ensures lengths { (analyze : definitions.Analyzer) (docs : List Document)
            → HasIndexed schema.now analyze self.now docs
            → IfOk result (λ sections. IsNorms (length_fields schema.now) (length docs) sections.3.items
            (norms_of schema.now analyze docs)) }
        ensures err { (analyze : definitions.Analyzer) (docs : List Document)
            → HasIndexed schema.now analyze self.now docs
            → IfErr result (λ fault. IsSerializeRefusal fault schema.now (norms_of schema.now analyze docs)
            (λ t. postings schema.now analyze t docs)) }
    {
        let norms = self
            .norms
            .serialize(FieldNormsSerializer::from_write(Vec::new(alloc)))?;
        let (terms, postings, positions) = self.serialize_terms(alloc, schema, &norms)?;
        Ok((terms, postings, positions, norms))
    }

    /// Returns the sections of terms, postings and positions, given that of lengths, `norms`.
    fn serialize_terms(
        &self,
        alloc: Global,
        schema: &Schema,
        norms: &[u8],
    ) -> Result<(Vec<u8>, Vec<u8>, Vec<u8>), Fault>
        requires indexed { ∥ ((analyze : definitions.Analyzer) × (docs : List Document)
            × HasIndexed schema.now analyze self.now docs) ∥₁ }
        requires lengths { norms.now ≡ norms_bytes self.now.norms }
        ensures ok { (analyze : definitions.Analyzer) (docs : List Document)
            → HasIndexed schema.now analyze self.now docs
            → IfOk result (λ sections. (fields : List IndexedField)
            × AreSections schema.now (length docs) (norms_of schema.now analyze docs) fields
            sections.0.items sections.1.items sections.2.items
            × AreIndexed schema.now analyze docs fields
            × AllByRecursion (IsFieldWithin schema.now) fields) }
        ensures err { (analyze : definitions.Analyzer) (docs : List Document)
            → HasIndexed schema.now analyze self.now docs
            → IfErr result (λ fault. IsSerializeRefusal fault schema.now (norms_of schema.now analyze docs)
            (λ t. postings schema.now analyze t docs)) }
    {
        let fields = length_fields(alloc, schema)?;
        let readers = FieldNormReaders::new(norms, self.num_docs(), &fields);
        let serializer = InvertedIndexSerializer::open(alloc)?;
        let writer = self.postings_writer();
        let serializer = writer.serialize(schema, &readers, serializer)?;
        Ok(serializer.close())
    }
}
