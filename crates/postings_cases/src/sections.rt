//! The sections of documents, written and read again.

ghost use Rattle.std.specs.Prelude.{List, OnOk};
ghost use Rattle.definitions.specs.Values.{Document};
ghost use Rattle.document_indexer.specs.Indexers.{HasIndexed};
ghost use Rattle.layouts.specs.Deltas.{IsAscendingFrom};

use bytes::Bytes;
use codes::FieldNormReaders;
use common::{Analyzer, RawAndDefault, TERMINATED};
use definitions::Fault;
use document::CompactDoc;
use document_indexer::DocumentIndexer;
use options::IndexRecordOption;
use postings::{DocSet, InvertedIndexSerializer, Postings};
use schema::{Schema, Term};
use segment_reader::InvertedIndexReader;
use std::alloc::Global;

/// The most documents that a segment has.
const MAX_DOCS: u32 = 2147483647;

/// The sections of terms, postings and positions, and how many documents they are of.
#[derive(Drop)]
pub(crate) struct Sections {
    pub(crate) num_docs: u32,
    pub(crate) terms: Vec<u8>,
    pub(crate) postings: Vec<u8>,
    pub(crate) positions: Vec<u8>,
}

/// Indexes documents behind those before.
fn index_all<A: Analyzer>(
    indexer: &mut DocumentIndexer,
    schema: &Schema,
    analyzer: &A,
    docs: &[CompactDoc],
) -> Result<(), Fault>
    requires { (before : List Document) × HasIndexed schema.now (A.analyze analyzer.now) indexer.old before }
    ensures { OnOk result ((all : List Document) × HasIndexed schema.now (A.analyze analyzer.now) indexer.new all) }
{
    for doc in docs {
        indexer.add(schema, analyzer, doc)?;
    }
    Ok(())
}

/// The sections of documents, with the lengths of some fields as they stand in their section.
fn sections_with(
    alloc: Global,
    schema: &Schema,
    docs: &[CompactDoc],
    fields: &[u32],
    lengths: &[u8],
) -> Result<Sections, Fault>
    requires { IsAscendingFrom 0 fields.now }
{
    let mut indexer = DocumentIndexer::for_schema(alloc, schema)?;
    index_all(&mut indexer, schema, &RawAndDefault, docs)?;
    let num_docs = indexer.num_docs();
    let lengths = FieldNormReaders::open(lengths, num_docs, fields)?;
    let serializer = InvertedIndexSerializer::open(alloc)?;
    let writer = indexer.postings_writer();
    let (terms, postings, positions) = writer.serialize(schema, &lengths, serializer)?.close();
    Ok(Sections {
        num_docs,
        terms,
        postings,
        positions,
    })
}

/// The section of the lengths of documents.
pub(crate) fn lengths_of(
    alloc: Global,
    schema: &Schema,
    docs: &[CompactDoc],
) -> Result<Vec<u8>, Fault> {
    let mut indexer = DocumentIndexer::for_schema(alloc, schema)?;
    index_all(&mut indexer, schema, &RawAndDefault, docs)?;
    let (_, _, _, lengths) = indexer.serialize(alloc, schema)?;
    Ok(lengths)
}

/// The index of sections with the lengths of some fields.
fn opened_with(
    alloc: Global,
    schema: &Schema,
    sections: &Sections,
    fields: &[u32],
    lengths: &[u8],
) -> Result<InvertedIndexReader, Fault>
    requires { IsAscendingFrom 0 fields.now }
{
    let num_docs = sections.num_docs;
    if num_docs > MAX_DOCS {
        return Err(Fault::Limit);
    }
    let lengths = FieldNormReaders::open(lengths, num_docs, fields)?;
    InvertedIndexReader::open(
        alloc,
        schema,
        &lengths,
        num_docs,
        Bytes::copy_from_slice(alloc, &sections.terms)?,
        Bytes::copy_from_slice(alloc, &sections.postings)?,
        Bytes::copy_from_slice(alloc, &sections.positions)?,
    )
}

/// The sections of documents, with the lengths of the first field if there are any.
pub(crate) fn sections_of(
    alloc: Global,
    schema: &Schema,
    docs: &[CompactDoc],
    lengths: &[u8],
) -> Result<Sections, Fault> {
    if lengths.is_empty() {
        return sections_with(alloc, schema, docs, &[], lengths);
    }
    sections_with(alloc, schema, docs, &[0], lengths)
}

/// The index of sections, with the lengths of the first field if there are any.
pub(crate) fn opened(
    alloc: Global,
    schema: &Schema,
    sections: &Sections,
    lengths: &[u8],
) -> Result<InvertedIndexReader, Fault> {
    if lengths.is_empty() {
        return opened_with(alloc, schema, sections, &[], lengths);
    }
    opened_with(alloc, schema, sections, &[0], lengths)
}

/// A term's documents, each with its count and its positions.
pub(crate) fn postings_of(
    alloc: Global,
    reader: &InvertedIndexReader,
    term: &Term,
) -> Result<Vec<(u32, u32, Vec<u32>)>, Fault> {
    let mut found = Vec::new(alloc);
    let option = IndexRecordOption::WithFreqsAndPositions;
    if let Some(mut postings) = reader.read_postings(term, option) {
        for _ in 0..postings.doc_freq() {
            if postings.doc() < TERMINATED {
                let mut positions = Vec::new(alloc);
                postings.positions(&mut positions)?;
                found.push((postings.doc(), postings.term_freq(), positions))?;
            }
            postings.advance();
        }
    }
    Ok(found)
}
