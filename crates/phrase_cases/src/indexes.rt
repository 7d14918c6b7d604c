//! Indexes, made of a schema and documents.

ghost use Rattle.std.specs.Prelude.{List, OnOk};
ghost use Rattle.definitions.specs.Values.{Document};
ghost use Rattle.document_indexer.specs.Indexers.{HasIndexed};

use crate::held::Held;
use bytes::Bytes;
use case_lines::{Arguments, Refusal, document_of_values, number};
use codes::FieldNormReaders;
use common::{Analyzer, RawAndDefault, TERMINATED};
use definitions::Fault;
use document::CompactDoc;
use document_indexer::DocumentIndexer;
use schema::Schema;
use segment_reader::InvertedIndexReader;
use serde_json::Value;
use std::alloc::Global;

/// Forgets the documents, and answers how many there are.
pub(crate) fn documents_none(alloc: Global, held: &mut Held) -> Result<Value, Refusal> {
    held.docs = Vec::new(alloc);
    Ok(number(0))
}

/// Adds documents, each a list of values, and answers how many there are.
pub(crate) fn documents_added(
    alloc: Global,
    held: &mut Held,
    arguments: &Arguments,
) -> Result<Value, Refusal> {
    for doc in arguments.list(0)? {
        let values = doc.as_array().ok_or(Refusal::NotAsked)?;
        held.docs.push(document_of_values(alloc, values)?)?;
    }
    Ok(number(held.docs.len() as u64))
}

/// Makes the index of the documents, and answers how many documents it is of.
pub(crate) fn made(alloc: Global, held: &mut Held) -> Result<Value, Refusal> {
    held.reader = index_of(alloc, &held.schema, &held.docs)?;
    Ok(number(held.docs.len() as u64))
}

/// Indexes documents behind those before.
fn index_all<A: Analyzer>(
    indexer: &mut DocumentIndexer,
    schema: &Schema,
    analyzer: &A,
    docs: &[CompactDoc],
) -> Result<(), Fault>
    requires { (before : List Document) × HasIndexed schema.now (A.analyze analyzer.now) indexer.old before }
    ensures { OnOk result ((all : List Document) × HasIndexed schema.now (A.analyze analyzer.now) indexer.new all) }
{
    for doc in docs {
        indexer.add(schema, analyzer, doc)?;
    }
    Ok(())
}

/// The index of documents whose lengths the first field alone keeps, read from the sections that are written of them.
fn index_of(
    alloc: Global,
    schema: &Schema,
    docs: &[CompactDoc],
) -> Result<InvertedIndexReader, Fault> {
    let mut indexer = DocumentIndexer::for_schema(alloc, schema)?;
    index_all(&mut indexer, schema, &RawAndDefault, docs)?;
    let num_docs = indexer.num_docs();
    if num_docs > TERMINATED {
        return Err(Fault::Limit);
    }
    let (terms, postings, positions, lengths) = indexer.serialize(alloc, schema)?;
    let lengths = FieldNormReaders::open(&lengths, num_docs, &[0])?;
    InvertedIndexReader::open(
        alloc,
        schema,
        &lengths,
        num_docs,
        Bytes::copy_from_slice(alloc, &terms)?,
        Bytes::copy_from_slice(alloc, &postings)?,
        Bytes::copy_from_slice(alloc, &positions)?,
    )
}
