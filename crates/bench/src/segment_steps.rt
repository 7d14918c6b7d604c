//! The steps in which documents become a segment that is open, each by itself.

ghost use Rattle.std.specs.Prelude.{IsTrue, List, OnOk, ℕ};
ghost use Rattle.std.specs.List.{AllByRecursion};
ghost use Rattle.definitions.specs.Values.{Document};
ghost use Rattle.document.specs.Shallow.{IsShallow};
ghost use Rattle.segment.specs.Writers.{HasWritten};

use crate::segments::count_tokens;
use crate::texts::index_all;
use crate::times::{nanos_since, now};
use common::{Analyzer, RawAndDefault};
use definitions::Fault;
use document::CompactDoc;
use document_indexer::DocumentIndexer;
use schema::Schema;
use segment::{Segment, SegmentWriter, is_taken};
use serde_json::Value;
use std::alloc::Global;
use store::{Bytes, StoreWriter};

/// How many bytes of documents close a block of the store.
pub(crate) const BLOCK_SIZE: usize = 16384;

/// How many blocks the cache of an open segment keeps.
pub(crate) const CACHE_NUM_BLOCKS: usize = 100;

/// What was measured of documents: times in nanoseconds, and how many bytes their segment has.
#[derive(Clone, Copy)]
pub(crate) struct Steps {
    pub(crate) analysis: u128,
    pub(crate) indexing: u128,
    pub(crate) without_lengths: u128,
    pub(crate) storing: u128,
    pub(crate) adding: u128,
    pub(crate) closing: u128,
    pub(crate) opening: u128,
    pub(crate) bytes: usize,
}

impl Steps {
    /// The shorter time of each step.
    pub(crate) fn best_of(&self, other: &Steps) -> Steps {
        Steps {
            analysis: self.analysis.min(other.analysis),
            indexing: self.indexing.min(other.indexing),
            without_lengths: self.without_lengths.min(other.without_lengths),
            storing: self.storing.min(other.storing),
            adding: self.adding.min(other.adding),
            closing: self.closing.min(other.closing),
            opening: self.opening.min(other.opening),
            bytes: self.bytes,
        }
    }
}

/// One run of all steps. The second schema has the same fields without lengths.
pub(crate) fn steps_of(
    rt: &HostRuntime,
    alloc: Global,
    schema: &Schema,
    bare: &Schema,
    lines: &[Value],
    docs: &[CompactDoc],
) -> Result<Steps, Fault> {
    let begun = now(rt)?;
    let _tokens = count_tokens(alloc, lines)?;
    let analysis = nanos_since(rt, begun)?;
    let with_lengths = indexing(rt, alloc, schema, docs)?;
    let without_lengths = indexing(rt, alloc, bare, docs)?;
    let stored = storing(rt, alloc, schema, docs)?;
    let (adding, closing, bytes) = writing(rt, alloc, schema, docs)?;
    let len = bytes.len();
    let shared = Bytes::copy_from_slice(alloc, &bytes)?;
    let begun = now(rt)?;
    let _segment = Segment::open(alloc, schema, shared, CACHE_NUM_BLOCKS)?;
    let opening = nanos_since(rt, begun)?;
    Ok(Steps {
        analysis,
        indexing: with_lengths,
        without_lengths,
        storing: stored,
        adding,
        closing,
        opening,
        bytes: len,
    })
}

/// How long the documents take to be analysed and recorded.
fn indexing(
    rt: &HostRuntime,
    alloc: Global,
    schema: &Schema,
    docs: &[CompactDoc],
) -> Result<u128, Fault> {
    let mut indexer = DocumentIndexer::for_schema(alloc, schema)?;
    let begun = now(rt)?;
    index_all(&mut indexer, schema, &RawAndDefault, docs)?;
    nanos_since(rt, begun)
}

/// Whether each document can be indexed, which is tested before any is stored.
fn all_indexable(schema: &Schema, docs: &[CompactDoc]) -> bool
    ensures { IsTrue result → AllByRecursion IsShallow docs.now }
{
    for doc in docs {
        if !doc.indexable(schema) {
            return false;
        }
    }
    true
}

/// How long their stored values take to be put into a store.
fn storing(
    rt: &HostRuntime,
    alloc: Global,
    schema: &Schema,
    docs: &[CompactDoc],
) -> Result<u128, Fault> {
    if !all_indexable(schema, docs) {
        return Err(Fault::NotIndexable);
    }
    let mut store = StoreWriter::new(alloc, BLOCK_SIZE);
    let begun = now(rt)?;
    for doc in docs {
        store.store(doc, schema)?;
    }
    nanos_since(rt, begun)
}

/// How long the documents take to be added to a segment, and this to be closed, and its bytes.
pub(crate) fn writing(
    rt: &HostRuntime,
    alloc: Global,
    schema: &Schema,
    docs: &[CompactDoc],
) -> Result<(u128, u128, Vec<u8>), Fault> {
    let mut writer = SegmentWriter::new(alloc, schema, BLOCK_SIZE)?;
    let begun = now(rt)?;
    add_all(&mut writer, schema, &RawAndDefault, docs)?;
    let adding = nanos_since(rt, begun)?;
    if writer.num_docs() == 0 {
        return Err(Fault::InvalidArgument);
    }
    let begun = now(rt)?;
    let bytes = writer.close(schema)?;
    let closing = nanos_since(rt, begun)?;
    Ok((adding, closing, bytes))
}

/// Adds documents behind those before.
fn add_all<A: Analyzer>(
    writer: &mut SegmentWriter,
    schema: &Schema,
    analyzer: &A,
    docs: &[CompactDoc],
) -> Result<(), Fault>
    requires { (block_size : ℕ) × (before : List Document)
        × HasWritten schema.now (A.analyze analyzer.now) block_size writer.old before }
    ensures { OnOk result ((block_size : ℕ) × (all : List Document)
        × HasWritten schema.now (A.analyze analyzer.now) block_size writer.new all) }
{
    for doc in docs {
        if !is_taken(schema, doc) {
            return Err(Fault::NotIndexable);
        }
        writer.add(schema, analyzer, doc)?;
    }
    Ok(())
}
