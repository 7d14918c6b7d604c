//! Segments that are written of documents.

ghost use Rattle.std.specs.Prelude.{List, OnOk, ℕ};
ghost use Rattle.definitions.specs.Values.{Document};
ghost use Rattle.segment.specs.Writers.{HasWritten};

use case_lines::Refusal;
use common::{Analyzer, RawAndDefault};
use document::CompactDoc;
use schema::Schema;
use segment::{SegmentWriter, is_taken};
use std::alloc::Global;

/// The bytes of the segment of documents, each written a number of times, with blocks of a given size.
pub fn written(
    alloc: Global,
    schema: &Schema,
    documents: &[(CompactDoc, u64)],
    block_size: usize,
) -> Result<Vec<u8>, Refusal> {
    let mut writer = SegmentWriter::new(alloc, schema, block_size)?;
    add_all(&mut writer, schema, &RawAndDefault, documents)?;
    if writer.num_docs() == 0 {
        return Err(Refusal::NotAsked);
    }
    Ok(writer.close(schema)?)
}

/// Adds documents, each a number of times.
fn add_all<A: Analyzer>(
    writer: &mut SegmentWriter,
    schema: &Schema,
    analyzer: &A,
    documents: &[(CompactDoc, u64)],
) -> Result<(), Refusal>
    requires { (block_size : ℕ) × (before : List Document)
        × HasWritten schema.now (A.analyze analyzer.now) block_size writer.old before }
    ensures { OnOk result ((block_size : ℕ) × (all : List Document)
        × HasWritten schema.now (A.analyze analyzer.now) block_size writer.new all) }
{
    for (document, times) in documents {
        add_times(writer, schema, analyzer, document, *times)?;
    }
    Ok(())
}

/// Adds a document a number of times.
fn add_times<A: Analyzer>(
    writer: &mut SegmentWriter,
    schema: &Schema,
    analyzer: &A,
    document: &CompactDoc,
    times: u64,
) -> Result<(), Refusal>
    requires { (block_size : ℕ) × (before : List Document)
        × HasWritten schema.now (A.analyze analyzer.now) block_size writer.old before }
    ensures { OnOk result ((block_size : ℕ) × (all : List Document)
        × HasWritten schema.now (A.analyze analyzer.now) block_size writer.new all) }
{
    if !is_taken(schema, document) {
        return Err(Refusal::NotAsked);
    }
    for _ in 0..times {
        writer.add(schema, analyzer, document)?;
    }
    Ok(())
}
