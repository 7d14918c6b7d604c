//! The living documents of a file, as lines that make an index of them.

ghost use Rattle.std.specs.Prelude.{◌≡◌, IfOk, List, Some, option_map, slice_get, string_bytes};
ghost use Rattle.definitions.specs.Analyzers.{Analyzer};
ghost use Rattle.definitions.specs.Stored.{stored_values};
ghost use Rattle.definitions.specs.Values.{Document};
ghost use Rattle.inspect.specs.Lines.{add_line};
ghost use Rattle.inspect.specs.ReadBack.{AddsBack, WasRead};
ghost use Rattle.segment.specs.Opened.{StandsFor};

use crate::create_line::{making_in, write_create};
use crate::failure::Failure;
use bytes::Bytes;
use definitions::Fault;
use index_file::{IndexFile, Member};
use schema::Schema;
use segment::Segment;
use std::alloc::{AllocError, Global};
use std::io::Write;

/// Writes lines that make such an index as the file of these `bytes` has: its `create`, the living documents in the order
/// of addition, each as the line that adds its stored values, and a `commit`. Returns the names of the fields that aren't
/// stored.
pub(crate) fn dump<W: Write>(
    alloc: Global,
    bytes: &Bytes,
    out: &mut W,
) -> Result<Vec<String>, Failure> {
    let IndexFile {
        schema,
        mut members,
        ..
    } = IndexFile::open(alloc, bytes.clone()?)?;
    write_create(making_in(bytes.as_slice())?, out)?;
    for member in &mut members {
        dump_segment(alloc, &schema, member, out)?;
    }
    writeln!(out, "{{\"op\":\"commit\"}}")?;
    Ok(names_unstored(alloc, &schema)?)
}

/// Writes the living documents of a segment.
fn dump_segment<W: Write>(
    alloc: Global,
    schema: &Schema,
    member: &mut Member,
    out: &mut W,
) -> Result<(), Failure> {
    for doc in 0..member.segment.num_docs() {
        if (doc as usize) < member.alive.len() && member.alive.is_alive(doc) {
            let line = line_of(alloc, schema, &mut member.segment, doc)?;
            writeln!(out, "{line}")?;
        }
    }
    Ok(())
}

/// Returns the line that adds the stored values of document `doc`.
fn line_of(alloc: Global, schema: &Schema, segment: &mut Segment, doc: u32) -> Result<String, Fault>
    ensures line { (analyze : Analyzer) (docs : List Document) → StandsFor schema.now analyze docs segment.old
        → IfOk result (λ line. option_map (λ d. add_line (stored_values schema.now d)) (slice_get docs doc)
        ≡ Some (string_bytes line)) }
    ensures read { (analyze : Analyzer) (docs : List Document) → StandsFor schema.now analyze docs segment.old
        → (d : Document) → slice_get docs doc ≡ Some d → WasRead schema.now d
        → IfOk result (λ line. AddsBack schema.now d (string_bytes line)) }
{
    let stored = segment.document(schema, doc)?;
    let values = stored.to_json(alloc, schema)?;
    let mut line = String::from_str(alloc, "{\"op\":\"add\",\"doc\":")?;
    line.push_str(&values)?;
    line.push_str("}")?;
    Ok(line)
}

/// Lists the names of the fields that aren't stored.
fn names_unstored(alloc: Global, schema: &Schema) -> Result<Vec<String>, AllocError> {
    let mut names = Vec::new(alloc);
    for (_field, entry) in schema.fields() {
        if !entry.is_stored() {
            names.push(String::from_str(alloc, entry.name())?)?;
        }
    }
    Ok(names)
}
