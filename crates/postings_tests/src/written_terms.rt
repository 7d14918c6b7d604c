//! The sections of a text field.

ghost use Rattle.std.specs.Prelude.{◌≡◌, IsTrue, Some, slice_get, true};
ghost use Rattle.definitions.specs.Schema.{Entry, is_indexed, text_kind};

use codes::FieldNormReaders;
use common::{PreTokenizedStream, Token};
use definitions::Fault;
use options::{IndexRecordOption, TEXT};
use postings::InvertedIndexSerializer;
use postings_writer::PostingsWriter;
use schema::{Field, Schema, Type};
use std::alloc::Global;
use std::test::Fail;

// Terms, postings and positions.
type Sections = (Vec<u8>, Vec<u8>, Vec<u8>);

// The lengths of one field, with one document.
const NORMS: [u8; 5] = [0, 0, 0, 0, 3];

/// Whether the first field is an indexed one of texts.
pub(crate) fn begins_with_a_text_field(schema: &Schema) -> bool
    ensures { IsTrue result → (e : Entry) × (slice_get schema.now 0 ≡ Some e) × (is_indexed e ≡ true)
        × (e.kind ≡ text_kind) }
{
    if schema.num_fields() == 0 {
        return false;
    }
    let entry = schema.get_field_entry(Field::from_field_id(0));
    entry.is_indexed() && entry.field_type().value_type() == Type::Str
}

fn tokens_of(alloc: Global, texts: &[&str]) -> Result<Vec<Token>, Fault> {
    let mut tokens = Vec::new(alloc);
    for (position, text) in texts.iter().enumerate() {
        tokens.push(Token {
            position,
            position_length: 1,
            text: String::from_str(alloc, text)?,
        })?;
    }
    Ok(tokens)
}

/// The sections of one document whose first field has these tokens.
fn sections(alloc: Global, schema: &Schema, texts: &[&str]) -> Result<Sections, Fault> {
    if !begins_with_a_text_field(schema) {
        return Err(Fault::BadSchema);
    }
    let mut term_buffer = Vec::new(alloc);
    term_buffer.extend_from_slice(b"\0\0\0\0s")?;
    let tokens = tokens_of(alloc, texts)?;
    let mut stream = PreTokenizedStream::new(&tokens);
    let mut writer = PostingsWriter::for_schema(alloc, schema)?;
    writer.index_text(schema, 0, &mut term_buffer, &mut stream, 0, 1)?;
    let readers = FieldNormReaders::open(&NORMS, 1, &[0])?;
    let serializer = InvertedIndexSerializer::open(alloc)?;
    let serializer = writer.serialize(schema, &readers, serializer)?;
    Ok(serializer.close())
}

fn texts(alloc: Global) -> Result<Schema, Fault> {
    let mut builder = Schema::builder(alloc);
    builder.add_text_field("body", TEXT)?;
    Ok(builder.build())
}

/// Whether the sections of one document with these tokens are these.
fn are_sections(
    alloc: Global,
    texts_of_tokens: &[&str],
    terms: &[u8],
    postings: &[u8],
    positions: &[u8],
) -> Result<bool, Fault> {
    let schema = texts(alloc)?;
    let written = sections(alloc, &schema, texts_of_tokens)?;
    Ok(
        written.0.as_slice() == terms
            && written.1.as_slice() == postings
            && written.2.as_slice() == positions,
    )
}

// The section of the terms `ab` and `b`.
const TWO_TERMS: &[u8] =
    b"\x01\0\0\0\0\x03\0\0\0\0\0\0\0\x82\x82ab\x81\x82\x82\x80\x81b\x81\x82\x83";

#[test]
fn terms_are_written_in_their_order(rt: HostRuntime) -> Result<(), Fail> {
    let (postings, positions) = (b"\x80\x80\x80\x81", b"\x80\x81\x80\x80\x82");
    let right = are_sections(
        rt.alloc(),
        &["b", "ab", "b"],
        TWO_TERMS,
        postings,
        positions,
    )?;
    assert!(rt; right);
    Ok(())
}

#[test]
fn a_field_without_terms_is_written(rt: HostRuntime) -> Result<(), Fail> {
    let terms = b"\x01\0\0\0\0\0\0\0\0\0\0\0\0\x80";
    assert!(rt; are_sections(rt.alloc(), &[], terms, b"", b"")?);
    Ok(())
}

/// The sections of the field 0, which records counts and positions, with one term of which the documents 1 and 3 alone
/// are recorded.
fn sections_without_counts(alloc: Global) -> Result<Sections, Fault> {
    let mode = IndexRecordOption::WithFreqsAndPositions;
    let mut field = InvertedIndexSerializer::open(alloc)?.new_field(alloc, 0, mode, None);
    field.new_term_without_freq(b"sea")?;
    field.write_doc(1, 1, &[])?;
    field.write_doc(3, 1, &[])?;
    field.close_term()?;
    Ok(field.close()?.close())
}

// The terms, of which `sea` has two documents, two bytes of postings and no positions.
const ONE_TERM: &[u8] = b"\x01\0\0\0\0\x02\0\0\0\0\0\0\0\x81\x83sea\x82\x82\x80";

/// Whether the sections of that field are these.
fn are_sections_without_counts(
    alloc: Global,
    terms: &[u8],
    postings: &[u8],
) -> Result<bool, Fault> {
    let written = sections_without_counts(alloc)?;
    Ok(written.0.as_slice() == terms && written.1.as_slice() == postings && written.2.is_empty())
}

#[test]
fn a_term_without_counts_is_written(rt: HostRuntime) -> Result<(), Fail> {
    assert!(rt; are_sections_without_counts(rt.alloc(), ONE_TERM, b"\x81\x81")?);
    Ok(())
}
