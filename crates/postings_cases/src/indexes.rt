//! Indexes, made of a schema and documents.

use crate::held::Held;
use crate::sections::{lengths_of, opened, sections_of};
use case_lines::{Arguments, Refusal, document_of_values, flag, hex, number, triple};
use serde_json::Value;
use std::alloc::Global;

/// Forgets the documents, and answers how many there are.
pub(crate) fn documents_none(alloc: Global, held: &mut Held) -> Result<Value, Refusal> {
    held.docs = Vec::new(alloc);
    Ok(number(0))
}

/// Adds a list of documents a given number of times, and answers how many there are.
pub(crate) fn documents_added(
    alloc: Global,
    held: &mut Held,
    arguments: &Arguments,
) -> Result<Value, Refusal> {
    let docs = arguments.list(0)?;
    for _ in 0..arguments.small_number(1)? {
        add_documents(alloc, held, docs)?;
    }
    Ok(number(held.docs.len() as u64))
}

/// Adds documents, each a list of values.
fn add_documents(alloc: Global, held: &mut Held, docs: &[Value]) -> Result<(), Refusal> {
    for doc in docs {
        let values = doc.as_array().ok_or(Refusal::NotAsked)?;
        held.docs.push(document_of_values(alloc, values)?)?;
    }
    Ok(())
}

/// Makes the index of the documents, with the section of the lengths of the first field if it has bytes, and
/// answers how many documents it is of.
pub(crate) fn made(
    alloc: Global,
    held: &mut Held,
    arguments: &Arguments,
) -> Result<Value, Refusal> {
    held.lengths = arguments.bytes(alloc, 0)?;
    held.sections = sections_of(alloc, &held.schema, &held.docs, &held.lengths)?;
    held.reader = opened(alloc, &held.schema, &held.sections, &held.lengths)?;
    Ok(number(u64::from(held.sections.num_docs)))
}

/// The sections of terms, postings and positions.
pub(crate) fn written(alloc: Global, held: &Held) -> Result<Value, Refusal> {
    let terms = hex(alloc, &held.sections.terms)?;
    let postings = hex(alloc, &held.sections.postings)?;
    Ok(triple(
        alloc,
        terms,
        postings,
        hex(alloc, &held.sections.positions)?,
    )?)
}

/// The section of the lengths of the documents.
pub(crate) fn lengths(alloc: Global, held: &Held) -> Result<Value, Refusal> {
    let lengths = lengths_of(alloc, &held.schema, &held.docs)?;
    Ok(hex(alloc, &lengths)?)
}

/// Whether the sections are opened with other lengths.
pub(crate) fn opened_with_lengths(
    alloc: Global,
    held: &Held,
    arguments: &Arguments,
) -> Result<Value, Refusal> {
    let lengths = arguments.bytes(alloc, 0)?;
    opened(alloc, &held.schema, &held.sections, &lengths)?;
    Ok(flag(true))
}

/// Whether the sections are opened as those of a given number of documents; they are so from then on.
pub(crate) fn opened_of_documents(
    alloc: Global,
    held: &mut Held,
    arguments: &Arguments,
) -> Result<Value, Refusal> {
    held.sections.num_docs = arguments.small_number(0)?;
    opened(alloc, &held.schema, &held.sections, &held.lengths)?;
    Ok(flag(true))
}
