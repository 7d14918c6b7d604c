//! Indexes whose sections are cut, or have a changed byte.

use crate::asked_terms::asked_term;
use crate::held::Held;
use crate::sections::{Sections, opened, postings_of};
use case_lines::{Arguments, Outcomes, Refusal};
use definitions::Fault;
use schema::Term;
use segment_reader::InvertedIndexReader;
use serde_json::Value;
use std::alloc::{AllocError, Global};

/// A section of an index.
#[derive(Clone, Copy, PartialEq, Eq)]
enum Section {
    Terms,
    Postings,
    Positions,
}

const SECTIONS: [Section; 3] = [Section::Terms, Section::Postings, Section::Positions];

/// The bytes of a section.
fn bytes_of(sections: &Sections, section: Section) -> &Vec<u8> {
    match section {
        Section::Terms => &sections.terms,
        Section::Postings => &sections.postings,
        Section::Positions => &sections.positions,
    }
}

/// Bytes of their own.
fn copy_of(alloc: Global, bytes: &[u8]) -> Result<Vec<u8>, AllocError> {
    let mut copy = Vec::new(alloc);
    copy.extend_from_slice(bytes)?;
    Ok(copy)
}

/// The sections with other bytes for one of them.
fn with_bytes(
    alloc: Global,
    sections: &Sections,
    section: Section,
    bytes: Vec<u8>,
) -> Result<Sections, AllocError> {
    let mut other = Sections {
        num_docs: sections.num_docs,
        terms: copy_of(alloc, &sections.terms)?,
        postings: copy_of(alloc, &sections.postings)?,
        positions: copy_of(alloc, &sections.positions)?,
    };
    match section {
        Section::Terms => other.terms = bytes,
        Section::Postings => other.postings = bytes,
        Section::Positions => other.positions = bytes,
    }
    Ok(other)
}

/// What becomes of the index with other bytes for a section: a fault's name, `read` where each term has as many
/// documents as the index tells of, or `other`.
fn outcome(
    alloc: Global,
    held: &Held,
    terms: &[Term],
    section: Section,
    bytes: Vec<u8>,
) -> Result<&'static str, Fault> {
    let other = with_bytes(alloc, &held.sections, section, bytes)?;
    match opened(alloc, &held.schema, &other, &held.lengths) {
        Ok(reader) => outcome_of_terms(alloc, &reader, terms),
        Err(fault) => Ok(fault.name()),
    }
}

/// `read` where each term has as many documents as the index tells of, `other` where one hasn't.
fn outcome_of_terms(
    alloc: Global,
    reader: &InvertedIndexReader,
    terms: &[Term],
) -> Result<&'static str, Fault> {
    for term in terms {
        if postings_of(alloc, reader, term)?.len() != reader.doc_freq(term) as usize {
            return Ok("other");
        }
    }
    Ok("read")
}

/// The terms that a line asks for.
fn terms_in(alloc: Global, arguments: &Arguments) -> Result<Vec<Term>, Refusal> {
    let mut terms = Vec::new(alloc);
    for value in arguments.list(0)? {
        terms.push(asked_term(alloc, value)?)?;
    }
    Ok(terms)
}

/// What becomes of the bytes of a section at an offset.
#[derive(Clone, Copy)]
enum Damage {
    /// They end there.
    Cut,
    /// The byte that stands there is this one.
    Change(u8),
}

/// The outcomes of each cut of each section.
pub(crate) fn each_cut(
    alloc: Global,
    held: &Held,
    arguments: &Arguments,
) -> Result<Value, Refusal> {
    outcomes_of(alloc, held, arguments, &[Damage::Cut])
}

/// The outcomes of each change of a byte of a section to 0 and to 255.
pub(crate) fn each_change(
    alloc: Global,
    held: &Held,
    arguments: &Arguments,
) -> Result<Value, Refusal> {
    outcomes_of(
        alloc,
        held,
        arguments,
        &[Damage::Change(0), Damage::Change(u8::MAX)],
    )
}

/// The outcomes of damage at each offset of each section.
fn outcomes_of(
    alloc: Global,
    held: &Held,
    arguments: &Arguments,
    damages: &[Damage],
) -> Result<Value, Refusal> {
    let terms = terms_in(alloc, arguments)?;
    let mut outcomes = Outcomes::new(alloc);
    for section in SECTIONS {
        for damage in damages {
            add_outcomes(alloc, held, &terms, section, *damage, &mut outcomes)?;
        }
    }
    Ok(outcomes.names(alloc)?)
}

/// Adds the outcomes of damage at each offset of a section.
fn add_outcomes(
    alloc: Global,
    held: &Held,
    terms: &[Term],
    section: Section,
    damage: Damage,
    outcomes: &mut Outcomes,
) -> Result<(), Fault> {
    let whole = bytes_of(&held.sections, section);
    for offset in 0..whole.len() {
        let mut bytes = copy_of(alloc, whole)?;
        do_damage(&mut bytes, damage, offset);
        outcomes.add(outcome(alloc, held, terms, section, bytes)?)?;
    }
    Ok(())
}

/// Does damage to bytes at an offset.
fn do_damage(bytes: &mut Vec<u8>, damage: Damage, offset: usize) {
    match damage {
        Damage::Cut => bytes.truncate(offset),
        Damage::Change(byte) => {
            if let Some(old) = bytes.get_mut(offset) {
                *old = byte;
            }
        }
    }
}
