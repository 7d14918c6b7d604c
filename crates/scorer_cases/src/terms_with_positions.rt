//! The bytes of terms with positions, and cursors over them.

ghost use Rattle.std.specs.Prelude.{◌<◌, ◌≡◌, ◌≤◌, IfOk, List, None, OnOk, map, sum, ℕ};
ghost use Rattle.definitions.specs.Postings.{Posting};
ghost use Rattle.definitions.specs.Schema.{with_freqs_and_positions};
ghost use Rattle.segment_reader.specs.OpenedTerms.{HasTerm, entry_as};
ghost use Rattle.docsets.specs.ScoredEntries.{greatest_score};
ghost use Rattle.docsets.specs.Members.{entries_at, entries_of, greatest_sum};
ghost use Rattle.segment_postings.specs.Cursors.{entries_left};
ghost use Rattle.scorers.specs.Uniting.{counts_in};

use case_lines::Refusal;
use codes::{PositionReader, PositionSerializer, Recorded};
use common::TERMINATED;
use options::IndexRecordOption;
use postings_writer::PostingsSerializer;
use segment_postings::{SegmentPostings, check_term};
use serde_json::Value;
use std::alloc::Global;

/// What is recorded of a term.
const OPTION: IndexRecordOption = IndexRecordOption::WithFreqsAndPositions;

/// The most positions of a term.
const MOST_POSITIONS: u64 = 1000;

/// The most terms.
const MOST_TERMS: usize = 1000;

/// The bytes of a term's postings and of its positions, and how many documents have it.
#[derive(Drop)]
pub(crate) struct TermWithPositions {
    postings: Vec<u8>,
    positions: Vec<u8>,
    doc_freq: u32,
}

/// Terms, each a list of documents, each of which is a list of its number and the positions in it.
pub(crate) fn terms_with_positions(
    alloc: Global,
    terms: &[Value],
) -> Result<Vec<TermWithPositions>, Refusal> {
    let mut list = Vec::new(alloc);
    for term in terms {
        list.push(term_with_positions(alloc, term)?)?;
    }
    Ok(list)
}

/// A term.
fn term_with_positions(alloc: Global, term: &Value) -> Result<TermWithPositions, Refusal> {
    let docs = term.as_array().ok_or(Refusal::NotAsked)?;
    let doc_freq = u32::try_from(docs.len()).ok().ok_or(Refusal::NotAsked)?;
    let mut serializer = PostingsSerializer::new(alloc, OPTION, None);
    let mut positions = PositionSerializer::new(alloc, Vec::new(alloc));
    let mut next = 0;
    for doc in docs {
        next = write_doc(&mut serializer, &mut positions, next, doc)?;
    }
    let mut postings = Vec::new(alloc);
    serializer.close_term(doc_freq, &mut postings)?;
    positions.close_term()?;
    Ok(TermWithPositions {
        postings,
        positions: positions.close(),
        doc_freq,
    })
}

/// Writes a document that isn't below a number, and answers the next one.
fn write_doc(
    serializer: &mut PostingsSerializer,
    positions: &mut PositionSerializer,
    next: u32,
    doc: &Value,
) -> Result<u32, Refusal>
    requires next { serializer.old.next ≤ next }
    requires lengths { serializer.old.norms ≡ None }
    ensures next { IfOk result (λ next. serializer.new.next ≤ next) }
    ensures lengths { OnOk result (serializer.new.norms ≡ None) }
{
    let numbers = doc.as_array().ok_or(Refusal::NotAsked)?;
    let (doc, values) = numbers.split_first().ok_or(Refusal::NotAsked)?;
    let doc = small(doc)?;
    let count = u32::try_from(values.len()).ok().ok_or(Refusal::NotAsked)?;
    if doc < next || doc >= TERMINATED || count == 0 {
        return Err(Refusal::NotAsked);
    }
    serializer.write_doc(doc, count)?;
    write_positions(positions, values)?;
    Ok(doc + 1)
}

/// Writes the positions in a document, which don't fall.
fn write_positions(positions: &mut PositionSerializer, values: &[Value]) -> Result<(), Refusal> {
    let mut before = 0;
    for value in values {
        let position = small(value)?;
        if position < before || position >= 2147483648 {
            return Err(Refusal::NotAsked);
        }
        write_difference(positions, position - before)?;
        before = position;
    }
    Ok(())
}

/// Writes a position by its difference.
fn write_difference(positions: &mut PositionSerializer, difference: u32) -> Result<(), Refusal>
    requires { difference < 2147483648 }
{
    positions.write_positions_delta(&[difference])?;
    Ok(())
}

/// A number of 32 bits.
pub(crate) fn small(value: &Value) -> Result<u32, Refusal> {
    value
        .as_u64()
        .and_then(|number| u32::try_from(number).ok())
        .ok_or(Refusal::NotAsked)
}

/// A cursor over a term.
fn opened<'a>(postings: &'a [u8], positions: &'a [u8], doc_freq: u32) -> SegmentPostings<'a>
    requires { ∥ ((ps : List Posting) × HasTerm with_freqs_and_positions doc_freq postings.now positions.now ps) ∥₁ }
    ensures { (ps : List Posting) → HasTerm with_freqs_and_positions doc_freq postings.now positions.now ps
        → entries_left result ≡ map (entry_as with_freqs_and_positions) ps }
{
    let recorded = Recorded {
        counts: true,
        positions: true,
    };
    let reader = PositionReader::new(positions);
    SegmentPostings::with_positions(postings, doc_freq, recorded, reader)
}

/// Two cursors over a term, which has few positions.
fn opened_twice<'a>(
    term: &'a TermWithPositions,
) -> Result<(SegmentPostings<'a>, SegmentPostings<'a>), Refusal>
    ensures same { IfOk result (λ both. entries_left both.1 ≡ entries_left both.0) }
    ensures unscored { IfOk result (λ both. greatest_score (entries_left both.0) ≡ 0) }
    ensures few { IfOk result (λ both. (d : ℕ) → sum (counts_in (entries_of d (entries_left both.0))) ≤ 1000) }
{
    let doc_freq = term.doc_freq;
    let postings = term.postings.as_slice();
    let positions = term.positions.as_slice();
    let total = check_term(postings, positions, doc_freq, OPTION, &None, TERMINATED)?;
    if total > MOST_POSITIONS {
        return Err(Refusal::NotAsked);
    }
    Ok((
        opened(postings, positions, doc_freq),
        opened(postings, positions, doc_freq),
    ))
}

/// Cursors over terms, twice.
pub(crate) fn all_opened_twice<'a>(
    alloc: Global,
    terms: &'a [TermWithPositions],
) -> Result<(Vec<SegmentPostings<'a>>, Vec<SegmentPostings<'a>>), Refusal>
    ensures same { IfOk result (λ both. map entries_left both.1.items ≡ map entries_left both.0.items) }
    ensures unscored { IfOk result (λ both. greatest_sum (map entries_left both.0.items) ≡ 0) }
    ensures few { IfOk result (λ both. (d : ℕ)
        → sum (counts_in (entries_at d (map entries_left both.0.items))) ≤ 1000000) }
{
    if terms.len() > MOST_TERMS {
        return Err(Refusal::NotAsked);
    }
    let mut first = Vec::new(alloc);
    let mut second = Vec::new(alloc);
    for i in 0..terms.len() {
        let (one, other) = opened_twice(&terms[i])?;
        first.push(one)?;
        second.push(other)?;
    }
    Ok((first, second))
}
