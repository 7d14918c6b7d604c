//! Terms of the first field that a line asks for, each `[OFFSET, TEXT]`, and their postings.

ghost use Rattle.std.specs.Prelude.{◌≡◌, ◌≤◌, map, true};
ghost use Rattle.definitions.specs.Scoring.{greatest_of};

use case_lines::{Refusal, number_in, part, text_in};
use options::IndexRecordOption;
use schema::{Field, Term};
use segment_postings::SegmentPostings;
use segment_reader::InvertedIndexReader;
use serde_json::Value;
use std::alloc::Global;

/// The greatest offset of a term of a phrase.
const MAX_OFFSET: usize = 1073741824;

/// The offset of a term.
pub(crate) fn offset_in(term: &Value) -> Result<u32, Refusal> {
    u32::try_from(number_in(part(term, 0)?)?)
        .ok()
        .ok_or(Refusal::NotAsked)
}

/// The text of a term.
pub(crate) fn text_of(term: &Value) -> Result<&str, Refusal> {
    text_in(part(term, 1)?)
}

/// The postings of a term, with positions; none where no document has it.
pub(crate) fn postings_of<'a>(
    alloc: Global,
    reader: &'a InvertedIndexReader,
    text: &str,
) -> Result<Option<SegmentPostings<'a>>, Refusal> {
    let term = Term::from_field_text(alloc, Field::from_field_id(0), text)?;
    Ok(reader.read_postings(&term, IndexRecordOption::WithFreqsAndPositions))
}

/// The postings of terms, each with its offset; none where one of them isn't in the index.
pub(crate) fn postings_of_terms<'a>(
    alloc: Global,
    reader: &'a InvertedIndexReader,
    terms: &[Value],
) -> Result<Option<Vec<(usize, SegmentPostings<'a>)>>, Refusal> {
    let mut found = Vec::new(alloc);
    for term in terms {
        let Some(postings) = postings_of(alloc, reader, text_of(term)?)? else {
            return Ok(None);
        };
        found.push((offset_in(term)? as usize, postings))?;
    }
    Ok(Some(found))
}

/// Whether no offset is above the greatest.
pub(crate) fn offsets_fit<P>(term_postings: &[(usize, P)]) -> bool
    ensures { result ≡ true → greatest_of (map (λ t. t.0) term_postings.now) ≤ 1073741824 }
{
    let Some((first, rest)) = term_postings.split_first() else {
        return true;
    };
    first.0 <= MAX_OFFSET && offsets_fit(rest)
}
