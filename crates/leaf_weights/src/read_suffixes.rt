//! The postings of the terms that begin with a prefix.

ghost use Rattle.std.specs.Prelude.{[], ◌<◌, ◌≡◌, ◌≤◌, IfOk, Some, length, map, slice_index, take, ℕ};
ghost use Rattle.std.specs.List.{AllByRecursion};
ghost use Rattle.definitions.specs.Prefixes.{prefix_end};
ghost use Rattle.definitions.specs.Terms.{field_of, payload_of};
ghost use Rattle.segment_reader.specs.Dictionaries.{ahead};
ghost use Rattle.segment_reader.specs.Readers.{Contents, dictionary_in, info_in, postings_in};
ghost use Rattle.segment_reader.specs.Searching.{between};
ghost use Rattle.leaf_weights.specs.ReadTerms.{with_positions};
ghost use Rattle.leaf_weights.specs.Suffixes.{HaveBytes, read_places, suffix_places};
ghost use Rattle.segment_postings.specs.Cursors.{entries_left};
ghost use Rattle.segment_reader.specs.SegmentReaders.{index_of};

use crate::prefix_ends::prefix_end;
use options::IndexRecordOption;
use segment_postings::SegmentPostings;
use segment_reader::{InvertedIndexReader, SegmentReader, TermDictionary, TermInfo, TermRange};
use std::alloc::{AllocError, Global};
use terms::{Field, Term};

/// Returns the terms from `prefix` to its end, by their value bytes.
fn range_of_prefix<'a>(
    alloc: Global,
    terms: &TermDictionary<'a>,
    prefix: &[u8],
) -> Result<TermRange<'a>, AllocError>
    ensures { IfOk result (λ range. range ≡ ahead (between prefix.now (prefix_end prefix.now) terms.now)) }
{
    match prefix_end(alloc, prefix)? {
        Some(end) => terms.range(alloc, prefix, Some(end.as_slice())),
        None => terms.range(alloc, prefix, None),
    }
}

/// Reads the postings of the term of `field` with the value bytes `key`.
fn read_suffix<'a>(
    index: &'a InvertedIndexReader,
    field: Field,
    key: &[u8],
    term_info: &TermInfo,
) -> SegmentPostings<'a>
    requires { info_in key.now (dictionary_in index.now field) ≡ Some term_info.now }
    ensures found { (contents : Contents index.now) → entries_left result
        ≡ with_positions (postings_in contents.fields field key.now) }
    ensures bytes { (i : ℕ) → slice_index key.now i < 256 }
{
    index.read_postings_from_terminfo(
        field,
        key,
        term_info,
        IndexRecordOption::WithFreqsAndPositions,
    )
}

/// Reads the postings of the first `max_expansions` terms of `range`, which are of `field`.
fn read_range<'a>(
    alloc: Global,
    index: &'a InvertedIndexReader,
    field: Field,
    range: TermRange<'a>,
    max_expansions: u32,
) -> Result<Vec<SegmentPostings<'a>>, AllocError>
    requires held { AllByRecursion (λ d. info_in d.0 (dictionary_in index.now field) ≡ Some d.1) range.rest }
    ensures found { (contents : Contents index.now) → IfOk result (λ read. map entries_left read.items
        ≡ read_places contents.fields field (take max_expansions range.entry.rest)) }
    ensures bytes { IfOk result (λ read. HaveBytes (take max_expansions range.entry.rest)) }
    ensures few { IfOk result (λ read. length read.items ≤ max_expansions) }
{
    let mut range = range;
    let mut read = Vec::new(alloc);
    let mut left = max_expansions;
    while left > 0 {
        if !range.advance() {
            return Ok(read);
        }
        read.push(read_suffix(index, field, range.key(), range.value()))?;
        left -= 1;
    }
    Ok(read)
}

/// Reads the postings of the first `max_expansions` terms, ascending, that begin with `prefix` and are of its field.
/// The greatest limit leaves no term out, since a field has no more in a segment.
pub(crate) fn read_suffixes<'a>(
    alloc: Global,
    reader: &SegmentReader<'a>,
    prefix: &Term,
    max_expansions: u32,
) -> Result<Vec<SegmentPostings<'a>>, AllocError>
    ensures found { (contents : Contents (index_of reader.now)) → IfOk result (λ read. map entries_left read.items
        ≡ read_places contents.fields (field_of prefix.now)
        (take max_expansions (suffix_places (index_of reader.now) prefix.now))) }
    ensures few { IfOk result (λ read. length read.items ≤ max_expansions) }
    ensures all { 4294967295 ≤ max_expansions
        → IfOk result (λ read. length (suffix_places (index_of reader.now) prefix.now) ≤ max_expansions) }
{
    let index = reader.inverted_index();
    let field = prefix.field();
    let terms = index.terms(field);
    let range = range_of_prefix(alloc, &terms, prefix.serialized_value_bytes())?;
    read_range(alloc, index, field, range, max_expansions)
}
