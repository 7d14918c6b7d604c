//! The documents where a phrase prefix stands: `TERMS, PREFIX`, the whole terms and the prefix, each with its offset,
//! and then for scores the sum of the weights and the boost.

ghost use Rattle.std.specs.Prelude.{◌≡◌, replicate};

use crate::asked_terms::{offset_in, postings_of, text_of};
use crate::phrase_rows::{MOST, Phrase, end_of_seek, phrase_of, similarity};
use case_lines::{Arguments, Refusal, number, triple};
use common::{MAX_SCORE, Score, TERMINATED};
use docsets::{DocSet, Scorer};
use intersections::Positioned;
use phrases::{OneTermPhrase, PhraseKind, PhrasePrefixScorer};
use schema::Field;
use segment_postings::SegmentPostings;
use segment_reader::InvertedIndexReader;
use serde_json::Value;
use std::alloc::Global;
use term_scorer::Similarity;

/// What stands before a prefix.
type Whole<'a> = PhraseKind<OneTermPhrase<SegmentPostings<'a>>, Phrase<'a>>;

/// A phrase prefix over the postings of an index.
type Prefix<'a> = PhrasePrefixScorer<Whole<'a>, SegmentPostings<'a>>;

/// The most documents that are answered.
const MOST_SUFFIXES: usize = 1000;

/// The phrase of the whole terms; none where one of them isn't in the index.
fn whole_of<'a>(
    alloc: Global,
    reader: &'a InvertedIndexReader,
    terms: &[Value],
    similarity: Similarity<'a>,
    boost: Score,
) -> Result<Option<Whole<'a>>, Refusal> {
    if terms.len() != 1 {
        let Some(phrase) = phrase_of(alloc, reader, terms, 0, Some(similarity))? else {
            return Ok(None);
        };
        return Ok(Some(PhraseKind::MultiPrefix(phrase)));
    }
    if boost < 0 || boost > MAX_SCORE {
        return Err(Refusal::NotAsked);
    }
    let Some(postings) = postings_of(alloc, reader, text_of(&terms[0])?)? else {
        return Ok(None);
    };
    let phrase = OneTermPhrase::new(alloc, postings, boost)?;
    Ok(Some(PhraseKind::SinglePrefix(phrase)))
}

/// The postings of the terms that begin with a prefix.
fn suffixes_of<'a>(
    alloc: Global,
    reader: &'a InvertedIndexReader,
    prefix: &str,
) -> Result<Vec<SegmentPostings<'a>>, Refusal> {
    let mut found = Vec::new(alloc);
    let mut terms = reader.range(alloc, Field::from_field_id(0), prefix.as_bytes(), None)?;
    for _ in 0..MOST_SUFFIXES {
        if terms.advance() {
            let key = str::from_utf8(terms.key()).ok().ok_or(Refusal::NotAsked)?;
            if !key.starts_with(prefix) {
                return Ok(found);
            }
            if let Some(postings) = postings_of(alloc, reader, key)? {
                found.push(postings)?;
            }
        }
    }
    Ok(found)
}

/// How far the prefix stands behind the last whole term.
fn moved_by(terms: &[Value], prefix: &Value) -> Result<u32, Refusal> {
    let Some(last) = terms.last() else {
        return Err(Refusal::NotAsked);
    };
    offset_in(prefix)?
        .checked_sub(offset_in(last)?)
        .ok_or(Refusal::NotAsked)
}

/// The scorer of a phrase prefix; none where one of its whole terms isn't in the index.
fn prefix_of<'a>(
    alloc: Global,
    reader: &'a InvertedIndexReader,
    arguments: &Arguments,
    norms: &'a [u32; 256],
) -> Result<Option<Prefix<'a>>, Refusal>
    requires { norms.now ≡ replicate 256 1 }
{
    let terms = arguments.list(0)?;
    let prefix = arguments.value(1)?;
    let boost = arguments.signed_number(3)?;
    let similarity = similarity(arguments.signed_number(2)?, boost, norms)?;
    let Some(whole) = whole_of(alloc, reader, terms, similarity, boost)? else {
        return Ok(None);
    };
    let suffixes = suffixes_of(alloc, reader, text_of(prefix)?)?;
    if whole.most_positions() > u32::MAX as usize || suffixes.len() > MOST_SUFFIXES {
        return Err(Refusal::NotAsked);
    }
    let moved = moved_by(terms, prefix)?;
    Ok(Some(PhrasePrefixScorer::new(alloc, whole, suffixes, moved)?))
}

/// Each document with how often suffixes stand behind the phrase, and its score.
pub(crate) fn scores(
    alloc: Global,
    reader: &InvertedIndexReader,
    arguments: &Arguments,
) -> Result<Value, Refusal> {
    let norms = [1; 256];
    let mut rows = Vec::new(alloc);
    if let Some(mut prefix) = prefix_of(alloc, reader, arguments, &norms)? {
        for _ in 0..MOST {
            if prefix.doc() < TERMINATED {
                let doc = number(u64::from(prefix.doc()));
                let count = number(prefix.phrase_count());
                rows.push(triple(alloc, doc, count, Value::from(prefix.score()))?)?;
            }
            prefix.advance();
        }
    }
    Ok(Value::Array(rows))
}

/// The document at which a seek ends.
pub(crate) fn sought(
    alloc: Global,
    reader: &InvertedIndexReader,
    arguments: &Arguments,
) -> Result<Value, Refusal> {
    let norms = [1; 256];
    let target = arguments.small_number(4)?;
    let Some(mut prefix) = prefix_of(alloc, reader, arguments, &norms)? else {
        return Ok(Value::Null);
    };
    end_of_seek(&mut prefix, target)
}
