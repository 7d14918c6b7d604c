//! The documents where a phrase stands: `TERMS, SLOP`, and then for scores the sum of the weights and the boost.

ghost use Rattle.std.specs.Prelude.{◌<◌, ◌≡◌, ◌≤◌, length, replicate};
ghost use Rattle.docsets.specs.Entries.{first};
ghost use Rattle.definitions.specs.Postings.{terminated};

use crate::asked_terms::{offsets_fit, postings_of_terms};
use case_lines::{Arguments, Refusal, number, numbers, pair, triple};
use codes::FieldNormReader;
use common::{MAX_SCORE, Score, TERMINATED};
use docsets::{DocSet, Scorer};
use intersections::Positioned;
use phrases::{PhraseScorer, PostingsWithOffset};
use segment_postings::SegmentPostings;
use segment_reader::InvertedIndexReader;
use serde_json::Value;
use std::alloc::Global;
use term_scorer::Similarity;

/// The most documents that are answered.
pub(crate) const MOST: usize = 1000;

/// A phrase over the postings of an index.
pub(crate) type Phrase<'a> = PhraseScorer<'a, PostingsWithOffset<SegmentPostings<'a>>>;

/// A weight and a boost, where they meet what is asked of them, with norms that are all 1.
pub(crate) fn similarity(
    weight: Score,
    boost: Score,
    norms: &[u32; 256],
) -> Result<Similarity<'_>, Refusal>
    requires { norms.now ≡ replicate 256 1 }
{
    if weight < 0 || boost < 0 {
        return Err(Refusal::NotAsked);
    }
    match (boost as u64).checked_mul(weight as u64) {
        Some(product) if product <= MAX_SCORE as u64 => Ok(Similarity::new(weight, boost, norms)),
        _ => Err(Refusal::NotAsked),
    }
}

/// The length 1 for each document.
fn one_length<'a>() -> FieldNormReader<'a>
    ensures { terminated ≤ length result }
{
    FieldNormReader::constant(TERMINATED, 1)
}

/// The scorer of a phrase; none where one of its terms isn't in the index.
pub(crate) fn phrase_of<'a>(
    alloc: Global,
    reader: &'a InvertedIndexReader,
    terms: &[Value],
    slop: u32,
    similarity: Option<Similarity<'a>>,
) -> Result<Option<Phrase<'a>>, Refusal> {
    let Some(term_postings) = postings_of_terms(alloc, reader, terms)? else {
        return Ok(None);
    };
    if term_postings.len() < 2 {
        return Err(Refusal::NotAsked);
    }
    if !offsets_fit(&term_postings) {
        return Err(Refusal::NotAsked);
    }
    let lengths = one_length();
    Ok(Some(PhraseScorer::new(alloc, term_postings, similarity, lengths, slop)?))
}

/// Each document with how often the phrase stands in it and its score.
pub(crate) fn scores(
    alloc: Global,
    reader: &InvertedIndexReader,
    arguments: &Arguments,
) -> Result<Value, Refusal> {
    let norms = [1; 256];
    let similarity = similarity(
        arguments.signed_number(2)?,
        arguments.signed_number(3)?,
        &norms,
    )?;
    let slop = arguments.small_number(1)?;
    let mut rows = Vec::new(alloc);
    let found = phrase_of(alloc, reader, arguments.list(0)?, slop, Some(similarity))?;
    if let Some(mut phrase) = found {
        for _ in 0..MOST {
            if phrase.doc() < TERMINATED {
                let doc = number(u64::from(phrase.doc()));
                let count = number(u64::from(phrase.phrase_count()));
                rows.push(triple(alloc, doc, count, Value::from(phrase.score()))?)?;
            }
            phrase.advance();
        }
    }
    Ok(Value::Array(rows))
}

/// Each document with the places of the phrase.
pub(crate) fn places(
    alloc: Global,
    reader: &InvertedIndexReader,
    arguments: &Arguments,
) -> Result<Value, Refusal> {
    let slop = arguments.small_number(1)?;
    let mut rows = Vec::new(alloc);
    if let Some(mut phrase) = phrase_of(alloc, reader, arguments.list(0)?, slop, None)? {
        for _ in 0..MOST {
            if phrase.doc() < TERMINATED {
                let doc = number(u64::from(phrase.doc()));
                let places = places_here(alloc, &mut phrase)?;
                rows.push(pair(alloc, doc, numbers(alloc, &places)?)?)?;
            }
            phrase.advance();
        }
    }
    Ok(Value::Array(rows))
}

/// The places in the current document.
fn places_here<S: Positioned>(alloc: Global, scorer: &mut S) -> Result<Vec<u32>, Refusal>
    requires { first (S.entries scorer.old) < terminated }
{
    let mut places = Vec::with_capacity(alloc, scorer.most_positions())?;
    scorer.positions(&mut places);
    Ok(places)
}

/// The document at which a seek ends.
pub(crate) fn sought(
    alloc: Global,
    reader: &InvertedIndexReader,
    arguments: &Arguments,
) -> Result<Value, Refusal> {
    let slop = arguments.small_number(1)?;
    let target = arguments.small_number(2)?;
    let Some(mut phrase) = phrase_of(alloc, reader, arguments.list(0)?, slop, None)? else {
        return Ok(Value::Null);
    };
    end_of_seek(&mut phrase, target)
}

/// The document at which a seek of a cursor ends.
pub(crate) fn end_of_seek<D: DocSet>(docset: &mut D, target: u32) -> Result<Value, Refusal> {
    if docset.doc() > target || target > TERMINATED {
        return Err(Refusal::NotAsked);
    }
    Ok(number(u64::from(docset.seek(target))))
}
