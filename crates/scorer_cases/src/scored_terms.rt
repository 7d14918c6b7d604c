//! Scorers of terms.

ghost use Rattle.std.specs.Prelude.{[], ◌<◌, ◌≡◌, ◌≤◌, IfOk, List, false, if◌then◌else◌, length, nat_eq, replicate, true, ℕ};
ghost use Rattle.definitions.specs.Lengths.{fieldnorm_to_id};
ghost use Rattle.docsets.specs.Entries.{first, from};
ghost use Rattle.definitions.specs.Postings.{terminated};
ghost use Rattle.definitions.specs.Scoring.{DontFall};
ghost use Rattle.segment_postings.specs.Cursors.{entries_left};
ghost use Rattle.segment_postings.specs.Reading.{HasPostings};
ghost use Rattle.term_scorer.specs.ScoredTerms.{scored_left};

use crate::moves::moved;
use crate::term_blocks::moved_scorer;
use crate::written_terms::{opened, written};
use case_lines::{Arguments, Refusal, number};
use codes::FieldNormReader;
use common::{MAX_SCORE, Score, TERMINATED};
use docsets::DocSet;
use scorers::{Scorer, Similarity, TermScorer};
use segment_postings::SegmentPostings;
use serde_json::Value;
use std::alloc::Global;

/// The most documents of a term.
const MOST: usize = 1000;

/// What is told of a scorer.
#[derive(Clone, Copy)]
enum Asked {
    Scores,
    Explanation,
    Moves,
    Blocks,
}

/// Each document with its count, its length id and its score, and then the greatest score.
pub(crate) fn scores(alloc: Global, arguments: &Arguments) -> Result<Value, Refusal> {
    told(alloc, arguments, Asked::Scores, TERMINATED)
}

/// The explanation of the first document's score.
pub(crate) fn explained(alloc: Global, arguments: &Arguments) -> Result<Value, Refusal> {
    told(alloc, arguments, Asked::Explanation, TERMINATED)
}

/// What each move of a scorer answers.
pub(crate) fn moves(alloc: Global, arguments: &Arguments) -> Result<Value, Refusal> {
    told(alloc, arguments, Asked::Moves, TERMINATED)
}

/// What each move of a scorer answers, with the bound of the block reached.
pub(crate) fn blocks(alloc: Global, arguments: &Arguments) -> Result<Value, Refusal> {
    told(alloc, arguments, Asked::Blocks, TERMINATED)
}

/// What a scorer tells, made of whether counts are read, documents with counts, their length ids if their field keeps
/// lengths, a weight, a boost and norms. A field that keeps no lengths has `num_docs` documents.
fn told(
    alloc: Global,
    arguments: &Arguments,
    asked: Asked,
    num_docs: u32,
) -> Result<Value, Refusal> {
    let (recorded, reads) = counts_in(arguments.value(0)?)?;
    let docs = docs_in(alloc, arguments.list(1)?)?;
    let ids = arguments.bytes(alloc, 2)?;
    let bytes = written(alloc, &docs, recorded, lengths_of(&ids, num_docs)?)?;
    let norms = arguments.numbers(alloc, 5)?;
    let similarity = similarity(
        arguments.signed_number(3)?,
        arguments.signed_number(4)?,
        &norms,
    )?;
    let lengths = lengths_of(&ids, num_docs)?;
    let mut scorer = scorer(
        &bytes,
        docs.len() as u32,
        recorded,
        reads,
        lengths,
        similarity,
    )?;
    match asked {
        Asked::Scores => rows(alloc, &mut scorer),
        Asked::Explanation => explanation(alloc, &scorer),
        Asked::Moves => moved(alloc, &mut scorer, arguments.list(6)?),
        Asked::Blocks => moved_scorer(alloc, &mut scorer, arguments.list(6)?),
    }
}

/// Whether counts are recorded, and whether they are read: neither where the value is null.
pub(crate) fn counts_in(value: &Value) -> Result<(bool, bool), Refusal>
    ensures { IfOk result (λ counts. counts.1 ≡ true → counts.0 ≡ true) }
{
    if value.is_null() {
        return Ok((false, false));
    }
    Ok((true, value.as_bool().ok_or(Refusal::NotAsked)?))
}

/// Documents, each with its count, at most 1000: `[DOCUMENT, COUNT]`, or `[DOCUMENT, STEP, N, COUNT]` for N of them.
pub(crate) fn docs_in(alloc: Global, values: &[Value]) -> Result<Vec<(u32, u32)>, Refusal>
    ensures { IfOk result (λ docs. length docs.items ≤ 1000) }
{
    let mut docs = Vec::new(alloc);
    for value in values {
        push_docs(&mut docs, value)?;
    }
    if docs.len() > MOST {
        return Err(Refusal::NotAsked);
    }
    Ok(docs)
}

/// Adds a document, or as many as a value says with the same distance and the same count.
fn push_docs(docs: &mut Vec<(u32, u32)>, value: &Value) -> Result<(), Refusal> {
    if value.get(2).is_none() {
        docs.push((part(value, 0)?, part(value, 1)?))?;
        return Ok(());
    }
    let mut doc = part(value, 0)?;
    for _ in 0..part(value, 2)? {
        docs.push((doc, part(value, 3)?))?;
        doc = doc.saturating_add(part(value, 1)?);
    }
    Ok(())
}

/// The number at an index of a list.
fn part(value: &Value, index: usize) -> Result<u32, Refusal> {
    value
        .get(index)
        .and_then(Value::as_u64)
        .and_then(|number| u32::try_from(number).ok())
        .ok_or(Refusal::NotAsked)
}

/// The lengths of a field: the id of each document, or that of length 1 for `num_docs` where there is no id.
pub(crate) fn lengths_of(ids: &[u8], num_docs: u32) -> Result<FieldNormReader<'_>, Refusal>
    ensures { IfOk result (λ lengths. lengths
        ≡ (if nat_eq (length ids.now) 0 then replicate num_docs (fieldnorm_to_id 1) else ids.now)) }
{
    if ids.is_empty() {
        return Ok(FieldNormReader::constant(num_docs, 1));
    }
    let count = u32::try_from(ids.len()).ok().ok_or(Refusal::NotAsked)?;
    Ok(FieldNormReader::open(ids, count)?)
}

/// A weight and a boost, where they meet what is asked of them, with norms.
fn similarity(weight: Score, boost: Score, norms: &[u32]) -> Result<Similarity<'_>, Refusal> {
    if weight < 0 || boost < 0 || norms.len() != 256 || !rise(norms) {
        return Err(Refusal::NotAsked);
    }
    match (boost as u64).checked_mul(weight as u64) {
        Some(product) if product <= MAX_SCORE as u64 => Ok(Similarity::new(weight, boost, norms)),
        _ => Err(Refusal::NotAsked),
    }
}

/// Whether norms don't fall.
fn rise(norms: &[u32]) -> bool
    ensures { result ≡ true → DontFall norms.now }
{
    let Some((first, rest)) = norms.split_first() else {
        return true;
    };
    let Some(second) = rest.first() else {
        return true;
    };
    *first <= *second && rise(rest)
}

/// Whether all documents are below a number.
fn are_below(postings: &mut SegmentPostings<'_>, num_docs: u32) -> bool
    ensures { result ≡ true → from num_docs (entries_left postings.old) ≡ [] }
{
    if num_docs > TERMINATED || postings.doc() > num_docs {
        return false;
    }
    postings.seek(num_docs) == TERMINATED
}

/// The scorer of a term whose documents all have a length id, with which they were written.
fn scorer<'a>(
    bytes: &'a [u8],
    num_docs: u32,
    recorded: bool,
    reads: bool,
    lengths: FieldNormReader<'a>,
    similarity: Similarity<'a>,
) -> Result<TermScorer<'a>, Refusal>
    requires written { (ds counts : List ℕ) × (known : HasPostings recorded false num_docs bytes.now ds counts)
        × (known.ids ≡ lengths) }
    requires recorded { reads ≡ true → recorded ≡ true }
{
    if !are_below(
        &mut opened(bytes, num_docs, recorded, reads),
        lengths.num_docs(),
    ) {
        return Err(Refusal::NotAsked);
    }
    Ok(TermScorer::new(
        opened(bytes, num_docs, recorded, reads),
        lengths,
        similarity,
    ))
}

/// Each document with its count, its length id and its score, and then the greatest score.
fn rows(alloc: Global, scorer: &mut TermScorer<'_>) -> Result<Value, Refusal> {
    let mut rows = Vec::new(alloc);
    for _ in 0..MOST {
        if scorer.doc() < TERMINATED {
            rows.push(row(alloc, scorer)?)?;
        }
        scorer.advance();
    }
    rows.push(Value::from(scorer.max_score()))?;
    Ok(Value::Array(rows))
}

/// The current document with its count, its length id and its score.
fn row(alloc: Global, scorer: &mut TermScorer<'_>) -> Result<Value, Refusal>
    requires { first (scored_left scorer.old) < terminated }
{
    Ok(Value::Array(vec![in alloc;
        number(u64::from(scorer.doc())),
        number(u64::from(scorer.term_freq())),
        number(u64::from(scorer.fieldnorm_id())),
        Value::from(scorer.score()),
    ]?))
}

/// The explanation of the current document's score.
fn explanation(alloc: Global, scorer: &TermScorer<'_>) -> Result<Value, Refusal> {
    if scorer.doc() >= TERMINATED {
        return Err(Refusal::NotAsked);
    }
    Ok(Value::String(scorer.explain(alloc)?.to_pretty_json(alloc)?))
}
