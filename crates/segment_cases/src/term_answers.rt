//! What the scorer of a term answers over the segment that is held: `TERM, FLAGS`, the term by its bytes and the
//! documents that are alive, and then what is asked.

ghost use Rattle.std.specs.Prelude.{[], ◌≡◌, IfSome, length, replicate};
ghost use Rattle.docsets.specs.Entries.{from};
ghost use Rattle.segment.specs.Opened.{num_docs_of};
ghost use Rattle.segment_reader.specs.SegmentReaders.{max_doc_of};
ghost use Rattle.term_scorer.specs.ScoredTerms.{scored_left};

use crate::best_hits::best;
use crate::counted_walks::best_counted;
use crate::held::Held;
use crate::record_bodies::alive_set;
use crate::segments::opened;
use crate::term_sinks::{Blocks, Highest};
use case_lines::{Arguments, Refusal, number, pair, triple};
use common::{AliveBitSet, Score};
use definitions::Fault;
use leaf_weights::TermWeight;
use schema::{IndexRecordOption, Term};
use scorer_answers::{
    count, count_all, count_term, explain, for_each, for_each_no_score, for_each_pruning,
};
use segment::Segment;
use segment_reader::SegmentReader;
use serde_json::Value;
use std::alloc::Global;
use term_scorer::TermScorer;

/// The weight of every term.
pub(crate) const WEIGHT: u64 = 60;

/// What an operation on a term answers.
pub(crate) fn answer(
    held: &Held,
    operation: &str,
    arguments: &Arguments,
) -> Result<Value, Refusal> {
    let alloc = held.alloc;
    let term = Term::wrap(arguments.bytes(alloc, 0)?)?;
    let alive = alive_set(alloc, arguments.text(1)?)?;
    let segment = opened(alloc, &held.schema, &held.bytes)?;
    if alive.len() != segment.num_docs() as usize {
        return Err(Refusal::NotAsked);
    }
    over(alloc, &segment, &alive, &term, operation, arguments)
}

/// What an operation on a term answers over a segment whose documents are alive that a set has.
fn over<'a>(
    alloc: Global,
    segment: &'a Segment,
    alive: &'a AliveBitSet,
    term: &'a Term,
    operation: &str,
    arguments: &Arguments,
) -> Result<Value, Refusal>
    requires flagged { length alive.now ≡ num_docs_of segment.now }
{
    let norms = [1; 256];
    let reader = segment.reader(Some(alive));
    if operation == "term-best" {
        return best(alloc, &reader, alive, term, arguments.small_number(2)?);
    }
    if operation == "term-best-counted" {
        return best_counted(alloc, &reader, alive, term, arguments.small_number(2)?);
    }
    let scorer = scorer_of(&reader, term, &norms);
    told(alloc, &reader, term, scorer, operation, arguments)
}

/// What an operation answers of a term, with its scorer.
fn told(
    alloc: Global,
    reader: &SegmentReader<'_>,
    term: &Term,
    scorer: Option<TermScorer<'_>>,
    operation: &str,
    arguments: &Arguments,
) -> Result<Value, Refusal>
    requires { IfSome scorer (λ s. from (max_doc_of reader.now) (scored_left s) ≡ []) }
{
    match operation {
        "term-counted" => counted(alloc, reader, term, scorer),
        "term-listed" => listed(alloc, scorer),
        "term-blocks" => Ok(number(blocks(scorer))),
        "term-pruned" => Ok(Value::from(pruned(scorer, arguments.signed_number(2)?))),
        "term-explained" => explained(alloc, scorer, arguments.small_number(2)?),
        _ => Err(Refusal::NotAsked),
    }
}

/// The scorer of a term in a segment; none where no document holds it.
pub(crate) fn scorer_of<'a>(
    reader: &SegmentReader<'a>,
    term: &'a Term,
    norms: &'a [u32; 256],
) -> Option<TermScorer<'a>>
    requires { norms.now ≡ replicate 256 1 }
    ensures { IfSome result (λ scorer. from (max_doc_of reader.now) (scored_left scorer) ≡ []) }
{
    TermWeight::new(term, IndexRecordOption::WithFreqs, WEIGHT, norms).term_scorer(reader, 1)
}

/// How many living documents hold the term, without a scorer and with it, and how many are alive.
fn counted(
    alloc: Global,
    reader: &SegmentReader<'_>,
    term: &Term,
    scorer: Option<TermScorer<'_>>,
) -> Result<Value, Refusal>
    requires { IfSome scorer (λ s. from (max_doc_of reader.now) (scored_left s) ≡ []) }
{
    let by_scorer = match scorer {
        Some(mut scorer) => count(&mut scorer, reader),
        None => 0,
    };
    Ok(triple(
        alloc,
        number(u64::from(count_term(term, reader))),
        number(u64::from(by_scorer)),
        number(u64::from(count_all(reader))),
    )?)
}

/// Each document that holds the term, with its score.
fn listed(alloc: Global, scorer: Option<TermScorer<'_>>) -> Result<Value, Refusal> {
    let mut list = Vec::new(alloc);
    if let Some(mut scorer) = scorer {
        for (doc, score) in for_each(alloc, &mut scorer)? {
            list.push(pair(alloc, number(u64::from(doc)), Value::from(score))?)?;
        }
    }
    Ok(Value::Array(list))
}

/// In how many blocks the documents come.
fn blocks(scorer: Option<TermScorer<'_>>) -> u64 {
    let mut sink = Blocks { taken: 0 };
    if let Some(mut scorer) = scorer {
        for_each_no_score(&mut scorer, &mut sink);
    }
    sink.taken
}

/// The highest score above a threshold, or the threshold.
fn pruned(scorer: Option<TermScorer<'_>>, threshold: Score) -> Score {
    let mut sink = Highest { threshold };
    if let Some(mut scorer) = scorer {
        for_each_pruning(&mut scorer, threshold, &mut sink);
    }
    sink.threshold
}

/// The score of a document.
fn explained(alloc: Global, scorer: Option<TermScorer<'_>>, doc: u32) -> Result<Value, Refusal> {
    let Some(scorer) = scorer else {
        return Err(Refusal::Fault(Fault::InvalidArgument));
    };
    let explanation = explain(alloc, scorer, doc, "a term")?;
    Ok(Value::from(explanation.value()))
}
