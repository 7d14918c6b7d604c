//! What the walks that leave blocks out feed of a term.

ghost use Rattle.std.specs.Prelude.{◌≤◌};
ghost use Rattle.docsets.specs.ScoredEntries.{greatest_score};

use crate::boxed_scorers::{Boxed, all_documents, of_term};
use crate::leaf_forms::term_weight;
use case_lines::{Refusal, number, pair, triple};
use case_segments::Highest;
use docsets::{ConstScorer, DocSet};
use query::AnyQuery;
use serde_json::Value;
use settings::Settings;
use std::alloc::{AllocError, Global};
use walks::{block_wand, block_wand_single_scorer};
use weights::{SegmentReader, TermWeight};

/// How many documents of a term exceed the scores before them, and the highest score, by its weight and by its scorer;
/// and of a union of the term and all documents, each of which gives 2.
pub(crate) fn by_blocks<'a>(
    alloc: Global,
    query: &AnyQuery,
    statistics: &'a Settings,
    reader: &SegmentReader<'a>,
) -> Result<Value, Refusal> {
    let AnyQuery::Term(query) = query else {
        return Err(Refusal::NotAsked);
    };
    let weight = term_weight(query, statistics);
    let by_weight = fed_by_weight(alloc, &weight, reader)?;
    let by_scorer = fed_by_scorer(alloc, &weight, reader)?;
    Ok(triple(
        alloc,
        by_weight,
        by_scorer,
        fed_of_union(alloc, &weight, reader)?,
    )?)
}

/// How many documents of a term exceed the scores before them, the highest score, and how many blocks were decoded.
fn fed_by_weight<'a>(
    alloc: Global,
    weight: &TermWeight<'_, 'a>,
    reader: &SegmentReader<'a>,
) -> Result<Value, Refusal> {
    let mut sink = Highest {
        threshold: -1,
        taken: 0,
    };
    let _max_doc = reader.max_doc();
    let decoded = weight.for_each_pruning_counted(-1, reader, &mut sink)?;
    let highest = Value::from(sink.threshold);
    Ok(triple(alloc, number(sink.taken), highest, number(decoded))?)
}

/// How many documents of a term exceed the scores before them, and the highest score, by the walk of its scorer.
fn fed_by_scorer<'a>(
    alloc: Global,
    weight: &TermWeight<'_, 'a>,
    reader: &SegmentReader<'a>,
) -> Result<Value, Refusal> {
    let mut sink = Highest {
        threshold: -1,
        taken: 0,
    };
    if let Some(mut scorer) = weight.term_scorer(reader, 1) {
        block_wand_single_scorer(&mut scorer, -1, &mut sink);
    }
    Ok(told(alloc, &sink)?)
}

/// How many documents exceed the scores before them, and the highest score, where a term and all documents give 2.
fn fed_of_union<'a>(
    alloc: Global,
    weight: &TermWeight<'_, 'a>,
    reader: &SegmentReader<'a>,
) -> Result<Value, Refusal> {
    let mut sink = Highest {
        threshold: -1,
        taken: 0,
    };
    let scorers = vec![in alloc;
        giving_two(of_term(alloc, weight, reader)),
        giving_two(all_documents(alloc, reader)?),
    ]?;
    block_wand(scorers, -1, &mut sink);
    Ok(told(alloc, &sink)?)
}

/// The documents of a scorer, each with the score 2.
fn giving_two<'a>(scorer: Boxed<'a>) -> ConstScorer<Boxed<'a>>
    ensures { greatest_score (⟦<ConstScorer<Boxed<'a>> as DocSet>⟧.entries result) ≤ 2 }
{
    ConstScorer::new(scorer, 2)
}

/// How many documents were taken, and the highest score.
fn told(alloc: Global, sink: &Highest) -> Result<Value, AllocError> {
    pair(alloc, number(sink.taken), Value::from(sink.threshold))
}
