//! What a query answers over the segment that is held: `STEPS`, and then what is asked.

ghost use Rattle.std.specs.Prelude.{◌≡◌, length};
ghost use Rattle.definitions.specs.Settings.{similarity_of};
ghost use Rattle.query_trees.specs.Queries.{query_of};
ghost use Rattle.segment.specs.Opened.{num_docs_of};
ghost use Rattle.query_scorers.specs.Accepted.{IsAccepted};

use case_lines::{Arguments, Refusal, items_in, number, pair, query_by_steps};
use case_segments::{Blocks, Held, Highest, explained_score, scored};
use common::{AliveBitSet, Score};
use query::accept_query;
use query_answers::{count, explain, for_each, for_each_no_score, for_each_pruning};
use query_scorers::SegmentScorers;
use query_trees::AnyQuery;
use reader_scorers::{LeafWeights, ReaderScorers};
use segment::Segment;
use segment_reader::SegmentReader;
use serde_json::Value;
use settings::Settings;
use std::alloc::Global;
use weights::GivenWeights;

/// What an operation on a query answers, and what refuses the query where something does.
pub(crate) fn answer(
    held: &Held,
    operation: &str,
    arguments: &Arguments,
) -> Result<Value, Refusal> {
    let alloc = held.alloc;
    let query = query_by_steps(alloc, items_in(arguments.value(0)?)?)?;
    accept_query(&held.schema, &held.settings, &query)?;
    let segment = held.segment()?;
    let alive = held.alive(&segment)?;
    over(
        alloc,
        &segment,
        &alive,
        &held.settings,
        &query,
        operation,
        arguments,
    )
}

/// What an operation on a query answers over a segment whose documents are alive that a set has.
fn over<'a>(
    alloc: Global,
    segment: &'a Segment,
    alive: &'a AliveBitSet,
    settings: &'a Settings,
    query: &AnyQuery,
    operation: &str,
    arguments: &Arguments,
) -> Result<Value, Refusal>
    requires flagged { length alive.now ≡ num_docs_of segment.now }
    requires accepted { IsAccepted (similarity_of settings.now).weight 1 (query_of query.now) }
{
    let reader = segment.reader(Some(alive));
    let weights = GivenWeights::new(Some(settings));
    in_segment(alloc, &reader, &weights, query, operation, arguments)
}

/// What an operation on a query answers in a segment by weights.
fn in_segment<'a, W: LeafWeights<'a>>(
    alloc: Global,
    reader: &SegmentReader<'a>,
    weights: &W,
    query: &AnyQuery,
    operation: &str,
    arguments: &Arguments,
) -> Result<Value, Refusal>
    requires { IsAccepted (W.similarity weights.now).weight 1 (query_of query.now) }
{
    let forms = ReaderScorers::new(reader, weights);
    told(alloc, &forms, reader, query, operation, arguments)
}

/// What an operation on a query answers, by what makes the scorers of a segment.
fn told<F: SegmentScorers>(
    alloc: Global,
    forms: &F,
    reader: &SegmentReader<'_>,
    query: &AnyQuery,
    operation: &str,
    arguments: &Arguments,
) -> Result<Value, Refusal>
    requires segment { F.segment forms.now ≡ reader.now }
    requires accepted { IsAccepted (F.similarity forms.now).weight 1 (query_of query.now) }
{
    match operation {
        "answered" => answered(alloc, forms, reader, query),
        "pruned" => pruned(alloc, forms, reader, query, arguments.signed_number(1)?),
        "explained" => {
            let explanation = explain(alloc, forms, query, arguments.small_number(1)?)?;
            Ok(Value::from(explanation.value()))
        }
        "explained-each" => explained_each(alloc, forms, reader.max_doc(), query),
        _ => Err(Refusal::NotAsked),
    }
}

/// The documents that match with their scores, how many of them are alive, in how many blocks they come, and how many
/// exceed the scores before them.
fn answered<F: SegmentScorers>(
    alloc: Global,
    forms: &F,
    reader: &SegmentReader<'_>,
    query: &AnyQuery,
) -> Result<Value, Refusal>
    requires segment { F.segment forms.now ≡ reader.now }
    requires accepted { IsAccepted (F.similarity forms.now).weight 1 (query_of query.now) }
{
    let list = vec![in alloc;
        listed(alloc, forms, query)?,
        number(u64::from(count(alloc, forms, reader, query)?)),
        blocks(alloc, forms, query)?,
        pruned(alloc, forms, reader, query, -1)?,
    ]?;
    Ok(Value::Array(list))
}

/// The documents that match, with their scores.
fn listed<F: SegmentScorers>(alloc: Global, forms: &F, query: &AnyQuery) -> Result<Value, Refusal>
    requires { IsAccepted (F.similarity forms.now).weight 1 (query_of query.now) }
{
    Ok(scored(alloc, for_each(alloc, forms, query)?)?)
}

/// In how many blocks the documents that match come, and how many they are.
fn blocks<F: SegmentScorers>(alloc: Global, forms: &F, query: &AnyQuery) -> Result<Value, Refusal>
    requires { IsAccepted (F.similarity forms.now).weight 1 (query_of query.now) }
{
    let mut sink = Blocks {
        blocks: 0,
        documents: 0,
    };
    for_each_no_score(alloc, forms, query, &mut sink)?;
    Ok(pair(alloc, number(sink.blocks), number(sink.documents))?)
}

/// How many documents exceed a threshold and the scores before them, and the highest score, or the threshold.
fn pruned<F: SegmentScorers>(
    alloc: Global,
    forms: &F,
    reader: &SegmentReader<'_>,
    query: &AnyQuery,
    threshold: Score,
) -> Result<Value, Refusal>
    requires segment { F.segment forms.now ≡ reader.now }
    requires accepted { IsAccepted (F.similarity forms.now).weight 1 (query_of query.now) }
{
    let mut sink = Highest {
        threshold,
        taken: 0,
    };
    let _max_doc = reader.max_doc();
    for_each_pruning(alloc, forms, query, threshold, &mut sink)?;
    Ok(pair(alloc, number(sink.taken), Value::from(sink.threshold))?)
}

/// The score of each document, by its explanation; null of one that doesn't match.
fn explained_each<F: SegmentScorers>(
    alloc: Global,
    forms: &F,
    max_doc: u32,
    query: &AnyQuery,
) -> Result<Value, Refusal>
    requires { IsAccepted (F.similarity forms.now).weight 1 (query_of query.now) }
{
    let mut list = Vec::new(alloc);
    for doc in 0..max_doc {
        list.push(explained_score(explain(alloc, forms, query, doc))?)?;
    }
    Ok(Value::Array(list))
}
