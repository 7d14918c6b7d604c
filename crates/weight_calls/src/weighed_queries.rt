//! What a weight answers in a segment.

ghost use Rattle.weights.specs.Weighing.{IsWeighed};

use case_lines::{Refusal, number, pair};
use case_segments::{Blocks, Highest, explained_score, scored};
use serde_json::Value;
use std::alloc::{AllocError, Global};
use weights::{SegmentReader, Weight};

/// The documents that match with their scores, how many of them are alive, in how many blocks they come, how many
/// exceed the scores before them, and the score of each document by its explanation.
pub(crate) fn weighed<'a, W: Weight<'a>>(
    alloc: Global,
    weight: &W,
    reader: &SegmentReader<'a>,
) -> Result<Value, Refusal>
    requires { IsWeighed (W.scores_by weight.now) 1 (W.query weight.now) }
{
    let list = vec![in alloc;
        scored(alloc, weight.for_each(alloc, reader)?)?,
        number(u64::from(weight.count(alloc, reader)?)),
        blocks(alloc, weight, reader)?,
        exceeding(alloc, weight, reader)?,
        explained(alloc, weight, reader)?,
    ]?;
    Ok(Value::Array(list))
}

/// In how many blocks the documents that match come, and how many they are.
fn blocks<'a, W: Weight<'a>>(
    alloc: Global,
    weight: &W,
    reader: &SegmentReader<'a>,
) -> Result<Value, AllocError>
    requires { IsWeighed (W.scores_by weight.now) 1 (W.query weight.now) }
{
    let mut sink = Blocks {
        blocks: 0,
        documents: 0,
    };
    weight.for_each_no_score(alloc, reader, &mut sink)?;
    pair(alloc, number(sink.blocks), number(sink.documents))
}

/// How many documents exceed the scores before them, and the highest score, or -1.
fn exceeding<'a, W: Weight<'a>>(
    alloc: Global,
    weight: &W,
    reader: &SegmentReader<'a>,
) -> Result<Value, AllocError>
    requires { IsWeighed (W.scores_by weight.now) 1 (W.query weight.now) }
{
    let mut sink = Highest {
        threshold: -1,
        taken: 0,
    };
    let _max_doc = reader.max_doc();
    weight.for_each_pruning(alloc, -1, reader, &mut sink)?;
    pair(alloc, number(sink.taken), Value::from(sink.threshold))
}

/// The score of each document, by its explanation; null of one that doesn't match.
fn explained<'a, W: Weight<'a>>(
    alloc: Global,
    weight: &W,
    reader: &SegmentReader<'a>,
) -> Result<Value, Refusal>
    requires { IsWeighed (W.scores_by weight.now) 1 (W.query weight.now) }
{
    let mut list = Vec::new(alloc);
    for doc in 0..reader.max_doc() {
        list.push(explained_score(weight.explain(alloc, reader, doc))?)?;
    }
    Ok(Value::Array(list))
}
