//! What sinks take of a phrase: `TERMS, SLOP`, and then for scores the threshold and the sum of the weights.

ghost use Rattle.std.specs.Prelude.{◌≡◌};

use crate::phrase_rows::{phrase_of, similarity};
use case_lines::{Arguments, Refusal, number, pair, triple};
use common::{DocId, Score};
use docsets::Scorer;
use phrases::{BlockSink, Sink};
use segment_reader::InvertedIndexReader;
use serde_json::Value;
use std::alloc::Global;
use walks::{for_each_docset_buffered, for_each_pruning_scorer};

/// How many documents were taken, the last of them, and the threshold, which is the score of the last.
#[derive(Clone, Copy)]
struct Climbing {
    taken: u32,
    last: DocId,
    threshold: Score,
}

impl Sink for Climbing {
    ghost use Rattle.std.specs.Prelude.{◌+◌, min, pos};

    type State = Climbing;

    ghost state = { λ s. s };

    ghost limit = { λ s. s.threshold };

    ghost taken = { λ s p. record { taken = min (s.taken + 1) 4294967295; last = p.0; threshold = pos p.1 } };

    ghost room = { λ s. 4294967295 };

    fn threshold(&self) -> Score {
        self.threshold
    }

    fn collect(&mut self, doc: DocId, score: Score) -> Score {
        self.taken = self.taken.saturating_add(1);
        self.last = doc;
        self.threshold = score;
        score
    }
}

/// How many blocks were taken, and how many documents.
#[derive(Clone, Copy)]
struct Counted {
    blocks: u64,
    docs: u64,
}

impl BlockSink for Counted {
    ghost use Rattle.std.specs.Prelude.{◌+◌, length, min};

    type State = Counted;

    ghost state = { λ s. s };

    ghost taken = { λ s docs. record { blocks = min (s.blocks + 1) 18446744073709551615; docs = min (s.docs + length docs) 18446744073709551615 } };

    fn collect_block(&mut self, docs: &[DocId]) {
        self.blocks = self.blocks.saturating_add(1);
        self.docs = self.docs.saturating_add(docs.len() as u64);
    }
}

/// Feeds a sink all documents of a scorer.
fn feed<S: Scorer>(scorer: &mut S, threshold: Score, sink: &mut Climbing)
    requires { threshold ≡ sink.old.threshold }
{
    for_each_pruning_scorer(scorer, threshold, sink);
}

/// How many documents a climbing sink takes, the last of them, and its score.
pub(crate) fn taken(
    alloc: Global,
    reader: &InvertedIndexReader,
    arguments: &Arguments,
) -> Result<Value, Refusal> {
    let norms = [1; 256];
    let slop = arguments.small_number(1)?;
    let threshold = arguments.signed_number(2)?;
    let similarity = similarity(arguments.signed_number(3)?, 1, &norms)?;
    let mut sink = Climbing {
        taken: 0,
        last: 0,
        threshold,
    };
    let found = phrase_of(alloc, reader, arguments.list(0)?, slop, Some(similarity))?;
    if let Some(mut phrase) = found {
        feed(&mut phrase, threshold, &mut sink);
    }
    Ok(triple(
        alloc,
        number(u64::from(sink.taken)),
        number(u64::from(sink.last)),
        Value::from(sink.threshold),
    )?)
}

/// In how many blocks the documents of a phrase come, and how many documents.
pub(crate) fn blocks(
    alloc: Global,
    reader: &InvertedIndexReader,
    arguments: &Arguments,
) -> Result<Value, Refusal> {
    let slop = arguments.small_number(1)?;
    let mut sink = Counted { blocks: 0, docs: 0 };
    if let Some(mut phrase) = phrase_of(alloc, reader, arguments.list(0)?, slop, None)? {
        for_each_docset_buffered(&mut phrase, &mut sink);
    }
    Ok(pair(alloc, number(sink.blocks), number(sink.docs))?)
}
