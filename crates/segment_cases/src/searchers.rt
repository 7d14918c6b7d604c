//! Searchers over the segment that is held.

use crate::held::Held;
use crate::segments::opened;
use case_lines::{Cell, Refusal, cells, number, pair, triple};
use segment_reader::{DocAddress, EnableScoring, Searcher};
use serde_json::Value;
use std::alloc::{AllocError, Global};

/// What a searcher has: how many segments, the address behind the last document of the first, and what is asked of
/// scores over it in each of the four ways.
pub(crate) fn searched(held: &Held) -> Result<Value, Refusal> {
    let alloc = held.alloc;
    let segment = opened(alloc, &held.schema, &held.bytes)?;
    let readers = vec![in alloc; segment.reader(None)]?;
    let (given, own) = (60, 70);
    let searcher = Searcher::new(&held.schema, &given, readers);
    let asked = vec![in alloc;
        shown(alloc, EnableScoring::enabled_from_searcher(&searcher))?,
        shown(
            alloc,
            EnableScoring::enabled_from_statistics_provider(&own, &searcher)
        )?,
        shown(alloc, EnableScoring::disabled_from_searcher(&searcher))?,
        shown(alloc, EnableScoring::disabled_from_schema(&held.schema))?,
    ]?;
    let address = DocAddress::new(0, searcher.segment_reader(0).max_doc());
    Ok(triple(
        alloc,
        number(searcher.segment_readers().len() as u64),
        pair(
            alloc,
            number(u64::from(address.segment_ord)),
            number(u64::from(address.doc_id)),
        )?,
        Value::Array(asked),
    )?)
}

/// Whether scores are asked for, whether the segments are known, how many fields there are, and what scores come from.
fn shown(alloc: Global, scoring: EnableScoring<'_, u64>) -> Result<Value, AllocError> {
    let statistics = match scoring {
        EnableScoring::Enabled {
            statistics_provider,
            ..
        } => *statistics_provider,
        EnableScoring::Disabled { .. } => 0,
    };
    cells(
        alloc,
        &[
            Cell::Flag(scoring.is_scoring_enabled()),
            Cell::Flag(scoring.searcher().is_some()),
            Cell::Number(scoring.schema().num_fields() as u64),
            Cell::Number(statistics),
        ],
    )
}
