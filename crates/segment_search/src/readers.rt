//! Segments as queries see them.

ghost use Rattle.std.specs.Prelude.{◌≡◌, IfOk, List, length, map};
ghost use Rattle.std.specs.List.{AllZip};
ghost use Rattle.definitions.specs.Analyzers.{Analyzer};
ghost use Rattle.definitions.specs.Schema.{Schema};
ghost use Rattle.definitions.specs.Values.{Document};
ghost use Rattle.scorer_answers.specs.Rows.{HasRows, flags_in};
ghost use Rattle.segment.specs.Opened.{StandsFor};
ghost use Rattle.segment_search.specs.Flags.{AreFlagged, flagged_each};

use common::AliveBitSet;
use segment::Segment;
use segment_reader::SegmentReader;
use std::alloc::{AllocError, Global};

/// Returns a reader of each of the first segments, with its alive flags.
pub(crate) fn readers_of<'a>(
    alloc: Global,
    segments: &'a [Segment],
    alive: &'a [AliveBitSet],
) -> Result<Vec<SegmentReader<'a>>, AllocError>
    requires flagged { AreFlagged segments.now alive.now }
    ensures rows { (schema : Schema) (analyze : Analyzer) (docs : List (List Document))
        → AllZip (StandsFor schema analyze) docs segments.now
        → IfOk result (λ readers. AllZip (HasRows schema analyze) (flagged_each docs alive.now) readers.items) }
    ensures flags { IfOk result (λ readers. map flags_in readers.items ≡ alive.now) }
    ensures len { IfOk result (λ readers. length readers.items ≡ length alive.now) }
{
    let mut readers = Vec::with_capacity(alloc, alive.len())?;
    for (index, set) in alive.iter().enumerate() {
        readers.push(segments[index].reader(Some(set)))?;
    }
    Ok(readers)
}
