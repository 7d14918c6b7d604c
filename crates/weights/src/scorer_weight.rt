//! Weights that answer all that they are asked by their scorers.

use crate::calls;
use crate::weight::{SegmentWeight, Weight};
use common::{DocId, Score};
use definitions::Fault;
use segment_reader::SegmentReader;
use std::alloc::{AllocError, Global};
use term_scorer::Explanation;
use walks::{BlockSink, Sink};

/// A weight that answers all that it is asked by its scorer. It is a trait of its own so that each such weight has the
/// same five calls, written once.
pub trait ScorerWeight<'a>: SegmentWeight<'a> {
    /// Returns what the query asks for, in a few words.
    fn description(&self) -> &'static str;
}

impl<'a, W: ScorerWeight<'a>> Weight<'a> for W {
    fn explain(
        &self,
        alloc: Global,
        reader: &SegmentReader<'a>,
        doc: DocId,
    ) -> Result<Explanation, Fault> {
        calls::explain(alloc, self, reader, doc, self.description())
    }

    fn count(&self, alloc: Global, reader: &SegmentReader<'a>) -> Result<u32, AllocError> {
        calls::count(alloc, self, reader)
    }

    fn for_each(
        &self,
        alloc: Global,
        reader: &SegmentReader<'a>,
    ) -> Result<Vec<(DocId, Score)>, AllocError> {
        calls::for_each(alloc, self, reader)
    }

    fn for_each_no_score<K: BlockSink>(
        &self,
        alloc: Global,
        reader: &SegmentReader<'a>,
        sink: &mut K,
    ) -> Result<(), AllocError> {
        calls::for_each_no_score(alloc, self, reader, sink)
    }

    fn for_each_pruning<K: Sink>(
        &self,
        alloc: Global,
        threshold: Score,
        reader: &SegmentReader<'a>,
        sink: &mut K,
    ) -> Result<(), AllocError> {
        calls::for_each_pruning(alloc, self, threshold, reader, sink)
    }
}
