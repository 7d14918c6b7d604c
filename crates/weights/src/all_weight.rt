//! The weight of the query that all documents match.

ghost use Rattle.std.specs.Prelude.{⊤};
ghost use Rattle.definitions.specs.Query.{all};

use crate::calls;
use crate::weight::{SegmentWeight, Weight};
use common::{DocId, Score};
use definitions::Fault;
use docsets::{AllScorer, BoostScorer};
use query_scorers::all_scorer;
use scorer_answers::count_all;
use segment_reader::SegmentReader;
use std::alloc::{AllocError, Global};
use term_scorer::Explanation;
use walks::{BlockSink, Sink};

/// The weight of the query that all documents match: each scores the boost.
#[derive(Clone, Copy, Debug)]
pub struct AllWeight;

impl<'a> SegmentWeight<'a> for AllWeight {
    type Scorer = BoostScorer<AllScorer>;

    ghost scores_by = { λ w sim. ⊤ };

    ghost query = { λ w. all };

    fn scorer(
        &self,
        _alloc: Global,
        reader: &SegmentReader<'a>,
        boost: Score,
    ) -> Result<BoostScorer<AllScorer>, AllocError> {
        Ok(all_scorer(reader, boost))
    }
}

impl<'a> Weight<'a> for AllWeight {
    fn explain(
        &self,
        alloc: Global,
        reader: &SegmentReader<'a>,
        doc: DocId,
    ) -> Result<Explanation, Fault> {
        calls::explain(alloc, self, reader, doc, "every document")
    }

    fn count(&self, _alloc: Global, reader: &SegmentReader<'a>) -> Result<u32, AllocError> {
        Ok(count_all(reader))
    }

    fn for_each(
        &self,
        alloc: Global,
        reader: &SegmentReader<'a>,
    ) -> Result<Vec<(DocId, Score)>, AllocError> {
        calls::for_each(alloc, self, reader)
    }

    fn for_each_no_score<K: BlockSink>(
        &self,
        alloc: Global,
        reader: &SegmentReader<'a>,
        sink: &mut K,
    ) -> Result<(), AllocError> {
        calls::for_each_no_score(alloc, self, reader, sink)
    }

    fn for_each_pruning<K: Sink>(
        &self,
        alloc: Global,
        threshold: Score,
        reader: &SegmentReader<'a>,
        sink: &mut K,
    ) -> Result<(), AllocError> {
        calls::for_each_pruning(alloc, self, threshold, reader, sink)
    }
}
