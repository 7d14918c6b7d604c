//! Deletions of the documents that hold a term.

ghost use Rattle.std.specs.Prelude.{[], ◌+◌, ◌<◌, ◌∷◌, ◌≡◌, List, length, map, ℕ};
ghost use Rattle.std.specs.List.{AllByRecursion};
ghost use Rattle.definitions.specs.Analyzers.{Analyzer};
ghost use Rattle.definitions.specs.Recorded.{holds};
ghost use Rattle.definitions.specs.Schema.{Schema};
ghost use Rattle.definitions.specs.Values.{Document};
ghost use Rattle.segment.specs.Killed.{before, killed};
ghost use Rattle.segment.specs.Opened.{StandsFor, num_docs_of};
ghost use Rattle.segment_definitions.specs.Rows.{flagged, struck};
ghost use Rattle.segment_definitions.specs.Waiting.{struck_from};
ghost use Rattle.segment_postings.specs.Cursors.{docs_left};

use crate::segment::Segment;
use common::{AliveBitSet, DocId};
use options::IndexRecordOption;
use segment_postings::BlockSegmentPostings;
use terms::Term;

/// Marks the documents of `segment` that hold `term` dead in `alive`, whatever their counts. The others stay as they
/// are.
pub fn delete_in(segment: &Segment, term: &Term, alive: &mut AliveBitSet)
    requires flagged { length alive.old ≡ num_docs_of segment.now }
    ensures dead { (schema : Schema) (analyze : Analyzer) (docs : List Document)
        → StandsFor schema analyze docs segment.now
        → flagged docs alive.new ≡ map (struck (holds schema analyze term.now)) (flagged docs alive.old) }
    ensures long { length alive.new ≡ length alive.old }
{
    delete_before(segment, term, segment.num_docs() as usize, alive);
}

/// Marks those of the first `end` documents of `segment` that hold `term` dead in `alive`. The others stay as they are.
pub fn delete_before(segment: &Segment, term: &Term, end: usize, alive: &mut AliveBitSet)
    requires flagged { length alive.old ≡ num_docs_of segment.now }
    ensures dead { (schema : Schema) (analyze : Analyzer) (i : ℕ) (docs : List Document)
        → StandsFor schema analyze docs segment.now
        → flagged docs alive.new
        ≡ struck_from (holds schema analyze) ((term.now, i + end) ∷ []) i (flagged docs alive.old) }
    ensures long { length alive.new ≡ length alive.old }
{
    let index = segment.inverted_index();
    if let Some(postings) = index.read_block_postings(term, IndexRecordOption::Basic) {
        kill_postings(postings, end, alive);
    }
}

/// Marks the documents of `postings` before `end` dead.
fn kill_postings(postings: BlockSegmentPostings<'_>, end: usize, alive: &mut AliveBitSet)
    requires { AllByRecursion (λ doc. doc < length alive.old) (docs_left postings) }
    ensures { alive.new ≡ killed (before end (docs_left postings.entry)) alive.old }
{
    let mut left = postings;
    while left.block_len() > 0 {
        kill_each(left.docs(), end, alive);
        left.advance();
    }
}

/// Marks those of `docs` before `end` dead.
fn kill_each(docs: &[DocId], end: usize, alive: &mut AliveBitSet)
    requires { AllByRecursion (λ doc. doc < length alive.old) docs.now }
    ensures { alive.new ≡ killed (before end docs.now) alive.old }
{
    for doc in docs {
        if (*doc as usize) < end {
            alive.kill(*doc);
        }
    }
}
