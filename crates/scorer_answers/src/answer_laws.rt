//! Laws of scorers that answer queries.

ghost use Rattle.std.specs.Prelude.{◌≤◌, List, length, ℕ};
ghost use Rattle.docsets.specs.Entries.{Entry, Rising};
ghost use Rattle.definitions.specs.Query.{Query};
ghost use Rattle.definitions.specs.Scoring as scoring;
ghost use Rattle.query_scorers.specs.Scores.{Scores};
ghost use Rattle.scorer_answers.specs.Matching.{Matches};
ghost use Rattle.segment_reader.specs.SegmentReaders.{max_doc_of};
ghost use Rattle.segment_reader.specs.declared.segment_reader.SegmentReader.{SegmentReader};

/// States that a scorer that has what its query answers has the documents that match it, and no more of them than its
/// segment has.
pub fn a_scorer_that_answers_matches()
    ensures matches { (sim : scoring.Similarity) (b : ℕ) (q : Query) (r : SegmentReader) (es : List Entry)
        → Scores sim b q r es → Matches sim.weight b q r es }
    ensures few { (sim : scoring.Similarity) (b : ℕ) (q : Query) (r : SegmentReader) (es : List Entry)
        → Rising 0 es → Scores sim b q r es → length es ≤ max_doc_of r }
{}
