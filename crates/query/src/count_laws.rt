//! Laws of counts over several segments.

ghost use Rattle.std.specs.Prelude.{◌≡◌, List, sum_by};
ghost use Rattle.definitions.specs.Alive.{Segment, live};
ghost use Rattle.definitions.specs.Analyzers.{Analyzer};
ghost use Rattle.definitions.specs.Answers.{living_count};
ghost use Rattle.definitions.specs.Query.{Query};
ghost use Rattle.definitions.specs.Scanning.{scan_count};
ghost use Rattle.definitions.specs.Schema.{Schema};

/// States that the counts of the living documents of each segment that match, added up, are what a scan of the living
/// documents of all segments counts.
#[tactic(auto, using(crate::proofs::SegmentCounts::counts_add_up))]
pub fn counts_of_segments_add_up()
    ensures { (schema : Schema) (analyze : Analyzer) (q : Query) (segments : List Segment)
        → sum_by (living_count schema analyze q) segments ≡ scan_count schema analyze (live segments) q }
{}
