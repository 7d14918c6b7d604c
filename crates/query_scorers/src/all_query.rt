//! The scorer of every document.

ghost use Rattle.std.specs.Prelude.{◌≤ℤ◌, ◌≤◌, pos};
ghost use Rattle.definitions.specs.Query.{all};
ghost use Rattle.definitions.specs.Scoring as scoring;
ghost use Rattle.definitions.specs.Scoring.{max_score, natural};
ghost use Rattle.query_scorers.specs.Scores.{Scores};

use common::Score;
use docsets::{AllScorer, BoostScorer, DocSet};
use segment_reader::SegmentReader;

/// Returns a scorer of every document of the segment, with `boost` as the score.
pub fn all_scorer(reader: &SegmentReader<'_>, boost: Score) -> BoostScorer<AllScorer>
    requires positive { pos 0 ≤ℤ boost }
    requires fits { natural boost ≤ max_score }
    ensures { (sim : scoring.Similarity) → Scores sim (natural boost) all reader.now
        (⟦<BoostScorer<AllScorer> as DocSet>⟧.entries result) }
{
    BoostScorer::new(AllScorer::new(reader.max_doc()), boost)
}
