//! The scorer of the best of several queries.

ghost use Rattle.std.specs.Prelude.{◌≡◌, ◌≤ℤ◌, ◌≤◌, IfOk, map, pos, ℕ};
ghost use Rattle.definitions.specs.Query.{Queries, disjunction_max};
ghost use Rattle.definitions.specs.Scoring as scoring;
ghost use Rattle.definitions.specs.Scoring.{max_score};
ghost use Rattle.docsets.specs.Members.{greatest_sum};
ghost use Rattle.query_scorers.specs.Scores.{AllScore, Scores};
ghost use Rattle.query_trees.specs.Walks.{queries_list};

use any_scorer::disjunction_max_scorer;
use common::Score;
use docsets::{DocSet, ListScorer, Scorer};
use segment_reader::SegmentReader;
use std::alloc::{AllocError, Global};

/// Lists the documents that match one of several queries, whose scorers are `disjuncts`, by the best score and
/// `tie_breaker` thousandths of the others. The scorers are walked whole.
pub fn best_scorer<S: Scorer + Drop>(
    alloc: Global,
    disjuncts: Vec<S>,
    tie_breaker: Score,
    reader: &SegmentReader<'_>,
) -> Result<ListScorer, AllocError>
    requires positive { pos 0 ≤ℤ tie_breaker }
    requires share { tie_breaker ≤ℤ pos 1000 }
    requires fits { greatest_sum (map S.entries disjuncts.items) ≤ max_score }
    ensures { (sim : scoring.Similarity) (b : ℕ) (qs : Queries)
        → AllScore sim b reader.now (queries_list qs) (map S.entries disjuncts.items)
        → IfOk result (λ list. Scores sim b (disjunction_max qs tie_breaker) reader.now
        (⟦<ListScorer as DocSet>⟧.entries list)) }
{
    disjunction_max_scorer(alloc, disjuncts, tie_breaker, reader.max_doc())
}
