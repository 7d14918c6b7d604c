//! The documents that all of several scorers have.

ghost use Rattle.std.specs.Prelude.{[], ◌<◌, ◌≡◌, ◌≤◌, IfOk, length, map, ℕ};
ghost use Rattle.any_scorer.specs.Clauses.{by_number, scores_of};
ghost use Rattle.definitions.specs.Postings.{terminated};
ghost use Rattle.definitions.specs.Scoring.{max_score};
ghost use Rattle.docsets.specs.ScoredEntries.{greatest_score};
ghost use Rattle.docsets.specs.Members.{greatest_sum};

use crate::scored_lists::listed;
use docsets::{DocSet, ListScorer, Scorer};
use intersections::Intersection;
use std::alloc::{AllocError, Global};

/// Lists the documents that all of `scorers` have, with the sums of their scores; none if there is no scorer. The
/// scorers are walked whole.
pub fn intersect_scorers<S: Scorer + Drop>(
    alloc: Global,
    scorers: Vec<S>,
) -> Result<ListScorer, AllocError>
    requires fits { greatest_sum (map S.entries scorers.items) ≤ max_score }
    ensures scores { 1 ≤ length (map S.entries scorers.items) → IfOk result (λ list. (d : ℕ) → d < terminated
        → scores_of d (⟦<ListScorer as DocSet>⟧.entries list)
        ≡ by_number (length (map S.entries scorers.items)) (map S.entries scorers.items) d) }
    ensures none { scorers.items ≡ [] → IfOk result (λ list. ⟦<ListScorer as DocSet>⟧.entries list ≡ []) }
    ensures bounded { IfOk result (λ list. greatest_score (⟦<ListScorer as DocSet>⟧.entries list)
        ≤ greatest_sum (map S.entries scorers.items)) }
{
    let mut scorers = scorers;
    if scorers.len() >= 2 {
        return listed(alloc, Intersection::new(scorers));
    }
    match scorers.pop() {
        Some(scorer) => listed(alloc, scorer),
        None => Ok(ListScorer::new(Vec::new(alloc))),
    }
}
