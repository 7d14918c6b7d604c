//! The scorer of the best of several queries.

ghost use Rattle.std.specs.Prelude.{◌<◌, ◌≡◌, ◌≤ℤ◌, ◌≤◌, IfOk, map, pos, ℕ};
ghost use Rattle.any_scorer.specs.Clauses.{by_best, scores_of};
ghost use Rattle.docsets.specs.Entries.{Rising};
ghost use Rattle.definitions.specs.Postings.{terminated};
ghost use Rattle.definitions.specs.Scoring.{max_score, natural};
ghost use Rattle.docsets.specs.ScoredEntries.{greatest_score};
ghost use Rattle.docsets.specs.Members.{greatest_sum};

use common::Score;
use docsets::{DisjunctionMaxCombiner, DocSet, ListScorer, Scorer};
use scorers::BufferedUnionScorer;
use std::alloc::{AllocError, Global};

/// A scorer of the documents that one of several scorers has, with the best of their scores and a part of the others.
pub type BestOf<S> = BufferedUnionScorer<S, DisjunctionMaxCombiner>;

/// Returns the documents that some of `disjuncts` has, each with its best score and `tie_breaker` thousandths of the
/// others. `num_docs`, the number of documents, is a hint.
pub fn best_of<S: Scorer + Drop>(
    alloc: Global,
    disjuncts: Vec<S>,
    tie_breaker: Score,
    num_docs: u32,
) -> Result<BestOf<S>, AllocError>
    requires positive { pos 0 ≤ℤ tie_breaker }
    requires share { tie_breaker ≤ℤ pos 1000 }
    requires fits { greatest_sum (map S.entries disjuncts.items) ≤ max_score }
    ensures scores { IfOk result (λ best. (d : ℕ) → d < terminated
        → scores_of d (⟦<BestOf<S> as DocSet>⟧.entries best)
        ≡ by_best (natural tie_breaker) (map S.entries disjuncts.items) d) }
    ensures rises { IfOk result (λ best. Rising 0 (⟦<BestOf<S> as DocSet>⟧.entries best)) }
{
    let combiner = DisjunctionMaxCombiner::with_tie_breaker(tie_breaker);
    BufferedUnionScorer::build(alloc, disjuncts, combiner, num_docs)
}

/// Lists the documents that some of `disjuncts` has, each with its best score and `tie_breaker` thousandths of the
/// others. The scorers are walked whole. `num_docs`, the number of documents, is a hint.
pub fn disjunction_max_scorer<S: Scorer + Drop>(
    alloc: Global,
    disjuncts: Vec<S>,
    tie_breaker: Score,
    num_docs: u32,
) -> Result<ListScorer, AllocError>
    requires positive { pos 0 ≤ℤ tie_breaker }
    requires share { tie_breaker ≤ℤ pos 1000 }
    requires fits { greatest_sum (map S.entries disjuncts.items) ≤ max_score }
    ensures scores { IfOk result (λ list. (d : ℕ) → d < terminated
        → scores_of d (⟦<ListScorer as DocSet>⟧.entries list)
        ≡ by_best (natural tie_breaker) (map S.entries disjuncts.items) d) }
    ensures bounded { IfOk result (λ list. greatest_score (⟦<ListScorer as DocSet>⟧.entries list)
        ≤ greatest_sum (map S.entries disjuncts.items)) }
    ensures rises { IfOk result (λ list. Rising 0 (⟦<ListScorer as DocSet>⟧.entries list)) }
{
    let best = best_of(alloc, disjuncts, tie_breaker, num_docs)?;
    best.into_list(alloc)
}
