//! Several scorers as one, without a list of what they have.

ghost use Rattle.std.specs.Prelude.{◌<◌, ◌≡◌, ◌≤◌, IfOk, length, map, ℕ};
ghost use Rattle.any_scorer.specs.Clauses.{by_number, scores_of};
ghost use Rattle.definitions.specs.Postings.{terminated};
ghost use Rattle.definitions.specs.Scoring.{max_score};
ghost use Rattle.docsets.specs.Entries.{Rising};
ghost use Rattle.docsets.specs.Members.{greatest_sum};
ghost use Rattle.docsets.specs.ScoredEntries.{greatest_score};

use crate::either_scorer::EitherScorer;
use docsets::{DocSet, Scorer, SumCombiner};
use intersections::Intersection;
use scorers::BufferedUnionScorer;
use std::alloc::{AllocError, Global};

/// A scorer of the documents that all of several scorers have, or one scorer alone.
pub type AllOf<S> = EitherScorer<S, Intersection<S>>;

/// A scorer of the documents that any of several scorers has, or one scorer alone.
pub type AnyOf<S> = EitherScorer<S, BufferedUnionScorer<S, SumCombiner>>;

/// Returns the documents that all of `scorers` have, with the sums of their scores.
pub fn all_of<S: Scorer + Drop>(scorers: Vec<S>) -> AllOf<S>
    requires some { 1 ≤ length scorers.items }
    requires fits { greatest_sum (map S.entries scorers.items) ≤ max_score }
    ensures scores { (d : ℕ) → d < terminated → scores_of d (⟦<AllOf<S> as DocSet>⟧.entries result)
        ≡ by_number (length (map S.entries scorers.items)) (map S.entries scorers.items) d }
    ensures bounded { greatest_score (⟦<AllOf<S> as DocSet>⟧.entries result)
        ≤ greatest_sum (map S.entries scorers.items) }
    ensures rises { Rising 0 (⟦<AllOf<S> as DocSet>⟧.entries result) }
{
    let mut scorers = scorers;
    if scorers.len() == 1 {
        return EitherScorer::Left(scorers.remove(0));
    }
    EitherScorer::Right(Intersection::new(scorers))
}

/// Returns the documents that any of `scorers` has, with the sums of their scores. `num_docs`, the number of documents,
/// is a hint.
pub fn any_of<S: Scorer + Drop>(
    alloc: Global,
    scorers: Vec<S>,
    num_docs: u32,
) -> Result<AnyOf<S>, AllocError>
    requires fits { greatest_sum (map S.entries scorers.items) ≤ max_score }
    ensures scores { IfOk result (λ any. (d : ℕ) → d < terminated → scores_of d (⟦<AnyOf<S> as DocSet>⟧.entries any)
        ≡ by_number 1 (map S.entries scorers.items) d) }
    ensures bounded { IfOk result (λ any. greatest_score (⟦<AnyOf<S> as DocSet>⟧.entries any)
        ≤ greatest_sum (map S.entries scorers.items)) }
    ensures rises { IfOk result (λ any. Rising 0 (⟦<AnyOf<S> as DocSet>⟧.entries any)) }
{
    let mut scorers = scorers;
    if scorers.len() == 1 {
        return Ok(EitherScorer::Left(scorers.remove(0)));
    }
    let union = BufferedUnionScorer::build(alloc, scorers, SumCombiner::default(), num_docs)?;
    Ok(EitherScorer::Right(union))
}
