//! The scorer of clauses.

ghost use Rattle.std.specs.Prelude.{[], ◌+◌, ◌<◌, ◌≡◌, ◌≤◌, IfOk, map, sum, ℕ};
ghost use Rattle.any_scorer.specs.Clauses.{by_clauses, scores_at, scores_of};
ghost use Rattle.docsets.specs.Entries.{Rising};
ghost use Rattle.definitions.specs.Postings.{terminated};
ghost use Rattle.definitions.specs.Scoring.{max_score};
ghost use Rattle.docsets.specs.ScoredEntries.{greatest_score, pairs_of};
ghost use Rattle.docsets.specs.Members.{greatest_sum};

use crate::either_scorer::EitherScorer;
use crate::intersection::intersect_scorers;
use crate::minimum_scorer::{AtLeast, at_least, with_minimum};
use crate::scored_lists::listed;
use docsets::{DocSet, ListScorer, Scorer, SumCombiner};
use intersections::{Exclude, ExclusionList, RequiredOptionalScorer};
use std::alloc::{AllocError, Global};

/// Lists the documents that match clauses, each with the scores of `musts` and `shoulds` added up. The scorers are
/// walked whole. `num_docs`, the number of documents, is a hint.
pub fn boolean_scorer<S: Scorer + Drop>(
    alloc: Global,
    musts: Vec<S>,
    shoulds: Vec<S>,
    must_nots: Vec<S>,
    minimum_number_should_match: usize,
    num_docs: u32,
) -> Result<ListScorer, AllocError>
    requires fits { greatest_sum (map S.entries musts.items) + greatest_sum (map S.entries shoulds.items) ≤ max_score }
    ensures scores { IfOk result (λ list. (d : ℕ) → d < terminated
        → scores_of d (⟦<ListScorer as DocSet>⟧.entries list)
        ≡ by_clauses minimum_number_should_match (map S.entries musts.items) (map S.entries shoulds.items)
        (map S.entries must_nots.items) d) }
    ensures bounded { IfOk result (λ list. greatest_score (⟦<ListScorer as DocSet>⟧.entries list)
        ≤ greatest_sum (map S.entries musts.items) + greatest_sum (map S.entries shoulds.items)) }
    ensures rises { IfOk result (λ list. Rising 0 (⟦<ListScorer as DocSet>⟧.entries list)) }
{
    let counted = counted_scorer(alloc, musts, shoulds, minimum_number_should_match, num_docs)?;
    if must_nots.is_empty() {
        return Ok(counted);
    }
    listed(alloc, Exclude::new(counted, ExclusionList::new(must_nots)))
}

/// Like `boolean_scorer`, but with nothing that documents must not have. It is led by `musts`.
fn counted_scorer<S: Scorer + Drop>(
    alloc: Global,
    musts: Vec<S>,
    shoulds: Vec<S>,
    minimum: usize,
    num_docs: u32,
) -> Result<ListScorer, AllocError>
    requires fits { greatest_sum (map S.entries musts.items) + greatest_sum (map S.entries shoulds.items) ≤ max_score }
    ensures { IfOk result (λ list. (d : ℕ) → d < terminated → scores_of d (⟦<ListScorer as DocSet>⟧.entries list)
        ≡ by_clauses minimum (map S.entries musts.items) (map S.entries shoulds.items) [] d) }
{
    if musts.is_empty() {
        let some = at_least(alloc, shoulds, minimum, num_docs, num_docs)?;
        return listed_some(alloc, some);
    }
    if minimum == 0 {
        let required = intersect_scorers(alloc, musts)?;
        return optional_scorer(alloc, required, shoulds, num_docs);
    }
    let both = with_minimum(alloc, musts, shoulds, minimum, num_docs)?;
    listed(alloc, both)
}

/// Lists the documents of `some`.
fn listed_some<S: Scorer + Drop>(alloc: Global, some: AtLeast<S>) -> Result<ListScorer, AllocError>
    ensures { IfOk result (λ list. pairs_of (⟦<ListScorer as DocSet>⟧.entries list)
        ≡ pairs_of (⟦<AtLeast<S> as DocSet>⟧.entries some)) }
{
    match some {
        EitherScorer::Left(union) => union.into_list(alloc),
        EitherScorer::Right(disjunction) => listed(alloc, disjunction),
    }
}

/// Lists the documents of `required`, each with its score plus those that it has in `shoulds`.
fn optional_scorer<S: Scorer + Drop>(
    alloc: Global,
    required: ListScorer,
    shoulds: Vec<S>,
    num_docs: u32,
) -> Result<ListScorer, AllocError>
    requires fits { greatest_score (⟦<ListScorer as DocSet>⟧.entries required)
        + greatest_sum (map S.entries shoulds.items) ≤ max_score }
    ensures { IfOk result (λ list. (d : ℕ) → d < terminated → scores_of d (⟦<ListScorer as DocSet>⟧.entries list)
        ≡ map (λ s. s + sum (scores_at d (map S.entries shoulds.items)))
        (scores_of d (⟦<ListScorer as DocSet>⟧.entries required))) }
{
    if shoulds.is_empty() {
        return Ok(required);
    }
    let some = at_least(alloc, shoulds, 1, num_docs, required.size_hint())?;
    listed(
        alloc,
        RequiredOptionalScorer::new(required, some, SumCombiner::default()),
    )
}
