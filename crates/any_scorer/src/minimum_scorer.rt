//! The scorer of clauses of which a minimum must match, without a list of what they have.

ghost use Rattle.std.specs.Prelude.{[], ◌+◌, ◌<◌, ◌∷◌, ◌≡◌, ◌≤◌, IfOk, length, map, max, true, ℕ};
ghost use Rattle.any_scorer.specs.Clauses.{by_clauses, by_number, scores_of};
ghost use Rattle.definitions.specs.Postings.{terminated};
ghost use Rattle.definitions.specs.Scoring.{max_score};
ghost use Rattle.docsets.specs.Entries.{Rising};
ghost use Rattle.docsets.specs.Members.{greatest_sum};
ghost use Rattle.docsets.specs.ScoredEntries.{greatest_score};

use crate::either_scorer::EitherScorer;
use crate::several::{AllOf, all_of};
use docsets::{DocSet, Scorer, SumCombiner};
use intersections::Intersection;
use scorers::{BufferedUnionScorer, Disjunction};
use std::alloc::{AllocError, Global};

/// A scorer of the documents that one of several scorers has, or that at least a minimum of them have.
pub type AtLeast<S> = EitherScorer<
    BufferedUnionScorer<S, SumCombiner>,
    Disjunction<S, SumCombiner>,
>;

/// A scorer of the documents that both of two scorers have.
pub type BothOf<A, B> = Intersection<EitherScorer<A, B>>;

/// A scorer of the documents that at least a minimum of several scorers have, and all of others, if there are any.
pub type WithMinimum<S> = EitherScorer<AtLeast<S>, BothOf<AllOf<S>, AtLeast<S>>>;

/// How many documents a union walks by windows in the time in which a scorer is sought.
const WALKED_IN_A_SEEK: u64 = 16;

/// Whether at least `minimum` of `scorers`, asked for `asked` documents, are found quicker by windows than by seeks.
fn is_walked<S: DocSet>(scorers: &[S], minimum: usize, asked: u32) -> bool
    ensures few { result ≡ true → minimum ≤ 1 }
{
    if minimum >= 2 {
        return false;
    }
    let mut walked: u64 = 0;
    for scorer in scorers {
        walked = walked.saturating_add(scorer.size_hint() as u64);
    }
    let seeks = (asked as u64).saturating_mul(scorers.len() as u64);
    seeks.saturating_mul(WALKED_IN_A_SEEK) >= walked
}

/// Returns the documents that at least `minimum` of `scorers` have, and at least one, with the sums of their scores.
/// `num_docs`, the number of documents, and `asked`, of how many it is asked, are hints.
pub fn at_least<S: Scorer + Drop>(
    alloc: Global,
    scorers: Vec<S>,
    minimum: usize,
    num_docs: u32,
    asked: u32,
) -> Result<AtLeast<S>, AllocError>
    requires fits { greatest_sum (map S.entries scorers.items) ≤ max_score }
    ensures scores { IfOk result (λ some. (d : ℕ) → d < terminated
        → scores_of d (⟦<AtLeast<S> as DocSet>⟧.entries some)
        ≡ by_number (max 1 minimum) (map S.entries scorers.items) d) }
    ensures bounded { IfOk result (λ some. greatest_score (⟦<AtLeast<S> as DocSet>⟧.entries some)
        ≤ greatest_sum (map S.entries scorers.items)) }
    ensures rises { IfOk result (λ some. Rising 0 (⟦<AtLeast<S> as DocSet>⟧.entries some)) }
{
    let combiner = SumCombiner::default();
    if is_walked(&scorers, minimum, asked) {
        let union = BufferedUnionScorer::build(alloc, scorers, combiner, num_docs)?;
        return Ok(EitherScorer::Left(union));
    }
    Ok(EitherScorer::Right(Disjunction::new(scorers, combiner, minimum.max(1))))
}

/// Returns the documents that both `left` and `right` have, with the sums of their scores.
fn both_of<A: Scorer + Drop, B: Scorer + Drop>(
    alloc: Global,
    left: A,
    right: B,
) -> Result<BothOf<A, B>, AllocError>
    requires fits { greatest_score (A.entries left) + greatest_score (B.entries right) ≤ max_score }
    ensures scores { IfOk result (λ both. (d : ℕ) → d < terminated
        → scores_of d (⟦<BothOf<A, B> as DocSet>⟧.entries both)
        ≡ by_number 2 (A.entries left ∷ B.entries right ∷ []) d) }
    ensures rises { IfOk result (λ both. Rising 0 (⟦<BothOf<A, B> as DocSet>⟧.entries both)) }
{
    let both = pair_of(alloc, left, right)?;
    Ok(Intersection::new(both))
}

/// Returns a list of `left` and `right`.
fn pair_of<A: Scorer + Drop, B: Scorer + Drop>(
    alloc: Global,
    left: A,
    right: B,
) -> Result<Vec<EitherScorer<A, B>>, AllocError>
    ensures entries { IfOk result (λ both. map ⟦<EitherScorer<A, B> as DocSet>⟧.entries both.items
        ≡ A.entries left ∷ B.entries right ∷ []) }
    ensures len { IfOk result (λ both. length both.items ≡ 2) }
{
    let mut both = Vec::with_capacity(alloc, 2)?;
    both.push(EitherScorer::Left(left))?;
    both.push(EitherScorer::Right(right))?;
    Ok(both)
}

/// Returns the documents that all of `musts` and at least `minimum` of `shoulds` have, with the sums of their scores.
/// `num_docs`, the number of documents, is a hint.
pub fn with_minimum<S: Scorer + Drop>(
    alloc: Global,
    musts: Vec<S>,
    shoulds: Vec<S>,
    minimum: usize,
    num_docs: u32,
) -> Result<WithMinimum<S>, AllocError>
    requires least { 1 ≤ minimum }
    requires fits { greatest_sum (map S.entries musts.items) + greatest_sum (map S.entries shoulds.items) ≤ max_score }
    ensures scores { IfOk result (λ scorer. (d : ℕ) → d < terminated
        → scores_of d (⟦<WithMinimum<S> as DocSet>⟧.entries scorer)
        ≡ by_clauses minimum (map S.entries musts.items) (map S.entries shoulds.items) [] d) }
    ensures rises { IfOk result (λ scorer. Rising 0 (⟦<WithMinimum<S> as DocSet>⟧.entries scorer)) }
{
    if musts.is_empty() {
        let some = at_least(alloc, shoulds, minimum, num_docs, num_docs)?;
        return Ok(EitherScorer::Left(some));
    }
    let required = all_of(musts);
    let some = at_least(alloc, shoulds, minimum, num_docs, required.size_hint())?;
    let both = both_of(alloc, required, some)?;
    Ok(EitherScorer::Right(both))
}
