//! Scorers of terms among those of queries of any kind.

ghost use Rattle.std.specs.Prelude.{[], ◌∷◌, ◌≡◌, IfOk, IfSome, None, map, true};
ghost use Rattle.reader_scorers.specs.Terms.{AreTerms, IsTerm, term_in, terms_in};

use any_scorer::{AnyScorer, Leaf};
use docsets::{DocSet, Scorer};
use std::alloc::{AllocError, Global};
use std::collections::VecDeque;

/// Whether each of `scorers` is that of a term, with its own scores.
pub fn are_terms<A: Scorer, T: Scorer, P: Scorer, X: Scorer>(
    scorers: &Vec<AnyScorer<A, T, P, X>>,
) -> bool
    ensures { result ≡ true → AreTerms scorers.now.items }
{
    for scorer in scorers {
        if !is_term(scorer) {
            return false;
        }
    }
    true
}

/// Whether `scorer` is that of a term, with its own scores.
fn is_term<A: Scorer, T: Scorer, P: Scorer, X: Scorer>(scorer: &AnyScorer<A, T, P, X>) -> bool
    ensures { result ≡ true → IsTerm scorer.now }
{
    matches!(scorer, AnyScorer::Leaf(Leaf::Term(_)))
}

/// Returns the scorers of the terms in `scorers`, which are all of terms, in order.
pub fn into_terms<A: Scorer + Drop, T: Scorer + Drop, P: Scorer + Drop, X: Scorer + Drop>(
    alloc: Global,
    scorers: Vec<AnyScorer<A, T, P, X>>,
) -> Result<Vec<T>, AllocError>
    requires { AreTerms scorers.items }
    ensures { IfOk result (λ terms. map T.entries terms.items
        ≡ map ⟦<AnyScorer<A, T, P, X> as DocSet>⟧.entries scorers.items) }
{
    terms_among(alloc, scorers)
}

/// Returns the scorers of the terms in `scorers`, in order.
fn terms_among<A: Scorer + Drop, T: Scorer + Drop, P: Scorer + Drop, X: Scorer + Drop>(
    alloc: Global,
    scorers: Vec<AnyScorer<A, T, P, X>>,
) -> Result<Vec<T>, AllocError>
    ensures { IfOk result (λ terms. terms.items ≡ terms_in scorers.items) }
{
    let mut terms = Vec::with_capacity(alloc, scorers.len())?;
    let mut left = VecDeque::from_vec(scorers);
    while let Some(scorer) = left.pop_front() {
        if let Some(term) = into_term(scorer) {
            terms.push(term)?;
        }
    }
    Ok(terms)
}

/// Returns the scorer of the term in `scorer`.
fn into_term<A: Scorer + Drop, T: Scorer + Drop, P: Scorer + Drop, X: Scorer + Drop>(
    scorer: AnyScorer<A, T, P, X>,
) -> Option<T>
    ensures some { IfSome result (λ term. term_in scorer ≡ term ∷ []) }
    ensures none { result ≡ None → term_in scorer ≡ [] }
{
    match scorer {
        AnyScorer::Leaf(Leaf::Term(term)) => Some(term),
        _ => None,
    }
}
