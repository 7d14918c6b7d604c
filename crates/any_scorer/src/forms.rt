//! Scorers of queries of each kind.

ghost use Rattle.std.specs.Prelude.{[], ◌≡◌, ◌≤◌, IfNone, IfOk, IfSome};
ghost use Rattle.definitions.specs.Scoring.{max_score};
ghost use Rattle.docsets.specs.ScoredEntries.{pairs_of, rescored_by};

use crate::any_scorer::AnyScorer;
use crate::leaf::Leaf;
use crate::scored_lists::listed;
use common::Score;
use docsets::{ConstScorer, DocSet, ListScorer, Scorer};
use std::alloc::{AllocError, Global};

/// Returns the documents of `scorer`, each with `score`.
fn constant<S: Scorer>(scorer: S, score: u64) -> ConstScorer<S>
    requires { score ≤ max_score }
    ensures { ⟦<ConstScorer<S> as DocSet>⟧.entries result ≡ rescored_by (λ e. score) (S.entries scorer) }
{
    ConstScorer::new(scorer, score as Score)
}

/// Lists the documents of `scorer`, each with `score`.
fn constant_list<S: Scorer + Drop>(
    alloc: Global,
    scorer: S,
    score: u64,
) -> Result<ListScorer, AllocError>
    requires { score ≤ max_score }
    ensures { IfOk result (λ list. pairs_of (⟦<ListScorer as DocSet>⟧.entries list)
        ≡ pairs_of (rescored_by (λ e. score) (S.entries scorer))) }
{
    listed(alloc, constant(scorer, score))
}

/// Returns the documents of `scorer`, each with `score`. A scorer that has one score already is walked whole into a
/// list.
pub fn with_score<A: Scorer + Drop, T: Scorer + Drop, P: Scorer + Drop, X: Scorer + Drop>(
    alloc: Global,
    scorer: AnyScorer<A, T, P, X>,
    score: u64,
) -> Result<AnyScorer<A, T, P, X>, AllocError>
    requires { score ≤ max_score }
    ensures { IfOk result (λ scored. pairs_of (⟦<AnyScorer<A, T, P, X> as DocSet>⟧.entries scored)
        ≡ pairs_of (rescored_by (λ e. score) (⟦<AnyScorer<A, T, P, X> as DocSet>⟧.entries scorer))) }
{
    let list = match scorer {
        AnyScorer::Leaf(leaf) => return leaf_with_score(alloc, leaf, score),
        AnyScorer::ConstAll(scorer) => constant_list(alloc, scorer, score)?,
        AnyScorer::ConstTerm(scorer) => constant_list(alloc, scorer, score)?,
        AnyScorer::ConstPhrase(scorer) => constant_list(alloc, scorer, score)?,
        AnyScorer::ConstPhrasePrefix(scorer) => constant_list(alloc, scorer, score)?,
    };
    Ok(of_list(list))
}

/// Returns the documents of `leaf`, each with `score`. A list is made anew.
fn leaf_with_score<A: Scorer + Drop, T: Scorer + Drop, P: Scorer + Drop, X: Scorer + Drop>(
    alloc: Global,
    leaf: Leaf<A, T, P, X, ListScorer>,
    score: u64,
) -> Result<AnyScorer<A, T, P, X>, AllocError>
    requires { score ≤ max_score }
    ensures { IfOk result (λ scored. pairs_of (⟦<AnyScorer<A, T, P, X> as DocSet>⟧.entries scored)
        ≡ pairs_of (rescored_by (λ e. score) (⟦<Leaf<A, T, P, X, ListScorer> as DocSet>⟧.entries leaf))) }
{
    match leaf {
        Leaf::All(scorer) => Ok(AnyScorer::ConstAll(constant(scorer, score))),
        Leaf::Term(scorer) => Ok(AnyScorer::ConstTerm(constant(scorer, score))),
        Leaf::Phrase(scorer) => Ok(AnyScorer::ConstPhrase(constant(scorer, score))),
        Leaf::PhrasePrefix(scorer) => Ok(AnyScorer::ConstPhrasePrefix(constant(scorer, score))),
        Leaf::List(scorer) => {
            let list = constant_list(alloc, scorer, score)?;
            Ok(of_list(list))
        }
    }
}

/// Returns the scorer of every document.
pub fn of_all<A: Scorer + Drop, T: Scorer + Drop, P: Scorer + Drop, X: Scorer + Drop>(
    all: A,
) -> AnyScorer<A, T, P, X>
    ensures { ⟦<AnyScorer<A, T, P, X> as DocSet>⟧.entries result ≡ A.entries all }
{
    AnyScorer::Leaf(Leaf::All(all))
}

/// Returns the scorer of the documents of `list`.
pub fn of_list<A: Scorer + Drop, T: Scorer + Drop, P: Scorer + Drop, X: Scorer + Drop>(
    list: ListScorer,
) -> AnyScorer<A, T, P, X>
    ensures { ⟦<AnyScorer<A, T, P, X> as DocSet>⟧.entries result ≡ ⟦<ListScorer as DocSet>⟧.entries list }
{
    AnyScorer::Leaf(Leaf::List(list))
}

/// Returns the scorer of no document.
pub fn of_none<A: Scorer + Drop, T: Scorer + Drop, P: Scorer + Drop, X: Scorer + Drop>(
    alloc: Global,
) -> AnyScorer<A, T, P, X>
    ensures { ⟦<AnyScorer<A, T, P, X> as DocSet>⟧.entries result ≡ [] }
{
    of_list(ListScorer::new(Vec::new(alloc)))
}

/// Returns the scorer of a term, of no document if `found` is `None`.
pub fn of_term<A: Scorer + Drop, T: Scorer + Drop, P: Scorer + Drop, X: Scorer + Drop>(
    alloc: Global,
    found: Option<T>,
) -> AnyScorer<A, T, P, X>
    ensures some { IfSome found (λ term. ⟦<AnyScorer<A, T, P, X> as DocSet>⟧.entries result ≡ T.entries term) }
    ensures none { IfNone found (⟦<AnyScorer<A, T, P, X> as DocSet>⟧.entries result ≡ []) }
{
    match found {
        Some(term) => AnyScorer::Leaf(Leaf::Term(term)),
        None => of_none(alloc),
    }
}

/// Returns the scorer of a phrase, of no document if `found` is `None`.
pub fn of_phrase<A: Scorer + Drop, T: Scorer + Drop, P: Scorer + Drop, X: Scorer + Drop>(
    alloc: Global,
    found: Option<P>,
) -> AnyScorer<A, T, P, X>
    ensures some { IfSome found (λ phrase. ⟦<AnyScorer<A, T, P, X> as DocSet>⟧.entries result ≡ P.entries phrase) }
    ensures none { IfNone found (⟦<AnyScorer<A, T, P, X> as DocSet>⟧.entries result ≡ []) }
{
    match found {
        Some(phrase) => AnyScorer::Leaf(Leaf::Phrase(phrase)),
        None => of_none(alloc),
    }
}

/// Returns the scorer of a phrase prefix, of no document if `found` is `None`.
pub fn of_phrase_prefix<A: Scorer + Drop, T: Scorer + Drop, P: Scorer + Drop, X: Scorer + Drop>(
    alloc: Global,
    found: Option<X>,
) -> AnyScorer<A, T, P, X>
    ensures some { IfSome found (λ phrase. ⟦<AnyScorer<A, T, P, X> as DocSet>⟧.entries result ≡ X.entries phrase) }
    ensures none { IfNone found (⟦<AnyScorer<A, T, P, X> as DocSet>⟧.entries result ≡ []) }
{
    match found {
        Some(phrase) => AnyScorer::Leaf(Leaf::PhrasePrefix(phrase)),
        None => of_none(alloc),
    }
}
