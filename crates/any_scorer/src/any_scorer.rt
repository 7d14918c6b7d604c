//! The scorer of a query of any kind.

use crate::leaf::Leaf;
use common::{AliveBitSet, DocId, Score};
use docsets::{ConstScorer, DocSet, ListScorer, Scorer, SeekDangerResult, Window};

/// A scorer of a query of any kind: of one that holds no other, with its scores or with one score, or a list of the
/// documents of one that holds several.
#[derive(Drop)]
pub enum AnyScorer<A: Scorer, T: Scorer, P: Scorer, X: Scorer> {
    /// Of a query that holds no other, or a list.
    Leaf(Leaf<A, T, P, X, ListScorer>),
    /// Every document, with one score.
    ConstAll(ConstScorer<A>),
    /// The documents of a term, with one score.
    ConstTerm(ConstScorer<T>),
    /// The documents of a phrase, with one score.
    ConstPhrase(ConstScorer<P>),
    /// The documents of a phrase prefix, with one score.
    ConstPhrasePrefix(ConstScorer<X>),
}

impl<A: Scorer, T: Scorer, P: Scorer, X: Scorer> DocSet for AnyScorer<A, T, P, X> {
    ghost use Rattle.std.specs.Prelude.{drop};
    ghost use Rattle.any_scorer.specs.declared.leaf.Leaf.TheVariants as leaves;
    ghost use Rattle.docsets.specs.Entries.{Rising};
    ghost use Rattle.docsets.specs.ScoredEntryLaws.{Rising-constant, Rising-scores};
    ghost use Rattle.any_scorer.specs.declared.any_scorer.AnyScorer.TheVariants as forms;

    ghost entries = { elim [
      | forms.Leaf x ↦ ⟦<Leaf<A, T, P, X, ListScorer> as DocSet>⟧.entries x
      | forms.ConstAll x ↦ ⟦<ConstScorer<A> as DocSet>⟧.entries x
      | forms.ConstTerm x ↦ ⟦<ConstScorer<T> as DocSet>⟧.entries x
      | forms.ConstPhrase x ↦ ⟦<ConstScorer<P> as DocSet>⟧.entries x
      | forms.ConstPhrasePrefix x ↦ ⟦<ConstScorer<X> as DocSet>⟧.entries x
    ] };

    #[inline]
    fn advance(&mut self) -> DocId {
        match self {
            AnyScorer::Leaf(scorer) => scorer.advance(),
            AnyScorer::ConstAll(scorer) => scorer.advance(),
            AnyScorer::ConstTerm(scorer) => scorer.advance(),
            AnyScorer::ConstPhrase(scorer) => scorer.advance(),
            AnyScorer::ConstPhrasePrefix(scorer) => scorer.advance(),
        }
    }

    #[inline]
    fn seek(&mut self, target: DocId) -> DocId {
        match self {
            AnyScorer::Leaf(scorer) => scorer.seek(target),
            AnyScorer::ConstAll(scorer) => scorer.seek(target),
            AnyScorer::ConstTerm(scorer) => scorer.seek(target),
            AnyScorer::ConstPhrase(scorer) => scorer.seek(target),
            AnyScorer::ConstPhrasePrefix(scorer) => scorer.seek(target),
        }
    }

    #[inline]
    fn seek_danger(&mut self, target: DocId) -> SeekDangerResult {
        match self {
            AnyScorer::Leaf(scorer) => scorer.seek_danger(target),
            AnyScorer::ConstAll(scorer) => scorer.seek_danger(target),
            AnyScorer::ConstTerm(scorer) => scorer.seek_danger(target),
            AnyScorer::ConstPhrase(scorer) => scorer.seek_danger(target),
            AnyScorer::ConstPhrasePrefix(scorer) => scorer.seek_danger(target),
        }
    }

    fn fill_buffer(&mut self, buffer: &mut [DocId; 64]) -> usize {
        match self {
            AnyScorer::Leaf(scorer) => scorer.fill_buffer(buffer),
            AnyScorer::ConstAll(scorer) => scorer.fill_buffer(buffer),
            AnyScorer::ConstTerm(scorer) => scorer.fill_buffer(buffer),
            AnyScorer::ConstPhrase(scorer) => scorer.fill_buffer(buffer),
            AnyScorer::ConstPhrasePrefix(scorer) => scorer.fill_buffer(buffer),
        }
    }

    #[inline]
    fn doc(&self) -> DocId {
        match self {
            AnyScorer::Leaf(scorer) => scorer.doc(),
            AnyScorer::ConstAll(scorer) => scorer.doc(),
            AnyScorer::ConstTerm(scorer) => scorer.doc(),
            AnyScorer::ConstPhrase(scorer) => scorer.doc(),
            AnyScorer::ConstPhrasePrefix(scorer) => scorer.doc(),
        }
    }

    fn size_hint(&self) -> u32 {
        match self {
            AnyScorer::Leaf(scorer) => scorer.size_hint(),
            AnyScorer::ConstAll(scorer) => scorer.size_hint(),
            AnyScorer::ConstTerm(scorer) => scorer.size_hint(),
            AnyScorer::ConstPhrase(scorer) => scorer.size_hint(),
            AnyScorer::ConstPhrasePrefix(scorer) => scorer.size_hint(),
        }
    }

    fn cost(&self) -> u64 {
        match self {
            AnyScorer::Leaf(scorer) => scorer.cost(),
            AnyScorer::ConstAll(scorer) => scorer.cost(),
            AnyScorer::ConstTerm(scorer) => scorer.cost(),
            AnyScorer::ConstPhrase(scorer) => scorer.cost(),
            AnyScorer::ConstPhrasePrefix(scorer) => scorer.cost(),
        }
    }

    fn count(&mut self, alive: &AliveBitSet) -> u32 {
        match self {
            AnyScorer::Leaf(scorer) => scorer.count(alive),
            AnyScorer::ConstAll(scorer) => scorer.count(alive),
            AnyScorer::ConstTerm(scorer) => scorer.count(alive),
            AnyScorer::ConstPhrase(scorer) => scorer.count(alive),
            AnyScorer::ConstPhrasePrefix(scorer) => scorer.count(alive),
        }
    }

    fn count_including_deleted(&mut self) -> u32 {
        match self {
            AnyScorer::Leaf(scorer) => scorer.count_including_deleted(),
            AnyScorer::ConstAll(scorer) => scorer.count_including_deleted(),
            AnyScorer::ConstTerm(scorer) => scorer.count_including_deleted(),
            AnyScorer::ConstPhrase(scorer) => scorer.count_including_deleted(),
            AnyScorer::ConstPhrasePrefix(scorer) => scorer.count_including_deleted(),
        }
    }

    ghost rising = { elim [
      | forms.Leaf x ↦ elim x as (λ y. Rising 0 (⟦<Leaf<A, T, P, X, ListScorer> as DocSet>⟧.entries y)) [
        | leaves.All y ↦ A.rising y
        | leaves.Term y ↦ T.rising y
        | leaves.Phrase y ↦ P.rising y
        | leaves.PhrasePrefix y ↦ X.rising y
        | leaves.List y ↦ Rising-scores 0 (drop y.cursor y.pairs.items) y.scores
      ]
      | forms.ConstAll x ↦ Rising-constant x.score 0 (A.entries x.docset) x.small (A.rising x.docset)
      | forms.ConstTerm x ↦ Rising-constant x.score 0 (T.entries x.docset) x.small (T.rising x.docset)
      | forms.ConstPhrase x ↦ Rising-constant x.score 0 (P.entries x.docset) x.small (P.rising x.docset)
      | forms.ConstPhrasePrefix x ↦ Rising-constant x.score 0 (X.entries x.docset) x.small (X.rising x.docset)
    ] };
}

impl<A: Scorer, T: Scorer, P: Scorer, X: Scorer> Scorer for AnyScorer<A, T, P, X> {
    #[inline]
    fn score(&mut self) -> Score {
        match self {
            AnyScorer::Leaf(scorer) => scorer.score(),
            AnyScorer::ConstAll(scorer) => scorer.score(),
            AnyScorer::ConstTerm(scorer) => scorer.score(),
            AnyScorer::ConstPhrase(scorer) => scorer.score(),
            AnyScorer::ConstPhrasePrefix(scorer) => scorer.score(),
        }
    }

    fn window(&mut self, target: DocId) -> Window {
        match self {
            AnyScorer::Leaf(scorer) => scorer.window(target),
            AnyScorer::ConstAll(scorer) => scorer.window(target),
            AnyScorer::ConstTerm(scorer) => scorer.window(target),
            AnyScorer::ConstPhrase(scorer) => scorer.window(target),
            AnyScorer::ConstPhrasePrefix(scorer) => scorer.window(target),
        }
    }
}
