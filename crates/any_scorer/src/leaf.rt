//! Scorers of queries that hold no other query.

use common::{AliveBitSet, DocId, Score};
use docsets::{DocSet, Scorer, SeekDangerResult, Window};

/// A scorer of a query that holds no other, or a list of the documents of a query of another form.
#[derive(Drop)]
pub enum Leaf<A: Scorer, T: Scorer, P: Scorer, X: Scorer, L: Scorer> {
    /// Every document, boosted.
    All(A),
    /// The documents of a term.
    Term(T),
    /// The documents where a phrase occurs.
    Phrase(P),
    /// The documents where terms with a prefix follow a phrase.
    PhrasePrefix(X),
    /// A list of documents.
    List(L),
}

impl<A: Scorer, T: Scorer, P: Scorer, X: Scorer, L: Scorer> DocSet for Leaf<A, T, P, X, L> {
    ghost use Rattle.any_scorer.specs.declared.leaf.Leaf.TheVariants as forms;

    ghost entries = { elim [
      | forms.All x ↦ A.entries x
      | forms.Term x ↦ T.entries x
      | forms.Phrase x ↦ P.entries x
      | forms.PhrasePrefix x ↦ X.entries x
      | forms.List x ↦ L.entries x
    ] };

    #[inline]
    fn advance(&mut self) -> DocId {
        match self {
            Leaf::All(scorer) => scorer.advance(),
            Leaf::Term(scorer) => scorer.advance(),
            Leaf::Phrase(scorer) => scorer.advance(),
            Leaf::PhrasePrefix(scorer) => scorer.advance(),
            Leaf::List(scorer) => scorer.advance(),
        }
    }

    #[inline]
    fn seek(&mut self, target: DocId) -> DocId {
        match self {
            Leaf::All(scorer) => scorer.seek(target),
            Leaf::Term(scorer) => scorer.seek(target),
            Leaf::Phrase(scorer) => scorer.seek(target),
            Leaf::PhrasePrefix(scorer) => scorer.seek(target),
            Leaf::List(scorer) => scorer.seek(target),
        }
    }

    #[inline]
    fn seek_danger(&mut self, target: DocId) -> SeekDangerResult {
        match self {
            Leaf::All(scorer) => scorer.seek_danger(target),
            Leaf::Term(scorer) => scorer.seek_danger(target),
            Leaf::Phrase(scorer) => scorer.seek_danger(target),
            Leaf::PhrasePrefix(scorer) => scorer.seek_danger(target),
            Leaf::List(scorer) => scorer.seek_danger(target),
        }
    }

    fn fill_buffer(&mut self, buffer: &mut [DocId; 64]) -> usize {
        match self {
            Leaf::All(scorer) => scorer.fill_buffer(buffer),
            Leaf::Term(scorer) => scorer.fill_buffer(buffer),
            Leaf::Phrase(scorer) => scorer.fill_buffer(buffer),
            Leaf::PhrasePrefix(scorer) => scorer.fill_buffer(buffer),
            Leaf::List(scorer) => scorer.fill_buffer(buffer),
        }
    }

    #[inline]
    fn doc(&self) -> DocId {
        match self {
            Leaf::All(scorer) => scorer.doc(),
            Leaf::Term(scorer) => scorer.doc(),
            Leaf::Phrase(scorer) => scorer.doc(),
            Leaf::PhrasePrefix(scorer) => scorer.doc(),
            Leaf::List(scorer) => scorer.doc(),
        }
    }

    fn size_hint(&self) -> u32 {
        match self {
            Leaf::All(scorer) => scorer.size_hint(),
            Leaf::Term(scorer) => scorer.size_hint(),
            Leaf::Phrase(scorer) => scorer.size_hint(),
            Leaf::PhrasePrefix(scorer) => scorer.size_hint(),
            Leaf::List(scorer) => scorer.size_hint(),
        }
    }

    fn cost(&self) -> u64 {
        match self {
            Leaf::All(scorer) => scorer.cost(),
            Leaf::Term(scorer) => scorer.cost(),
            Leaf::Phrase(scorer) => scorer.cost(),
            Leaf::PhrasePrefix(scorer) => scorer.cost(),
            Leaf::List(scorer) => scorer.cost(),
        }
    }

    fn count(&mut self, alive: &AliveBitSet) -> u32 {
        match self {
            Leaf::All(scorer) => scorer.count(alive),
            Leaf::Term(scorer) => scorer.count(alive),
            Leaf::Phrase(scorer) => scorer.count(alive),
            Leaf::PhrasePrefix(scorer) => scorer.count(alive),
            Leaf::List(scorer) => scorer.count(alive),
        }
    }

    fn count_including_deleted(&mut self) -> u32 {
        match self {
            Leaf::All(scorer) => scorer.count_including_deleted(),
            Leaf::Term(scorer) => scorer.count_including_deleted(),
            Leaf::Phrase(scorer) => scorer.count_including_deleted(),
            Leaf::PhrasePrefix(scorer) => scorer.count_including_deleted(),
            Leaf::List(scorer) => scorer.count_including_deleted(),
        }
    }

    ghost rising = { elim [
      | forms.All x ↦ A.rising x
      | forms.Term x ↦ T.rising x
      | forms.Phrase x ↦ P.rising x
      | forms.PhrasePrefix x ↦ X.rising x
      | forms.List x ↦ L.rising x
    ] };
}

impl<A: Scorer, T: Scorer, P: Scorer, X: Scorer, L: Scorer> Scorer for Leaf<A, T, P, X, L> {
    #[inline]
    fn score(&mut self) -> Score {
        match self {
            Leaf::All(scorer) => scorer.score(),
            Leaf::Term(scorer) => scorer.score(),
            Leaf::Phrase(scorer) => scorer.score(),
            Leaf::PhrasePrefix(scorer) => scorer.score(),
            Leaf::List(scorer) => scorer.score(),
        }
    }

    fn window(&mut self, target: DocId) -> Window {
        match self {
            Leaf::All(scorer) => scorer.window(target),
            Leaf::Term(scorer) => scorer.window(target),
            Leaf::Phrase(scorer) => scorer.window(target),
            Leaf::PhrasePrefix(scorer) => scorer.window(target),
            Leaf::List(scorer) => scorer.window(target),
        }
    }
}
