//! A scorer that keeps its current document, and is ordered by it, reversed.

ghost use Rattle.std.proofs.Common.{rules};
ghost use Rattle.std.specs.Cmp.Rules.{comparing};
ghost use Rattle.std.specs.Ordering.{nat_cmp, on};
ghost use Rattle.std.specs.Prelude.{◌==◌, ◌≡◌, Some};
ghost use Rattle.docsets.specs.Entries.{first};

use common::{DocId, Score};
use docsets::{DocSet, Scorer};
use std::cmp::Ordering;

/// A scorer that keeps its current document. Of two, the one whose document is less is the greater.
/// So a heap of the greatest would have the least document on top. As a scorer it may be a member of a union.
#[derive(Drop)]
pub struct ScorerWrapper<S: Scorer> {
    scorer: S,
    current_doc: DocId,
    ghost at: { current_doc ≡ first (S.entries scorer) },
}

impl<S: Scorer> ScorerWrapper<S> {
    /// Returns `scorer`, with its documents and scores unchanged.
    pub fn new(scorer: S) -> ScorerWrapper<S>
        ensures { ⟦<ScorerWrapper<S> as DocSet>⟧.entries result ≡ S.entries scorer }
    {
        let current_doc = scorer.doc();
        ScorerWrapper {
            scorer,
            current_doc,
        }
    }
}

impl<S: Scorer> DocSet for ScorerWrapper<S> {
    ghost entries = { λ s. S.entries s.scorer };

    #[inline]
    fn advance(&mut self) -> DocId {
        self.current_doc = self.scorer.advance();
        self.current_doc
    }

    #[inline]
    fn seek(&mut self, target: DocId) -> DocId {
        self.current_doc = self.scorer.seek(target);
        self.current_doc
    }

    #[inline]
    fn doc(&self) -> DocId {
        self.current_doc
    }

    fn size_hint(&self) -> u32 {
        self.scorer.size_hint()
    }

    fn cost(&self) -> u64 {
        self.scorer.cost()
    }

    ghost rising = { λ s. S.rising s.scorer };
}

impl<S: Scorer> Scorer for ScorerWrapper<S> {
    #[inline]
    fn score(&mut self) -> Score {
        self.scorer.score()
    }
}

impl<S: Scorer> PartialEq for ScorerWrapper<S> {
    ghost eq = { on (λ s. first (⟦<ScorerWrapper<S> as DocSet>⟧.entries s)) ◌==◌ };

    ghost laws = { Prim.search (comparing, rules) };

    fn eq(&self, other: &ScorerWrapper<S>) -> bool {
        self.current_doc == other.current_doc
    }
}

impl<S: Scorer> Eq for ScorerWrapper<S> {
    ghost laws = { Prim.search (comparing, rules) };
}

impl<S: Scorer> PartialOrd for ScorerWrapper<S> {
    ghost partial_cmp = { λ v w. Some (nat_cmp (first (⟦<ScorerWrapper<S> as DocSet>⟧.entries w)) (first (⟦<ScorerWrapper<S> as DocSet>⟧.entries v))) };

    ghost laws = { Prim.search (comparing, rules) };

    fn partial_cmp(&self, other: &ScorerWrapper<S>) -> Option<Ordering> {
        Some(self.cmp(other))
    }
}

impl<S: Scorer> Ord for ScorerWrapper<S> {
    ghost cmp = { λ v w. nat_cmp (first (⟦<ScorerWrapper<S> as DocSet>⟧.entries w)) (first (⟦<ScorerWrapper<S> as DocSet>⟧.entries v)) };

    ghost total = { Prim.search (comparing, rules) };

    ghost matches_partial_cmp = { Prim.search (comparing, rules) };

    ghost matches_eq = { Prim.search (comparing, rules) };

    fn cmp(&self, other: &ScorerWrapper<S>) -> Ordering {
        other.current_doc.cmp(&self.current_doc)
    }
}
