//! The scorer of a term, by what is found of the term in a segment.

ghost use Rattle.std.specs.Prelude.{[], ◌≡◌, List};
ghost use Rattle.docsets.specs.Entries.{Entry};
ghost use Rattle.term_scorer.specs.ScoredTerms.{scored_left};
ghost use Rattle.weights.specs.declared.term_or_empty_or_all_scorer.TermOrEmptyOrAllScorer.TheVariants as forms;

use any_scorer::{AnyScorer, Leaf};
use docsets::{AllScorer, BoostScorer, DocSet, ListScorer, Scorer};
use std::alloc::Global;
use term_scorer::TermScorer;

/// The scorer of a term, by what is found of the term in a segment.
#[derive(Drop)]
pub enum TermOrEmptyOrAllScorer<'a> {
    /// Some documents hold the term.
    TermScorer(TermScorer<'a>),
    /// No document holds it.
    Empty,
    /// All documents hold it, and no scores are asked for.
    AllMatch(BoostScorer<AllScorer>),
}

impl<'a> TermOrEmptyOrAllScorer<'a> {
    /// Returns it as a scorer of a query of any kind.
    pub fn into_boxed_scorer<P: Scorer, X: Scorer>(
        self,
        alloc: Global,
    ) -> AnyScorer<BoostScorer<AllScorer>, TermScorer<'a>, P, X>
        ensures { ⟦<AnyScorer<BoostScorer<AllScorer>, TermScorer<'a>, P, X> as DocSet>⟧.entries result
            ≡ elim self.entry as (λ found. List Entry) [
              | forms.TermScorer scorer ↦ scored_left scorer
              | forms.Empty ↦ []
              | forms.AllMatch scorer ↦ ⟦<BoostScorer<AllScorer> as DocSet>⟧.entries scorer
            ] }
    {
        match self {
            TermOrEmptyOrAllScorer::TermScorer(scorer) => AnyScorer::Leaf(Leaf::Term(scorer)),
            TermOrEmptyOrAllScorer::Empty => {
                AnyScorer::Leaf(Leaf::List(ListScorer::new(Vec::new(alloc))))
            }
            TermOrEmptyOrAllScorer::AllMatch(scorer) => AnyScorer::Leaf(Leaf::All(scorer)),
        }
    }
}
