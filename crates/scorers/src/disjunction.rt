//! The documents that at least a minimum of the scorers have.

ghost use Rattle.std.specs.Prelude.{◌≡◌, ◌≤◌, List, map, sum, ℕ};
ghost use Rattle.docsets.specs.Entries.{Entry, first, from};
ghost use Rattle.definitions.specs.Postings.{terminated};
ghost use Rattle.definitions.specs.Scoring.{max_score};
ghost use Rattle.docsets.specs.Members.{at_least, combining, entries_at, greatest_sum, least, scores_in};
ghost use Rattle.scorers.specs.Choices.{IsChosen};
ghost use Rattle.scorers.specs.ChoicesLaws.{IsChosen-prop};

use crate::two_least::past_alone;
use common::{DocId, Score, TERMINATED};
use docsets::{DocSet, ScoreCombiner, Scorer, combine_at, lead};

/// The documents that at least `minimum` scorers have, with what a combiner makes of their scores.
/// There is no heap: the members are walked once for each document. A member alone on the least document moves to the
/// least of the others, until two are on one.
#[derive(Drop)]
pub struct Disjunction<S: Scorer, C: ScoreCombiner> {
    docsets: Vec<S>,
    combiner: C,
    minimum: usize,
    doc: DocId,
    ghost chosen: { IsChosen C.answer C.total minimum combiner (map S.entries docsets.items) doc } by { IsChosen-prop C.answer C.total minimum combiner (map S.entries docsets.items) doc },
}

/// Moves to the first document >= `target` that at least `minimum` of `docsets` have, and returns it.
fn choose<S: DocSet>(docsets: &mut Vec<S>, minimum: usize, target: DocId) -> DocId
    requires some { 1 ≤ minimum }
    requires small { target ≤ terminated }
    ensures same { (make : ℕ → List Entry → Entry) → at_least minimum make (map S.entries docsets.new.items)
        ≡ from target (at_least minimum make (map S.entries docsets.old.items)) }
    ensures at { (make : ℕ → List Entry → Entry)
        → result ≡ first (at_least minimum make (map S.entries docsets.new.items)) }
    ensures leads { result ≡ least (map S.entries docsets.new.items) }
    ensures scores { (d : ℕ) → sum (scores_in (entries_at d (map S.entries docsets.new.items)))
        ≤ sum (scores_in (entries_at d (map S.entries docsets.old.items))) }
{
    let mut leader = lead(docsets, target);
    while leader.count < minimum {
        if leader.doc >= TERMINATED {
            return TERMINATED;
        }
        if leader.count == 1 {
            leader = past_alone(docsets, minimum);
        } else {
            leader = lead(docsets, leader.doc + 1);
        }
    }
    leader.doc
}

impl<S: Scorer, C: ScoreCombiner> Disjunction<S, C> {
    /// Returns the documents that at least `minimum` of `docsets` have. What `combiner` has taken is forgotten.
    pub fn new(docsets: Vec<S>, combiner: C, minimum: usize) -> Disjunction<S, C>
        requires some { 1 ≤ minimum }
        requires fits { greatest_sum (map S.entries docsets.items) ≤ max_score }
        ensures { ⟦<Disjunction<S, C> as DocSet>⟧.entries result
            ≡ at_least minimum (combining (C.anew combiner)) (map S.entries docsets.items) }
    {
        let mut docsets = docsets;
        let mut fresh = combiner;
        fresh.clear();
        let doc = choose(&mut docsets, minimum, 0);
        Disjunction {
            docsets,
            combiner: fresh,
            minimum,
            doc,
        }
    }
}

impl<S: Scorer, C: ScoreCombiner> DocSet for Disjunction<S, C> {
    ghost use Rattle.scorers.specs.ChoicesLaws.{Rising-chosen};

    ghost entries = { λ s. at_least s.minimum (combining (C.answer s.combiner)) (map S.entries s.docsets.items) };

    fn advance(&mut self) -> DocId {
        if self.doc == TERMINATED {
            return TERMINATED;
        }
        self.doc = choose(&mut self.docsets, self.minimum, self.doc + 1);
        self.doc
    }

    fn seek(&mut self, target: DocId) -> DocId {
        self.doc = choose(&mut self.docsets, self.minimum, target);
        self.doc
    }

    #[inline]
    fn doc(&self) -> DocId {
        self.doc
    }

    fn size_hint(&self) -> u32 {
        let mut hint = 0;
        for i in 0..self.docsets.len() {
            hint = hint.max(self.docsets[i].size_hint());
        }
        hint
    }

    ghost rising = { λ s. Rising-chosen C.answer C.total C.bounded s.minimum s.combiner (map S.entries s.docsets.items) s.doc s.chosen };
}

impl<S: Scorer, C: ScoreCombiner> Scorer for Disjunction<S, C> {
    fn score(&mut self) -> Score {
        combine_at(&mut self.docsets, self.doc, self.combiner).score()
    }
}
