//! The documents that all scorers have.

ghost use Rattle.std.specs.Prelude.{[], ◌<◌, ◌≡◌, ◌≤ℤ◌, ◌≤◌, drop, length, map, pos, slice_index_or, vec_capacity};
ghost use Rattle.std.specs.List.{AllByRecursion};
ghost use Rattle.docsets.specs.Entries.{first, first_positions, from};
ghost use Rattle.definitions.specs.Postings.{terminated};
ghost use Rattle.definitions.specs.Scoring.{max_score};
ghost use Rattle.intersections.specs.MeetingLaws.{IsMeeting-prop};
ghost use Rattle.intersections.specs.Meetings.{IsMeeting, meeting};
ghost use Rattle.docsets.specs.Members.{greatest_sum};

use crate::column_threshold::ColumnThreshold;
use crate::joint_windows::joint_window;
use crate::leapfrog::{cheapest, next_match};
use crate::leapfrog_above::next_above;
use crate::positioned::Positioned;
use common::{DocId, Score, TERMINATED};
use docsets::{DocSet, ScoreCombiner, Scorer, SumCombiner, Window, combine_at};

/// The documents that all of several cursors have, with their scores and counts added up, and the positions of each in
/// the order in which the cursors were given.
#[derive(Drop)]
pub struct Intersection<S: DocSet> {
    docsets: Vec<S>,
    lead: usize,
    doc: DocId,
    ghost leading: { lead < length docsets.items },
    ghost meets: { IsMeeting (map S.entries docsets.items) doc } by { IsMeeting-prop (map S.entries docsets.items) doc },
}

impl<S: DocSet> Intersection<S> {
    /// Returns the documents that all of `docsets` have. The cursor of the least cost leads.
    pub fn new(docsets: Vec<S>) -> Intersection<S>
        requires several { 2 ≤ length docsets.items }
        requires fits { greatest_sum (map S.entries docsets.items) ≤ max_score }
        ensures { ⟦<Intersection<S> as DocSet>⟧.entries result ≡ meeting (map S.entries docsets.items) }
    {
        let mut docsets = docsets;
        let lead = cheapest(&docsets);
        let doc = next_match(&mut docsets, lead, 0);
        Intersection { docsets, lead, doc }
    }
}

impl<S: Positioned> Intersection<S> {
    /// Returns the number of columns of positions of the current document: one for each cursor.
    pub fn num_columns(&self) -> usize
        requires { first (⟦<Intersection<S> as DocSet>⟧.entries self.now) < terminated }
        ensures { result ≡ length (first_positions (⟦<Intersection<S> as DocSet>⟧.entries self.now)) }
    {
        self.docsets.len()
    }

    /// Replaces the content of `output`, which has the room, with column `index` of the current document.
    pub fn column(&mut self, index: usize, output: &mut Vec<u32>)
        requires on { first (⟦<Intersection<S> as DocSet>⟧.entries self.old) < terminated }
        requires within { index < length (first_positions (⟦<Intersection<S> as DocSet>⟧.entries self.old)) }
        requires room { length (slice_index_or (first_positions (⟦<Intersection<S> as DocSet>⟧.entries self.old)) index
            [])
            ≤ vec_capacity output.old }
        ensures same { ⟦<Intersection<S> as DocSet>⟧.entries self.new ≡ ⟦<Intersection<S> as DocSet>⟧.entries self.old }
        ensures items { output.new.items
            ≡ slice_index_or (first_positions (⟦<Intersection<S> as DocSet>⟧.entries self.old)) index [] }
        ensures room { vec_capacity output.old ≤ vec_capacity output.new }
    {
        self.docsets[index].positions(output);
    }

    /// Moves behind the current document to the next that isn't known to earn a low score, and returns it.
    pub fn advance_above<C: ColumnThreshold>(&mut self, threshold: &C) -> DocId
        ensures rest { ⟦<Intersection<S> as DocSet>⟧.entries self.new
            ≡ from result (drop 1 (⟦<Intersection<S> as DocSet>⟧.entries self.old)) }
        ensures at { result ≡ first (⟦<Intersection<S> as DocSet>⟧.entries self.new) }
        ensures up { first (⟦<Intersection<S> as DocSet>⟧.entries self.old) < terminated
            → first (⟦<Intersection<S> as DocSet>⟧.entries self.old) < result }
        ensures low { AllByRecursion (λ e. e.doc < result
            → pos (C.score threshold.now e.doc e.positions) ≤ℤ C.limit threshold.now)
            (drop 1 (⟦<Intersection<S> as DocSet>⟧.entries self.old)) }
    {
        if self.doc == TERMINATED {
            return TERMINATED;
        }
        self.doc = next_above(&mut self.docsets, self.lead, self.doc + 1, threshold);
        self.doc
    }
}

impl<S: DocSet> DocSet for Intersection<S> {
    ghost entries = { λ s. meeting (map S.entries s.docsets.items) };

    fn advance(&mut self) -> DocId {
        if self.doc == TERMINATED {
            return TERMINATED;
        }
        self.doc = next_match(&mut self.docsets, self.lead, self.doc + 1);
        self.doc
    }

    fn seek(&mut self, target: DocId) -> DocId {
        self.doc = next_match(&mut self.docsets, self.lead, target);
        self.doc
    }

    #[inline]
    fn doc(&self) -> DocId {
        self.doc
    }

    fn size_hint(&self) -> u32 {
        self.docsets[self.lead].size_hint()
    }

    fn cost(&self) -> u64 {
        self.docsets[self.lead].cost()
    }

    ghost rising = { λ s. s.meets.rises };
}

impl<S: Scorer> Scorer for Intersection<S> {
    fn score(&mut self) -> Score {
        combine_at(&mut self.docsets, self.doc, SumCombiner::default()).score()
    }

    fn window(&mut self, target: DocId) -> Window {
        joint_window(&mut self.docsets, target)
    }
}
