//! The union of scorers, which looks ahead in a window of documents.

ghost use Rattle.std.specs.Prelude.{◌+◌, ◌-◌, ◌/◌, ◌<◌, ◌≡◌, ◌≤◌, IfOk, IfSome, false, length, map, slice_index_or, sum, ℕ};
ghost use Rattle.common.specs.BitSets.{IsFirst};
ghost use Rattle.docsets.specs.Entries.{first};
ghost use Rattle.definitions.specs.Postings.{terminated};
ghost use Rattle.definitions.specs.Scoring.{max_score};
ghost use Rattle.docsets.specs.ScoredEntries.{pairs_of};
ghost use Rattle.docsets.specs.Members.{at_least, combining, entries_at, greatest_sum, least, scores_in};
ghost use Rattle.scorers.specs.ClearingsLaws.{IsBucketed-prop, IsCleared-prop};
ghost use Rattle.scorers.specs.FillingsLaws.{IsStanding-prop};
ghost use Rattle.scorers.specs.Windows.{IsCleared, IsStanding, IsWindow, windowed};

use crate::union_list::list_rest;
use crate::window::{HORIZON, clear_below, collect_all, fresh_slots};
use crate::window_bits::WindowBits;
use common::{DocId, Score, TERMINATED};
use docsets::{DocSet, ListScorer, ScoreCombiner, Scorer, least_of, move_all};
use std::alloc::{AllocError, Global};

/// The documents of several scorers, each once, with what a combiner makes of its scores.
#[derive(Drop)]
pub struct BufferedUnionScorer<S: Scorer, C: ScoreCombiner> {
    docsets: Vec<S>,
    fresh: C,
    present: WindowBits,
    slots: Vec<C>,
    start: DocId,
    doc: DocId,
    bucket: u32,
    num_docs: u32,
    ghost standing: { IsStanding C.answer C.total present slots.items fresh start (map S.entries docsets.items) doc } by { IsStanding-prop C.answer C.total present slots.items fresh start (map S.entries docsets.items) doc },
    ghost cleared: { IsCleared C.answer C.total present slots.items fresh (doc - start) } by { IsCleared-prop C.answer C.total present slots.items fresh (doc - start) },
    ghost bucketed: { doc < terminated → bucket ≡ (doc - start) / 64 } by { IsBucketed-prop doc start bucket },
}

/// Fills the window from the least document on, and returns that; `TERMINATED` if there is none.
fn refill<S: Scorer, C: ScoreCombiner>(
    docsets: &mut Vec<S>,
    fresh: C,
    present: &mut WindowBits,
    slots: &mut Vec<C>,
) -> DocId
    requires flags { length present.old ≡ 4096 }
    requires slots { length slots.old.items ≡ 4096 }
    requires unused { C.total fresh ≡ 0 }
    requires cleared { IsCleared C.answer C.total present.old slots.old.items fresh 4096 }
    requires fits { (d : ℕ) → least (map S.entries docsets.old.items) ≤ d → d < terminated
        → sum (scores_in (entries_at d (map S.entries docsets.old.items))) ≤ max_score }
    ensures same { windowed C.answer present.new slots.new.items fresh result (map S.entries docsets.new.items) result
        ≡ at_least 1 (combining (C.answer fresh)) (map S.entries docsets.old.items) }
    ensures standing { IsStanding C.answer C.total present.new slots.new.items fresh result
        (map S.entries docsets.new.items) result }
    ensures cleared { IsCleared C.answer C.total present.new slots.new.items fresh 0 }
{
    let next = least_of(docsets);
    if next == TERMINATED {
        return TERMINATED;
    }
    let high = (next + HORIZON).min(TERMINATED);
    collect_all(docsets, next, high, fresh, present, slots);
    next
}

/// Moves to the first document >= `low`: that of the window's first flag, `found`, or else the first after the window.
/// Returns where the window then starts, the document, and the word of its flag.
#[inline]
pub(crate) fn settle<S: Scorer, C: ScoreCombiner>(
    docsets: &mut Vec<S>,
    fresh: C,
    present: &mut WindowBits,
    slots: &mut Vec<C>,
    found: Option<DocId>,
    start: DocId,
    low: DocId,
) -> (DocId, DocId, u32)
    requires window { IsWindow C.total present.old slots.old.items fresh start (map S.entries docsets.old.items) }
    requires begun { start ≤ low }
    requires small { low ≤ terminated }
    requires ahead { low ≤ least (map S.entries docsets.old.items) }
    requires cleared { IsCleared C.answer C.total present.old slots.old.items fresh (low - start) }
    requires found { IsFirst (λ k. slice_index_or present.old k false) 0 found }
    requires within { IfSome found (λ k. k < 4096) }
    ensures same { windowed C.answer present.new slots.new.items fresh result.0
        (map S.entries docsets.new.items) result.1
        ≡ windowed C.answer present.old slots.old.items fresh start (map S.entries docsets.old.items) low }
    ensures standing { IsStanding C.answer C.total present.new slots.new.items fresh result.0
        (map S.entries docsets.new.items) result.1 }
    ensures cleared { IsCleared C.answer C.total present.new slots.new.items fresh (result.1 - result.0) }
    ensures bucket { result.1 < terminated → result.2 ≡ (result.1 - result.0) / 64 }
{
    if let Some(k) = found {
        return (start, (start + k).min(TERMINATED), k / 64);
    }
    let next = refill(docsets, fresh, present, slots);
    (next, next, 0)
}

/// Moves to the first document >= `target`, maybe past the window, which has none below `first`.
fn settle_at<S: Scorer, C: ScoreCombiner>(
    docsets: &mut Vec<S>,
    fresh: C,
    present: &mut WindowBits,
    slots: &mut Vec<C>,
    start: DocId,
    first: DocId,
    target: DocId,
) -> (DocId, DocId, u32)
    requires window { IsWindow C.total present.old slots.old.items fresh start (map S.entries docsets.old.items) }
    requires begun { start ≤ target }
    requires small { target ≤ terminated }
    requires cleared { IsCleared C.answer C.total present.old slots.old.items fresh first }
    ensures same { windowed C.answer present.new slots.new.items fresh result.0
        (map S.entries docsets.new.items) result.1
        ≡ windowed C.answer present.old slots.old.items fresh start (map S.entries docsets.old.items) target }
    ensures standing { IsStanding C.answer C.total present.new slots.new.items fresh result.0
        (map S.entries docsets.new.items) result.1 }
    ensures cleared { IsCleared C.answer C.total present.new slots.new.items fresh (result.1 - result.0) }
    ensures bucket { result.1 < terminated → result.2 ≡ (result.1 - result.0) / 64 }
{
    clear_below(present, slots, fresh, first, target - start);
    let found = present.first_from(target - start);
    if target - start < HORIZON {
        return settle(docsets, fresh, present, slots, found, start, target);
    }
    move_all(docsets, target);
    settle(docsets, fresh, present, slots, found, start, target)
}

impl<S: Scorer + Drop, C: ScoreCombiner> BufferedUnionScorer<S, C> {
    /// Returns the union of `docsets`. What `combiner` has taken is forgotten; `num_docs`, the number of documents, is
    /// a hint.
    pub fn build(
        alloc: Global,
        docsets: Vec<S>,
        combiner: C,
        num_docs: u32,
    ) -> Result<BufferedUnionScorer<S, C>, AllocError>
        requires { greatest_sum (map S.entries docsets.items) ≤ max_score }
        ensures { IfOk result (λ union. ⟦<BufferedUnionScorer<S, C> as DocSet>⟧.entries union
            ≡ at_least 1 (combining (C.anew combiner)) (map S.entries docsets.items)) }
    {
        let mut docsets = docsets;
        let mut fresh = combiner;
        fresh.clear();
        let mut present = WindowBits::new(alloc)?;
        let mut slots = fresh_slots(alloc, fresh)?;
        let doc = refill(&mut docsets, fresh, &mut present, &mut slots);
        Ok(BufferedUnionScorer {
            docsets,
            fresh,
            present,
            slots,
            start: doc,
            doc,
            bucket: 0,
            num_docs,
        })
    }
}

impl<S: Scorer + Drop, C: ScoreCombiner> BufferedUnionScorer<S, C> {
    /// Converts the remaining documents, each with its score, to a list.
    /// Takes the union by value: a walk over a borrowed one would store the state of the cursor for each document.
    pub fn into_list(self, alloc: Global) -> Result<ListScorer, AllocError>
        ensures { IfOk result (λ list. pairs_of (⟦<ListScorer as DocSet>⟧.entries list)
            ≡ pairs_of (⟦<BufferedUnionScorer<S, C> as DocSet>⟧.entries self)) }
    {
        let BufferedUnionScorer {
            docsets,
            fresh,
            present,
            slots,
            start,
            doc,
            bucket,
            ..
        } = self;
        let mut docsets = docsets;
        let mut present = present;
        let mut slots = slots;
        let pairs = list_rest(
            alloc,
            &mut docsets,
            fresh,
            &mut present,
            &mut slots,
            start,
            doc,
            bucket,
        )?;
        Ok(ListScorer::new(pairs))
    }
}

impl<S: Scorer, C: ScoreCombiner> DocSet for BufferedUnionScorer<S, C> {
    ghost use Rattle.scorers.specs.FillingsLaws.{Rising-windowed};

    ghost entries = { λ s. windowed C.answer s.present s.slots.items s.fresh s.start (map S.entries s.docsets.items) s.doc };

    #[inline]
    fn advance(&mut self) -> DocId {
        if self.doc == TERMINATED {
            return TERMINATED;
        }
        let k = self.doc - self.start;
        self.slots[k as usize] = self.fresh;
        let found = self.present.next_after(self.bucket);
        let (start, doc, bucket) = settle(
            &mut self.docsets,
            self.fresh,
            &mut self.present,
            &mut self.slots,
            found,
            self.start,
            self.doc + 1,
        );
        self.start = start;
        self.doc = doc;
        self.bucket = bucket;
        doc
    }

    fn seek(&mut self, target: DocId) -> DocId {
        let (start, doc, bucket) = settle_at(
            &mut self.docsets,
            self.fresh,
            &mut self.present,
            &mut self.slots,
            self.start,
            self.doc - self.start,
            target,
        );
        self.start = start;
        self.doc = doc;
        self.bucket = bucket;
        doc
    }

    #[inline]
    fn doc(&self) -> DocId {
        self.doc
    }

    fn size_hint(&self) -> u32 {
        self.num_docs
    }

    ghost rising = { λ s. Rising-windowed C.answer C.total C.bounded s.present s.slots.items s.fresh s.start (map S.entries s.docsets.items) s.doc s.standing };
}

impl<S: Scorer, C: ScoreCombiner> Scorer for BufferedUnionScorer<S, C> {
    #[inline]
    fn score(&mut self) -> Score {
        self.slots[(self.doc - self.start) as usize].score()
    }
}
