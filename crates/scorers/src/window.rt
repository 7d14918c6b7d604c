//! The window of a buffered union: the documents to come, each with a combiner of its scores.

ghost use Rattle.std.specs.Prelude.{[], ◌*◌, ◌+◌, ◌-◌, ◌<◌, ◌≡◌, ◌≤◌, IfOk, List, length, map, min, slice_index_or, sum, ℕ};
ghost use Rattle.docsets.specs.Entries.{first, from};
ghost use Rattle.definitions.specs.Postings.{terminated};
ghost use Rattle.definitions.specs.Scoring.{max_score};
ghost use Rattle.docsets.specs.Members.{entries_at, entries_of, least, scores_in};
ghost use Rattle.scorers.specs.Windows.{IsCleared, IsSameFrom, Moves, held};

use crate::window_bits::WindowBits;
use common::DocId;
use docsets::{ScoreCombiner, Scorer};
use std::alloc::{AllocError, Global};

/// The number of documents of a window.
pub(crate) const HORIZON: u32 = 4096;

/// Returns empty slots, one for each document of a window.
pub(crate) fn fresh_slots<C: ScoreCombiner>(alloc: Global, fresh: C) -> Result<Vec<C>, AllocError>
    ensures len { IfOk result (λ slots. length slots.items ≡ 4096) }
    ensures fresh { IfOk result (λ slots. (k : ℕ) → slice_index_or slots.items k fresh ≡ fresh) }
{
    let mut slots = vec![in alloc; fresh; 4096]?;
    for k in 0..slots.len() {
        slots[k] = fresh;
    }
    Ok(slots)
}

/// Clears the documents below `limit` of word `at`; one slot if there are none, which costs less than a branch.
#[inline]
fn clear_word<C: ScoreCombiner>(
    present: &mut WindowBits,
    slots: &mut Vec<C>,
    fresh: C,
    at: u32,
    limit: DocId,
)
    requires at { at < 64 }
    requires some { 64 * at < limit }
    requires flags { length present.old ≡ 4096 }
    requires slots { length slots.old.items ≡ 4096 }
    requires cleared { IsCleared C.answer C.total present.old slots.old.items fresh (64 * at) }
    ensures same { IsSameFrom fresh limit present.old slots.old.items present.new slots.new.items }
    ensures cleared { IsCleared C.answer C.total present.new slots.new.items fresh (min (64 * at + 64) limit) }
{
    let mut left = present.take_below(at, limit);
    loop {
        let k = left.trailing_zeros() % 64;
        slots[(64 * at + k) as usize] = fresh;
        left &= !(1 << k);
        if left == 0 {
            return;
        }
    }
}

/// Clears all documents of the window below `limit`. There are none below `first`.
pub(crate) fn clear_below<C: ScoreCombiner>(
    present: &mut WindowBits,
    slots: &mut Vec<C>,
    fresh: C,
    first: DocId,
    limit: DocId,
)
    requires flags { length present.old ≡ 4096 }
    requires slots { length slots.old.items ≡ 4096 }
    requires cleared { IsCleared C.answer C.total present.old slots.old.items fresh first }
    ensures same { IsSameFrom fresh limit present.old slots.old.items present.new slots.new.items }
    ensures cleared { IsCleared C.answer C.total present.new slots.new.items fresh limit }
{
    for at in first / 64..(limit.min(HORIZON) + 63) / 64 {
        clear_word(present, slots, fresh, at, limit);
    }
}

/// Moves the documents of `scorer` below `horizon` into the window.
/// The bit and the slot of a document are cleared when it is passed, so a posting is added without a test of whether
/// the document is new: a branch, which would be mispredicted on dense lists.
pub(crate) fn collect<S: Scorer, C: ScoreCombiner>(
    scorer: &mut S,
    start: DocId,
    horizon: DocId,
    fresh: C,
    present: &mut WindowBits,
    slots: &mut Vec<C>,
)
    requires ahead { start ≤ first (S.entries scorer.old) }
    requires near { horizon ≤ start + 4096 }
    requires small { horizon ≤ terminated }
    requires flags { length present.old ≡ 4096 }
    requires slots { length slots.old.items ≡ 4096 }
    requires cleared { IsCleared C.answer C.total present.old slots.old.items fresh 0 }
    requires fits { (d : ℕ) → start ≤ d → d < horizon → C.total (held present.old slots.old.items fresh (d - start))
        + sum (scores_in (entries_of d (S.entries scorer.old))) ≤ max_score }
    ensures rest { S.entries scorer.new ≡ from horizon (S.entries scorer.old) }
    ensures moved { Moves C.answer C.total fresh start horizon
        present.old slots.old.items (λ d. entries_of d (S.entries scorer.old)) present.new slots.new.items (λ d. []) }
    ensures cleared { IsCleared C.answer C.total present.new slots.new.items fresh 0 }
{
    let mut doc = scorer.doc();
    while doc < horizon {
        let k = doc - start;
        slots[k as usize].update(scorer);
        present.insert(k);
        doc = scorer.advance();
    }
}

/// Moves the documents of all of `docsets` below `horizon` into the window.
pub(crate) fn collect_all<S: Scorer, C: ScoreCombiner>(
    docsets: &mut Vec<S>,
    start: DocId,
    horizon: DocId,
    fresh: C,
    present: &mut WindowBits,
    slots: &mut Vec<C>,
)
    requires ahead { start ≤ least (map S.entries docsets.old.items) }
    requires near { horizon ≤ start + 4096 }
    requires small { horizon ≤ terminated }
    requires flags { length present.old ≡ 4096 }
    requires slots { length slots.old.items ≡ 4096 }
    requires cleared { IsCleared C.answer C.total present.old slots.old.items fresh 0 }
    requires fits { (d : ℕ) → start ≤ d → d < horizon → C.total (held present.old slots.old.items fresh (d - start))
        + sum (scores_in (entries_at d (map S.entries docsets.old.items))) ≤ max_score }
    ensures rest { map S.entries docsets.new.items ≡ map (from horizon) (map S.entries docsets.old.items) }
    ensures moved { Moves C.answer C.total fresh start horizon
        present.old slots.old.items (λ d. entries_at d (map S.entries docsets.old.items))
        present.new slots.new.items (λ d. []) }
    ensures cleared { IsCleared C.answer C.total present.new slots.new.items fresh 0 }
{
    for i in 0..docsets.len() {
        collect(&mut docsets[i], start, horizon, fresh, present, slots);
    }
}
