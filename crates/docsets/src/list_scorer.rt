//! A scorer of a list of documents with scores.

ghost use Rattle.std.specs.Prelude.{◌<◌, ◌≡◌, ◌≤◌, drop, length, nat_lt, slice_index_or, ℕ, ℤ};
ghost use Rattle.docsets.specs.Entries.{from};
ghost use Rattle.docsets.specs.ScoredEntries.{AreScores, naturals, scored};
ghost use Rattle.docsets.specs.ScoredEntryLaws.{AreScores-prop};

use crate::DocSet;
use crate::scorer::Scorer;
use common::{DocId, Score, TERMINATED};

/// The documents of a list, with their scores.
#[derive(Drop)]
pub struct ListScorer {
    pairs: Vec<(DocId, Score)>,
    cursor: usize,
    ghost scores: { AreScores 0 (drop cursor pairs.items) } by { AreScores-prop 0 (drop cursor pairs.items) },
}

impl ListScorer {
    /// Returns a scorer on the first document of `pairs`, whose documents ascend below `TERMINATED`, with scores from 0
    /// to `MAX_SCORE`.
    pub fn new(pairs: Vec<(DocId, Score)>) -> ListScorer
        requires { AreScores 0 pairs.items }
        ensures { ⟦<ListScorer as DocSet>⟧.entries result ≡ scored (naturals pairs.items) }
    {
        ListScorer { pairs, cursor: 0 }
    }
}

/// Whether the document of `pair` is before `target`.
#[inline]
fn is_before(pair: &(DocId, Score), target: DocId) -> bool
    ensures { result ≡ nat_lt pair.now.0 target }
{
    pair.0 < target
}

/// Returns the first of the indexes 1, 2, 4 and so on, cut at the end, whose document isn't before `target`.
#[inline]
fn reach(pairs: &[(DocId, Score)], target: DocId) -> usize
    ensures bound { result ≤ length pairs.now }
    ensures past { (d : ℕ × ℤ) → result < length pairs.now → target ≤ (slice_index_or pairs.now result d).0 }
{
    let mut index = 1usize;
    while index < pairs.len() && is_before(&pairs[index], target) {
        index = index.saturating_mul(2);
    }
    index.min(pairs.len())
}

/// Returns the pairs from `index` on.
#[inline]
fn rest(pairs: &[(DocId, Score)], index: usize) -> &[(DocId, Score)]
    requires { index ≤ length pairs.now }
    ensures { result.now ≡ drop index pairs.now }
{
    &pairs[index..]
}

/// Returns the number of documents before `target`, in few steps if these are few.
#[inline]
fn count_before(pairs: &[(DocId, Score)], target: DocId) -> usize
    requires { AreScores 0 pairs.now }
    ensures bound { result ≤ length pairs.now }
    ensures rest { scored (naturals (drop result pairs.now)) ≡ from target (scored (naturals pairs.now)) }
{
    let near = &pairs[..reach(pairs, target)];
    near.partition_point(|pair| is_before(pair, target))
}

impl DocSet for ListScorer {
    ghost use Rattle.docsets.specs.ScoredEntryLaws.{Rising-scores};

    ghost entries = { λ s. scored (naturals (drop s.cursor s.pairs.items)) };

    #[inline]
    fn advance(&mut self) -> DocId {
        if self.cursor >= self.pairs.len() {
            return TERMINATED;
        }
        self.cursor += 1;
        self.doc()
    }

    fn seek(&mut self, target: DocId) -> DocId {
        if self.cursor >= self.pairs.len() {
            return TERMINATED;
        }
        self.cursor += count_before(rest(&self.pairs, self.cursor), target);
        self.doc()
    }

    #[inline]
    fn doc(&self) -> DocId {
        if self.cursor < self.pairs.len() {
            return self.pairs[self.cursor].0;
        }
        TERMINATED
    }

    fn size_hint(&self) -> u32 {
        self.pairs.len().min(u32::MAX as usize) as u32
    }

    ghost rising = { λ s. Rising-scores 0 (drop s.cursor s.pairs.items) s.scores };
}

impl Scorer for ListScorer {
    #[inline]
    fn score(&mut self) -> Score {
        self.pairs[self.cursor].1
    }
}
