//! Hits by rank, in two lists.

ghost use Rattle.std.specs.Prelude.{IsTrue, [], false, ◌+◌, ◌++◌, ◌-◌, ◌<◌, ◌^◌, ◌≡◌, ◌≤◌, ◌∷◌, OnErr, OnOk, length, take, vec_capacity};
ghost use Rattle.best_k.specs.Kept.{AreSigned, least_kept, score_at, score_of};
ghost use Rattle.best_k.specs.KeptLaws.{AreSigned-prop, NeverRises-prop};
ghost use Rattle.definitions.specs.NumberedHits.{NeverRises};
ghost use Rattle.definitions.specs.Scanning.{ranked};

use crate::insertion::insertion_index;
use crate::merged_hits::merge;
use common::{DocId, MAX_SCORE};
use std::alloc::{AllocError, Global};

/// The number of hits that are kept apart from the older ones.
const MOST_NEWER: usize = 128;

/// Hits by falling scores, and of equal scores in the order in which they came. One more goes among the newer ones,
/// which are few, so that few have to move for it; when these are as many as they may be, they go among the older.
#[derive(Drop)]
pub(crate) struct RankedHits {
    // Each with its score, its segment's number and its document id, the best first.
    older: Vec<(u64, u32, DocId)>,
    // Likewise of those that came after all of these.
    newer: Vec<(u64, u32, DocId)>,
    ghost older_fall: { NeverRises score_of older.items } by { NeverRises-prop score_of older.items },
    ghost newer_fall: { NeverRises score_of newer.items } by { NeverRises-prop score_of newer.items },
    ghost older_signed: { AreSigned older.items } by { AreSigned-prop older.items },
    ghost newer_signed: { AreSigned newer.items } by { AreSigned-prop newer.items },
    ghost fits: { length older.items + length newer.items ≤ vec_capacity older },
}

impl RankedHits {
    ghost use Rattle.best_k.specs.Ranked.{hits_in, room_for_hits};

    /// Returns no hits.
    pub(crate) fn new(alloc: Global) -> RankedHits
        ensures { hits_in result ≡ [] }
    {
        RankedHits {
            older: Vec::new(alloc),
            newer: Vec::new(alloc),
        }
    }

    /// Returns the number of hits.
    #[inline]
    pub(crate) fn len(&self) -> usize
        ensures { result ≡ length (hits_in self.now) }
    {
        self.older.len() + self.newer.len()
    }

    /// Makes room for `n` more hits; where they are many, for some that are newer too.
    pub(crate) fn reserve(&mut self, n: usize) -> Result<(), AllocError>
        requires { length (hits_in self.old) + n < 2 ^ 64 }
        ensures ok { OnOk result (length (hits_in self.new) + n ≤ room_for_hits self.new) }
        ensures same { hits_in self.new ≡ hits_in self.old }
        ensures more { room_for_hits self.old ≤ room_for_hits self.new }
        ensures err { OnErr result (room_for_hits self.new ≡ room_for_hits self.old) }
    {
        let more = self.newer.len() + n;
        reserve_newer(&mut self.newer, n)?;
        self.older.reserve(more)
    }

    /// Returns the least score; `MAX_SCORE` if there is none.
    #[inline]
    pub(crate) fn least_score(&self) -> u64
        ensures value { result ≡ least_kept (hits_in self.now) }
        ensures small { result < 2 ^ 63 }
    {
        if self.ends_with_older() {
            return last_score(&self.older);
        }
        last_score(&self.newer)
    }

    /// Whether the last hit is one of the older.
    #[inline]
    fn ends_with_older(&self) -> bool
        ensures older { IsTrue result → 0 < length self.now.older.items }
        ensures less { IsTrue result → 0 < length self.now.newer.items
            → score_at self.now.older.items (length self.now.older.items - 1)
            < score_at self.now.newer.items (length self.now.newer.items - 1) }
        ensures newer { result ≡ false → 0 < length self.now.older.items → 0 < length self.now.newer.items }
        ensures as_much { result ≡ false → 0 < length self.now.older.items
            → score_at self.now.newer.items (length self.now.newer.items - 1)
            ≤ score_at self.now.older.items (length self.now.older.items - 1) }
    {
        if self.older.is_empty() {
            return false;
        }
        if self.newer.is_empty() {
            return true;
        }
        let (score, _, _) = self.older[self.older.len() - 1];
        let (other, _, _) = self.newer[self.newer.len() - 1];
        score < other
    }

    /// Drops the last hit.
    pub(crate) fn drop_last(&mut self)
        requires { 0 < length (hits_in self.old) }
        ensures hits { hits_in self.new ≡ take (length (hits_in self.old) - 1) (hits_in self.old) }
        ensures room { room_for_hits self.new ≡ room_for_hits self.old }
    {
        if self.ends_with_older() {
            let _ = self.older.pop();
        } else {
            let _ = self.newer.pop();
        }
    }

    /// Adds `found` behind all that score as much or more. It takes no memory.
    pub(crate) fn insert(&mut self, found: (u64, u32, DocId))
        requires score { found.0 < 2 ^ 63 }
        requires room { length (hits_in self.old) < room_for_hits self.old }
        ensures hits { hits_in self.new ≡ ranked score_of (hits_in self.old ++ found ∷ []) }
        ensures room { room_for_hits self.old ≤ room_for_hits self.new }
    {
        if self.newer.len() < self.newer.capacity() {
            put_in_place(&mut self.newer, found);
        } else {
            merge(&mut self.older, &mut self.newer);
            put_in_place(&mut self.older, found);
        }
    }

    /// Returns the hits.
    pub(crate) fn into_vec(self) -> Vec<(u64, u32, DocId)>
        ensures { result.items ≡ hits_in self }
    {
        let RankedHits { older, newer, .. } = self;
        let mut hits = older;
        let mut newer = newer;
        merge(&mut hits, &mut newer);
        hits
    }
}

/// Makes room for newer hits if there may be as many as `n`, and these are many.
fn reserve_newer(newer: &mut Vec<(u64, u32, DocId)>, n: usize) -> Result<(), AllocError>
    ensures { newer.new.items ≡ newer.old.items }
{
    if n <= MOST_NEWER {
        return Ok(());
    }
    newer.reserve(MOST_NEWER.saturating_sub(newer.len()))
}

/// Returns the last score; `MAX_SCORE` if there is none.
#[inline]
fn last_score(hits: &[(u64, u32, DocId)]) -> u64
    requires falls { NeverRises score_of hits.now }
    requires signed { AreSigned hits.now }
    ensures value { result ≡ least_kept hits.now }
    ensures small { result < 2 ^ 63 }
{
    if hits.is_empty() {
        return MAX_SCORE as u64;
    }
    let (score, _, _) = hits[hits.len() - 1];
    score
}

/// Inserts `found` behind all that score as much or more. It takes no memory.
fn put_in_place(hits: &mut Vec<(u64, u32, DocId)>, found: (u64, u32, DocId))
    requires falls { NeverRises score_of hits.old.items }
    requires signed { AreSigned hits.old.items }
    requires score { found.0 < 2 ^ 63 }
    requires room { length hits.old.items < vec_capacity hits.old }
    ensures items { hits.new.items ≡ ranked score_of (hits.old.items ++ found ∷ []) }
    ensures signed { AreSigned hits.new.items }
    ensures room { vec_capacity hits.old ≤ vec_capacity hits.new }
{
    let at = insertion_index(hits, found.0);
    let _ = hits.insert(at, found);
}
