//! The best k hits of a search.

ghost use Rattle.std.specs.Prelude.{[], ◌++◌, ◌+◌, ◌<◌, ◌^◌, ◌≡◌, ◌≤◌, ◌∷◌, OnErr, OnOk, false, length, pos, slice_index_or, vec_capacity};
ghost use Rattle.std.specs.Option.{option_map_or};
ghost use Rattle.best_k.specs.Kept.{best_by, score_of};
ghost use Rattle.best_k.specs.KeptLaws.{NeverRises-prop};
ghost use Rattle.best_k.specs.Ranked.{hits_in, room_for_hits};
ghost use Rattle.definitions.specs.NumberedHits.{NeverRises};

use crate::ranked_hits::RankedHits;
use common::{AliveBitSet, DocId, Score};
use std::alloc::{AllocError, Global};
use std::marker::Model;
use walks::Sink;

/// The best `k` of the living documents that are collected: by score, and of equal scores what came first. Documents
/// come from one segment after the other; `enter` says from which.
#[derive(Drop)]
pub struct BestK<'a> {
    hits: RankedHits,
    wanted: usize,
    segment: u32,
    alive: Option<&'a AliveBitSet>,
    ghost falls: { NeverRises score_of (hits_in hits) } by { NeverRises-prop score_of (hits_in hits) },
    ghost few: { length (hits_in hits) ≤ wanted },
}

/// The state of a `BestK`. No value of it is made.
pub struct Kept {}

impl Model for Kept {
    ghost use Rattle.std.specs.Prelude.{[]};
    ghost use Rattle.best_k.specs.Kept.{Best};

    ghost Value = { Best };

    ghost view = { λ k. record { hits = []; wanted = 0; segment = 0; alive = [] } };
}

impl<'a> BestK<'a> {
    ghost use Rattle.best_k.specs.Contents.{best_in, room_in};

    /// Returns a sink that keeps the best `k`, without hits and without room yet.
    pub fn new(alloc: Global, k: usize) -> BestK<'a>
        ensures { best_in result ≡ record { hits = []; wanted = k; segment = 0; alive = [] } }
    {
        BestK {
            hits: RankedHits::new(alloc),
            wanted: k,
            segment: 0,
            alive: None,
        }
    }

    /// Makes room for `n` more hits, or for `k` in all if that is less.
    pub fn reserve(&mut self, n: usize) -> Result<(), AllocError>
        ensures ok { OnOk result (n ≤ room_in self.new) }
        ensures same { best_in self.new ≡ best_in self.old }
        ensures err { OnErr result (room_in self.new ≡ room_in self.old) }
    {
        let more = n.min(self.wanted - self.hits.len());
        self.hits.reserve(more)
    }

    /// Says that the documents that follow are of segment number `segment`, in which those in `alive` are alive. Before
    /// the first call none is.
    pub fn enter(&mut self, segment: u32, alive: &'a AliveBitSet)
        ensures best { best_in self.new ≡ record (best_in self.old) { segment = segment; alive = alive.now } }
        ensures room { room_in self.new ≡ room_in self.old }
    {
        self.segment = segment;
        self.alive = Some(alive);
    }

    /// Returns the hits, the best first: each its score, its segment's number and its document id.
    pub fn into_hits(self) -> Vec<(u64, u32, DocId)>
        ensures { result.items ≡ (best_in self.entry).hits }
    {
        let BestK { hits, .. } = self;
        hits.into_vec()
    }
}

impl<'a> Sink for BestK<'a> {
    ghost use Rattle.best_k.specs.Contents.{best_in, room_in};
    ghost use Rattle.best_k.specs.Kept.{limit, taken};

    type State = Kept;

    ghost state = { best_in };

    ghost limit = { limit };

    ghost taken = { taken };

    ghost room = { room_in };

    #[inline]
    fn threshold(&self) -> Score {
        if self.hits.len() < self.wanted {
            return -1;
        }
        self.hits.least_score() as Score
    }

    fn collect(&mut self, doc: DocId, score: Score) -> Score {
        if is_alive(self.alive, doc) {
            keep_best(
                &mut self.hits,
                self.wanted,
                (score as u64, self.segment, doc),
            );
        }
        self.threshold()
    }
}

/// Whether `doc` is in `alive`.
fn is_alive(alive: Option<&AliveBitSet>, doc: DocId) -> bool
    ensures { result ≡ slice_index_or (option_map_or (λ flags. flags.now) alive.entry []) doc false }
{
    match alive {
        Some(alive) => (doc as usize) < alive.len() && alive.is_alive(doc),
        None => false,
    }
}

/// Adds `found` to `hits` and keeps the best `wanted` of them. It takes no memory.
fn keep_best(hits: &mut RankedHits, wanted: usize, found: (u64, u32, DocId))
    requires falls { NeverRises score_of (hits_in hits.old) }
    requires few { length (hits_in hits.old) ≤ wanted }
    requires score { found.0 < 2 ^ 63 }
    requires room { room_for_hits hits.old < wanted → length (hits_in hits.old) < room_for_hits hits.old }
    ensures hits { hits_in hits.new ≡ best_by score_of wanted (hits_in hits.old ++ found ∷ []) }
    ensures falls { NeverRises score_of (hits_in hits.new) }
    ensures few { length (hits_in hits.new) ≤ wanted }
    ensures one { length (hits_in hits.new) ≤ length (hits_in hits.old) + 1 }
    ensures room { room_for_hits hits.old ≤ room_for_hits hits.new }
{
    if hits.len() < wanted {
        hits.insert(found);
        return;
    }
    if wanted == 0 {
        return;
    }
    if found.0 <= hits.least_score() {
        return;
    }
    hits.drop_last();
    hits.insert(found);
}
