//! One list by rank of two.

ghost use Rattle.std.specs.Prelude.{IsTrue, [], ◌+◌, ◌++◌, ◌-◌, ◌<◌, ◌≡◌, ◌≤◌, false, length, vec_capacity};
ghost use Rattle.best_k.specs.Kept.{score_at, score_of};
ghost use Rattle.definitions.specs.NumberedHits.{NeverRises};
ghost use Rattle.definitions.specs.Scanning.{ranked};

use common::DocId;

/// Puts all of `newer` among `older`, which has room for them: behind all that score as much or more. It goes from the
/// last on down, so that each of the older moves once at most.
pub(crate) fn merge(older: &mut Vec<(u64, u32, DocId)>, newer: &mut Vec<(u64, u32, DocId)>)
    requires older_fall { NeverRises score_of older.old.items }
    requires newer_fall { NeverRises score_of newer.old.items }
    requires fits { length older.old.items + length newer.old.items ≤ vec_capacity older.old }
    ensures items { older.new.items ≡ ranked score_of (older.old.items ++ newer.old.items) }
    ensures none { newer.new.items ≡ [] }
    ensures room { vec_capacity older.old ≤ vec_capacity older.new }
{
    let mut i = older.len();
    let mut j = newer.len();
    let _ = older.extend_from_slice(newer);
    while 0 < j {
        let (score, segment, doc) = newer[j - 1];
        if is_less(older, i, score) {
            i -= 1;
            older[i + j] = older[i];
        } else {
            j -= 1;
            older[i + j] = (score, segment, doc);
        }
    }
    newer.clear();
}

/// Whether there is a last one of the first `n` hits, and scores less than `score`.
#[inline]
fn is_less(hits: &[(u64, u32, DocId)], n: usize, score: u64) -> bool
    requires { n ≤ length hits.now }
    ensures some { IsTrue result → 0 < n }
    ensures less { IsTrue result → score_at hits.now (n - 1) < score }
    ensures as_much { result ≡ false → 0 < n → score ≤ score_at hits.now (n - 1) }
{
    if n == 0 {
        return false;
    }
    let (other, _, _) = hits[n - 1];
    other < score
}
