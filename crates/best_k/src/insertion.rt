//! Where a score goes among falling scores.

ghost use Rattle.std.specs.Prelude.{◌<◌, ◌≤◌, length, slice_index, ℕ};
ghost use Rattle.best_k.specs.Kept.{score_at};

use common::{DocId, Score};

/// Returns the index at which a hit with `score` goes in: behind all that score as much or more.
pub(crate) fn insertion_index(hits: &[(u64, u32, DocId)], score: u64) -> usize
    requires { (i j : ℕ) → i ≤ j → j < length hits.now → score_at hits.now j ≤ score_at hits.now i }
    ensures within { result ≤ length hits.now }
    ensures before { (i : ℕ) → i < result → score ≤ score_at hits.now i }
    ensures behind { (i : ℕ) → result ≤ i → i < length hits.now → score_at hits.now i < score }
{
    let mut low = 0;
    let mut high = hits.len();
    while low < high {
        let middle = low + (high - low) / 2;
        let (other, _, _) = hits[middle];
        if other >= score {
            low = middle + 1;
        } else {
            high = middle;
        }
    }
    low
}
