//! Bounds of the scores of several scorers together.

ghost use Rattle.std.specs.Prelude.{◌+◌, ◌<◌, ◌≡◌, ◌≤ℤ◌, ◌≤◌, map, min, pos, sum, ℕ};
ghost use Rattle.definitions.specs.Postings.{terminated};
ghost use Rattle.definitions.specs.Scoring.{max_score, natural};
ghost use Rattle.docsets.specs.Members.{entries_at, scores_in};

use common::{DocId, MAX_SCORE, Score, TERMINATED};
use docsets::{DocSet, Scorer, Window};

/// Returns a bound of the scores that `scorers` give a document together, from `target` on. They stay where they are.
pub(crate) fn joint_window<S: Scorer>(scorers: &mut Vec<S>, target: DocId) -> Window
    requires small { target < terminated }
    ensures same { map S.entries scorers.new.items ≡ map S.entries scorers.old.items }
    ensures positive { pos 0 ≤ℤ result.bound }
    ensures ahead { target < result.until }
    ensures within { result.until ≤ terminated }
    ensures bound { (d : ℕ) → target ≤ d → d < result.until
        → min (sum (scores_in (entries_at d (map S.entries scorers.old.items)))) max_score ≤ natural result.bound }
{
    let mut bound = 0;
    let mut until = TERMINATED;
    for i in 0..scorers.len() {
        let window = scorers[i].window(target);
        bound = with_bound(bound, window.bound);
        until = until.min(window.until);
    }
    Window {
        bound: bound as Score,
        until,
    }
}

/// Returns the bound of the scores of two scorers together, whose own are `left` and `right`.
pub(crate) fn joint(left: Window, right: Window) -> Window
    requires positive { (pos 0 ≤ℤ left.bound) × (pos 0 ≤ℤ right.bound) }
    ensures positive { pos 0 ≤ℤ result.bound }
    ensures until { result.until ≡ min left.until right.until }
    ensures bound { min (natural left.bound + natural right.bound) max_score ≤ natural result.bound }
{
    let bound = with_bound(with_bound(0, left.bound), right.bound);
    Window {
        bound: bound as Score,
        until: left.until.min(right.until),
    }
}

/// Returns `total` with `bound` added, at most `MAX_SCORE`.
#[inline]
fn with_bound(total: u64, bound: Score) -> u64
    requires few { total ≤ max_score }
    requires positive { pos 0 ≤ℤ bound }
    ensures { result ≡ min (total + natural bound) max_score }
{
    (total + (bound as u64).min(MAX_SCORE as u64)).min(MAX_SCORE as u64)
}
