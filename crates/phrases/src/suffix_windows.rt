//! The documents where a suffix follows a phrase, window by window.

ghost use Rattle.std.specs.Prelude.{◌++◌, ◌<◌, ◌≡◌, ◌≤◌, length, map, ℕ};
ghost use Rattle.docsets.specs.Entries.{IsRest, Rising, first, most_positions};
ghost use Rattle.definitions.specs.Postings.{terminated};
ghost use Rattle.phrases.specs.PrefixEntries.{most_suffix_positions, prefixed};
ghost use Rattle.phrases.specs.Windows.{IsWindow, left_in};

use crate::next_rows::{keep_followed, take_rows};
use crate::row_search::{note_guesses, shift_of};
use crate::suffixes::add_suffixes;
use crate::window::{GROWTH, MOST_ROWS, Window};
use common::{DocId, TERMINATED};
use docsets::{Postings, Scorer};
use intersections::Positioned;

/// Replaces the rows of `window` with those of the next documents of `phrase` that suffixes follow.
fn fill_window<W: Scorer + Positioned, P: Postings>(
    phrase: &mut W,
    suffixes: &mut Vec<P>,
    window: &mut Window,
    moved: u32,
)
    requires on { first (W.entries phrase.old) < terminated }
    requires few_places { most_positions (W.entries phrase.old) ≤ 4294967295 }
    requires few_suffixes { length suffixes.old.items < 4294967296 }
    requires window { IsWindow window.old (most_positions (W.entries phrase.old))
        (most_suffix_positions (map P.entries suffixes.old.items)) }
    ensures same { left_in window.new ++ prefixed moved (map P.entries suffixes.new.items) (W.entries phrase.new)
        ≡ prefixed moved (map P.entries suffixes.old.items) (W.entries phrase.old) }
    ensures rest { IsRest (W.entries phrase.new) (W.entries phrase.old) }
    ensures later { first (W.entries phrase.old) < first (W.entries phrase.new) }
    ensures most { most_suffix_positions (map P.entries suffixes.new.items)
        ≤ most_suffix_positions (map P.entries suffixes.old.items) }
    ensures long { length suffixes.new.items ≡ length suffixes.old.items }
    ensures window { (n m : ℕ) → IsWindow window.old n m → IsWindow window.new n m }
{
    window.row = 0;
    take_rows(
        phrase,
        window.limit,
        &mut window.rows,
        &mut window.places,
        &mut window.here,
    );
    let shift = shift_of(&window.rows);
    note_guesses(&window.rows, shift, &mut window.guesses);
    add_suffixes(
        suffixes,
        &mut window.rows,
        &window.guesses,
        shift,
        &window.places,
        moved,
        &mut window.positions,
    );
    keep_followed(&mut window.rows);
    window.limit = (window.limit * GROWTH).min(MOST_ROWS);
}

/// Fills `window` until it has a current row or no document is left, and returns the current document.
pub(crate) fn refill<W: Scorer + Positioned, P: Postings>(
    phrase: &mut W,
    suffixes: &mut Vec<P>,
    window: &mut Window,
    moved: u32,
) -> DocId
    requires rises { Rising 0 (left_in window.old
        ++ prefixed moved (map P.entries suffixes.old.items) (W.entries phrase.old)) }
    requires few_places { most_positions (W.entries phrase.old) ≤ 4294967295 }
    requires few_suffixes { length suffixes.old.items < 4294967296 }
    requires window { IsWindow window.old (most_positions (W.entries phrase.old))
        (most_suffix_positions (map P.entries suffixes.old.items)) }
    ensures same { left_in window.new ++ prefixed moved (map P.entries suffixes.new.items) (W.entries phrase.new)
        ≡ left_in window.old ++ prefixed moved (map P.entries suffixes.old.items) (W.entries phrase.old) }
    ensures at { result ≡ first (left_in window.new) }
    ensures ends { terminated ≤ result → terminated ≤ first (W.entries phrase.new) }
    ensures rest { IsRest (W.entries phrase.new) (W.entries phrase.old) }
    ensures most { most_suffix_positions (map P.entries suffixes.new.items)
        ≤ most_suffix_positions (map P.entries suffixes.old.items) }
    ensures long { length suffixes.new.items ≡ length suffixes.old.items }
    ensures window { (n m : ℕ) → IsWindow window.old n m → IsWindow window.new n m }
{
    let mut doc = window.doc();
    while doc >= TERMINATED && phrase.doc() < TERMINATED {
        fill_window(phrase, suffixes, window, moved);
        doc = window.doc();
    }
    doc
}
