//! What stands before the first word of a passage.

ghost use Rattle.std.specs.Prelude.{◌≡◌, ◌≤◌, drop, length, map};
ghost use Rattle.snippets.specs.Passages as definitions;
ghost use Rattle.snippets.specs.Views.{piece_of};

use crate::passages::{MAX_PASSAGE_LEN, Piece, best_start, shown, window};

/// Returns where the passage begins that is shown: it shows as many words as any, if possible with text round them; the
/// text's beginning if there is no word.
pub(crate) fn shown_start(pieces: &[Piece<'_>], words: usize) -> usize
    ensures within { result ≤ length pieces.now }
    ensures best { definitions.most words (map piece_of pieces.now)
        ≤ definitions.shown words (definitions.window (map piece_of (drop result pieces.now))) }
{
    let best = best_start(pieces, words);
    let most = shown(window(&pieces[best..]), words);
    if most == 0 {
        return 0;
    }
    let needed = needed_len(window(&pieces[best..]));
    let before = begun_before(pieces, best, MAX_PASSAGE_LEN.saturating_sub(needed) / 2);
    if shown(window(&pieces[before..]), words) >= most {
        return before;
    }
    best
}

/// Returns how long the pieces up to the last with a word are together.
fn needed_len(pieces: &[Piece<'_>]) -> usize {
    let mut len: usize = 0;
    let mut needed = 0;
    for piece in pieces {
        len = len.saturating_add(piece.text.len());
        if piece.found.is_some() {
            needed = len;
        }
    }
    needed
}

/// Returns the first piece from which to the piece `start` there are at most `room` bytes.
fn begun_before(pieces: &[Piece<'_>], start: usize, room: usize) -> usize
    requires { start ≤ length pieces.now }
    ensures { result ≤ start }
{
    let mut room = room;
    for step in 0..start {
        let len = pieces[start - 1 - step].text.len();
        if len > room {
            return start - step;
        }
        room -= len;
    }
    0
}
