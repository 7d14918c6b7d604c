//! Passages of a text: pieces beside each other, and how many of the words that are looked for they show.

ghost use Rattle.std.specs.Prelude.{◌≡◌, ◌≤◌, drop, length, map};
ghost use Rattle.snippets.specs.Passages as definitions;
ghost use Rattle.snippets.specs.Views.{piece_of};

/// How long a passage may be, in bytes.
pub const MAX_PASSAGE_LEN: usize = 200;

/// A piece of a text: a word, or none, with the byte behind it that is no part of a word; or the whole text.
#[derive(Clone, Copy, Debug)]
pub struct Piece<'a> {
    pub text: &'a str,
    /// The word with which it begins.
    pub word: &'a str,
    /// The number of the first word that is looked for and that the piece has.
    pub found: Option<usize>,
}

/// Whether pieces have the word of the number `word`.
fn has(pieces: &[Piece<'_>], word: usize) -> bool
    ensures { result ≡ definitions.has word (map piece_of pieces.now) }
{
    for piece in pieces {
        if is_number(piece.found, word) {
            return true;
        }
    }
    false
}

/// Whether a piece has the word of the number `word`.
fn is_number(found: Option<usize>, word: usize) -> bool
    ensures { result ≡ definitions.is_number word found }
{
    match found {
        Some(number) => number == word,
        None => false,
    }
}

/// Returns how many of `words` words pieces have.
pub(crate) fn shown(pieces: &[Piece<'_>], words: usize) -> usize
    ensures { result ≡ definitions.shown words (map piece_of pieces.now) }
{
    let mut count = 0;
    for word in 0..words {
        if has(pieces, word) {
            count += 1;
        }
    }
    count
}

/// Returns how many pieces from the first on are a passage together.
pub(crate) fn reach(pieces: &[Piece<'_>]) -> usize
    ensures reach { result ≡ definitions.reach definitions.max_passage_len (map piece_of pieces.now) }
    ensures within { result ≤ length pieces.now }
{
    let mut room = MAX_PASSAGE_LEN;
    for (count, piece) in pieces.iter().enumerate() {
        if piece.text.len() > room {
            return count;
        }
        room -= piece.text.len();
    }
    pieces.len()
}

/// Returns the longest passage that begins with the first piece.
pub(crate) fn window<'p, 'a>(pieces: &'p [Piece<'a>]) -> &'p [Piece<'a>]
    ensures { map piece_of result.now ≡ definitions.window (map piece_of pieces.now) }
{
    &pieces[..reach(pieces)]
}

/// Returns where a passage begins that shows as many of `words` words as any.
pub(crate) fn best_start(pieces: &[Piece<'_>], words: usize) -> usize
    ensures within { result ≤ length pieces.now }
    ensures best { definitions.shown words (definitions.window (map piece_of (drop result pieces.now)))
        ≡ definitions.most words (map piece_of pieces.now) }
{
    let mut start = pieces.len();
    let mut most = 0;
    for (index, piece) in pieces.iter().enumerate() {
        if piece.found.is_some() {
            let count = shown(window(&pieces[index..]), words);
            if count > most {
                start = index;
                most = count;
            }
        }
    }
    start
}
