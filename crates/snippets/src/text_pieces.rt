//! Texts cut at their words.

ghost use Rattle.std.specs.Prelude.{◌+◌, ◌++◌, ◌<◌, ◌≡◌, ◌≤◌, IfOk, IsCharBoundary, OnOk, length, map, not, position, slice_index, slice_range};
ghost use Rattle.definitions.specs.Analyzers as definitions;
ghost use Rattle.snippets.specs.Cutting.{cut, ended, going, word_of};

use std::alloc::{AllocError, Global};

/// Cuts `text` behind each byte that is no part of a word.
pub(crate) fn cut<'a>(alloc: Global, text: &'a str) -> Result<Vec<&'a str>, AllocError>
    ensures { IfOk result (λ parts. map (λ p. p.now) parts.items ≡ cut text.now) }
{
    let mut parts = Vec::new(alloc);
    let mut start = 0;
    for offset in 0..text.len() {
        start = past_byte(&mut parts, text, start, offset)?;
    }
    if start < text.len() {
        parts.push(&text[start..])?;
    }
    Ok(parts)
}

/// Appends the part from `start` on if the byte at `offset` ends it; returns where the part behind that byte begins.
#[tactic(auto, using(std::proofs::lemmas::List::Edits::between_more, std::proofs::lemmas::List::Edits::between_none))]
fn past_byte<'a>(
    parts: &mut Vec<&'a str>,
    text: &'a str,
    start: usize,
    offset: usize,
) -> Result<usize, AllocError>
    requires within { offset < length text.now }
    requires begun { start ≤ offset }
    requires boundary { IsCharBoundary text.now start }
    ensures parts { OnOk result (map (λ p. p.now) parts.new.items ≡ map (λ p. p.now) parts.old.items
        ++ ended (slice_range text.now start offset) (slice_index text.now offset)) }
    ensures run { IfOk result (λ next. slice_range text.now next (offset + 1)
        ≡ going (slice_range text.now start offset) (slice_index text.now offset)) }
    ensures begun { IfOk result (λ next. next ≤ offset + 1) }
    ensures boundary { IfOk result (λ next. IsCharBoundary text.now next) }
{
    if is_word_byte(text.as_bytes()[offset]) {
        return Ok(start);
    }
    parts.push(&text[start..offset + 1])?;
    Ok(offset + 1)
}

/// Whether a byte is of a word: an ASCII letter or digit, or of a character past ASCII.
fn is_word_byte(byte: u8) -> bool
    ensures { result ≡ definitions.is_word_byte byte }
{
    byte.is_ascii_alphanumeric() || byte >= 128
}

/// Returns the word with which a piece begins.
pub(crate) fn word_in(piece: &str) -> &str
    ensures { result.now ≡ word_of piece.now }
{
    match word_end(piece) {
        Some(end) => &piece[..end],
        None => piece,
    }
}

/// Returns the index of the first byte that is no part of a word, if there is one.
fn word_end(piece: &str) -> Option<usize>
    ensures { result ≡ position (λ b. not (definitions.is_word_byte b)) piece.now }
{
    piece
        .as_bytes()
        .iter()
        .position(|byte| !is_word_byte(*byte))
}
