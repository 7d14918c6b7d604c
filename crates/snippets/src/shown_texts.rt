//! Snippets as they are shown: each word that is looked for between brackets.

ghost use Rattle.std.specs.Prelude.{◌++◌, ◌≡◌, IfOk, OnOk, chars, length, map, slice_range, string_bytes};
ghost use Rattle.std.specs.List.{flat_map};
ghost use Rattle.snippets.specs.Passages.{max_passage_len};
ghost use Rattle.snippets.specs.ShownTexts as definitions;
ghost use Rattle.snippets.specs.Views.{piece_of};

use crate::passages::{MAX_PASSAGE_LEN, Piece};
use crate::snippet::Snippet;
use std::alloc::{AllocError, Global};

/// Shows a snippet behind a space, with `..` where the text goes on.
pub fn shown_snippet(alloc: Global, snippet: &Snippet<'_>) -> Result<String, AllocError>
    ensures { IfOk result (λ text. string_bytes text
        ≡ definitions.shown_snippet (map piece_of snippet.now.pieces.items) snippet.now.start snippet.now.end) }
{
    shown_pieces(alloc, &snippet.pieces, snippet.start, snippet.end)
}

/// Shows those of a text's pieces that are from `start` on before `end`.
fn shown_pieces(
    alloc: Global,
    pieces: &[Piece<'_>],
    start: usize,
    end: usize,
) -> Result<String, AllocError>
    ensures { IfOk result (λ text. string_bytes text
        ≡ definitions.shown_snippet (map piece_of pieces.now) start end) }
{
    let mut out = String::new(alloc);
    push_before(&mut out, start)?;
    push_range(&mut out, pieces, start, end)?;
    push_behind(&mut out, end, pieces)?;
    Ok(out)
}

/// Appends a space, and two dots if a passage that begins with the piece at `start` isn't the text's beginning.
fn push_before(out: &mut String, start: usize) -> Result<(), AllocError>
    ensures { OnOk result (string_bytes out.new ≡ string_bytes out.old ++ definitions.shown_before start) }
{
    if start > 0 {
        return out.push_str(" .. ");
    }
    out.push_str(" ")
}

/// Appends two dots if pieces stand behind a passage that ends before the piece at `end`.
fn push_behind(out: &mut String, end: usize, pieces: &[Piece<'_>]) -> Result<(), AllocError>
    ensures { OnOk result (string_bytes out.new
        ≡ string_bytes out.old ++ definitions.shown_behind end (length (map piece_of pieces.now))) }
{
    push_dots(out, end, pieces.len())
}

/// Appends two dots if a passage that ends before the piece at `end` doesn't have the last of `count` pieces.
fn push_dots(out: &mut String, end: usize, count: usize) -> Result<(), AllocError>
    ensures { OnOk result (string_bytes out.new ≡ string_bytes out.old ++ definitions.shown_behind end count) }
{
    if end < count {
        return out.push_str("..");
    }
    Ok(())
}

/// Appends those of a text's pieces that are from `start` on before `end`; its beginning if there are none.
fn push_range(
    out: &mut String,
    pieces: &[Piece<'_>],
    start: usize,
    end: usize,
) -> Result<(), AllocError>
    ensures { OnOk result (string_bytes out.new ≡ string_bytes out.old
        ++ definitions.shown_passage (slice_range (map piece_of pieces.now) start end) (map piece_of pieces.now)) }
{
    push_passage(out, range_of(pieces, start, end), pieces)
}

/// Returns the pieces from `start` on before `end`.
fn range_of<'p, 'a>(pieces: &'p [Piece<'a>], start: usize, end: usize) -> &'p [Piece<'a>]
    ensures { map piece_of result.now ≡ slice_range (map piece_of pieces.now) start end }
{
    let to = end.min(pieces.len());
    let first = start.min(to);
    &pieces[first..to]
}

/// Appends the pieces of a passage; the beginning of the text's pieces if there are none.
fn push_passage(
    out: &mut String,
    passage: &[Piece<'_>],
    pieces: &[Piece<'_>],
) -> Result<(), AllocError>
    ensures { OnOk result (string_bytes out.new ≡ string_bytes out.old
        ++ definitions.shown_passage (map piece_of passage.now) (map piece_of pieces.now)) }
{
    if passage.is_empty() {
        return push_beginning(out, pieces);
    }
    push_pieces(out, passage)
}

/// Appends pieces.
fn push_pieces(out: &mut String, pieces: &[Piece<'_>]) -> Result<(), AllocError>
    ensures { OnOk result (string_bytes out.new ≡ string_bytes out.old
        ++ flat_map definitions.shown_piece (map piece_of pieces.now)) }
{
    for piece in pieces {
        push_piece(out, piece)?;
    }
    Ok(())
}

/// Appends a piece, its word between brackets if it has one that is looked for.
fn push_piece(out: &mut String, piece: &Piece<'_>) -> Result<(), AllocError>
    ensures { OnOk result (string_bytes out.new
        ≡ string_bytes out.old ++ definitions.shown_piece (piece_of piece.now)) }
{
    match piece.found {
        Some(_) => push_marked(out, piece.word, behind_word(piece)),
        None => push_text(out, piece.text),
    }
}

/// Returns what stands in a piece behind the word with which it begins.
fn behind_word<'a>(piece: &Piece<'a>) -> &'a str
    ensures { result.now ≡ definitions.behind_word (piece_of piece.now) }
{
    match piece.text.strip_prefix(piece.word) {
        Some(rest) => rest,
        None => "",
    }
}

/// Appends a word between brackets, and what stands behind it.
fn push_marked(out: &mut String, word: &str, rest: &str) -> Result<(), AllocError>
    ensures { OnOk result (string_bytes out.new
        ≡ string_bytes out.old ++ definitions.shown_marked word.now rest.now) }
{
    out.push_str("[")?;
    push_text(out, word)?;
    out.push_str("]")?;
    push_text(out, rest)
}

/// Appends a text, character by character.
fn push_text(out: &mut String, text: &str) -> Result<(), AllocError>
    ensures { OnOk result (string_bytes out.new ≡ string_bytes out.old ++ definitions.shown_text text.now) }
{
    for c in text.chars() {
        out.push(shown_char(c))?;
    }
    Ok(())
}

/// Appends the beginning of the first piece, which is longer than a passage.
fn push_beginning(out: &mut String, pieces: &[Piece<'_>]) -> Result<(), AllocError>
    ensures { OnOk result (string_bytes out.new
        ≡ string_bytes out.old ++ definitions.shown_beginning (map piece_of pieces.now)) }
{
    match pieces.first() {
        Some(piece) => push_begun(out, piece.text),
        None => Ok(()),
    }
}

/// Appends the characters from the first on that a passage has room for.
fn push_begun(out: &mut String, text: &str) -> Result<(), AllocError>
    ensures { OnOk result (string_bytes out.new ≡ string_bytes out.old
        ++ definitions.shown_chars (definitions.begun max_passage_len (chars text.now))) }
{
    let mut room = MAX_PASSAGE_LEN;
    for c in text.chars() {
        let len = c.len_utf8();
        if len > room {
            return Ok(());
        }
        room -= len;
        out.push(shown_char(c))?;
    }
    Ok(())
}

/// Returns the character that is shown: a space in place of a control character, which would move the terminal's cursor.
fn shown_char(c: char) -> char
    ensures { result ≡ definitions.shown_char c }
{
    if c.is_control() { ' ' } else { c }
}
