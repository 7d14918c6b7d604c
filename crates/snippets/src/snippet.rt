//! The best passage of a text.

ghost use Rattle.std.specs.Prelude.{◌≡◌, IfOk, map, option_map};
ghost use Rattle.common.specs.Token.{token_of};
ghost use Rattle.snippets.specs.Cutting as cutting;
ghost use Rattle.snippets.specs.Snippets as definitions;
ghost use Rattle.snippets.specs.Snippets.{IsSnippet, with_words};
ghost use Rattle.snippets.specs.Views.{piece_of, word_of};

use crate::context::shown_start;
use crate::passages::{Piece, reach};
use crate::text_pieces::{cut, word_in};
use crate::words::{Word, first_word};
use common::{Analyzer, Token};
use std::alloc::{AllocError, Global};

/// A text in pieces, and the passage of it that is shown.
#[derive(Drop)]
pub struct Snippet<'a> {
    /// The whole text.
    pub pieces: Vec<Piece<'a>>,
    /// The first piece that is shown.
    pub start: usize,
    /// The first piece behind those that are shown.
    pub end: usize,
}

/// Finds the passage of `text` that shows as many of `words` as any of its length.
pub fn snippet_of<'a, A: Analyzer>(
    alloc: Global,
    analyzer: &A,
    tokenizer: &str,
    text: &'a str,
    words: &[Word<'_>],
) -> Result<Snippet<'a>, AllocError>
    ensures { IfOk result (λ s. IsSnippet (A.analyze analyzer.now tokenizer.now) (map word_of words.now) text.now
        (map piece_of s.pieces.items) s.start s.end) }
{
    let pieces = marked_pieces(alloc, analyzer, tokenizer, text, words)?;
    let start = shown_start(&pieces, words.len());
    let end = start + reach(&pieces[start..]);
    Ok(Snippet { pieces, start, end })
}

/// Cuts `text` into pieces, each with the first of `words` that it has; it is one piece if its tokens aren't theirs.
fn marked_pieces<'a, A: Analyzer>(
    alloc: Global,
    analyzer: &A,
    tokenizer: &str,
    text: &'a str,
    words: &[Word<'_>],
) -> Result<Vec<Piece<'a>>, AllocError>
    ensures { IfOk result (λ pieces. map piece_of pieces.items
        ≡ definitions.marked_pieces (A.analyze analyzer.now tokenizer.now) (map word_of words.now) text.now) }
{
    let parts = cut(alloc, text)?;
    let tokens = analyzer.tokens(alloc, tokenizer, text)?;
    if have_tokens(alloc, analyzer, tokenizer, &parts, &tokens)? {
        return marked_parts(alloc, analyzer, tokenizer, &parts, words);
    }
    let mut pieces = Vec::new(alloc);
    pieces.push(piece_with(text, text, words, &tokens))?;
    Ok(pieces)
}

/// Whether `tokens` are those of `parts`, one behind the other, by their texts.
fn have_tokens<A: Analyzer>(
    alloc: Global,
    analyzer: &A,
    tokenizer: &str,
    parts: &[&str],
    tokens: &[Token],
) -> Result<bool, AllocError>
    ensures { IfOk result (λ same. same ≡ definitions.are_tokens_of (A.analyze analyzer.now tokenizer.now)
        (map (λ p. p.now) parts.now) (map token_of tokens.now)) }
{
    let mut rest = tokens;
    for part in parts {
        let first = analyzer.tokens(alloc, tokenizer, *part)?;
        let Some(left) = behind(rest, &first) else {
            return Ok(false);
        };
        rest = left;
    }
    Ok(rest.is_empty())
}

/// Returns what is left of `tokens` behind those that have the texts of `first`.
fn behind<'t>(tokens: &'t [Token], first: &[Token]) -> Option<&'t [Token]>
    ensures { option_map (λ left. map token_of left.now) result
        ≡ definitions.behind (map token_of tokens.now) (map token_of first.now) }
{
    let mut rest = tokens;
    for token in first {
        let Some((next, left)) = rest.split_first() else {
            return None;
        };
        if next.text.as_str() != token.text.as_str() {
            return None;
        }
        rest = left;
    }
    Some(rest)
}

/// Makes a piece of each of `parts`, with the first of `words` that it has.
fn marked_parts<'a, A: Analyzer>(
    alloc: Global,
    analyzer: &A,
    tokenizer: &str,
    parts: &[&'a str],
    words: &[Word<'_>],
) -> Result<Vec<Piece<'a>>, AllocError>
    ensures { IfOk result (λ pieces. map piece_of pieces.items
        ≡ map (definitions.marked (A.analyze analyzer.now tokenizer.now) (map word_of words.now))
        (with_words (map (λ p. p.now) parts.now))) }
{
    let mut pieces = Vec::with_capacity(alloc, parts.len())?;
    for part in parts {
        pieces.push(marked(alloc, analyzer, tokenizer, *part, words)?)?;
    }
    Ok(pieces)
}

/// Makes a piece of `part`, with the first of `words` that it has.
fn marked<'a, A: Analyzer>(
    alloc: Global,
    analyzer: &A,
    tokenizer: &str,
    part: &'a str,
    words: &[Word<'_>],
) -> Result<Piece<'a>, AllocError>
    ensures { IfOk result (λ piece. piece_of piece ≡ definitions.marked (A.analyze analyzer.now tokenizer.now)
        (map word_of words.now) (part.now, cutting.word_of part.now)) }
{
    let tokens = analyzer.tokens(alloc, tokenizer, part)?;
    Ok(piece_with(part, word_in(part), words, &tokens))
}

/// Makes a piece with the first of `words` that `tokens` have.
fn piece_with<'a>(text: &'a str, word: &'a str, words: &[Word<'_>], tokens: &[Token]) -> Piece<'a>
    ensures { piece_of result ≡ definitions.piece_with (text.now, word.now) (map word_of words.now)
        (map token_of tokens.now) }
{
    Piece {
        text,
        word,
        found: first_word(words, tokens),
    }
}
