//! Cutting texts into words, and words into tokens.

ghost use Rattle.std.specs.Prelude.{◌++◌, ◌+◌, ◌<◌, ◌≡◌, ◌≤◌, ◌∷◌, ◌^◌, IfOk, OnOk, drop, length, map, slice_index, take};
ghost use Rattle.common.specs.Token.{token_of};
ghost use Rattle.languages.specs.Characters.{writing};
ghost use Rattle.languages.specs.Forms.{formed};
ghost use Rattle.languages.specs.Tokens.{pair_token, run_tokens, runs_tokens, text_tokens, word_token};
ghost use Rattle.languages.specs.Words.{goes_on, run_words, runs};

use crate::characters::{is_mark, is_word_char};
use crate::folding::fold;
use crate::word_form::WordForm;
use crate::writing::Writing;
use common::Token;
use std::alloc::{AllocError, Global};

/// The longest word that is a token, in bytes.
const MAX_WORD_LEN: usize = 40;

/// Returns the tokens of the words of `text`, each in its form.
pub fn text_tokens(alloc: Global, form: WordForm, text: &str) -> Result<Vec<Token>, AllocError>
    ensures { IfOk result (λ ts. map token_of ts.items ≡ text_tokens form text.now) }
{
    let chars = fold(alloc, text)?;
    cut(alloc, form, &chars)
}

// From `start` on there are only characters of one run, or none yet.
fn cut(alloc: Global, form: WordForm, chars: &[char]) -> Result<Vec<Token>, AllocError>
    ensures { IfOk result (λ ts. map token_of ts.items ≡ runs_tokens form 0 (runs chars.now)) }
{
    let mut tokens = Vec::new(alloc);
    let mut position = 0;
    let mut start = 0;
    for (i, c) in chars.iter().enumerate() {
        if !is_word_char(*c) {
            position = push_run(&mut tokens, alloc, form, position, &chars[start..i])?;
            start = i + 1;
        }
    }
    let _end = push_run(&mut tokens, alloc, form, position, &chars[start..])?;
    Ok(tokens)
}

// Returns the position behind the words of `run`.
fn push_run(
    tokens: &mut Vec<Token>,
    alloc: Global,
    form: WordForm,
    mut position: usize,
    run: &[char],
) -> Result<usize, AllocError>
    requires { position + length run.now < 2 ^ 64 }
    ensures tokens { OnOk result (map token_of tokens.new.items
        ≡ map token_of tokens.old.items ++ run_tokens form position (run_words run.now)) }
    ensures behind { IfOk result (λ behind. behind ≡ position + length (run_words run.now)) }
    ensures within { IfOk result (λ behind. behind ≤ position + length run.now) }
{
    let mut rest = run;
    while !rest.is_empty() {
        let len = word_len(rest);
        let (word, later) = rest.split_at(len);
        push_token(tokens, alloc, form, position, 1, word)?;
        push_pair(tokens, alloc, form, position, rest, len)?;
        rest = later;
        position += 1;
    }
    Ok(position)
}

// Returns how many characters the first word of `run` has.
fn word_len(run: &[char]) -> usize
    requires { 0 < length run.now }
    ensures words { run_words run.now
        ≡ (writing (slice_index run.now 0), take result run.now) ∷ run_words (drop result run.now) }
    ensures some { 0 < result }
    ensures within { result ≤ length run.now }
{
    let first = Writing::of_char(run[0]);
    let mut len = 1;
    while len < run.len() && goes_on(first, run[len]) {
        len += 1;
    }
    len
}

// Whether a word goes on at `c`.
fn goes_on(first: Writing, c: char) -> bool
    ensures { result ≡ goes_on first c }
{
    is_mark(c) || (first.is_spaced() && Writing::of_char(c).is_spaced())
}

// Appends the first word of `run`, which has `len` characters, together with the next one, where they are neighbours.
fn push_pair(
    tokens: &mut Vec<Token>,
    alloc: Global,
    form: WordForm,
    position: usize,
    run: &[char],
    len: usize,
) -> Result<(), AllocError>
    requires some { 0 < len }
    requires within { len ≤ length run.now }
    ensures { OnOk result (map token_of tokens.new.items
        ≡ map token_of tokens.old.items
        ++ pair_token form position (writing (slice_index run.now 0), take len run.now) (run_words (drop len run.now))) }
{
    if len < run.len() && Writing::of_char(run[0]).is_neighbour_of(Writing::of_char(run[len])) {
        let both = len + word_len(&run[len..]);
        push_token(tokens, alloc, form, position, 2, &run[..both])?;
    }
    Ok(())
}

// Appends the token of the characters of a word, unless it is too long for one.
fn push_token(
    tokens: &mut Vec<Token>,
    alloc: Global,
    form: WordForm,
    position: usize,
    position_length: usize,
    word: &[char],
) -> Result<(), AllocError>
    ensures { OnOk result (map token_of tokens.new.items
        ≡ map token_of tokens.old.items ++ word_token position position_length (formed form word.now)) }
{
    let text = form.text_of(alloc, word)?;
    if text.len() <= MAX_WORD_LEN {
        tokens.push(Token {
            position,
            position_length,
            text,
        })?;
    }
    Ok(())
}
