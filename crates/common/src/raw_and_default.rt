//! The two analyzers that are always available.

ghost use Rattle.std.specs.Prelude.{◌++◌, ◌≡◌, ◌≤◌, IfOk, IsCharBoundary, List, OnOk, map, option_to_list, slice_range, ℕ};
ghost use Rattle.std.specs.Char.{to_ascii_lowercase};
ghost use Rattle.definitions.specs.Analyzers.{default_tokens, is_raw_or_default, is_word_byte, max_run_len, raw, raw_and_default, run_token};
ghost use Rattle.common.specs.Token.{token_of};

use crate::analyzer::Analyzer;
use crate::token::Token;
use crate::token_buffer::TokenBuffer;
use std::alloc::{AllocError, Global};

/// The analyzers `raw`, whose one token is the whole text, and `default`, whose tokens are the words.
///
/// A word is a longest run of ASCII letters, ASCII digits and characters past ASCII. One of more than 40 bytes takes a
/// position, but isn't a token; the others have their ASCII letters lowered.
#[derive(Clone, Copy, Debug)]
pub struct RawAndDefault;

impl Analyzer for RawAndDefault {
    ghost use Rattle.definitions.proofs.TokenTexts.{raw_and_default_analyzes};

    ghost knows_name = { λ _. is_raw_or_default };

    ghost analyze = { λ _. raw_and_default };

    ghost is_analyzer = { λ _. raw_and_default_analyzes };

    fn knows(&self, name: &str) -> bool {
        name == "raw" || name == "default"
    }

    fn tokens(&self, alloc: Global, name: &str, text: &str) -> Result<Vec<Token>, AllocError> {
        if name == "raw" {
            raw_tokens(alloc, text)
        } else if name == "default" {
            default_tokens(alloc, text)
        } else {
            Ok(Vec::new(alloc))
        }
    }

    fn tokens_into(
        &self,
        _alloc: Global,
        name: &str,
        text: &str,
        buffer: &mut TokenBuffer,
    ) -> Result<(), AllocError> {
        buffer.clear();
        if name == "raw" {
            buffer.push(0, 1, text)
        } else if name == "default" {
            put_words(buffer, text)
        } else {
            Ok(())
        }
    }
}

/// The longest word that is a token, in bytes.
const MAX_WORD_LEN: usize = 40;

fn raw_tokens(alloc: Global, text: &str) -> Result<Vec<Token>, AllocError>
    ensures { IfOk result (λ ts. map token_of ts.items ≡ raw text.now) }
{
    let mut tokens = Vec::new(alloc);
    tokens.push(Token {
        position: 0,
        position_length: 1,
        text: String::from_str(alloc, text)?,
    })?;
    Ok(tokens)
}

// Looks at each byte once. From `start` on there are only bytes of one word, or none yet.
fn default_tokens(alloc: Global, text: &str) -> Result<Vec<Token>, AllocError>
    ensures { IfOk result (λ ts. map token_of ts.items ≡ default_tokens text.now) }
{
    let mut tokens = Vec::new(alloc);
    let mut position = 0;
    let mut start = 0;
    for (i, byte) in text.as_bytes().iter().enumerate() {
        if !is_word_byte(*byte) {
            if start < i {
                push_word(&mut tokens, alloc, position, &text[start..i])?;
                position += 1;
            }
            start = i + 1;
        }
    }
    if start < text.len() {
        push_word(&mut tokens, alloc, position, &text[start..])?;
    }
    Ok(tokens)
}

fn is_word_byte(byte: u8) -> bool
    ensures { result ≡ is_word_byte byte }
{
    byte.is_ascii_alphanumeric() || byte >= 128
}

fn push_word(
    tokens: &mut Vec<Token>,
    alloc: Global,
    position: usize,
    word: &str,
) -> Result<(), AllocError>
    ensures { OnOk result (map token_of tokens.new.items
        ≡ map token_of tokens.old.items ++ option_to_list (run_token (position, word.now))) }
{
    if word.len() <= MAX_WORD_LEN {
        let text = word.to_ascii_lowercase(alloc)?;
        tokens.push(Token {
            position,
            position_length: 1,
            text,
        })?;
    }
    Ok(())
}

// Like `default_tokens`, but lowers all letters of the text at once, without a text of its own for each word.
fn put_words(buffer: &mut TokenBuffer, text: &str) -> Result<(), AllocError>
    ensures { OnOk result (buffer.new.1 ≡ default_tokens text.now) }
{
    let mut position = 0;
    let mut start = 0;
    buffer.put_lowercase(text)?;
    for (i, byte) in text.as_bytes().iter().enumerate() {
        if !is_word_byte(*byte) {
            if start < i {
                put_word(buffer, position, start, i)?;
                position += 1;
            }
            start = i + 1;
        }
    }
    if start < text.len() {
        put_word(buffer, position, start, text.len())?;
    }
    Ok(())
}

// Appends a word of the lowered text in the buffer.
fn put_word(
    buffer: &mut TokenBuffer,
    position: usize,
    start: usize,
    end: usize,
) -> Result<(), AllocError>
    requires rise { start ≤ end }
    requires start { IsCharBoundary buffer.old.0 start }
    requires end { IsCharBoundary buffer.old.0 end }
    ensures text { buffer.new.0 ≡ buffer.old.0 }
    ensures tokens { (s : List ℕ) → buffer.old.0 ≡ map to_ascii_lowercase s
        → OnOk result (buffer.new.1 ≡ buffer.old.1 ++ option_to_list (run_token (position, slice_range s start end))) }
{
    if end - start <= MAX_WORD_LEN {
        buffer.push_part(position, 1, start, end)?;
    }
    Ok(())
}
