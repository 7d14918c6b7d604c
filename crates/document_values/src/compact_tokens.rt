//! Pre-tokenised texts, borrowed from a document's bytes.

ghost use Rattle.std.specs.Prelude.{◌≡◌, IfOk, Some, map};
ghost use Rattle.common.specs.Token.{token_of};
ghost use Rattle.document_values.specs.Docs.{AreTokensAt};
ghost use Rattle.layouts.specs.DocumentReading.{take_token, tokens_at};

use common::{PreTokenizedString, Token, take_text, take_vint};
use definitions::Fault;
use std::alloc::{AllocError, Global};
use std::marker::Model;

/// A text with its tokens, seen as the pair of both.
#[derive(Drop)]
pub struct CompactDocTokens<'a> {
    text: &'a str,
    bytes: &'a [u8],
}

impl<'a> Model for CompactDocTokens<'a> {
    ghost use Rattle.std.specs.Prelude.{List, ℕ};
    ghost use Rattle.definitions.specs.Values.{Token};
    ghost use Rattle.document_values.specs.Docs.{AreTokensAt};
    ghost use Rattle.layouts.specs.DocumentReading.{tokens_at};

    ghost Value = { List ℕ × List Token };

    ghost view = { λ t. (t.text.now, tokens_at t.bytes.now) };

    ghost invariant = { λ t. AreTokensAt t.bytes.now };
}

impl<'a> CompactDocTokens<'a> {
    /// Returns `text` with the tokens at the start of `bytes`.
    pub(crate) fn new(text: &'a str, bytes: &'a [u8]) -> CompactDocTokens<'a>
        requires { AreTokensAt bytes.now }
        ensures { result ≡ (text.now, tokens_at bytes.now) }
    {
        CompactDocTokens { text, bytes }
    }

    /// Returns the text.
    pub fn text(&self) -> &'a str
        ensures { result.now ≡ self.now.0 }
    {
        self.text
    }

    /// Copies the text and its tokens.
    pub fn to_pre_tokenized_string(&self, alloc: Global) -> Result<PreTokenizedString, AllocError>
        ensures { IfOk result (λ owned. owned ≡ self.now) }
    {
        let text = String::from_str(alloc, self.text)?;
        // Tokens are there and their positions don't fall, so these are refused only when out of memory.
        let Ok(tokens) = own_tokens(alloc, self.bytes) else {
            return Err(AllocError);
        };
        match PreTokenizedString::new(text, tokens) {
            Ok(owned) => Ok(owned),
            Err(_) => Err(AllocError),
        }
    }
}

/// Copies the tokens at the start of `bytes`.
fn own_tokens(alloc: Global, bytes: &[u8]) -> Result<Vec<Token>, Fault>
    ensures { IfOk result (λ tokens. map token_of tokens.items ≡ tokens_at bytes.now) }
{
    let (count, mut rest) = take_vint(bytes)?;
    let mut tokens = Vec::new(alloc);
    let mut least = 0;
    let mut left = count;
    while left > 0 {
        let (token, after) = own_token(alloc, least, rest)?;
        least = token.position as u64;
        tokens.push(token)?;
        rest = after;
        left -= 1;
    }
    Ok(tokens)
}

/// Copies the first token, whose position must not be below `least`; returns it, and the bytes after it.
fn own_token(alloc: Global, least: u64, bytes: &[u8]) -> Result<(Token, &[u8]), Fault>
    ensures { IfOk result (λ p. take_token least bytes.now ≡ Some (token_of p.0, p.1.now)) }
{
    let (position, rest) = take_vint(bytes)?;
    let (position_length, rest) = take_vint(rest)?;
    let (text, rest) = take_text(rest)?;
    if position < least {
        return Err(Fault::Damaged(None));
    }
    let token = Token {
        position: position as usize,
        position_length: position_length as usize,
        text: String::from_str(alloc, text)?,
    };
    Ok((token, rest))
}
