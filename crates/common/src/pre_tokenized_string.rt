//! Texts that come with their tokens.

ghost use Rattle.std.specs.Prelude.{◌≡◌, IfErr, IfOk, map, string_bytes};
ghost use Rattle.definitions.specs.Values.{AreTokens};
ghost use Rattle.definitions.specs.declared.fault.Fault.TheVariants as faults;
ghost use Rattle.common.specs.Token.{positions_rise, token_of};

use crate::token::Token;
use definitions::Fault;
use std::marker::Model;

/// A text with its tokens. Its model is the pair of both. The positions of the tokens don't fall.
#[derive(Drop)]
pub struct PreTokenizedString {
    text: String,
    tokens: Vec<Token>,
}

impl Model for PreTokenizedString {
    ghost use Rattle.std.specs.Prelude.{List, map, string_bytes, ℕ};
    ghost use Rattle.definitions.specs.Values.{AreTokens, Token};
    ghost use Rattle.common.specs.Token.{token_of};

    ghost Value = { List ℕ × List Token };

    ghost view = { λ p. (string_bytes p.text, map token_of p.tokens.items) };

    ghost invariant = { λ p. AreTokens (map token_of p.tokens.items) };
}

impl PreTokenizedString {
    /// Pairs `text` with `tokens`; `BadTokens` if a token's position is before the previous one's.
    pub fn new(text: String, tokens: Vec<Token>) -> Result<PreTokenizedString, Fault>
        ensures ok { IfOk result (λ p. (p ≡ (string_bytes text, map token_of tokens.items)) × AreTokens p.1) }
        ensures err { IfErr result (λ fault. (fault ≡ faults.BadTokens) × (AreTokens (map token_of tokens.items) → ⊥)) }
    {
        if !positions_rise(tokens.as_slice()) {
            return Err(Fault::BadTokens);
        }
        Ok(PreTokenizedString { text, tokens })
    }

    /// Returns the text.
    pub fn text(&self) -> &str
        ensures { result.now ≡ self.now.0 }
    {
        self.text.as_str()
    }

    /// Returns the tokens.
    pub fn tokens(&self) -> &[Token]
        ensures tokens { map token_of result.now ≡ self.now.1 }
        ensures rise { AreTokens self.now.1 }
    {
        self.tokens.as_slice()
    }
}

/// Whether no token's position is before the previous one's.
fn positions_rise(tokens: &[Token]) -> bool
    ensures { result ≡ positions_rise 0 (map token_of tokens.now) }
{
    let mut least = 0;
    for token in tokens {
        if token.position < least {
            return false;
        }
        least = token.position;
    }
    true
}
