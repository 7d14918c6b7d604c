//! The analyzer by which texts are asked for.

ghost use Rattle.std.specs.Prelude.{◌++◌, ◌≡◌, ◌∷◌, IfOk, OnOk, Some, map, option_map};
ghost use Rattle.common.specs.Token.{token_of};
ghost use Rattle.languages.specs.Asked as definitions;

use crate::languages::Languages;
use common::{Analyzer, Token};
use std::alloc::{AllocError, Global};

/// The analyzers of `Languages` as texts are asked for: of two words that are a pair the pair alone.
///
/// What has a pair has its words too, so a phrase of pairs stands only where that of the words does. A text of two words
/// side by side, as 東京, is one token, which is found without positions.
#[derive(Clone, Copy, Debug)]
pub struct Asked;

impl Analyzer for Asked {
    ghost use Rattle.languages.specs.Asked.{asked_languages};
    ghost use Rattle.languages.specs.AskedLaws.{asked_analyzes};
    ghost use Rattle.languages.specs.Tokens.{is_language};

    ghost knows_name = { λ _. is_language };

    ghost analyze = { λ _. asked_languages };

    ghost is_analyzer = { λ _. asked_analyzes };

    fn knows(&self, name: &str) -> bool {
        Languages.knows(name)
    }

    fn tokens(&self, alloc: Global, name: &str, text: &str) -> Result<Vec<Token>, AllocError> {
        let tokens = Languages.tokens(alloc, name, text)?;
        pairs_alone(alloc, &tokens)
    }
}

/// Returns `tokens` without the words of pairs beside them.
fn pairs_alone(alloc: Global, tokens: &[Token]) -> Result<Vec<Token>, AllocError>
    ensures { IfOk result (λ kept. map token_of kept.items ≡ definitions.asked (map token_of tokens.now)) }
{
    let mut kept = Vec::new(alloc);
    let mut before = None;
    let mut rest = tokens;
    while let Some((token, behind)) = rest.split_first() {
        push_asked(&mut kept, before, token, behind)?;
        before = Some(token);
        rest = behind;
    }
    Ok(kept)
}

/// Appends `token` to those that are kept, unless it is a word of a pair beside it.
fn push_asked(
    kept: &mut Vec<Token>,
    before: Option<&Token>,
    token: &Token,
    behind: &[Token],
) -> Result<(), AllocError>
    ensures { OnOk result (map token_of kept.new.items ++ definitions.asked_behind (Some (token_of token.now)) (map token_of behind.now)
        ≡ map token_of kept.old.items
        ++ definitions.asked_behind (option_map (λ t. token_of t.now) before.entry) (token_of token.now ∷ map token_of behind.now)) }
{
    if is_second(before, token) || is_first(token, behind) {
        return Ok(());
    }
    kept.push(token.clone()?)?;
    Ok(())
}

/// Whether a word is the second of the pair before it.
fn is_second(before: Option<&Token>, token: &Token) -> bool
    ensures { result ≡ definitions.is_second (option_map (λ t. token_of t.now) before.entry) (token_of token.now) }
{
    match before {
        Some(pair) => token.position_length == 1
            && pair.position_length == 2
            && token.position > 0
            && token.position - 1 == pair.position,
        None => false,
    }
}

/// Whether a word is the first of the pair behind it.
fn is_first(token: &Token, behind: &[Token]) -> bool
    ensures { result ≡ definitions.is_first (token_of token.now) (map token_of behind.now) }
{
    match behind.first() {
        Some(pair) => token.position_length == 1
            && pair.position_length == 2
            && pair.position == token.position,
        None => false,
    }
}
