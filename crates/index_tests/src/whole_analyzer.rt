//! An analyzer of the tests' own.

ghost use Rattle.std.specs.Prelude.{bytes_eq, codes};
ghost use Rattle.definitions.specs.Analyzers.{raw};

use common::{Analyzer, Token};
use std::alloc::{AllocError, Global};

/// The analyzer that knows the name `whole` alone. Its one token is the whole text, whatever the name.
#[derive(Drop)]
pub(crate) struct Whole;

impl Analyzer for Whole {
    ghost use Rattle.definitions.proofs.TokenTexts.{raw_is_tokens};

    ghost knows_name = { λ _ name. bytes_eq name (codes "whole") };

    ghost analyze = { λ _ _. raw };

    ghost is_analyzer = { λ _ _. raw_is_tokens };

    fn knows(&self, name: &str) -> bool {
        name == "whole"
    }

    fn tokens(&self, alloc: Global, _name: &str, text: &str) -> Result<Vec<Token>, AllocError> {
        let mut tokens = Vec::new(alloc);
        tokens.push(Token {
            position: 0,
            position_length: 1,
            text: String::from_str(alloc, text)?,
        })?;
        Ok(tokens)
    }
}
