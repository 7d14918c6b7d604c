//! An analyzer without a token.

ghost use Rattle.std.specs.Prelude.{[], bytes_eq, codes};

use common::{Analyzer, Token};
use std::alloc::{AllocError, Global};

/// The analyzer that knows the name `silent` alone, and finds no token in any text.
#[derive(Drop)]
pub(crate) struct Silent;

impl Analyzer for Silent {
    ghost knows_name = { λ _ name. bytes_eq name (codes "silent") };

    ghost analyze = { λ _ _ _. [] };

    ghost is_analyzer = { λ _ _ _ _. tt };

    fn knows(&self, name: &str) -> bool {
        name == "silent"
    }

    fn tokens(&self, alloc: Global, _name: &str, _text: &str) -> Result<Vec<Token>, AllocError> {
        Ok(Vec::new(alloc))
    }
}
