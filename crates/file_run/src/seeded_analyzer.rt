//! An analyzer with a hash seed.

use common::{Analyzer, Token, TokenBuffer};
use std::alloc::{AllocError, Global};
use std::random::RandomSource;

/// An analyzer, with a number by which terms are hashed that only this run knows.
#[derive(Drop)]
pub struct Seeded<A: Analyzer> {
    analyzer: A,
    hash_seed: u128,
}

impl<A: Analyzer> Seeded<A> {
    /// Draws the number; it is 0 where the system gives none.
    pub fn draw(rt: &impl RandomSource, analyzer: A) -> Seeded<A> {
        let mut bytes = [0; 16];
        let hash_seed = match rt.fill_bytes(&mut bytes) {
            Ok(()) => u128::from_le_bytes(bytes),
            Err(_) => 0,
        };
        Seeded {
            analyzer,
            hash_seed,
        }
    }
}

impl<A: Analyzer> Analyzer for Seeded<A> {
    ghost knows_name = { λ s. A.knows_name s.analyzer };

    ghost analyze = { λ s. A.analyze s.analyzer };

    ghost is_analyzer = { λ s. A.is_analyzer s.analyzer };

    fn knows(&self, name: &str) -> bool {
        self.analyzer.knows(name)
    }

    fn tokens(&self, alloc: Global, name: &str, text: &str) -> Result<Vec<Token>, AllocError> {
        self.analyzer.tokens(alloc, name, text)
    }

    fn tokens_into(
        &self,
        alloc: Global,
        name: &str,
        text: &str,
        buffer: &mut TokenBuffer,
    ) -> Result<(), AllocError> {
        self.analyzer.tokens_into(alloc, name, text, buffer)
    }

    fn hash_seed(&self) -> u128 {
        self.hash_seed
    }
}
