//! A hash of long keys, which begins with a number that only the program knows: who doesn't know it can't choose keys that
//! collide. A key is written byte by byte, so that no key makes a factor 0, which would hide the number.

use std::hash::{BuildHasher, FoldHasher, Hasher};

/// Makes each hasher with the seed written to it, which is done once.
#[derive(Clone, Copy)]
pub struct SeededState {
    initial: FoldHasher,
}

impl SeededState {
    /// Returns the state of this seed.
    pub fn new(hash_seed: u128) -> SeededState {
        let mut initial = FoldHasher::default();
        initial.write_u128(hash_seed);
        SeededState { initial }
    }
}

impl BuildHasher for SeededState {
    type Hasher = FoldHasher;

    ghost build_hasher = { λ state. state.initial };

    fn build_hasher(&self) -> FoldHasher {
        self.initial
    }
}
