//! The documents of a window, one bit for each.

ghost use Rattle.std.specs.Prelude.{◌*◌, ◌/◌, ◌<◌, ◌≡◌, IfOk, IfSome, false, replicate, slice_index_or, slice_set, true, ℕ};
ghost use Rattle.common.specs.BitSets.{IsFirst};
ghost use Rattle.scorers.specs.Windows.{IsLowest, IsTaken};

use std::alloc::{AllocError, Global};
use std::marker::Model;

/// A set of numbers below 4096. Their count isn't kept.
#[derive(Drop)]
pub(crate) struct WindowBits {
    words: Vec<u64>,
}

impl Model for WindowBits {
    ghost use Rattle.std.specs.Prelude.{Bool, List};
    ghost use Rattle.common.specs.BitSets.{AreWords, flags_of};

    ghost Value = { List Bool };

    ghost view = { λ s. flags_of 4096 s.words.items };

    ghost invariant = { λ s. AreWords 4096 s.words.items };
}

impl WindowBits {
    /// Returns an empty set.
    pub(crate) fn new(alloc: Global) -> Result<WindowBits, AllocError>
        ensures { IfOk result (λ set. set ≡ replicate 4096 false) }
    {
        Ok(WindowBits {
            words: vec![in alloc; 0; 64]?,
        })
    }

    /// Inserts `el`.
    #[inline]
    pub(crate) fn insert(&mut self, el: u32)
        requires { el < 4096 }
        ensures { self.new ≡ slice_set self.old el true }
    {
        let at = (el / 64) as usize;
        let word = self.words[at];
        self.words[at] = word | 1 << (el % 64);
    }

    /// Removes the least number of word `at`, and returns the next in the set, of this word or a later one.
    #[inline]
    pub(crate) fn next_after(&mut self, at: u32) -> Option<u32>
        requires { at < 64 }
        ensures removed { (el : ℕ) → IsLowest at self.old el → self.new ≡ slice_set self.old el false }
        ensures first { IsFirst (λ i. slice_index_or self.new i false) (64 * at) result }
        ensures within { IfSome result (λ next. next < 4096) }
    {
        let word = self.words[at as usize];
        let left = word & word.wrapping_sub(1);
        self.words[at as usize] = left;
        if left != 0 {
            return Some(64 * at + left.trailing_zeros());
        }
        self.first_from(64 * at + 64)
    }

    /// Removes the numbers of word `at` that are below `limit`, and returns their bits. `limit` is past the word's
    /// first number.
    #[inline]
    pub(crate) fn take_below(&mut self, at: u32, limit: u32) -> u64
        requires at { at < 64 }
        requires some { 64 * at < limit }
        ensures { IsTaken at limit self.old self.new result }
    {
        let word = self.words[at as usize];
        let mask = u64::MAX >> (63 - (limit - 1 - 64 * at).min(63));
        self.words[at as usize] = word & !mask;
        word & mask
    }

    /// Returns the least number in the set, of the word of `el` or a later one.
    #[inline]
    pub(crate) fn first_from(&self, el: u32) -> Option<u32>
        ensures first { IsFirst (λ i. slice_index_or self.now i false) (64 * (el / 64)) result }
        ensures within { IfSome result (λ at. at < 4096) }
    {
        for i in (el / 64) as usize..self.words.len() {
            let word = self.words[i];
            if word != 0 {
                return Some(64 * i as u32 + word.trailing_zeros());
            }
        }
        None
    }
}
