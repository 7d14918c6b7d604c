//! Sets of numbers below a bound, with one bit for each number.

ghost use Rattle.std.specs.Prelude.{◌+◌, ◌/◌, ◌<◌, ◌^◌, ◌≡◌, ◌≢◌, Bool, IfNone, IfOk, IfSome, List, false, length, replicate, slice_index, slice_index_or, slice_set, true, ℕ};
ghost use Rattle.common.specs.BitSets.{IsFirst, count_set};
ghost use Rattle.layouts.specs.AliveSets.{alive_words};

use crate::bit_words::{count_bits, first_bit, full_words, has_bit, is_clear_from, num_words};
use std::alloc::{AllocError, Global};
use std::marker::Model;

/// A set of numbers below a bound: a flag for each of them.
#[derive(Drop)]
pub struct BitSet {
    words: Vec<u64>,
    len: usize,
    max_value: u32,
}

impl Model for BitSet {
    ghost use Rattle.std.specs.Prelude.{Bool, List};
    ghost use Rattle.common.specs.BitSets.{IsBitSet, flags_of};

    ghost Value = { List Bool };

    ghost view = { λ s. flags_of s.max_value s.words.items };

    ghost invariant = { λ s. IsBitSet s.max_value s.words.items s.len };
}

impl BitSet {
    /// Makes an empty set of numbers below `max_value`.
    pub fn with_max_value(alloc: Global, max_value: u32) -> Result<BitSet, AllocError>
        ensures { IfOk result (λ set. set ≡ replicate max_value false) }
    {
        Ok(BitSet {
            words: vec![in alloc; 0; num_words(max_value)]?,
            len: 0,
            max_value,
        })
    }

    /// Makes the set of all numbers below `max_value`.
    pub fn with_max_value_and_full(alloc: Global, max_value: u32) -> Result<BitSet, AllocError>
        ensures { IfOk result (λ set. set ≡ replicate max_value true) }
    {
        Ok(BitSet {
            words: full_words(alloc, max_value)?,
            len: max_value as usize,
            max_value,
        })
    }

    /// Copies the set.
    pub fn try_clone(&self, alloc: Global) -> Result<BitSet, AllocError>
        ensures { IfOk result (λ set. set ≡ self.now) }
    {
        let mut words = Vec::with_capacity(alloc, self.words.len())?;
        words.extend_from_slice(&self.words)?;
        Ok(BitSet {
            words,
            len: self.len,
            max_value: self.max_value,
        })
    }

    /// Inserts `el`.
    #[inline]
    pub fn insert(&mut self, el: u32)
        requires { el < length self.old }
        ensures { self.new ≡ slice_set self.old el true }
    {
        let at = (el / 64) as usize;
        let word = self.words[at];
        let bit = 1 << (el % 64);
        if word & bit == 0 {
            self.words[at] = word | bit;
            self.len += 1;
        }
    }

    /// Removes `el`.
    #[inline]
    pub fn remove(&mut self, el: u32)
        requires { el < length self.old }
        ensures { self.new ≡ slice_set self.old el false }
    {
        let at = (el / 64) as usize;
        let word = self.words[at];
        let bit = 1 << (el % 64);
        if word & bit != 0 {
            self.words[at] = word & !bit;
            self.len -= 1;
        }
    }

    /// Removes all numbers, a word at a time.
    pub fn clear(&mut self)
        ensures { self.new ≡ replicate (length self.old) false }
    {
        self.words.fill(0);
        self.len = 0;
    }

    /// Whether `el` is in the set; false for numbers from the bound on.
    #[inline]
    pub fn contains(&self, el: u32) -> bool
        ensures { result ≡ slice_index_or self.now el false }
    {
        el < self.max_value && has_bit(&self.words, el)
    }

    /// Returns the least number >= `el` in the set.
    #[inline]
    pub fn first_from(&self, el: u32) -> Option<u32>
        ensures first { IsFirst (λ i. slice_index_or self.now i false) el result }
        ensures within { IfSome result (λ at. (at < length self.now) × (length self.now < 2 ^ 32)) }
    {
        first_bit(&self.words, el)
    }

    /// Returns the number of elements.
    #[inline]
    pub fn len(&self) -> usize
        ensures { result ≡ count_set self.now }
    {
        self.len
    }

    /// Returns the bound of the set.
    #[inline]
    pub fn max_value(&self) -> u32
        ensures { result ≡ length self.now }
    {
        self.max_value
    }

    /// Whether `el`, which is below the bound, is in the set.
    #[inline]
    pub(crate) fn has(&self, el: u32) -> bool
        requires { el < length self.now }
        ensures { result ≡ slice_index_or self.now el false }
    {
        has_bit(&self.words, el)
    }

    /// Returns the flags as words of 64.
    pub(crate) fn words(&self) -> &[u64]
        ensures { result.now ≡ alive_words self.now }
    {
        &self.words
    }

    /// Makes the set with these `words`; `None` if a bit from `max_value` on is set.
    pub(crate) fn from_words(words: Vec<u64>, max_value: u32) -> Option<BitSet>
        requires { length words.items ≡ (max_value + 63) / 64 }
        ensures some { IfSome result (λ set. (length set ≡ max_value) × (words.items ≡ alive_words set)) }
        ensures none { IfNone result ((flags : List Bool) → length flags ≡ max_value
            → words.items ≢ alive_words flags) }
        ensures small { (i : ℕ) → slice_index words.items i < 2 ^ 64 }
    {
        if !is_clear_from(&words, max_value) {
            return None;
        }
        let len = count_bits(&words);
        Some(BitSet {
            words,
            len,
            max_value,
        })
    }
}
