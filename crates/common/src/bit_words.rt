//! Words of 64 bits, with one bit for each number, and their bytes.

ghost use Rattle.std.specs.Prelude.{◌%◌, ◌*◌, ◌++◌, ◌+◌, ◌/◌, ◌<◌, ◌≡◌, ◌≤◌, ◌^◌, IfOk, OnOk, count_ones, length, slice_index, ℕ};
ghost use Rattle.std.specs.List.{flat_map, sum_by};
ghost use Rattle.common.specs.BitSets.{AreFull, IsFirst, flag_at, is_cut};
ghost use Rattle.definitions.specs.NumberCodes.{u64_bytes};

use crate::number_codes::put_u64;
use std::alloc::{AllocError, Global};

/// Returns the number of words with a bit for each number below `max_value`.
pub(crate) fn num_words(max_value: u32) -> usize
    ensures { result ≡ (max_value + 63) / 64 }
{
    (max_value as usize + 63) / 64
}

/// Makes words with the bits of all numbers below `max_value` set.
pub(crate) fn full_words(alloc: Global, max_value: u32) -> Result<Vec<u64>, AllocError>
    ensures { IfOk result (λ words. AreFull max_value words.items) }
{
    let mut words = vec![in alloc; u64::MAX; num_words(max_value)]?;
    let rest = max_value % 64;
    if rest == 0 {
        return Ok(words);
    }
    words[(max_value / 64) as usize] = (1 << rest) - 1;
    Ok(words)
}

/// Whether the bit of `el` is set.
#[inline]
pub(crate) fn has_bit(words: &[u64], el: u32) -> bool
    requires { el / 64 < length words.now }
    ensures { result ≡ flag_at words.now el }
{
    words[(el / 64) as usize] >> (el % 64) & 1 == 1
}

/// Whether no bit from `max_value` on is set.
pub(crate) fn is_clear_from(words: &[u64], max_value: u32) -> bool
    requires { length words.now ≡ (max_value + 63) / 64 }
    ensures cut { result ≡ is_cut max_value words.now }
    ensures small { (i : ℕ) → slice_index words.now i < 2 ^ 64 }
{
    let rest = max_value % 64;
    rest == 0 || words[(max_value / 64) as usize] >> rest == 0
}

/// Counts the bits that are set.
pub(crate) fn count_bits(words: &[u64]) -> usize
    requires { length words.now < 2 ^ 32 }
    ensures { result ≡ sum_by count_ones words.now }
{
    words.iter().map(|word| word.count_ones() as usize).sum()
}

/// Returns the least number >= `from` whose bit is set.
#[inline]
pub(crate) fn first_bit(words: &[u64], from: u32) -> Option<u32>
    requires { length words.now ≤ 2 ^ 26 }
    ensures { IsFirst (flag_at words.now) from result }
{
    let at = (from / 64) as usize;
    if at >= words.len() {
        return None;
    }
    let rest = words[at] >> (from % 64);
    if rest != 0 {
        return Some(from + rest.trailing_zeros());
    }
    for i in at + 1..words.len() {
        let word = words[i];
        if word != 0 {
            return Some(64 * i as u32 + word.trailing_zeros());
        }
    }
    None
}

/// Encodes `words` in eight bytes each, little-endian.
pub(crate) fn put_words(out: &mut Vec<u8>, words: &[u64]) -> Result<(), AllocError>
    ensures { OnOk result (out.new.items ≡ out.old.items ++ flat_map u64_bytes words.now) }
{
    for word in words {
        put_u64(out, *word)?;
    }
    Ok(())
}

/// Decodes words of eight bytes each.
pub(crate) fn words_in(alloc: Global, bytes: &[u8]) -> Result<Vec<u64>, AllocError>
    requires { length bytes.now % 8 ≡ 0 }
    ensures { IfOk result (λ words. flat_map u64_bytes words.items ≡ bytes.now) }
{
    let mut words = Vec::with_capacity(alloc, bytes.len() / 8)?;
    let mut rest = bytes;
    while let Some((first, after)) = rest.split_first_chunk::<8>() {
        words.push(u64::from_le_bytes(*first))?;
        rest = after;
    }
    Ok(words)
}
