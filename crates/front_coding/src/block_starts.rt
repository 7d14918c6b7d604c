//! Where blocks begin, and the block that may have a key.

ghost use Rattle.std.specs.Prelude.{IsTrue, ◌≡◌};
ghost use Rattle.front_coding.specs.BlockPlaces.{AreUpTo, is_before, key_at};

use crate::look_ups::from;
use crate::term_starts::TermStart;
use common::take_bytes;
use std::alloc::{AllocError, Global};

/// Returns the key that stands whole at an offset; none where no bytes are taken there.
fn key_at(section: &[u8], offset: usize) -> &[u8]
    ensures { result.now ≡ key_at section.now offset }
{
    match take_bytes(from(section, offset)) {
        Ok((key, _)) => key,
        Err(_) => &[],
    }
}

/// Whether a key stands before another.
fn is_before(key: &[u8], first: &[u8]) -> bool
    ensures { result ≡ is_before key.now first.now }
{
    key < first
}

/// Returns the first eight bytes of `key` as a big-endian number; bytes that it lacks are 0. So keys whose prefixes
/// differ are in the order of these.
fn prefix_of(key: &[u8]) -> u64 {
    if let Some((first, _)) = key.split_first_chunk::<8>() {
        return u64::from_be_bytes(*first);
    }
    let mut prefix = 0;
    for i in 0..8 {
        prefix = prefix << 8 | u64::from(key.get(i).copied().unwrap_or(0));
    }
    prefix
}

/// Returns the prefixes of the first keys of the blocks that begin at `starts` in the section of terms.
pub fn prefixes_of(
    alloc: Global,
    section: &[u8],
    starts: &[TermStart],
) -> Result<Vec<u64>, AllocError> {
    let mut prefixes = Vec::with_capacity(alloc, starts.len())?;
    for start in starts {
        prefixes.push(prefix_of(key_at(section, start.entry)))?;
    }
    Ok(prefixes)
}

/// Returns how many blocks begin with a key that isn't above `key`: as prefixes say, where the keys on both sides agree,
/// without another read.
pub fn blocks_up_to(section: &[u8], starts: &[TermStart], prefixes: &[u64], key: &[u8]) -> usize
    ensures { AreUpTo section.now starts.now key.now result }
{
    let prefix = prefix_of(key);
    let guess = prefixes.partition_point(|other| *other <= prefix);
    if is_up_to(section, starts, key, guess) {
        return guess;
    }
    by_halves(section, starts, key)
}

/// Whether `guess` blocks begin with a key that isn't above `key`, by the keys on both sides.
fn is_up_to(section: &[u8], starts: &[TermStart], key: &[u8], guess: usize) -> bool
    ensures { IsTrue result → AreUpTo section.now starts.now key.now guess }
{
    guess <= starts.len()
        && (guess == 0 || !is_before(key, key_at(section, starts[guess - 1].entry)))
        && (guess == starts.len() || is_before(key, key_at(section, starts[guess].entry)))
}

/// Returns how many blocks begin with a key that isn't above `key`.
fn by_halves(section: &[u8], starts: &[TermStart], key: &[u8]) -> usize
    ensures { AreUpTo section.now starts.now key.now result }
{
    let mut low = 0;
    let mut high = starts.len();
    while low < high {
        let middle = low + (high - low) / 2;
        if is_before(key, key_at(section, starts[middle].entry)) {
            high = middle;
        } else {
            low = middle + 1;
        }
    }
    low
}
