//! The regions of English words, in which suffixes must stand.

ghost use Rattle.std.specs.Prelude.{◌≡◌, ◌≤◌, false, length};
ghost use Rattle.english_stems.specs.Regions.{ends_short, first_region, region, regions};

use crate::letters::is_vowel;
use crate::suffixes::{cut, ends_in, has_prefix};

/// Where the two regions of a word begin.
#[derive(Clone, Copy, Debug)]
pub struct Regions {
    pub first: usize,
    pub second: usize,
}

impl Regions {
    /// Returns the regions of `word`.
    pub fn of_word(word: &[char]) -> Regions
        ensures { result ≡ regions word.now }
    {
        let first = first_region(word);
        Regions {
            first,
            second: first + region(&word[first..]),
        }
    }
}

// Returns where the first region begins.
fn first_region(word: &[char]) -> usize
    ensures value { result ≡ first_region word.now }
    ensures within { result ≤ length word.now }
{
    if has_prefix(word, b"gener") || has_prefix(word, b"arsen") {
        5
    } else if has_prefix(word, b"commun") {
        6
    } else {
        region(word)
    }
}

// Returns the index behind the first letter that is no vowel and stands behind one, or the length.
fn region(word: &[char]) -> usize
    ensures value { result ≡ region false word.now }
    ensures within { result ≤ length word.now }
{
    let mut behind_vowel = false;
    for (i, c) in word.iter().enumerate() {
        let vowel = is_vowel(*c);
        if behind_vowel && !vowel {
            return i + 1;
        }
        behind_vowel = vowel;
    }
    word.len()
}

/// Whether `word` ends in a short syllable.
pub fn ends_short(word: &[char]) -> bool
    ensures { result ≡ ends_short word.now }
{
    if word.len() == 2 {
        ends_in(cut(word, 1), b"aeiouy") && !ends_in(word, b"aeiouy")
    } else {
        !ends_in(cut(word, 2), b"aeiouy")
            && ends_in(cut(word, 1), b"aeiouy")
            && !ends_in(word, b"aeiouywxY")
    }
}
