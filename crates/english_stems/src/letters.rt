//! The letters of English words, as the stemmer takes them.

ghost use Rattle.std.specs.Prelude.{◌≡◌, IfOk, true};
ghost use Rattle.english_stems.specs.Letters.{has_vowel, is_vowel, marked, marked_letter, unmarked, unmarked_letter};

use std::alloc::{AllocError, Global};

/// Whether `c` is a vowel; `Y`, the y of `yes`, is none.
pub fn is_vowel(c: char) -> bool
    ensures { result ≡ is_vowel c }
{
    matches!(c, 'a' | 'e' | 'i' | 'o' | 'u' | 'y')
}

/// Whether one of the letters of `word` is a vowel.
pub fn has_vowel(word: &[char]) -> bool
    ensures { result ≡ has_vowel word.now }
{
    word.iter().any(|c| is_vowel(*c))
}

/// Returns the letters of `word`, with `Y` for each `y` that is no vowel.
pub fn marked(alloc: Global, word: &[char]) -> Result<Vec<char>, AllocError>
    ensures { IfOk result (λ letters. letters.items ≡ marked true word.now) }
{
    let mut letters = Vec::new(alloc);
    let mut behind = true;
    for c in word {
        let letter = marked_letter(behind, *c);
        letters.push(letter)?;
        behind = is_vowel(letter);
    }
    Ok(letters)
}

// Returns a letter that is the first one or behind a vowel, or neither, with `Y` for the `y` that is no vowel.
fn marked_letter(behind: bool, c: char) -> char
    ensures { result ≡ marked_letter behind c }
{
    if behind && c == 'y' { 'Y' } else { c }
}

/// Returns the letters of `word`, with `y` for `Y`.
pub fn unmarked(alloc: Global, word: &[char]) -> Result<Vec<char>, AllocError>
    ensures { IfOk result (λ letters. letters.items ≡ unmarked word.now) }
{
    word.iter().map(|c| unmarked_letter(*c)).collect(alloc)
}

fn unmarked_letter(c: char) -> char
    ensures { result ≡ unmarked_letter c }
{
    if c == 'Y' { 'y' } else { c }
}
