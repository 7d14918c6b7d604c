//! The forms of words.

ghost use Rattle.std.specs.Prelude.{◌≡◌, IfOk, encode_utf8_all, string_bytes};
ghost use Rattle.english_stems.specs.Stems.{stem};
ghost use Rattle.languages.specs.Forms.{formed};
ghost use Rattle.languages.specs.Plain.{plain};

use crate::plain::plain;
use english_stems::stem;
use std::alloc::{AllocError, Global};

/// What becomes of the characters of a word.
#[derive(Clone, Copy, Debug)]
pub enum WordForm {
    /// They stay as they are in the folded text.
    Folded,
    /// Accents of Latin and Greek letters are left out.
    Plain,
    /// They are, and what is left is the English stem.
    English,
}

impl WordForm {
    /// Returns the text of a word in this form.
    pub fn text_of(self, alloc: Global, word: &[char]) -> Result<String, AllocError>
        ensures { IfOk result (λ t. string_bytes t ≡ encode_utf8_all (formed self word.now)) }
    {
        match self {
            WordForm::Folded => text_of(alloc, word),
            WordForm::Plain => text_of(alloc, &plain(alloc, word)?),
            WordForm::English => text_of(alloc, &plain_stem(alloc, word)?),
        }
    }
}

// Returns the English stem of a word without accents.
fn plain_stem(alloc: Global, word: &[char]) -> Result<Vec<char>, AllocError>
    ensures { IfOk result (λ cs. cs.items ≡ stem (plain word.now)) }
{
    stem(alloc, &plain(alloc, word)?)
}

fn text_of(alloc: Global, chars: &[char]) -> Result<String, AllocError>
    ensures { IfOk result (λ t. string_bytes t ≡ encode_utf8_all chars.now) }
{
    chars.iter().copied().collect(alloc)
}
