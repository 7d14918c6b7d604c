//! Whether the words of a script stand apart.

ghost use Rattle.std.specs.Prelude.{◌≡◌};
ghost use Rattle.languages.specs.Characters.{are_neighbours, is_shared_letter, is_spaced, writing, writing_of};

use ucd_script::Script;

/// How words stand in a text: with something between them, or side by side, where each character is taken for a word.
#[derive(Clone, Copy, Debug)]
pub enum Writing {
    Spaced,
    HanAndKana,
    Thai,
    Lao,
    Khmer,
    Myanmar,
}

impl Writing {
    /// Returns the writing of `c`.
    pub fn of_char(c: char) -> Writing
        ensures { result ≡ writing c }
    {
        if is_shared_letter(c) {
            Writing::HanAndKana
        } else {
            Writing::of_script(Script::for_char(c))
        }
    }

    fn of_script(script: Script) -> Writing
        ensures { result ≡ writing_of script }
    {
        match script {
            Script::Han | Script::Hiragana | Script::Katakana => Writing::HanAndKana,
            Script::Thai => Writing::Thai,
            Script::Lao => Writing::Lao,
            Script::Khmer => Writing::Khmer,
            Script::Myanmar => Writing::Myanmar,
            _ => Writing::Spaced,
        }
    }

    /// Whether words stand apart.
    pub fn is_spaced(self) -> bool
        ensures { result ≡ is_spaced self }
    {
        matches!(self, Writing::Spaced)
    }

    /// Whether a word of this writing stands side by side with one of `next` behind it.
    pub fn is_neighbour_of(self, next: Writing) -> bool
        ensures { result ≡ are_neighbours self next }
    {
        matches!(
            (self, next),
            (Writing::HanAndKana, Writing::HanAndKana)
                | (Writing::Thai, Writing::Thai)
                | (Writing::Lao, Writing::Lao)
                | (Writing::Khmer, Writing::Khmer)
                | (Writing::Myanmar, Writing::Myanmar)
        )
    }
}

// A letter of Japanese that belongs to no one script.
fn is_shared_letter(c: char) -> bool
    ensures { result ≡ is_shared_letter c }
{
    matches!(c, '〆' | '〱'..='〵' | '〼' | 'ー')
}
