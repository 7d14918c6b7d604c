//! Which characters are of words.

ghost use Rattle.std.specs.Prelude.{◌≡◌};
ghost use Rattle.languages.specs.Characters.{is_mark, is_word_char};

use ucd_category::{GeneralCategory, GeneralCategoryGroup};

/// Whether `c` is a mark, as an accent or a vowel sign.
pub fn is_mark(c: char) -> bool
    ensures { result ≡ is_mark c }
{
    GeneralCategoryGroup::Mark.contains(GeneralCategory::for_char(c))
}

/// Whether `c` is of a word: a letter, a mark or a digit.
pub fn is_word_char(c: char) -> bool
    ensures { result ≡ is_word_char c }
{
    let category = GeneralCategory::for_char(c);
    GeneralCategoryGroup::Letter.contains(category)
        || GeneralCategoryGroup::Mark.contains(category)
        || GeneralCategoryGroup::Number.contains(category)
}
