//! Words that are looked for in a text.

ghost use Rattle.std.specs.Prelude.{◌≡◌, map};
ghost use Rattle.common.specs.Token.{token_of};
ghost use Rattle.snippets.specs.Snippets as definitions;
ghost use Rattle.snippets.specs.Views.{word_of};

use common::Token;

/// A word that is looked for, as the analyzer gives it, or the beginning of words.
#[derive(Clone, Copy, Debug)]
pub struct Word<'a> {
    pub text: &'a str,
    /// Whether each token is found that begins with the text.
    pub is_prefix: bool,
}

/// Returns the number of the first of `words` that `tokens` have.
pub(crate) fn first_word(words: &[Word<'_>], tokens: &[Token]) -> Option<usize>
    ensures { result ≡ definitions.found_from 0 (map word_of words.now) (map token_of tokens.now) }
{
    for (number, word) in words.iter().enumerate() {
        if has_word(*word, tokens) {
            return Some(number);
        }
    }
    None
}

/// Whether one of `tokens` is the word.
fn has_word(word: Word<'_>, tokens: &[Token]) -> bool
    ensures { result ≡ definitions.has_word (word_of word.entry) (map token_of tokens.now) }
{
    for token in tokens {
        if is_word(word, token.text.as_str()) {
            return true;
        }
    }
    false
}

/// Whether `token` is the word, or begins with it.
fn is_word(word: Word<'_>, token: &str) -> bool
    ensures { result ≡ definitions.is_word (word_of word.entry) token.now }
{
    let mut bytes = token.as_bytes();
    if word.is_prefix {
        bytes = &bytes[..word.text.len().min(bytes.len())];
    }
    bytes == word.text.as_bytes()
}
