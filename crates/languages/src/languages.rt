//! The analyzer.

use crate::cutting::text_tokens;
use crate::word_form::WordForm;
use common::{Analyzer, RawAndDefault, Token};
use std::alloc::{AllocError, Global};

/// The analyzers `raw` and `default`, `words18`, whose words are those of any script, without case, `plain18`, which
/// leaves out their accents, and `english18`, which has the English stems of what is left.
///
/// Its texts are folded as Unicode's compatibility caseless matching folds them, and put into the form NFKC. A word is a
/// longest run of letters, marks and digits. In scripts that write no spaces (Han and kana, Thai, Lao, Khmer, Myanmar)
/// each character with its marks is a word, and each two neighbours are one more token at the position of the first. A
/// word of more than 40 bytes takes a position, but isn't a token.
///
/// Of a word without accents, the marks of Latin and Greek letters and of `е` are left out, `ø`, `æ`, `ł` and `đ` are
/// `o`, `ae`, `l` and `d`, and other letters stay as they are.
///
/// The stem of a word is that of the algorithm Porter2, to which each letter but a, e, i, o, u and y is a consonant.
///
/// The names have the version of the Unicode tables: other tables are another function.
#[derive(Clone, Copy, Debug)]
pub struct Languages;

impl Analyzer for Languages {
    ghost use Rattle.languages.specs.Tokens.{is_language, languages};
    ghost use Rattle.languages.specs.TokenLaws.{languages_analyzes};

    ghost knows_name = { λ _. is_language };

    ghost analyze = { λ _. languages };

    ghost is_analyzer = { λ _. languages_analyzes };

    fn knows(&self, name: &str) -> bool {
        name == "words18" || name == "plain18" || name == "english18" || RawAndDefault.knows(name)
    }

    fn tokens(&self, alloc: Global, name: &str, text: &str) -> Result<Vec<Token>, AllocError> {
        if name == "words18" {
            text_tokens(alloc, WordForm::Folded, text)
        } else if name == "plain18" {
            text_tokens(alloc, WordForm::Plain, text)
        } else if name == "english18" {
            text_tokens(alloc, WordForm::English, text)
        } else {
            RawAndDefault.tokens(alloc, name, text)
        }
    }
}
