//! Texts without case.

ghost use Rattle.std.specs.Char.{to_ascii_lowercase};
ghost use Rattle.std.specs.Prelude.{◌≡◌, IfOk, chars, encode_utf8_all, map, string_bytes};
ghost use Rattle.languages.specs.Folding.{folded};

use caseless::default_case_fold_str;
use std::alloc::{AllocError, Global};
use unicode_normalization::{to_nfd, to_nfkc, to_nfkd};

/// Returns the characters of a text without case, in the form NFKC.
///
/// Case is folded twice, and before and between the text is decomposed, so that all texts that Unicode's compatibility
/// caseless matching holds equal give the same characters. Of an ASCII text these are its letters in lower case.
pub fn fold(alloc: Global, text: &str) -> Result<Vec<char>, AllocError>
    ensures { IfOk result (λ cs. cs.items ≡ folded (chars text.now)) }
{
    if text.is_ascii() {
        lower(alloc, text.as_bytes())
    } else {
        fold_any(alloc, text)
    }
}

fn lower(alloc: Global, text: &[u8]) -> Result<Vec<char>, AllocError>
    ensures { IfOk result (λ cs. cs.items ≡ map to_ascii_lowercase text.now) }
{
    text.iter()
        .map(|b| char::from(b.to_ascii_lowercase()))
        .collect(alloc)
}

fn fold_any(alloc: Global, text: &str) -> Result<Vec<char>, AllocError>
    ensures { IfOk result (λ cs. cs.items ≡ folded (chars text.now)) }
{
    let folded = fold_text(alloc, text)?;
    chars_of(alloc, &folded)
}

fn fold_text(alloc: Global, text: &str) -> Result<String, AllocError>
    ensures { IfOk result (λ t. string_bytes t ≡ encode_utf8_all (folded (chars text.now))) }
{
    let decomposed = to_nfd(alloc, text)?;
    let once = default_case_fold_str(alloc, &decomposed)?;
    let compatible = to_nfkd(alloc, &once)?;
    let twice = default_case_fold_str(alloc, &compatible)?;
    to_nfkc(alloc, &twice)
}

fn chars_of(alloc: Global, text: &str) -> Result<Vec<char>, AllocError>
    ensures { IfOk result (λ cs. cs.items ≡ chars text.now) }
{
    text.chars().collect(alloc)
}
