//! Words without accents.

ghost use Rattle.std.specs.Char.{is_ascii};
ghost use Rattle.std.specs.List.{list_all};
ghost use Rattle.std.specs.Prelude.{◌++◌, ◌≡◌, IfOk, OnOk, false};
ghost use Rattle.languages.specs.Plain.{bare, is_accent, loses_accents, loses_behind, plain, plain_letter, without_accents};

use crate::characters::is_mark;
use std::alloc::{AllocError, Global};
use ucd_category::GeneralCategory;
use ucd_script::Script;
use unicode_normalization::slice::{extend_nfc, extend_nfd};

/// Returns the characters of `word` without the accents of Latin and Greek letters and of `е`.
pub fn plain(alloc: Global, word: &[char]) -> Result<Vec<char>, AllocError>
    ensures { IfOk result (λ cs. cs.items ≡ plain word.now) }
{
    if are_ascii(word) {
        Vec::from_slice(alloc, word)
    } else {
        plain_any(alloc, word)
    }
}

// Whether a word has no accents for being ASCII.
fn are_ascii(word: &[char]) -> bool
    ensures { result ≡ list_all is_ascii word.now }
{
    word.iter().all(|c| c.is_ascii())
}

fn plain_any(alloc: Global, word: &[char]) -> Result<Vec<char>, AllocError>
    ensures { IfOk result (λ cs. cs.items ≡ plain word.now) }
{
    let mut decomposed = Vec::new(alloc);
    extend_nfd(&mut decomposed, word)?;
    let bare = without_accents(alloc, &decomposed)?;
    let mut composed = Vec::new(alloc);
    extend_nfc(&mut composed, &bare)?;
    Ok(composed)
}

fn without_accents(alloc: Global, chars: &[char]) -> Result<Vec<char>, AllocError>
    ensures { IfOk result (λ cs. cs.items ≡ without_accents false chars.now) }
{
    let mut kept = Vec::new(alloc);
    let mut loses = false;
    for c in chars {
        push_bare(&mut kept, loses, *c)?;
        loses = loses_behind(loses, *c);
    }
    Ok(kept)
}

// Appends what is left of `c`, where the letter before it loses its accents or not.
fn push_bare(kept: &mut Vec<char>, loses: bool, c: char) -> Result<(), AllocError>
    ensures { OnOk result (kept.new.items ≡ kept.old.items ++ bare loses c) }
{
    if !is_mark(c) {
        push_letter(kept, c)
    } else if loses && is_accent(c) {
        Ok(())
    } else {
        kept.push(c)?;
        Ok(())
    }
}

// Appends a letter, or those for which it stands.
fn push_letter(kept: &mut Vec<char>, c: char) -> Result<(), AllocError>
    ensures { OnOk result (kept.new.items ≡ kept.old.items ++ plain_letter c) }
{
    match c {
        'ø' => kept.push('o')?,
        'æ' => return kept.extend_from_slice(&['a', 'e']),
        'ł' => kept.push('l')?,
        'đ' => kept.push('d')?,
        _ => kept.push(c)?,
    }
    Ok(())
}

// Whether the marks behind `c` are lost, where `loses` says it of those before it.
fn loses_behind(loses: bool, c: char) -> bool
    ensures { result ≡ loses_behind loses c }
{
    if is_mark(c) { loses } else { loses_accents(c) }
}

fn loses_accents(c: char) -> bool
    ensures { result ≡ loses_accents c }
{
    matches!(Script::for_char(c), Script::Latin | Script::Greek) || c == 'е'
}

fn is_accent(c: char) -> bool
    ensures { result ≡ is_accent c }
{
    GeneralCategory::for_char(c) == GeneralCategory::NonspacingMark
}
