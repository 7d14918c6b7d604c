//! The stems of English words.

ghost use Rattle.std.specs.Prelude.{◌≡◌, IfOk, OnOk, option_map};
ghost use Rattle.english_stems.specs.Stems.{exceptional, exceptions, forms_of, is_final, later_steps, regular_stem, stem, stem_of_letters, steps, without_apostrophe};

use crate::letters::{marked, unmarked};
use crate::regions::Regions;
use crate::steps::{step_0, step_1a, step_1b, step_1c, step_2, step_3, step_4, step_5};
use crate::suffixes::{has_prefix, is_text, push_text};
use std::alloc::{AllocError, Global};

/// Returns the stem of `word`, by the algorithm Porter2 for English.
pub fn stem(alloc: Global, word: &[char]) -> Result<Vec<char>, AllocError>
    ensures { IfOk result (λ letters. letters.items ≡ stem word.now) }
{
    match exception(word) {
        Some(text) => letters_of(alloc, text),
        None => stem_of_letters(alloc, word),
    }
}

fn letters_of(alloc: Global, text: &[u8]) -> Result<Vec<char>, AllocError>
    ensures { IfOk result (λ letters. letters.items ≡ text.now) }
{
    let mut letters = Vec::new(alloc);
    push_text(&mut letters, text)?;
    Ok(letters)
}

// Returns the stem of a word that has one of its own.
fn exception(word: &[char]) -> Option<&'static [u8]>
    ensures { option_map (λ text. text.now) result ≡ exceptional exceptions word.now }
{
    form_of(
        word,
        &[
            Form(b"skis", b"ski"),
            Form(b"skies", b"sky"),
            Form(b"dying", b"die"),
            Form(b"lying", b"lie"),
            Form(b"tying", b"tie"),
            Form(b"idly", b"idl"),
            Form(b"gently", b"gentl"),
            Form(b"ugly", b"ugli"),
            Form(b"early", b"earli"),
            Form(b"only", b"onli"),
            Form(b"singly", b"singl"),
            Form(b"sky", b"sky"),
            Form(b"news", b"news"),
            Form(b"howe", b"howe"),
            Form(b"atlas", b"atlas"),
            Form(b"cosmos", b"cosmos"),
            Form(b"bias", b"bias"),
            Form(b"andes", b"andes"),
        ],
    )
}

/// A word and its stem.
#[derive(Clone, Copy, Debug)]
struct Form(&'static [u8], &'static [u8]);

fn form_of(word: &[char], forms: &[Form]) -> Option<&'static [u8]>
    ensures { option_map (λ text. text.now) result ≡ exceptional (forms_of forms.now) word.now }
{
    for form in forms {
        if is_text(word, form.0) {
            return Some(form.1);
        }
    }
    None
}

fn stem_of_letters(alloc: Global, word: &[char]) -> Result<Vec<char>, AllocError>
    ensures { IfOk result (λ letters. letters.items ≡ stem_of_letters word.now) }
{
    if word.len() <= 2 {
        Vec::from_slice(alloc, word)
    } else {
        regular_stem(alloc, word)
    }
}

fn regular_stem(alloc: Global, word: &[char]) -> Result<Vec<char>, AllocError>
    ensures { IfOk result (λ letters. letters.items ≡ regular_stem word.now) }
{
    let mut letters = marked(alloc, without_apostrophe(word))?;
    let regions = Regions::of_word(&letters);
    steps(&mut letters, regions)?;
    unmarked(alloc, &letters)
}

// Returns a word without the apostrophe that it begins with.
fn without_apostrophe(word: &[char]) -> &[char]
    ensures { result.now ≡ without_apostrophe word.now }
{
    if has_prefix(word, b"'") {
        &word[1..]
    } else {
        word
    }
}

fn steps(word: &mut Vec<char>, regions: Regions) -> Result<(), AllocError>
    ensures { OnOk result (word.new.items ≡ steps regions word.old.items) }
{
    step_0(word)?;
    step_1a(word);
    if is_final(word) {
        return Ok(());
    }
    later_steps(word, regions)
}

// Whether a word ends with step 1a.
fn is_final(word: &[char]) -> bool
    ensures { result ≡ is_final word.now }
{
    is_text(word, b"inning")
        || is_text(word, b"outing")
        || is_text(word, b"canning")
        || is_text(word, b"herring")
        || is_text(word, b"earring")
        || is_text(word, b"proceed")
        || is_text(word, b"exceed")
        || is_text(word, b"succeed")
}

fn later_steps(word: &mut Vec<char>, regions: Regions) -> Result<(), AllocError>
    ensures { OnOk result (word.new.items ≡ later_steps regions word.old.items) }
{
    step_1b(word, regions.first)?;
    step_1c(word)?;
    step_2(word, regions.first)?;
    step_3(word, regions)?;
    step_4(word, regions.second)?;
    step_5(word, regions);
    Ok(())
}
