//! The steps of the English stemmer.

ghost use Rattle.std.specs.Prelude.{◌≡◌, OnOk};
ghost use Rattle.english_stems.specs.Steps.{ed_len, ends_in_y, loses_last, mended, plural_len, step_0, step_1a, step_1b, step_1c, step_2, step_3, step_4, step_5};

use crate::letters::has_vowel;
use crate::regions::{Regions, ends_short};
use crate::suffixes::{
    Rule, begins_in, by_rules, cut, cut_off, ends_in, ends_twice_in, has_suffix, push_text,
};
use std::alloc::AllocError;

/// Leaves out `'s'`, `'s` or `'` at the end.
pub fn step_0(word: &mut Vec<char>) -> Result<(), AllocError>
    ensures { OnOk result (word.new.items ≡ step_0 word.old.items) }
{
    by_rules(
        word,
        0,
        &[
            Rule(b"", b"'s'", b""),
            Rule(b"", b"'s", b""),
            Rule(b"", b"'", b""),
        ],
    )
}

/// Removes the ending of a plural.
pub fn step_1a(word: &mut Vec<char>)
    ensures { word.new.items ≡ step_1a word.old.items }
{
    let n = plural_len(word);
    cut_off(word, n)
}

// Returns how many letters at the end of `word` are left out with the plural.
fn plural_len(word: &[char]) -> usize
    ensures { result ≡ plural_len word.now }
{
    if has_suffix(word, b"sses") {
        2
    } else if has_suffix(word, b"ied") || has_suffix(word, b"ies") {
        if word.len() > 4 { 2 } else { 1 }
    } else if has_suffix(word, b"us") || has_suffix(word, b"ss") {
        0
    } else if has_suffix(word, b"s") && has_vowel(cut(word, 2)) {
        1
    } else {
        0
    }
}

/// Removes `ed`, `edly`, `ing` or `ingly` behind a vowel; `eed` and `eedly` become `ee` in the first region.
pub fn step_1b(word: &mut Vec<char>, first: usize) -> Result<(), AllocError>
    ensures { OnOk result (word.new.items ≡ step_1b first word.old.items) }
{
    if has_suffix(word, b"eed") || has_suffix(word, b"eedly") {
        return by_rules(
            word,
            first,
            &[Rule(b"", b"eedly", b"ee"), Rule(b"", b"eed", b"ee")],
        );
    }
    let n = ed_len(word);
    if n > 0 && has_vowel(cut(word, n)) {
        cut_off(word, n);
        return mend(word, first);
    }
    Ok(())
}

// Returns the length of the suffix that step 1b removes.
fn ed_len(word: &[char]) -> usize
    ensures { result ≡ ed_len word.now }
{
    if has_suffix(word, b"ed") {
        2
    } else if has_suffix(word, b"edly") {
        4
    } else if has_suffix(word, b"ing") {
        3
    } else if has_suffix(word, b"ingly") {
        5
    } else {
        0
    }
}

// Mends the end of a word that lost its suffix in step 1b.
fn mend(word: &mut Vec<char>, first: usize) -> Result<(), AllocError>
    ensures { OnOk result (word.new.items ≡ mended first word.old.items) }
{
    if has_suffix(word, b"at") || has_suffix(word, b"bl") || has_suffix(word, b"iz") {
        return push_text(word, b"e");
    }
    if ends_twice_in(word, b"bdfgmnprt") {
        cut_off(word, 1);
        return Ok(());
    }
    if word.len() <= first && ends_short(word) {
        return push_text(word, b"e");
    }
    Ok(())
}

/// Replaces `y` at the end by `i`, behind a letter that is no vowel and not the first one.
pub fn step_1c(word: &mut Vec<char>) -> Result<(), AllocError>
    ensures { OnOk result (word.new.items ≡ step_1c word.old.items) }
{
    if ends_in_y(word) {
        cut_off(word, 1);
        return push_text(word, b"i");
    }
    Ok(())
}

fn ends_in_y(word: &[char]) -> bool
    ensures { result ≡ ends_in_y word.now }
{
    word.len() > 2 && ends_in(word, b"yY") && !ends_in(cut(word, 1), b"aeiouy")
}

/// Replaces the longest of these suffixes, in the first region.
pub fn step_2(word: &mut Vec<char>, first: usize) -> Result<(), AllocError>
    ensures { OnOk result (word.new.items ≡ step_2 first word.old.items) }
{
    by_rules(
        word,
        first,
        &[
            Rule(b"", b"ational", b"ate"),
            Rule(b"", b"fulness", b"ful"),
            Rule(b"", b"ousness", b"ous"),
            Rule(b"", b"iveness", b"ive"),
            Rule(b"", b"ization", b"ize"),
            Rule(b"", b"tional", b"tion"),
            Rule(b"", b"biliti", b"ble"),
            Rule(b"", b"lessli", b"less"),
            Rule(b"", b"entli", b"ent"),
            Rule(b"", b"ation", b"ate"),
            Rule(b"", b"alism", b"al"),
            Rule(b"", b"aliti", b"al"),
            Rule(b"", b"ousli", b"ous"),
            Rule(b"", b"iviti", b"ive"),
            Rule(b"", b"fulli", b"ful"),
            Rule(b"", b"enci", b"ence"),
            Rule(b"", b"anci", b"ance"),
            Rule(b"", b"abli", b"able"),
            Rule(b"", b"izer", b"ize"),
            Rule(b"", b"ator", b"ate"),
            Rule(b"", b"alli", b"al"),
            Rule(b"", b"bli", b"ble"),
            Rule(b"l", b"ogi", b"og"),
            Rule(b"cdeghkmnrt", b"li", b""),
        ],
    )
}

/// Replaces the longest of these suffixes, `ative` in the second region and others in the first.
pub fn step_3(word: &mut Vec<char>, regions: Regions) -> Result<(), AllocError>
    ensures { OnOk result (word.new.items ≡ step_3 regions word.old.items) }
{
    if has_suffix(word, b"ative") {
        return by_rules(word, regions.second, &[Rule(b"", b"ative", b"")]);
    }
    by_rules(
        word,
        regions.first,
        &[
            Rule(b"", b"ational", b"ate"),
            Rule(b"", b"tional", b"tion"),
            Rule(b"", b"alize", b"al"),
            Rule(b"", b"icate", b"ic"),
            Rule(b"", b"iciti", b"ic"),
            Rule(b"", b"ical", b"ic"),
            Rule(b"", b"ness", b""),
            Rule(b"", b"ful", b""),
        ],
    )
}

/// Removes the longest of these suffixes, in the second region.
pub fn step_4(word: &mut Vec<char>, second: usize) -> Result<(), AllocError>
    ensures { OnOk result (word.new.items ≡ step_4 second word.old.items) }
{
    by_rules(
        word,
        second,
        &[
            Rule(b"", b"ement", b""),
            Rule(b"", b"ance", b""),
            Rule(b"", b"ence", b""),
            Rule(b"", b"able", b""),
            Rule(b"", b"ible", b""),
            Rule(b"", b"ment", b""),
            Rule(b"", b"ant", b""),
            Rule(b"", b"ent", b""),
            Rule(b"", b"ism", b""),
            Rule(b"", b"ate", b""),
            Rule(b"", b"iti", b""),
            Rule(b"", b"ous", b""),
            Rule(b"", b"ive", b""),
            Rule(b"", b"ize", b""),
            Rule(b"st", b"ion", b""),
            Rule(b"", b"al", b""),
            Rule(b"", b"er", b""),
            Rule(b"", b"ic", b""),
        ],
    )
}

/// Removes the last `e` or `l` where the word is the same without it.
pub fn step_5(word: &mut Vec<char>, regions: Regions)
    ensures { word.new.items ≡ step_5 regions word.old.items }
{
    if loses_last(word, regions) {
        cut_off(word, 1);
    }
}

// Whether step 5 removes the last letter.
fn loses_last(word: &[char], regions: Regions) -> bool
    ensures { result ≡ loses_last regions word.now }
{
    if has_suffix(word, b"e") {
        begins_in(word, 1, regions.second)
            || (begins_in(word, 1, regions.first) && !ends_short(cut(word, 1)))
    } else {
        has_suffix(word, b"ll") && begins_in(word, 1, regions.second)
    }
}
