//! Why a text isn't read, and what to write instead; what was read otherwise than some mean it.

use crate::names::push_name;
use index::Schema;
use query_text::{Reason, Refusal};
use std::alloc::{AllocError, Global};
use std::io;

/// How many bytes a word has at most by the analyzer `default`.
const LONGEST_WORD: usize = 40;

/// Returns at which byte `text` isn't read, why, and what to write instead.
pub(crate) fn explain(
    alloc: Global,
    text: &str,
    schema: &Schema,
    refusal: Refusal,
) -> Result<String, AllocError> {
    let mut why = format!(in alloc; "at byte {}: ", refusal.place)?;
    push_cure(&mut why, alloc, text, schema, refusal)?;
    Ok(why)
}

/// Appends why `text` isn't read, and what to write instead.
pub(crate) fn push_cure(
    why: &mut String,
    alloc: Global,
    text: &str,
    schema: &Schema,
    refusal: Refusal,
) -> Result<(), AllocError> {
    why.push_str(cure(refusal.reason))?;
    match refusal.reason {
        Reason::UnknownField => push_fields(why, alloc, schema)?,
        Reason::LongWord => {
            why.push_str(&format!(in alloc; "; there it has {}", long_run(text, refusal.place))?)?;
        }
        _ => {}
    }
    Ok(())
}

/// Returns how many bytes the first run of letters and digits from `place` on in `text` has that is no word for its
/// length.
fn long_run(text: &str, place: usize) -> usize {
    let mut count = 0usize;
    for byte in text.as_bytes().iter().skip(place) {
        if byte.is_ascii_alphanumeric() || *byte >= 128 {
            count = count.saturating_add(1);
        } else if count > LONGEST_WORD {
            return count;
        } else {
            count = 0;
        }
    }
    count
}

/// Appends the names of the fields.
fn push_fields(why: &mut String, alloc: Global, schema: &Schema) -> Result<(), AllocError> {
    let mut is_first = true;
    for (_field, entry) in schema.fields() {
        why.push_str(if is_first { ": " } else { ", " })?;
        push_name(why, alloc, entry.name())?;
        is_first = false;
    }
    Ok(())
}

/// Tells on standard error where words beside each other aren't looked for, by a refusal of them all.
pub(crate) fn tell_left_out(
    rt: &HostRuntime,
    path: &str,
    schema: &Schema,
    refusal: Refusal,
) -> io::Result<()> {
    let mut fields = String::new(rt.alloc());
    let mut is_first = true;
    for (_field, entry) in schema.fields() {
        let is_cut = entry.field_type().is_str()
            && entry.is_indexed()
            && entry.tokenizer() != "raw";
        if is_cut && !entry.records_positions() {
            fields.push_str(if is_first { ": " } else { ", " })?;
            push_name(&mut fields, rt.alloc(), entry.name())?;
            is_first = false;
        }
    }
    eprintln!(rt;
        "lafkundi ask: {path}: at byte {}: words beside each other need positions; not looked into{fields}",
        refusal.place
    )
}

/// Tells on standard error that operators in small letters are looked for as words.
pub(crate) fn tell_small_operators(rt: &HostRuntime, path: &str) -> io::Result<()> {
    eprintln!(rt;
        "lafkundi ask: {path}: `and`, `or` and `not` are looked for as words; as operators they are in capitals"
    )
}

/// Returns why a text isn't read, and what to write instead.
fn cure(reason: Reason) -> &'static str {
    match reason {
        Reason::OutOfMemory => "out of memory",
        Reason::UnclosedQuote => "a quotation mark isn't closed; write one behind the phrase",
        Reason::UnclosedGroup => "a parenthesis isn't closed; write `)` behind what it groups",
        Reason::StrayClose => "`)` closes nothing; leave it out, or write it in a phrase",
        Reason::Nothing => "nothing is asked there; write a word",
        Reason::NothingMarked =>
            "nothing stands right behind a mark or a field; write a word there",
        Reason::FieldOfGroup => "a field is named for one word or phrase; name it before each",
        Reason::NoSpace => "write a space beside the phrase or the parenthesis",
        Reason::BadNumber =>
            "a number below 4294967296 stands behind `^` and `~`; else write a phrase",
        Reason::StrayOperator =>
            "`AND` stands between two clauses and `NOT` before one without a mark; the word is \"AND\"",
        Reason::ForeignOperator =>
            "write `sea wind` for both, `sea OR wind` for either, `-wind` without one; or a phrase",
        Reason::TooDeep => "parentheses are nested deeper than 16",
        Reason::LonePrefix => "a prefix is the last word of a phrase: write \"north sea*\"",
        Reason::Wildcard =>
            "`?` leaves no letter open; leave it out, or write all words: (foobar OR fooxbar)",
        Reason::Fuzzy =>
            "`~` stands behind a phrase: \"old sea\"~2; words that are alike aren't searched",
        Reason::SlopOfPrefix => "a phrase that ends in a prefix takes no `~`",
        Reason::NotUtf8 => "the text isn't UTF-8",
        Reason::UnknownField =>
            "no field has that name; write a text with `:` as a phrase. There are",
        Reason::NoTextField => "no text field is indexed; name a field",
        Reason::NoWord =>
            "no word stands there, or the field isn't indexed; write letters or digits",
        Reason::LongWord => "the analyzer `default` takes no word over 40 bytes; write another one",
        Reason::NoPositions =>
            "words beside each other need positions, which aren't recorded there; write each by itself, or name a field",
        Reason::BadValue =>
            "that is no value of the field's type; a date is written \"2025-10-07T00:00:00Z\"",
        Reason::NoPath => "a field of objects is named with a path: write field.key:word",
        Reason::Range => "ranges aren't searched; write the values: (year:1951 OR year:1952)",
    }
}
