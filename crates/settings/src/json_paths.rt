//! Terms of JSON fields read from JSON.

ghost use Rattle.std.specs.Prelude.{◌++◌, ◌≡◌, IfOk, Some, map, option_map};
ghost use Rattle.definitions.specs.Json.{each};
ghost use Rattle.definitions.specs.TermGrammar as definitions;
ghost use Rattle.definitions.specs.Terms.{leaf_bytes};
ghost use Rattle.definitions.specs.Values.{date};
ghost use Rattle.serde_json.specs.Data.{number as json_number, string as json_string};
ghost use Rattle.serde_json.specs.View.{items_view, number_view, view};
ghost use Rattle.settings.specs.Terms.{date_term, leaf_term};

use schema::{has_only, has_only_beside, text_at};
use serde_json::{Number, Value as Json};
use std::alloc::{AllocError, Global};
use terms::{DateTime, FastValue, Field, Term, has_zero};
use values_json::read_date;

/// Reads a term of a JSON field: an object with a path, a value and maybe `keys`. `expand_dots` splits keys at dots.
pub(crate) fn path_term(
    alloc: Global,
    field: Field,
    expand_dots: bool,
    json: &Json,
    keys: &[&str],
) -> Result<Option<Term>, AllocError>
    ensures { IfOk result (λ found. found
        ≡ definitions.path_term (map (λ k. k.now) keys.now) field expand_dots (view json.now)) }
{
    if !has_only_beside(json, &["field", "path", "value"], keys) {
        return Ok(None);
    }
    let Some(path) = json.get("path") else {
        return Ok(None);
    };
    let Some(path) = read_path(alloc, path)? else {
        return Ok(None);
    };
    let Some(value) = json.get("value") else {
        return Ok(None);
    };
    let start = Term::from_field_json_keys(alloc, field, path.as_slice(), expand_dots)?;
    leaf_term(start, value)
}

/// Reads the keys of a path; there must be at least one.
fn read_path<'a>(alloc: Global, json: &'a Json) -> Result<Option<Vec<&'a str>>, AllocError>
    ensures { IfOk result (λ found. option_map (λ path. map (λ k. k.now) path.items) found
        ≡ definitions.path_in (view json.now)) }
{
    let Json::Array(items) = json else {
        return Ok(None);
    };
    let Some(path) = read_each_key(alloc, items.as_slice())? else {
        return Ok(None);
    };
    if path.is_empty() {
        return Ok(None);
    }
    Ok(Some(path))
}

/// Reads each of `items` as a key.
fn read_each_key<'a>(alloc: Global, items: &'a [Json]) -> Result<Option<Vec<&'a str>>, AllocError>
    ensures { IfOk result (λ found. option_map (λ path. map (λ k. k.now) path.items) found
        ≡ each definitions.key_in (items_view items.now)) }
{
    let mut path = Vec::with_capacity(alloc, items.len())?;
    for item in items {
        let Some(key) = read_key(item) else {
            return Ok(None);
        };
        path.push(key)?;
    }
    Ok(Some(path))
}

/// Reads a key: a text without U+0000.
fn read_key(json: &Json) -> Option<&str>
    ensures { option_map (λ k. k.now) result ≡ definitions.key_in (view json.now) }
{
    let key = json.as_str()?;
    if has_zero(key) { None } else { Some(key) }
}

/// Appends a value to the term `start`: a text, a whole number, a bool or a date.
fn leaf_term(start: Term, value: &Json) -> Result<Option<Term>, AllocError>
    ensures { IfOk result (λ found. found ≡ leaf_term start (view value.now)) }
{
    match value {
        Json::String(text) => text_leaf(start, text.as_str()),
        Json::Number(number) => number_leaf(start, number),
        Json::Bool(value) => Ok(Some(fast_leaf(start, *value)?)),
        Json::Object(_) => date_leaf(start, value),
        Json::Null | Json::Array(_) => Ok(None),
    }
}

/// Appends a text to the term `start`.
fn text_leaf(start: Term, text: &str) -> Result<Option<Term>, AllocError>
    ensures { IfOk result (λ found. found ≡ leaf_term start (json_string text.now)) }
{
    let mut term = start;
    term.append_type_and_str(text)?;
    Ok(Some(term))
}

/// Appends a whole number to the term `start`: as an i64 if it fits, otherwise as a u64.
fn number_leaf(start: Term, number: &Number) -> Result<Option<Term>, AllocError>
    ensures { IfOk result (λ found. found ≡ leaf_term start (json_number (number_view number.now))) }
{
    if let Some(value) = number.as_i64() {
        return Ok(Some(fast_leaf(start, value)?));
    }
    match number.as_u64() {
        Some(value) => Ok(Some(fast_leaf(start, value)?)),
        None => Ok(None),
    }
}

/// Appends the date in an object to the term `start`.
fn date_leaf(start: Term, value: &Json) -> Result<Option<Term>, AllocError>
    ensures { IfOk result (λ found. found ≡ date_term start (view value.now)) }
{
    match date_in(value) {
        Some(date) => Ok(Some(fast_leaf(start, date)?)),
        None => Ok(None),
    }
}

/// Reads the date in an object that has its text at `date` and no other key.
fn date_in(value: &Json) -> Option<DateTime>
    ensures { option_map date result ≡ definitions.date_leaf (view value.now) }
{
    if !has_only(value, &["date"]) {
        return None;
    }
    read_date(text_at(value, "date")?).ok()
}

/// Appends a value of eight bytes to the term `start`.
fn fast_leaf<T: FastValue>(start: Term, value: T) -> Result<Term, AllocError>
    ensures { IfOk result (λ term.
        option_map (λ leaf. start ++ leaf) (leaf_bytes (T.value value)) ≡ Some term) }
{
    let mut term = start;
    term.append_type_and_fast_value(value)?;
    Ok(term)
}
