//! Passages of stored texts, with the words marked that are looked for.

use crate::failure::Failure;
use crate::sought::words_in;
use document_values::OwnedValue;
use index::{AnyQuery, Schema};
use languages::Languages;
use snippets::{Snippet, Word, shown_snippet, snippet_of};
use std::alloc::{AllocError, Global};
use std::io::Write;

/// Writes the best passage of the first text with a word of `query`, or of the first text, in the field with the name
/// `name`; answers false if that isn't a field of indexed texts.
pub(crate) fn write_texts<W: Write>(
    alloc: Global,
    out: &mut W,
    schema: &Schema,
    query: &AnyQuery,
    name: &str,
    values: &[OwnedValue],
) -> Result<bool, Failure> {
    match snippet_in(alloc, schema, query, name, values)? {
        Some(snippet) => {
            out.write_all(shown_snippet(alloc, &snippet)?.as_bytes())?;
            Ok(true)
        }
        None => Ok(false),
    }
}

/// Returns the best passage of the first text with a word of `query`, or of the first text, in the field with the name
/// `name`; none if that isn't a field of indexed texts.
pub(crate) fn snippet_in<'a>(
    alloc: Global,
    schema: &Schema,
    query: &AnyQuery,
    name: &str,
    values: &'a [OwnedValue],
) -> Result<Option<Snippet<'a>>, AllocError> {
    let Ok(field) = schema.get_field(name) else {
        return Ok(None);
    };
    let entry = schema.get_field_entry(field);
    if !(entry.field_type().is_str() && entry.is_indexed()) {
        return Ok(None);
    }
    let words = words_in(alloc, query, field)?;
    best_text(alloc, entry.tokenizer(), values, &words)
}

/// Returns the snippet of the first text that has one of `words`, or of the first text.
fn best_text<'a>(
    alloc: Global,
    tokenizer: &str,
    values: &'a [OwnedValue],
    words: &[Word<'_>],
) -> Result<Option<Snippet<'a>>, AllocError> {
    let mut first = None;
    for value in values {
        if let OwnedValue::Str(text) = value {
            let snippet = snippet_of(alloc, &Languages, tokenizer, text.as_str(), words)?;
            if has_word(&snippet) {
                return Ok(Some(snippet));
            }
            if first.is_none() {
                first = Some(snippet);
            }
        }
    }
    Ok(first)
}

/// Whether one of the words stands in the text.
pub(crate) fn has_word(snippet: &Snippet<'_>) -> bool {
    snippet.pieces.iter().any(|piece| piece.found.is_some())
}
