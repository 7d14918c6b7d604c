//! Terms: a text of the first field, `[FIELD, TEXT]`, `[FIELD, NUMBER]`, or `["hex", DIGITS]`.

use crate::parts::{items_in, small_in};
use crate::{Refusal, bytes_of_digits, number_in, part, text_in};
use serde_json::Value;
use std::alloc::Global;
use terms::{Field, Term};

/// A term.
pub fn term_in(alloc: Global, value: &Value) -> Result<Term, Refusal> {
    if let Some(text) = value.as_str() {
        return Ok(Term::from_field_text(alloc, Field::from_field_id(0), text)?);
    }
    if part(value, 0)?.as_str().is_some() {
        return Ok(Term::wrap(bytes_of_digits(alloc, part(value, 1)?)?)?);
    }
    let field = Field::from_field_id(small_in(part(value, 0)?)?);
    match part(value, 1)?.as_str() {
        Some(text) => Ok(Term::from_field_text(alloc, field, text)?),
        None => Ok(Term::from_field_u64(alloc, field, number_in(part(value, 1)?)?)?),
    }
}

/// Terms, in order.
pub(crate) fn terms_in(alloc: Global, value: &Value) -> Result<Vec<Term>, Refusal> {
    let mut terms = Vec::new(alloc);
    for item in items_in(value)? {
        terms.push(term_in(alloc, item)?)?;
    }
    Ok(terms)
}

/// Terms with offsets: `[[OFFSET, TERM], ..]`.
pub(crate) fn terms_with_offsets_in(
    alloc: Global,
    value: &Value,
) -> Result<Vec<(usize, Term)>, Refusal> {
    let mut terms = Vec::new(alloc);
    for item in items_in(value)? {
        let offset = number_in(part(item, 0)?)? as usize;
        terms.push((offset, term_in(alloc, part(item, 1)?)?))?;
    }
    Ok(terms)
}

/// Terms with weights: `[[TERM, WEIGHT], ..]`.
pub(crate) fn weighted_terms_in(alloc: Global, value: &Value) -> Result<Vec<(Term, u64)>, Refusal> {
    let mut terms = Vec::new(alloc);
    for item in items_in(value)? {
        terms.push((term_in(alloc, part(item, 0)?)?, number_in(part(item, 1)?)?))?;
    }
    Ok(terms)
}

/// What a value names; of the values of a step only the first is a name.
pub(crate) fn name(step: &Value) -> Result<&str, Refusal> {
    text_in(part(step, 0)?)
}
