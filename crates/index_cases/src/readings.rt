//! Settings and terms that were read, as texts.

use definitions::Fault;
use index::Settings;
use schema::{Schema, Term};
use std::alloc::{AllocError, Global};

/// Settings as they are written.
pub(crate) fn settings_text(
    alloc: Global,
    schema: &Schema,
    settings: &Settings,
) -> Result<String, Fault> {
    Ok(settings.to_json_value(alloc, schema)?.to_string(alloc)?)
}

/// A term: the number of its field, its type, and the bytes of its value.
pub(crate) fn term_text(alloc: Global, term: &Term) -> Result<String, AllocError> {
    let field = term.field().field_id();
    let kind = term.typ().name();
    let value = hex::encode(alloc, term.serialized_value_bytes())?;
    format!(in alloc; "field {field} {kind} {value}")
}
