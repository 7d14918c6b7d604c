//! Terms written as JSON.

ghost use Rattle.std.specs.Prelude.{[], ◌∷◌, ◌≡◌, IfOk, codes};
ghost use Rattle.definitions.specs.Json.{object_of};
ghost use Rattle.definitions.specs.Printed.{printed};
ghost use Rattle.definitions.specs.TermData.{term_data, value_of_bytes};
ghost use Rattle.terms.specs.Kinds.{kind_of};
ghost use Rattle.serde_json.specs.Data.{string};
ghost use Rattle.serde_json.specs.View.{view};

use crate::paths_to_json::path_term_to_json;
use crate::term_values::leaf_of_bytes;
use schema::Schema;
use serde_json::{Value as Json, json};
use std::alloc::{AllocError, Global};
use terms::{Term, Type};
use values_json::leaf_to_json;

/// Writes `term` as a JSON object; null if the schema doesn't have its field.
pub fn term_to_json(alloc: Global, schema: &Schema, term: &Term) -> Result<Json, AllocError>
    ensures { IfOk result (λ json. view json ≡ term_data schema.now term.now) }
{
    let field = term.field();
    if field.field_id() as usize >= schema.num_fields() {
        return Ok(Json::Null);
    }
    let entry = schema.get_field_entry(field);
    let bytes = term.serialized_value_bytes();
    match entry.field_type().value_type() {
        Type::Json => path_term_to_json(alloc, entry.name(), bytes),
        kind => plain_term_to_json(alloc, entry.name(), kind, bytes),
    }
}

/// Writes a term of a field that isn't of JSON objects.
fn plain_term_to_json(
    alloc: Global,
    name: &str,
    kind: Type,
    bytes: &[u8],
) -> Result<Json, AllocError>
    ensures { IfOk result (λ json. view json ≡ object_of ((codes "field", string name.now)
        ∷ (codes "value", printed (value_of_bytes (kind_of kind) bytes.now)) ∷ [])) }
{
    let value = value_to_json(alloc, kind, bytes)?;
    json!(in alloc; {"field": name, "value": value})
}

/// Writes the value of a field of the type `kind` from its bytes; null if they aren't a value's.
fn value_to_json(alloc: Global, kind: Type, bytes: &[u8]) -> Result<Json, AllocError>
    ensures { IfOk result (λ json. view json ≡ printed (value_of_bytes (kind_of kind) bytes.now)) }
{
    match leaf_of_bytes(alloc, kind, bytes)? {
        Some(leaf) => leaf_to_json(alloc, &leaf),
        None => Ok(Json::Null),
    }
}
