//! Terms of JSON fields written as JSON.

ghost use Rattle.std.specs.Prelude.{[], ◌==◌, ◌∷◌, ◌≡◌, IfOk, bytes_eq, codes, find, map, option_map};
ghost use Rattle.std.specs.List.{after_first, before_first, position};
ghost use Rattle.std.specs.Option.{option_map_or};
ghost use Rattle.definitions.specs.Json.{object_of};
ghost use Rattle.definitions.specs.Schema.{json_kind};
ghost use Rattle.definitions.specs.TermData.{leaf_data, leaf_of_bytes, path_data, value_members};
ghost use Rattle.definitions.specs.Terms.{leaf_kinds, type_code};
ghost use Rattle.definitions.specs.Values.{null};
ghost use Rattle.serde_json.specs.Data.{array, string};
ghost use Rattle.terms.specs.Kinds.{kind_of};
ghost use Rattle.serde_json.specs.View.{items_of, view};
ghost use Rattle.settings.specs.Terms.{is_leaf_kind};
ghost use Rattle.values_json.specs.Leaves.{value_of};

use crate::term_values::{leaf_of_bytes, parts};
use serde_json::{Value as Json, json};
use std::alloc::{AllocError, Global};
use terms::Type;
use values_json::{Leaf, leaf_to_json};

/// Writes a term of a JSON field from its value bytes: the path, U+0000 and a value.
pub(crate) fn path_term_to_json(alloc: Global, name: &str, bytes: &[u8]) -> Result<Json, AllocError>
    ensures { IfOk result (λ json. view json ≡ object_of ((codes "field", string name.now)
        ∷ value_members json_kind bytes.now)) }
{
    let (path, leaf) = split_path(bytes);
    let path = path_to_json(alloc, path)?;
    let value = path_leaf_to_json(alloc, leaf)?;
    json!(in alloc; {"field": name, "path": path, "value": value})
}

/// Splits `bytes` at the first U+0000.
fn split_path(bytes: &[u8]) -> (&[u8], &[u8])
    ensures { (result.0.now ≡ before_first (◌==◌ 0) bytes.now) × (result.1.now ≡ after_first (◌==◌ 0) bytes.now) }
{
    match path_end(bytes) {
        Some(end) => (&bytes[..end], &bytes[end + 1..]),
        None => (bytes, &[]),
    }
}

/// Returns the index of the first U+0000.
fn path_end(bytes: &[u8]) -> Option<usize>
    ensures { result ≡ position (◌==◌ 0) bytes.now }
{
    bytes.iter().position(|byte| *byte == 0)
}

/// Writes the keys of a path, which U+0001 separates; null if the bytes aren't a text.
fn path_to_json(alloc: Global, path: &[u8]) -> Result<Json, AllocError>
    ensures { IfOk result (λ json. view json ≡ path_data path.now) }
{
    match str::from_utf8(path) {
        Ok(path) => keys_to_json(alloc, parts(alloc, path, '\u{1}')?.as_slice()),
        Err(_) => Ok(Json::Null),
    }
}

/// Writes keys as a JSON array.
fn keys_to_json(alloc: Global, keys: &[&str]) -> Result<Json, AllocError>
    ensures { IfOk result (λ json. view json ≡ array (items_of (map (λ k. string k.now) keys.now))) }
{
    let mut items = Vec::with_capacity(alloc, keys.len())?;
    for key in keys {
        items.push(Json::String(String::from_str(alloc, key)?))?;
    }
    Ok(Json::Array(items))
}

/// Writes the value at the end of a path from its bytes; null if they aren't a value's.
fn path_leaf_to_json(alloc: Global, bytes: &[u8]) -> Result<Json, AllocError>
    ensures { IfOk result (λ json. view json ≡ leaf_data (leaf_of_bytes bytes.now)) }
{
    match path_leaf(alloc, bytes)? {
        Some(leaf) => dated_to_json(alloc, &leaf),
        None => Ok(Json::Null),
    }
}

/// Writes a value; a date gets a key of its own, which distinguishes it from a text.
fn dated_to_json(alloc: Global, leaf: &Leaf) -> Result<Json, AllocError>
    ensures { IfOk result (λ json. view json ≡ leaf_data (value_of leaf.now)) }
{
    let value = leaf_to_json(alloc, leaf)?;
    match leaf {
        Leaf::Date(_) => json!(in alloc; {"date": value}),
        _ => Ok(value),
    }
}

/// Decodes a value at the end of a path: the code of its type, then its bytes.
fn path_leaf(alloc: Global, bytes: &[u8]) -> Result<Option<Leaf>, AllocError>
    ensures { IfOk result (λ found. option_map_or value_of found null ≡ leaf_of_bytes bytes.now) }
{
    let Some((code, payload)) = bytes.split_first() else {
        return Ok(None);
    };
    match leaf_type(*code) {
        Some(kind) => leaf_of_bytes(alloc, kind, payload),
        None => Ok(None),
    }
}

/// Returns the type with the code `code`, if values at the end of a path may have it.
#[tactic(auto, using(crate::proofs::ValueTerms::leaf_code))]
fn leaf_type(code: u8) -> Option<Type>
    ensures { option_map kind_of result ≡ find (λ kind. bytes_eq (code ∷ []) (type_code kind)) leaf_kinds }
{
    let kind = Type::from_code(code)?;
    if is_leaf_type(kind) { Some(kind) } else { None }
}

/// Whether values at the end of a path may have the type `kind`.
fn is_leaf_type(kind: Type) -> bool
    ensures { result ≡ is_leaf_kind (kind_of kind) }
{
    matches!(
        kind,
        Type::Str | Type::U64 | Type::I64 | Type::Bool | Type::Date
    )
}
