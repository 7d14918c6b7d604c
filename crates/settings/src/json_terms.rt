//! Terms read from JSON.

ghost use Rattle.std.specs.Prelude.{◌++◌, ◌∷◌, ◌≡◌, ◌≢◌, [], IfErr, IfOk, None, Some, codes, map, option_map};
ghost use Rattle.definitions.specs.Json.{has_only, only_if};
ghost use Rattle.definitions.specs.Schema.{bool_kind, bytes_kind, date_kind, facet_kind, i64_kind, ip_addr_kind, text_kind, u64_kind};
ghost use Rattle.definitions.specs.TermGrammar as definitions;
ghost use Rattle.definitions.specs.declared.fault.Fault.TheVariants as faults;
ghost use Rattle.terms.specs.Kinds.{kind_of};
ghost use Rattle.serde_json.specs.Find.{get};
ghost use Rattle.serde_json.specs.View.{view};
ghost use Rattle.settings.specs.Terms.{value_term};

use crate::json_paths::path_term;
use definitions::Fault;
use schema::{Schema, has_only_beside, text_at};
use serde_json::Value as Json;
use std::alloc::{AllocError, Global};
use std::net::Ipv6Addr;
use terms::{Field, Term, Type};
use values_json::{read_address, read_bytes, read_date, read_facet};

/// Reads a term from a JSON object: the name of a field, and a value. A text is the token itself. For a JSON field
/// there is a path of keys, too, and a date is at a key of its own.
pub fn read_term(alloc: Global, schema: &Schema, json: &Json) -> Result<Term, Fault>
    ensures ok { IfOk result (λ term. definitions.term_in schema.now (view json.now) ≡ Some term) }
    ensures err { IfErr result (λ fault. fault ≢ faults.OutOfMemory → (fault ≡ faults.BadTerm)
        × (definitions.term_in schema.now (view json.now) ≡ None)) }
{
    term_beside(alloc, schema, json, &[])?.ok_or(Fault::BadTerm)
}

/// Like `read_term`, but the object may also have `keys`; `None` if it isn't a term.
pub fn term_beside(
    alloc: Global,
    schema: &Schema,
    json: &Json,
    keys: &[&str],
) -> Result<Option<Term>, AllocError>
    ensures { IfOk result (λ found. found
        ≡ definitions.term_beside (map (λ k. k.now) keys.now) schema.now (view json.now)) }
{
    let Some(name) = text_at(json, "field") else {
        return Ok(None);
    };
    let Ok(field) = schema.get_field(name) else {
        return Ok(None);
    };
    let entry = schema.get_field_entry(field);
    match entry.field_type().value_type() {
        Type::Json => path_term(alloc, field, entry.is_expand_dots_enabled(), json, keys),
        kind => plain_term(alloc, field, kind, json, keys),
    }
}

/// Reads a term of a field that isn't of JSON objects.
fn plain_term(
    alloc: Global,
    field: Field,
    kind: Type,
    json: &Json,
    keys: &[&str],
) -> Result<Option<Term>, AllocError>
    ensures { IfOk result (λ found. found
        ≡ definitions.plain_term (map (λ k. k.now) keys.now) field (kind_of kind) (view json.now)) }
{
    match value_beside(json, keys) {
        Some(value) => value_term(alloc, field, kind, value),
        None => Ok(None),
    }
}

/// Returns the value of an object with the keys `field`, `value` and maybe `keys`, but no others.
fn value_beside<'a>(json: &'a Json, keys: &[&str]) -> Option<&'a Json>
    ensures { option_map (λ v. view v.now) result ≡ only_if (has_only (codes "field" ∷ codes "value"
        ∷ map (λ k. k.now) keys.now) (view json.now)) (get (codes "value") (view json.now)) }
{
    if !has_only_beside(json, &["field", "value"], keys) {
        return None;
    }
    json.get("value")
}

/// Reads the term of a value in a field of the type `kind`.
fn value_term(
    alloc: Global,
    field: Field,
    kind: Type,
    value: &Json,
) -> Result<Option<Term>, AllocError>
    ensures { IfOk result (λ found. found ≡ value_term field (kind_of kind) (view value.now)) }
{
    match kind {
        Type::Str => text_term(alloc, field, value),
        Type::U64 => u64_term(alloc, field, value),
        Type::I64 => i64_term(alloc, field, value),
        Type::Bool => bool_term(alloc, field, value),
        Type::Date => date_term(alloc, field, value),
        Type::Facet => facet_term(alloc, field, value),
        Type::Bytes => bytes_term(alloc, field, value),
        Type::Json => Ok(None),
        Type::IpAddr => ip_addr_term(alloc, field, value),
    }
}

/// Reads the term of a text, which is the token.
fn text_term(alloc: Global, field: Field, value: &Json) -> Result<Option<Term>, AllocError>
    ensures { IfOk result (λ found. found ≡ value_term field text_kind (view value.now)) }
{
    let Some(text) = value.as_str() else {
        return Ok(None);
    };
    Ok(Some(Term::from_field_text(alloc, field, text)?))
}

/// Reads the term of a number from 0 below 2^64.
fn u64_term(alloc: Global, field: Field, value: &Json) -> Result<Option<Term>, AllocError>
    ensures { IfOk result (λ found. found ≡ value_term field u64_kind (view value.now)) }
{
    let Some(value) = value.as_u64() else {
        return Ok(None);
    };
    Ok(Some(Term::from_field_u64(alloc, field, value)?))
}

/// Reads the term of a signed number of 64 bits.
fn i64_term(alloc: Global, field: Field, value: &Json) -> Result<Option<Term>, AllocError>
    ensures { IfOk result (λ found. found ≡ value_term field i64_kind (view value.now)) }
{
    let Some(value) = value.as_i64() else {
        return Ok(None);
    };
    Ok(Some(Term::from_field_i64(alloc, field, value)?))
}

/// Reads the term of a bool.
fn bool_term(alloc: Global, field: Field, value: &Json) -> Result<Option<Term>, AllocError>
    ensures { IfOk result (λ found. found ≡ value_term field bool_kind (view value.now)) }
{
    let Some(value) = value.as_bool() else {
        return Ok(None);
    };
    Ok(Some(Term::from_field_bool(alloc, field, value)?))
}

/// Reads the term of a date's text, cut to its second. A number isn't a date here.
fn date_term(alloc: Global, field: Field, value: &Json) -> Result<Option<Term>, AllocError>
    ensures { IfOk result (λ found. found ≡ value_term field date_kind (view value.now)) }
{
    let Json::String(text) = value else {
        return Ok(None);
    };
    match read_date(text.as_str()) {
        Ok(date) => Ok(Some(Term::from_field_date(alloc, field, date)?)),
        Err(_) => Ok(None),
    }
}

/// Reads the term of a facet's path.
fn facet_term(alloc: Global, field: Field, value: &Json) -> Result<Option<Term>, AllocError>
    ensures { IfOk result (λ found. found ≡ value_term field facet_kind (view value.now)) }
{
    let Some(path) = value.as_str() else {
        return Ok(None);
    };
    match read_facet(alloc, path) {
        Ok(facet) => Ok(Some(Term::from_facet(alloc, field, &facet)?)),
        Err(Fault::OutOfMemory) => Err(AllocError),
        Err(_) => Ok(None),
    }
}

/// Reads the term of the bytes of a text in base64.
fn bytes_term(alloc: Global, field: Field, value: &Json) -> Result<Option<Term>, AllocError>
    ensures { IfOk result (λ found. found ≡ value_term field bytes_kind (view value.now)) }
{
    let Some(text) = value.as_str() else {
        return Ok(None);
    };
    match read_bytes(alloc, text) {
        Ok(bytes) => Ok(Some(Term::from_field_bytes(alloc, field, bytes.as_slice())?)),
        Err(Fault::OutOfMemory) => Err(AllocError),
        Err(_) => Ok(None),
    }
}

/// Reads the term of an IP address's text.
fn ip_addr_term(alloc: Global, field: Field, value: &Json) -> Result<Option<Term>, AllocError>
    ensures { IfOk result (λ found. found ≡ value_term field ip_addr_kind (view value.now)) }
{
    let Some(text) = value.as_str() else {
        return Ok(None);
    };
    let Some(bits) = read_address(text) else {
        return Ok(None);
    };
    let address = Ipv6Addr::from_bits(bits);
    Ok(Some(Term::from_field_ip_addr(alloc, field, address)?))
}
