//! Leaves read from JSON.

ghost use Rattle.std.specs.Prelude.{◌≡◌, ◌≢◌, Bool, Err, IfErr, IfOk, None, Ok, false, true};
ghost use Rattle.std.specs.Result.{result_map_both};
ghost use Rattle.definitions.specs.Reading.{if_coerced, read_kind};
ghost use Rattle.definitions.specs.Schema.{bool_kind, bytes_kind, date_kind, facet_kind, i64_kind, ip_addr_kind, json_kind, text_kind, u64_kind};
ghost use Rattle.definitions.specs.Values as values;
ghost use Rattle.definitions.specs.declared.fault.Fault.TheVariants as faults;
ghost use Rattle.terms.specs.Kinds.{kind_of};
ghost use Rattle.serde_json.specs.Find.{as_object};
ghost use Rattle.serde_json.specs.View.{view};
ghost use Rattle.serde_json.specs.Written.{compact_text, has_float};
ghost use Rattle.values_json.specs.Leaves.{value_of};

use crate::addresses::read_address;
use crate::bytes::read_bytes;
use crate::dates::read_date;
use crate::facets::read_facet;
use crate::leaf::Leaf;
use crate::numbers::{
    read_bool_text, read_i64_number, read_i64_text, read_u64_number, read_u64_text,
};
use definitions::Fault;
use serde_json::Value as Json;
use std::alloc::Global;
use terms::Type;

/// Reads one value of a field of the type `kind`, except for the objects of JSON fields. A field that coerces takes
/// more kinds of JSON values; its floats must be refused before.
pub fn read_leaf(alloc: Global, kind: Type, coerce: bool, json: &Json) -> Result<Leaf, Fault>
    requires leaf { kind_of kind ≡ json_kind → as_object (view json.now) ≡ None }
    requires whole { coerce ≡ true → has_float (view json.now) ≡ false }
    ensures ok { IfOk result (λ leaf. read_kind (kind_of kind) coerce (view json.now) ≡ Ok (value_of leaf)) }
    ensures err { IfErr result (λ fault. fault ≢ faults.OutOfMemory
        → read_kind (kind_of kind) coerce (view json.now) ≡ Err fault) }
{
    match kind {
        Type::Str => read_text(alloc, coerce, json),
        Type::U64 => read_u64(coerce, json),
        Type::I64 => read_i64(coerce, json),
        Type::Bool => read_bool(coerce, json),
        Type::Date => read_date_or_number(json),
        Type::Facet => read_facet_path(alloc, json),
        Type::Bytes => read_base64(alloc, json),
        Type::IpAddr => read_ip_addr(json),
        Type::Json => Err(Fault::TypeError),
    }
}

/// Reads a text; if the field coerces, also a whole number, a bool or null by its JSON text.
fn read_text(alloc: Global, coerce: bool, json: &Json) -> Result<Leaf, Fault>
    requires { coerce ≡ true → has_float (view json.now) ≡ false }
    ensures ok { IfOk result (λ leaf. read_kind text_kind coerce (view json.now) ≡ Ok (value_of leaf)) }
    ensures err { IfErr result (λ fault. fault ≢ faults.OutOfMemory
        → read_kind text_kind coerce (view json.now) ≡ Err fault) }
{
    match json {
        Json::String(text) => Ok(Leaf::Str(String::from_str(alloc, text.as_str())?)),
        Json::Null | Json::Bool(_) | Json::Number(_) => coerced_text(alloc, coerce, json),
        Json::Array(_) | Json::Object(_) => Err(Fault::TypeError),
    }
}

/// Returns the JSON text of a value if the field coerces.
fn coerced_text(alloc: Global, coerce: bool, json: &Json) -> Result<Leaf, Fault>
    requires { coerce ≡ true → has_float (view json.now) ≡ false }
    ensures ok { IfOk result (λ leaf. if_coerced coerce (Ok (values.str (compact_text (view json.now))))
        ≡ Ok (value_of leaf)) }
    ensures err { IfErr result (λ fault. fault ≢ faults.OutOfMemory
        → if_coerced coerce (Ok (values.str (compact_text (view json.now)))) ≡ Err fault) }
{
    if !coerce {
        return Err(Fault::TypeError);
    }
    Ok(Leaf::Str(json.to_string(alloc)?))
}

/// Reads a whole number from 0 below 2^64; if the field coerces, also a decimal text of one.
fn read_u64(coerce: bool, json: &Json) -> Result<Leaf, Fault>
    ensures { result_map_both value_of (λ fault. fault) result ≡ read_kind u64_kind coerce (view json.now) }
{
    match json {
        Json::Number(number) => read_u64_number(number).map(Leaf::U64),
        Json::String(text) if coerce => read_u64_text(text.as_str()).map(Leaf::U64),
        _ => Err(Fault::TypeError),
    }
}

/// Reads a whole number from -2^63 below 2^63; if the field coerces, also a decimal text of one.
fn read_i64(coerce: bool, json: &Json) -> Result<Leaf, Fault>
    ensures { result_map_both value_of (λ fault. fault) result ≡ read_kind i64_kind coerce (view json.now) }
{
    match json {
        Json::Number(number) => read_i64_number(number).map(Leaf::I64),
        Json::String(text) if coerce => read_i64_text(text.as_str()).map(Leaf::I64),
        _ => Err(Fault::TypeError),
    }
}

/// Reads a bool; if the field coerces, also the text of one.
fn read_bool(coerce: bool, json: &Json) -> Result<Leaf, Fault>
    ensures { result_map_both value_of (λ fault. fault) result ≡ read_kind bool_kind coerce (view json.now) }
{
    match json {
        Json::Bool(value) => Ok(Leaf::Bool(*value)),
        Json::String(text) if coerce => read_bool_text(text.as_str()).map(Leaf::Bool),
        _ => Err(Fault::TypeError),
    }
}

/// Reads the date of a text. A whole number from -2^63 below 2^63 stays a number.
fn read_date_or_number(json: &Json) -> Result<Leaf, Fault>
    ensures { (coerce : Bool) → result_map_both value_of (λ fault. fault) result
        ≡ read_kind date_kind coerce (view json.now) }
{
    match json {
        Json::String(text) => read_date(text.as_str()).map(Leaf::Date),
        Json::Number(number) => read_i64_number(number).map(Leaf::I64),
        _ => Err(Fault::TypeError),
    }
}

/// Reads the facet of a path.
fn read_facet_path(alloc: Global, json: &Json) -> Result<Leaf, Fault>
    ensures ok { (coerce : Bool) → IfOk result (λ leaf. read_kind facet_kind coerce (view json.now)
        ≡ Ok (value_of leaf)) }
    ensures err { (coerce : Bool) → IfErr result (λ fault. fault ≢ faults.OutOfMemory
        → read_kind facet_kind coerce (view json.now) ≡ Err fault) }
{
    match json {
        Json::String(text) => read_facet(alloc, text.as_str()).map(Leaf::Facet),
        _ => Err(Fault::TypeError),
    }
}

/// Reads the byte string of a text in standard base64.
fn read_base64(alloc: Global, json: &Json) -> Result<Leaf, Fault>
    ensures ok { (coerce : Bool) → IfOk result (λ leaf. read_kind bytes_kind coerce (view json.now)
        ≡ Ok (value_of leaf)) }
    ensures err { (coerce : Bool) → IfErr result (λ fault. fault ≢ faults.OutOfMemory
        → read_kind bytes_kind coerce (view json.now) ≡ Err fault) }
{
    match json {
        Json::String(text) => read_bytes(alloc, text.as_str()).map(Leaf::Bytes),
        _ => Err(Fault::TypeError),
    }
}

/// Reads the IP address in a text.
fn read_ip_addr(json: &Json) -> Result<Leaf, Fault>
    ensures { (coerce : Bool) → result_map_both value_of (λ fault. fault) result
        ≡ read_kind ip_addr_kind coerce (view json.now) }
{
    let Json::String(text) = json else {
        return Err(Fault::TypeError);
    };
    match read_address(text.as_str()) {
        Some(address) => Ok(Leaf::IpAddr(address)),
        None => Err(Fault::ParseError),
    }
}
