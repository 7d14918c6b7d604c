//! Checks of whether an index can be made.

ghost use Rattle.std.specs.Prelude.{◌≡◌, ◌≢◌, Err};
ghost use Rattle.std.specs.Result.{result_err};
ghost use Rattle.definitions.specs.Making.{are_analyzed, is_analyzed, making_fault};
ghost use Rattle.definitions.specs.declared.fault.Fault.TheVariants as faults;

use crate::MAX_INDEX_FIELDS;
use common::Analyzer;
use definitions::Fault;
use schema::{FieldEntry, Schema, Type};
use settings::Settings;
use std::alloc::Global;

/// Checks that an index can be made of `analyzer`, `schema` and `settings`.
pub fn check_making<A: Analyzer>(
    alloc: Global,
    analyzer: &A,
    schema: &Schema,
    settings: &Settings,
) -> Result<(), Fault>
    ensures value { result ≢ Err faults.OutOfMemory
        → result_err result ≡ making_fault (A.knows_name analyzer.now) schema.now settings.now }
{
    if schema.num_fields() > MAX_INDEX_FIELDS {
        return Err(Fault::TooManyFields);
    }
    if !are_analyzed(analyzer, schema) {
        return Err(Fault::UnknownTokenizer);
    }
    if !settings.names_weights(alloc, schema)? {
        return Err(Fault::BadSettings);
    }
    Ok(())
}

/// Returns whether the analyzer knows the tokenizers of all fields.
pub fn are_analyzed<A: Analyzer>(analyzer: &A, schema: &Schema) -> bool
    ensures { result ≡ are_analyzed (A.knows_name analyzer.now) schema.now }
{
    for (_field, entry) in schema.fields() {
        if !is_analyzed(analyzer, entry) {
            return false;
        }
    }
    true
}

/// Returns whether the analyzer knows the field's tokenizer, where the field has one.
fn is_analyzed<A: Analyzer>(analyzer: &A, entry: &FieldEntry) -> bool
    ensures { result ≡ is_analyzed (A.knows_name analyzer.now) entry.now }
{
    match entry.value_type() {
        Type::Str | Type::Json => !entry.is_indexed() || analyzer.knows(entry.tokenizer()),
        Type::U64
        | Type::I64
        | Type::Bool
        | Type::Date
        | Type::Facet
        | Type::Bytes
        | Type::IpAddr => true,
    }
}
