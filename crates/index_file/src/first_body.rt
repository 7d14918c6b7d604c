//! First bodies: the schema and settings of an index.

ghost use Rattle.std.specs.Prelude.{true, ◌++◌, ◌≡◌, IfErr, IfOk, OnOk, Some, string_bytes};
ghost use Rattle.definitions.specs.declared.fault.Fault.TheVariants as faults;
ghost use Rattle.layouts.specs.RecordBodies as definitions;
ghost use Rattle.serde_json.specs.View.{view};
ghost use Rattle.serde_json.specs.Written.{compact_text};

use definitions::Fault;
use schema::{Schema, has_only};
use serde_json::{Value as Json, json};
use settings::Settings;
use std::alloc::{AllocError, Global};

/// The most fields of an index.
pub const MAX_INDEX_FIELDS: usize = 65536;

/// Appends byte 1 and the compact JSON of `schema` and `settings` to `out`.
#[tactic(auto, unfolding(layouts::specs::RecordBodies::first_body, layouts::specs::RecordBodies::first_in))]
pub fn put_first_body(
    alloc: Global,
    out: &mut Vec<u8>,
    schema: &Schema,
    settings: &Settings,
) -> Result<(), Fault>
    ensures put { OnOk result (out.new.items ≡ out.old.items ++ definitions.first_body schema.now settings.now) }
    ensures read_back { OnOk result (definitions.makes_index schema.now settings.now ≡ true
        → definitions.first_in (definitions.first_body schema.now settings.now) ≡ Some (schema.now, settings.now)) }
    ensures err { IfErr result (λ fault. fault ≡ faults.OutOfMemory) }
{
    let text = made_text(alloc, schema, settings)?;
    out.push(1)?;
    out.extend_from_slice(text.as_bytes())?;
    Ok(())
}

/// Decodes the schema and settings from a first body; `None` if `body` isn't one.
#[tactic(auto, unfolding(layouts::specs::RecordBodies::first_in))]
pub fn read_first_body(alloc: Global, body: &[u8]) -> Result<Option<(Schema, Settings)>, AllocError>
    ensures value { IfOk result (λ found. found ≡ definitions.first_in body.now) }
{
    let Some((code, text)) = body.split_first() else {
        return Ok(None);
    };
    if *code != 1 {
        return Ok(None);
    }
    read_text(alloc, text)
}

/// Returns the compact JSON of a schema and settings.
#[tactic(auto, using(crate::proofs::PlainData::made_float, crate::proofs::MadeTexts::text_back, crate::proofs::MadeTexts::string_utf8))]
fn made_text(alloc: Global, schema: &Schema, settings: &Settings) -> Result<String, Fault>
    ensures text { IfOk result (λ text. string_bytes text
        ≡ compact_text (definitions.made_data schema.now settings.now)) }
    ensures read_back { IfOk result (λ text. definitions.makes_index schema.now settings.now ≡ true
        → definitions.made_in_text (string_bytes text) ≡ Some (schema.now, settings.now)) }
    ensures err { IfErr result (λ fault. fault ≡ faults.OutOfMemory) }
{
    let json = made_to_json(alloc, schema, settings)?;
    let text = json.to_string(alloc)?;
    Ok(text)
}

/// Converts a schema and settings to a JSON object.
fn made_to_json(alloc: Global, schema: &Schema, settings: &Settings) -> Result<Json, Fault>
    ensures value { IfOk result (λ json. view json ≡ definitions.made_data schema.now settings.now) }
    ensures read_back { IfOk result (λ json. definitions.makes_index schema.now settings.now ≡ true
        → definitions.made_in (view json) ≡ Some (schema.now, settings.now)) }
    ensures err { IfErr result (λ fault. fault ≡ faults.OutOfMemory) }
{
    let schema_json = schema.to_json_value(alloc)?;
    let settings_json = settings.to_json_value(alloc, schema)?;
    let made = json!(in alloc; {"schema": schema_json, "settings": settings_json})?;
    Ok(made)
}

/// Decodes the schema and settings from a JSON text.
#[tactic(auto, using(crate::proofs::MadeTexts::text_read, crate::proofs::MadeTexts::text_refused))]
fn read_text(alloc: Global, text: &[u8]) -> Result<Option<(Schema, Settings)>, AllocError>
    ensures value { IfOk result (λ found. found ≡ definitions.made_in_text text.now) }
{
    match Json::from_slice(alloc, text) {
        Ok(json) => read_made(alloc, &json),
        Err(e) if e.is_memory() => Err(AllocError),
        Err(_) => Ok(None),
    }
}

/// Decodes the schema and settings from a JSON object.
fn read_made(alloc: Global, json: &Json) -> Result<Option<(Schema, Settings)>, AllocError>
    ensures value { IfOk result (λ found. found ≡ definitions.made_in (view json.now)) }
{
    if !has_only(json, &["schema", "settings"]) {
        return Ok(None);
    }
    let Some(schema) = read_schema(alloc, json)? else {
        return Ok(None);
    };
    let Some(settings) = read_settings(alloc, &schema, json)? else {
        return Ok(None);
    };
    if schema.num_fields() > MAX_INDEX_FIELDS || !settings.names_weights(alloc, &schema)? {
        return Ok(None);
    }
    Ok(Some((schema, settings)))
}

/// Decodes the schema at its key, if there is one.
fn read_schema(alloc: Global, json: &Json) -> Result<Option<Schema>, AllocError>
    ensures { IfOk result (λ found. found ≡ definitions.schema_at (view json.now)) }
{
    let Some(schema) = json.get("schema") else {
        return Ok(None);
    };
    match Schema::from_json_value(alloc, schema) {
        Ok(schema) => Ok(Some(schema)),
        Err(Fault::OutOfMemory) => Err(AllocError),
        Err(_) => Ok(None),
    }
}

/// Decodes the settings at their key, if there are any.
fn read_settings(
    alloc: Global,
    schema: &Schema,
    json: &Json,
) -> Result<Option<Settings>, AllocError>
    ensures { IfOk result (λ found. found ≡ definitions.settings_at schema.now (view json.now)) }
{
    let Some(settings) = json.get("settings") else {
        return Ok(None);
    };
    match Settings::from_json_value(alloc, schema, settings) {
        Ok(settings) => Ok(Some(settings)),
        Err(Fault::OutOfMemory) => Err(AllocError),
        Err(_) => Ok(None),
    }
}
