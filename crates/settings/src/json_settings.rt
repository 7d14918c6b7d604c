//! Settings read from JSON and written as JSON.

ghost use Rattle.std.specs.Prelude.{[], true, ◌≡◌, ◌≢◌, IfErr, IfOk, None, OnOk, Some, codes, option_map};
ghost use Rattle.definitions.specs.Json as keys;
ghost use Rattle.definitions.specs.Replies.{number_data};
ghost use Rattle.definitions.specs.Settings.{default_settings, is_settings};
ghost use Rattle.definitions.specs.SettingsGrammar as definitions;
ghost use Rattle.definitions.specs.TermData.{reads_back};
ghost use Rattle.definitions.specs.declared.fault.Fault.TheVariants as faults;
ghost use Rattle.serde_json.specs.View.{items_view, view};

use crate::settings::Settings;
use crate::{term_beside, term_to_json};
use definitions::Fault;
use schema::{Schema, has_only};
use serde_json::{Value as Json, json};
use std::alloc::{AllocError, Global};
use terms::Term;

impl Settings {
    /// Reads settings from a JSON object. An absent key has its default.
    pub fn from_json_value(alloc: Global, schema: &Schema, json: &Json) -> Result<Settings, Fault>
        ensures ok { IfOk result (λ settings. definitions.settings_in schema.now (view json.now) ≡ Some settings) }
        ensures err { IfErr result (λ fault. fault ≢ faults.OutOfMemory → (fault ≡ faults.BadSettings)
            × (definitions.settings_in schema.now (view json.now) ≡ None)) }
    {
        if !has_only_settings(json) {
            return Err(Fault::BadSettings);
        }
        let docs_per_segment = whole_or(json, "docs_per_segment", 65536).ok_or(Fault::BadSettings)?;
        let block_size = whole_or(json, "block_size", 16384).ok_or(Fault::BadSettings)?;
        let cache_blocks = whole_or(json, "cache_blocks", 100).ok_or(Fault::BadSettings)?;
        let default_weight = whole_or(json, "default_weight", 60).ok_or(Fault::BadSettings)?;
        let weights = weights_or_none(alloc, schema, json)?.ok_or(Fault::BadSettings)?;
        let norms = norms_or_ones(alloc, json)?.ok_or(Fault::BadSettings)?;
        Settings::new(
            alloc,
            docs_per_segment,
            block_size,
            cache_blocks,
            default_weight,
            weights,
            norms,
        )
    }

    /// Writes the settings as a JSON object with every key. They can be read back if each weighted term can be.
    #[tactic(auto, using(definitions::proofs::SettingsReadBack::settings_back))]
    pub fn to_json_value(&self, alloc: Global, schema: &Schema) -> Result<Json, Fault>
        ensures value { IfOk result (λ json. view json ≡ definitions.settings_data schema.now self.now) }
        ensures read_back { IfOk result (λ json. definitions.weighs_named schema.now self.now ≡ true
            → definitions.settings_in schema.now (view json) ≡ Some self.now) }
        ensures err { IfErr result (λ fault. fault ≡ faults.OutOfMemory) }
    {
        Ok(self.keys_to_json(alloc, schema)?)
    }

    /// Whether each weighted term can be read back from its JSON.
    pub fn names_weights(&self, alloc: Global, schema: &Schema) -> Result<bool, AllocError>
        ensures { IfOk result (λ named. named ≡ definitions.weighs_named schema.now self.now) }
    {
        for (term, _weight) in self.weights() {
            if !reads_back(alloc, schema, term)? {
                return Ok(false);
            }
        }
        Ok(true)
    }

    /// Writes the settings as a JSON object.
    fn keys_to_json(&self, alloc: Global, schema: &Schema) -> Result<Json, AllocError>
        ensures value { IfOk result (λ json. view json ≡ definitions.settings_data schema.now self.now) }
        ensures valid { OnOk result (is_settings self.now ≡ true) }
    {
        let weights = weights_to_json(alloc, schema, self.weights())?;
        let norms = norms_to_json(alloc, self.norms())?;
        json!(in alloc; {
            "docs_per_segment": self.docs_per_segment(),
            "block_size": self.block_size(),
            "cache_blocks": self.cache_blocks(),
            "default_weight": self.default_weight(),
            "weights": weights,
            "norms": norms
        })
    }
}

/// Whether `term` is read back from its JSON.
fn reads_back(alloc: Global, schema: &Schema, term: &Term) -> Result<bool, AllocError>
    ensures { IfOk result (λ back. back ≡ reads_back schema.now term.now) }
{
    let written = term_to_json(alloc, schema, term)?;
    match term_beside(alloc, schema, &written, &[])? {
        Some(read) => Ok(read == *term),
        None => Ok(false),
    }
}

/// Whether `json` is an object without keys other than those of settings.
fn has_only_settings(json: &Json) -> bool
    ensures { result ≡ keys.has_only definitions.settings_keys (view json.now) }
{
    has_only(
        json,
        &[
            "docs_per_segment",
            "block_size",
            "cache_blocks",
            "default_weight",
            "weights",
            "norms",
        ],
    )
}

/// Reads the whole number at `key`; `absent` if the key is absent.
fn whole_or(json: &Json, key: &str, absent: u64) -> Option<u64>
    ensures { result ≡ keys.at_or absent definitions.whole_in key.now (view json.now) }
{
    match json.get(key) {
        Some(number) => number.as_u64(),
        None => Some(absent),
    }
}

/// Reads the weights of settings; no weights if the key is absent.
fn weights_or_none(
    alloc: Global,
    schema: &Schema,
    json: &Json,
) -> Result<Option<Vec<(Term, u64)>>, AllocError>
    ensures { IfOk result (λ found. option_map (λ weights. weights.items) found
        ≡ keys.at_or [] (keys.list_of (definitions.weight_in schema.now)) (codes "weights") (view json.now)) }
{
    match json.get("weights") {
        Some(weights) => read_weights(alloc, schema, weights),
        None => Ok(Some(Vec::new(alloc))),
    }
}

/// Reads weights from an array.
fn read_weights(
    alloc: Global,
    schema: &Schema,
    json: &Json,
) -> Result<Option<Vec<(Term, u64)>>, AllocError>
    ensures { IfOk result (λ found. option_map (λ weights. weights.items) found
        ≡ keys.list_of (definitions.weight_in schema.now) (view json.now)) }
{
    match json {
        Json::Array(items) => read_each_weight(alloc, schema, items.as_slice()),
        _ => Ok(None),
    }
}

/// Reads each of `items` as a weight.
fn read_each_weight(
    alloc: Global,
    schema: &Schema,
    items: &[Json],
) -> Result<Option<Vec<(Term, u64)>>, AllocError>
    ensures { IfOk result (λ found. option_map (λ weights. weights.items) found
        ≡ keys.each (definitions.weight_in schema.now) (items_view items.now)) }
{
    let mut weights = Vec::with_capacity(alloc, items.len())?;
    for item in items {
        let Some(weight) = read_weight(alloc, schema, item)? else {
            return Ok(None);
        };
        weights.push(weight)?;
    }
    Ok(Some(weights))
}

/// Reads a term and its weight.
fn read_weight(
    alloc: Global,
    schema: &Schema,
    json: &Json,
) -> Result<Option<(Term, u64)>, AllocError>
    ensures { IfOk result (λ found. found ≡ definitions.weight_in schema.now (view json.now)) }
{
    if !has_only(json, &["term", "weight"]) {
        return Ok(None);
    }
    let Some(term) = json.get("term") else {
        return Ok(None);
    };
    let Some(term) = term_beside(alloc, schema, term, &[])? else {
        return Ok(None);
    };
    let Some(weight) = json.get("weight").and_then(Json::as_u64) else {
        return Ok(None);
    };
    Ok(Some((term, weight)))
}

/// Reads the norms of settings; all 1 if the key is absent.
fn norms_or_ones(alloc: Global, json: &Json) -> Result<Option<Vec<u32>>, AllocError>
    ensures { IfOk result (λ found. option_map (λ norms. norms.items) found
        ≡ keys.at_or default_settings.norms (keys.list_of definitions.norm_in) (codes "norms") (view json.now)) }
{
    match json.get("norms") {
        Some(norms) => read_norms(alloc, norms),
        None => Ok(Some(Vec::from_elem(alloc, 1, 256)?)),
    }
}

/// Reads norms from an array.
fn read_norms(alloc: Global, json: &Json) -> Result<Option<Vec<u32>>, AllocError>
    ensures { IfOk result (λ found. option_map (λ norms. norms.items) found
        ≡ keys.list_of definitions.norm_in (view json.now)) }
{
    match json {
        Json::Array(items) => read_each_norm(alloc, items.as_slice()),
        _ => Ok(None),
    }
}

/// Reads each of `items` as a norm.
fn read_each_norm(alloc: Global, items: &[Json]) -> Result<Option<Vec<u32>>, AllocError>
    ensures { IfOk result (λ found. option_map (λ norms. norms.items) found
        ≡ keys.each definitions.norm_in (items_view items.now)) }
{
    let mut norms = Vec::with_capacity(alloc, items.len())?;
    for item in items {
        let Some(norm) = read_norm(item) else {
            return Ok(None);
        };
        norms.push(norm)?;
    }
    Ok(Some(norms))
}

/// Reads a norm: a whole number of 32 bits.
fn read_norm(json: &Json) -> Option<u32>
    ensures { result ≡ definitions.norm_in (view json.now) }
{
    u32::try_from(json.as_u64()?).ok()
}

/// Writes terms with their weights as a JSON array.
fn weights_to_json(
    alloc: Global,
    schema: &Schema,
    weights: &[(Term, u64)],
) -> Result<Json, AllocError>
    ensures { IfOk result (λ json. view json ≡ definitions.array_of (definitions.weight_data schema.now) weights.now) }
{
    let mut items = Vec::with_capacity(alloc, weights.len())?;
    for (term, weight) in weights {
        let term = term_to_json(alloc, schema, term)?;
        items.push(json!(in alloc; {"term": term, "weight": *weight})?)?;
    }
    Ok(Json::Array(items))
}

/// Writes norms as a JSON array.
fn norms_to_json(alloc: Global, norms: &[u32]) -> Result<Json, AllocError>
    ensures { IfOk result (λ json. view json ≡ definitions.array_of number_data norms.now) }
{
    let mut items = Vec::with_capacity(alloc, norms.len())?;
    for norm in norms {
        items.push(Json::from(*norm))?;
    }
    Ok(Json::Array(items))
}
