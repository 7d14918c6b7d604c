//! Requests decoded from JSON, and what an index is to be made of.

ghost use Rattle.std.specs.Prelude.{◌≡◌, ◌≢◌, ◌⊎◌, Err, IfErr, IfOk, Ok, option_map};
ghost use Rattle.definitions.specs.Requests as definitions;
ghost use Rattle.definitions.specs.Schema.{Schema as Fields};
ghost use Rattle.definitions.specs.SchemaGrammar.{schema_in};
ghost use Rattle.definitions.specs.Step as steps;
ghost use Rattle.definitions.specs.declared.fault.Fault.TheVariants as faults;
ghost use Rattle.index.specs.AskedRequests.{request_of};
ghost use Rattle.serde_json.specs.View.{view};

use definitions::Fault;
use schema::{Schema, has_only, number_at, text_at};
use serde_json::Value as Json;
use settings::Settings;
use std::alloc::Global;

/// A request, with its arguments as they were sent.
#[derive(Clone, Copy)]
pub(crate) enum Request<'a> {
    /// Create an index of a schema and, if they are given, settings.
    Create(&'a Json, Option<&'a Json>),
    /// Open the index of the device's file.
    Open,
    /// A request to the session's index.
    Index(IndexRequest<'a>),
}

/// A request to the session's index.
#[derive(Clone, Copy)]
pub(crate) enum IndexRequest<'a> {
    /// Add a document.
    Add(&'a Json),
    /// Delete the documents with a term.
    Delete(&'a Json),
    /// Merge the committed segments from one index up to another.
    Merge(usize, usize),
    /// Commit what is pending.
    Commit,
    /// Search for the best documents that match: a query, and their number at most.
    Search(&'a Json, u64),
    /// Count the documents that match.
    Count(&'a Json),
}

/// Decodes the request in a JSON object, whose key `op` names it.
#[tactic(auto, using(crate::proofs::RequestForms::request_by_name))]
pub(crate) fn request_in(value: &Json) -> Option<Request<'_>>
    ensures { option_map request_of result ≡ definitions.request_in (view value.now) }
{
    match text_at(value, "op")? {
        "create" => create_in(value),
        "open" => open_in(value),
        "add" => add_in(value),
        "delete" => delete_in(value),
        "merge" => merge_in(value),
        "commit" => commit_in(value),
        "search" => search_in(value),
        "count" => count_in(value),
        _ => None,
    }
}

/// Decodes a request to create an index.
fn create_in(value: &Json) -> Option<Request<'_>>
    ensures { option_map request_of result ≡ definitions.create_request (view value.now) }
{
    if !has_only(value, &["op", "schema", "settings"]) {
        return None;
    }
    let schema = value.get("schema")?;
    Some(Request::Create(schema, value.get("settings")))
}

/// Decodes a request to open an index.
fn open_in(value: &Json) -> Option<Request<'_>>
    ensures { option_map request_of result ≡ definitions.open_request (view value.now) }
{
    if !has_only(value, &["op"]) {
        return None;
    }
    Some(Request::Open)
}

/// Decodes a request to add a document.
fn add_in(value: &Json) -> Option<Request<'_>>
    ensures { option_map request_of result ≡ definitions.add_request (view value.now) }
{
    if !has_only(value, &["op", "doc"]) {
        return None;
    }
    Some(Request::Index(IndexRequest::Add(value.get("doc")?)))
}

/// Decodes a request to delete documents.
fn delete_in(value: &Json) -> Option<Request<'_>>
    ensures { option_map request_of result ≡ definitions.delete_request (view value.now) }
{
    if !has_only(value, &["op", "term"]) {
        return None;
    }
    Some(Request::Index(IndexRequest::Delete(value.get("term")?)))
}

/// Decodes a request to merge segments.
fn merge_in(value: &Json) -> Option<Request<'_>>
    ensures { option_map request_of result ≡ definitions.merge_request (view value.now) }
{
    if !has_only(value, &["op", "from", "to"]) {
        return None;
    }
    let from = number_at(value, "from")?;
    let to = number_at(value, "to")?;
    Some(Request::Index(IndexRequest::Merge(from as usize, to as usize)))
}

/// Decodes a request to commit.
fn commit_in(value: &Json) -> Option<Request<'_>>
    ensures { option_map request_of result ≡ definitions.commit_request (view value.now) }
{
    if !has_only(value, &["op"]) {
        return None;
    }
    Some(Request::Index(IndexRequest::Commit))
}

/// Decodes a request to search.
fn search_in(value: &Json) -> Option<Request<'_>>
    ensures { option_map request_of result ≡ definitions.search_request (view value.now) }
{
    if !has_only(value, &["op", "query", "k"]) {
        return None;
    }
    let query = value.get("query")?;
    let k = number_at(value, "k")?;
    Some(Request::Index(IndexRequest::Search(query, k)))
}

/// Decodes a request to count.
fn count_in(value: &Json) -> Option<Request<'_>>
    ensures { option_map request_of result ≡ definitions.count_request (view value.now) }
{
    if !has_only(value, &["op", "query"]) {
        return None;
    }
    Some(Request::Index(IndexRequest::Count(value.get("query")?)))
}

/// Decodes the schema and the settings of a request. Without `settings` they are the defaults.
pub(crate) fn read_making(
    alloc: Global,
    schema: &Json,
    settings: Option<&Json>,
) -> Result<(Schema, Settings), Fault>
    ensures ok { IfOk result (λ made. (schema_in (view schema.now) ≡ Ok made.0)
        × (steps.settings_sent made.0 (option_map (λ d. view d.now) settings.entry) ≡ Ok made.1)) }
    ensures err { IfErr result (λ fault. fault ≢ faults.OutOfMemory → (schema_in (view schema.now) ≡ Err fault)
        ⊎ ((fields : Fields) × (schema_in (view schema.now) ≡ Ok fields)
        × (steps.settings_sent fields (option_map (λ d. view d.now) settings.entry) ≡ Err fault))) }
{
    let schema = Schema::from_json_value(alloc, schema)?;
    let settings = read_settings(alloc, &schema, settings)?;
    Ok((schema, settings))
}

/// Decodes the settings of a request, or returns the defaults.
fn read_settings(alloc: Global, schema: &Schema, settings: Option<&Json>) -> Result<Settings, Fault>
    ensures ok { IfOk result (λ made.
        steps.settings_sent schema.now (option_map (λ d. view d.now) settings.entry) ≡ Ok made) }
    ensures err { IfErr result (λ fault. fault ≢ faults.OutOfMemory
        → steps.settings_sent schema.now (option_map (λ d. view d.now) settings.entry) ≡ Err fault) }
{
    match settings {
        Some(json) => Settings::from_json_value(alloc, schema, json),
        None => Ok(Settings::default(alloc)?),
    }
}
