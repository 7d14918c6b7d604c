//! Queries of any form read from JSON.

ghost use Rattle.std.specs.Prelude.{◌<◌, ◌≡◌, ◌≢◌, IfErr, IfOk, None, Some, codes, option_map, pos, unwrap_or};
ghost use Rattle.definitions.specs.Json as keys;
ghost use Rattle.definitions.specs.Query.{no_queries};
ghost use Rattle.definitions.specs.QueryGrammar as definitions;
ghost use Rattle.definitions.specs.declared.fault.Fault.TheVariants as faults;
ghost use Rattle.query_checks.specs.QueryNames.{form_of};
ghost use Rattle.query_checks.specs.ReadQueries.{Gives, formed};
ghost use Rattle.query_trees.specs.Queries.{clauses_of, queries_of, query_of};
ghost use Rattle.serde_json.specs.Data.{Data, depth};
ghost use Rattle.serde_json.specs.Find.{get};
ghost use Rattle.serde_json.specs.View.{items_view, view};

use crate::json_booleans::{push_clauses, read_minimum};
use crate::json_phrases::{read_phrase_prefix_query, read_phrase_query};
use crate::query_forms::{Form, form_at};
use crate::term_queries::read_term_query;
use definitions::Fault;
use query_trees::{
    AllQuery, AnyQuery, BoostQuery, ConstScoreQuery, DisjunctionMaxQuery, EmptyQuery, Occur,
};
use schema::{Schema, has_only, is_too_deep, number_in};
use serde_json::Value as Json;
use std::alloc::Global;

/// Reads a query from a JSON object, whose key `q` names its form. JSON that nests more than 256 deep, as no text does,
/// is `BadQuery`.
pub fn read_query(alloc: Global, schema: &Schema, json: &Json) -> Result<AnyQuery, Fault>
    ensures ok { IfOk result (λ query. definitions.query_in schema.now (view json.now) ≡ Some (query_of query)) }
    ensures err { IfErr result (λ fault. fault ≢ faults.OutOfMemory
        → (fault ≡ faults.BadQuery) × (definitions.query_in schema.now (view json.now) ≡ None)) }
{
    if is_too_deep(json) {
        return Err(Fault::BadQuery);
    }
    read_nested_query(alloc, schema, json)
}

/// Reads a query. Calls nest as deep as the object.
#[cycle(read_nested_query)]
fn read_nested_query(alloc: Global, schema: &Schema, json: &Json) -> Result<AnyQuery, Fault>
    ensures ok { IfOk result (λ query. definitions.nested_query schema.now (view json.now) ≡ Some (query_of query)) }
    ensures err { IfErr result (λ fault. fault ≢ faults.OutOfMemory
        → (fault ≡ faults.BadQuery) × (definitions.nested_query schema.now (view json.now) ≡ None)) }
{
    match form_at(json) {
        Some(form) => read_form(alloc, schema, form, json),
        None => Err(Fault::BadQuery),
    }
}

/// Reads a query of the form `form`.
#[cycle(read_nested_query)]
fn read_form(alloc: Global, schema: &Schema, form: Form, json: &Json) -> Result<AnyQuery, Fault>
    ensures { Gives query_of result (formed (form_of form) schema.now (view json.now)) }
{
    match form {
        Form::All => read_all_query(json),
        Form::Empty => read_empty_query(json),
        Form::Term => read_term_query(alloc, schema, json),
        Form::Phrase => read_phrase_query(alloc, schema, json),
        Form::PhrasePrefix => read_phrase_prefix_query(alloc, schema, json),
        Form::Boolean => read_boolean_query(alloc, schema, json),
        Form::DisjunctionMax => read_disjunction_max_query(alloc, schema, json),
        Form::Boost => read_boost_query(alloc, schema, json),
        Form::ConstScore => read_const_score_query(alloc, schema, json),
    }
}

/// Reads a query for all documents.
fn read_all_query(json: &Json) -> Result<AnyQuery, Fault>
    ensures { Gives query_of result (definitions.all_query (view json.now)) }
{
    if !has_only(json, &["q"]) {
        return Err(Fault::BadQuery);
    }
    Ok(AnyQuery::All(AllQuery))
}

/// Reads a query for no documents.
fn read_empty_query(json: &Json) -> Result<AnyQuery, Fault>
    ensures { Gives query_of result (definitions.none_query (view json.now)) }
{
    if !has_only(json, &["q"]) {
        return Err(Fault::BadQuery);
    }
    Ok(AnyQuery::Empty(EmptyQuery))
}

/// Reads a boolean query.
#[cycle(read_nested_query)]
fn read_boolean_query(alloc: Global, schema: &Schema, json: &Json) -> Result<AnyQuery, Fault>
    ensures { Gives query_of result (definitions.bool_query (definitions.many_at schema.now (view json.now))
        (view json.now)) }
{
    if !has_only(json, &["q", "must", "should", "must_not", "min"]) {
        return Err(Fault::BadQuery);
    }
    let clauses = read_clauses(alloc, schema, json)?;
    read_minimum(json, clauses)
}

/// Reads the clauses of a query: those of `must`, of `should`, and of `must_not`.
#[cycle(read_nested_query)]
fn read_clauses(
    alloc: Global,
    schema: &Schema,
    json: &Json,
) -> Result<Vec<(Occur, AnyQuery)>, Fault>
    ensures { Gives (λ clauses. clauses_of clauses.items) result
        (definitions.clauses_at (definitions.many_at schema.now (view json.now))) }
{
    let musts = read_queries_at(alloc, schema, json, "must")?;
    let shoulds = read_queries_at(alloc, schema, json, "should")?;
    let must_nots = read_queries_at(alloc, schema, json, "must_not")?;
    let mut clauses = Vec::new(alloc);
    push_clauses(alloc, &mut clauses, Occur::Must, musts)?;
    push_clauses(alloc, &mut clauses, Occur::Should, shoulds)?;
    push_clauses(alloc, &mut clauses, Occur::MustNot, must_nots)?;
    Ok(clauses)
}

/// Reads a query by the best score. By default the other scores don't count.
#[cycle(read_nested_query)]
fn read_disjunction_max_query(
    alloc: Global,
    schema: &Schema,
    json: &Json,
) -> Result<AnyQuery, Fault>
    ensures { Gives query_of result (definitions.dismax_query (definitions.many_at schema.now (view json.now))
        (view json.now)) }
{
    if !has_only(json, &["q", "queries", "tie"]) {
        return Err(Fault::BadQuery);
    }
    let Some(list) = child_at(json, "queries") else {
        return Err(Fault::BadQuery);
    };
    let disjuncts = read_queries(alloc, schema, list)?;
    let Some(tie) = tie_at(json) else {
        return Err(Fault::BadQuery);
    };
    Ok(AnyQuery::DisjunctionMax(DisjunctionMaxQuery::with_tie_breaker(disjuncts, tie)))
}

/// Reads the number at `tie`; by default 0.
fn tie_at(json: &Json) -> Option<i64>
    ensures { result ≡ option_map pos (keys.at_or 0 keys.number_in (codes "tie") (view json.now)) }
{
    match json.get("tie") {
        Some(tie) => read_signed(tie),
        None => Some(0),
    }
}

/// Reads a query with a boost.
#[cycle(read_nested_query)]
fn read_boost_query(alloc: Global, schema: &Schema, json: &Json) -> Result<AnyQuery, Fault>
    ensures { Gives query_of result (definitions.boost_query (definitions.one_at schema.now (view json.now))
        (view json.now)) }
{
    if !has_only(json, &["q", "boost", "query"]) {
        return Err(Fault::BadQuery);
    }
    let Some(boost) = signed_at(json, "boost") else {
        return Err(Fault::BadQuery);
    };
    let query = read_query_at(alloc, schema, json, "query")?;
    Ok(AnyQuery::Boost(BoostQuery::new(alloc, query, boost)?))
}

/// Reads a query with a constant score.
#[cycle(read_nested_query)]
fn read_const_score_query(alloc: Global, schema: &Schema, json: &Json) -> Result<AnyQuery, Fault>
    ensures { Gives query_of result (definitions.const_query (definitions.one_at schema.now (view json.now))
        (view json.now)) }
{
    if !has_only(json, &["q", "score", "query"]) {
        return Err(Fault::BadQuery);
    }
    let Some(score) = signed_at(json, "score") else {
        return Err(Fault::BadQuery);
    };
    let query = read_query_at(alloc, schema, json, "query")?;
    Ok(AnyQuery::ConstScore(ConstScoreQuery::new(alloc, query, score)?))
}

/// Reads the number at `key`.
fn signed_at(json: &Json, key: &str) -> Option<i64>
    ensures { result ≡ option_map pos (keys.number_at key.now (view json.now)) }
{
    read_signed(json.get(key)?)
}

/// Reads a whole number from 0 to 2^63 - 1.
#[tactic(auto, using(crate::proofs::Numbers::number_fits))]
fn read_signed(json: &Json) -> Option<i64>
    ensures { result ≡ option_map pos (keys.number_in (view json.now)) }
{
    let number = number_in(json)?;
    Some(number as i64)
}

/// Reads the query at `key`.
#[cycle(read_nested_query)]
fn read_query_at(alloc: Global, schema: &Schema, json: &Json, key: &str) -> Result<AnyQuery, Fault>
    ensures { Gives query_of result (definitions.one_at schema.now (view json.now) key.now) }
{
    match child_at(json, key) {
        Some(child) => read_nested_query(alloc, schema, child),
        None => Err(Fault::BadQuery),
    }
}

/// Reads the queries at `key`; no queries if it is absent.
#[cycle(read_nested_query)]
fn read_queries_at(
    alloc: Global,
    schema: &Schema,
    json: &Json,
    key: &str,
) -> Result<Vec<AnyQuery>, Fault>
    ensures { Gives (λ queries. queries_of queries.items) result
        (unwrap_or (definitions.many_at schema.now (view json.now) key.now) (Some no_queries)) }
{
    match child_at(json, key) {
        Some(list) => read_queries(alloc, schema, list),
        None => Ok(Vec::new(alloc)),
    }
}

/// Returns the value at `key`.
#[tactic(auto, using(crate::proofs::QuerySteps::child_less))]
fn child_at<'a>(json: &'a Json, key: &str) -> Option<&'a Json>
    ensures value { option_map (λ v. view v.now) result ≡ get key.now (view json.now) }
    ensures less { (d : Data) → option_map (λ v. view v.now) result ≡ Some d → depth d < depth (view json.now) }
{
    json.get(key)
}

/// Reads the queries in an array.
#[cycle(read_nested_query)]
fn read_queries(alloc: Global, schema: &Schema, json: &Json) -> Result<Vec<AnyQuery>, Fault>
    ensures { Gives (λ queries. queries_of queries.items) result (definitions.queries_in schema.now (view json.now)) }
{
    match json {
        Json::Array(items) => read_items(alloc, schema, items.as_slice()),
        _ => Err(Fault::BadQuery),
    }
}

/// Reads each of `items` as a query.
#[cycle(read_nested_query)]
#[tactic(auto, using(crate::proofs::QuerySteps::item_depth))]
fn read_items(alloc: Global, schema: &Schema, items: &[Json]) -> Result<Vec<AnyQuery>, Fault>
    ensures { Gives (λ queries. queries_of queries.items) result
        (definitions.items_in schema.now (items_view items.now)) }
{
    let mut queries = Vec::with_capacity(alloc, items.len())?;
    for item in items {
        queries.push(read_nested_query(alloc, schema, item)?)?;
    }
    Ok(queries)
}
