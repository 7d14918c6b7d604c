//! Term queries read from JSON.

ghost use Rattle.std.specs.Prelude.{◌≡◌, codes, option_map};
ghost use Rattle.definitions.specs.Json as keys;
ghost use Rattle.definitions.specs.QueryGrammar as definitions;
ghost use Rattle.definitions.specs.Schema.{with_freqs};
ghost use Rattle.options.specs.RecordOption.{record_option_of};
ghost use Rattle.query_checks.specs.ReadQueries.{Gives};
ghost use Rattle.query_trees.specs.Queries.{query_of};
ghost use Rattle.serde_json.specs.View.{view};

use definitions::Fault;
use options::IndexRecordOption;
use query_trees::{AnyQuery, TermQuery};
use schema::Schema;
use serde_json::Value as Json;
use settings::term_beside;
use std::alloc::Global;

/// Reads a term query. By default frequencies are read.
pub(crate) fn read_term_query(
    alloc: Global,
    schema: &Schema,
    json: &Json,
) -> Result<AnyQuery, Fault>
    ensures { Gives query_of result (definitions.term_query schema.now (view json.now)) }
{
    let Some(term) = term_beside(alloc, schema, json, &["q", "record"])? else {
        return Err(Fault::BadQuery);
    };
    let Some(option) = record_option_at(json) else {
        return Err(Fault::BadQuery);
    };
    Ok(AnyQuery::Term(TermQuery::new(term, option)))
}

/// Reads what a term query reads of its term.
fn record_option_at(json: &Json) -> Option<IndexRecordOption>
    ensures { option_map record_option_of result
        ≡ keys.at_or with_freqs definitions.record_option_in (codes "record") (view json.now) }
{
    match json.get("record") {
        Some(name) => record_option_named(name.as_str()?),
        None => Some(IndexRecordOption::WithFreqs),
    }
}

/// Returns the record option with the name `name`.
fn record_option_named(name: &str) -> Option<IndexRecordOption>
    ensures { option_map record_option_of result ≡ keys.named definitions.record_options name.now }
{
    match name {
        "basic" => Some(IndexRecordOption::Basic),
        "freq" => Some(IndexRecordOption::WithFreqs),
        "position" => Some(IndexRecordOption::WithFreqsAndPositions),
        _ => None,
    }
}
