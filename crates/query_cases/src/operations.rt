//! Operations by their names.

use case_lines::{
    Arguments, Cell, Operations, Refusal, cells, flag, hex, items_in, number, pair, query_by_steps,
    settings_in, text,
};
use query::{AnyQuery, Query, QueryClone, check_query, read_query};
use schema::Schema;
use serde_json::{Map, Value};
use settings::Settings;
use std::alloc::Global;
use terms::Term;

/// Operations on queries.
#[derive(Drop)]
pub(crate) struct QueryOperations {
    alloc: Global,
    /// The schema that was read last.
    schema: Schema,
    /// The settings that were made last.
    settings: Settings,
}

impl QueryOperations {
    /// The operations, about a schema with no field and the settings where none are given.
    pub(crate) fn new(alloc: Global) -> Result<QueryOperations, Refusal> {
        Ok(QueryOperations {
            alloc,
            schema: Schema::builder(alloc).build(),
            settings: Settings::default(alloc)?,
        })
    }
}

impl Operations for QueryOperations {
    fn answer(&mut self, operation: &str, arguments: &Arguments) -> Result<Value, Refusal> {
        let alloc = self.alloc;
        match operation {
            "schema" => {
                self.schema = Schema::from_json_value(alloc, arguments.value(0)?)?;
                Ok(number(self.schema.num_fields() as u64))
            }
            "weights" => {
                self.settings = settings_in(alloc, arguments)?;
                Ok(flag(true))
            }
            "refusal" => {
                let query = query_by_steps(alloc, items_in(arguments.value(0)?)?)?;
                check_query(&self.schema, &self.settings, &query)?;
                Ok(flag(true))
            }
            "read" => {
                let query = read_query(alloc, &self.schema, arguments.value(0)?)?;
                Ok(text(alloc, &format!(in alloc; "{query:?}")?)?)
            }
            "read-deep" => {
                let json = boosts(alloc, arguments.number(0)?)?;
                check_query(
                    &self.schema,
                    &self.settings,
                    &read_query(alloc, &self.schema, &json)?,
                )?;
                Ok(flag(true))
            }
            "record" => {
                let query = read_query(alloc, &self.schema, arguments.value(0)?)?;
                record(alloc, &query)
            }
            _ => told(
                alloc,
                operation,
                &query_by_steps(alloc, items_in(arguments.value(0)?)?)?,
            ),
        }
    }
}

/// The JSON of a query of `levels` nodes, boosts around all documents.
fn boosts(alloc: Global, levels: u64) -> Result<Value, Refusal> {
    let mut json = form(alloc, "all")?;
    for _ in 1..levels {
        let mut boost = form(alloc, "boost")?;
        drop(boost.insert(String::from_str(alloc, "boost")?, Value::from(1u64))?);
        drop(boost.insert(String::from_str(alloc, "query")?, Value::Object(json))?);
        json = boost;
    }
    Ok(Value::Object(json))
}

/// An object with the name of a form.
fn form(alloc: Global, name: &str) -> Result<Map<String, Value>, Refusal> {
    let mut members = Map::new(alloc);
    drop(members.insert(String::from_str(alloc, "q")?, text(alloc, name)?)?);
    Ok(members)
}

/// What a term query reads of its term.
fn record(alloc: Global, query: &AnyQuery) -> Result<Value, Refusal> {
    let AnyQuery::Term(query) = query else {
        return Err(Refusal::NotAsked);
    };
    let option = query.index_record_option();
    Ok(text(alloc, &format!(in alloc; "{option:?}")?)?)
}

/// What a query tells: `terms` the terms that it reads, `copied` those of a copy, `clauses` the minimum of a bool,
/// the one that is set in its place, and how many clauses it has, `phrase` the field and the terms of a phrase,
/// `shown` how it is shown.
fn told(alloc: Global, operation: &str, query: &AnyQuery) -> Result<Value, Refusal> {
    match (operation, query) {
        ("terms", query) => read_terms(alloc, &query.query_terms(alloc)?),
        ("shown", query) => Ok(text(alloc, &format!(in alloc; "{query:?}")?)?),
        ("copied", query) => {
            let copy = query.try_clone(alloc)?;
            read_terms(alloc, &copy.query_terms(alloc)?)
        }
        ("clauses", AnyQuery::Boolean(query)) => {
            let mut changed = query.try_clone(alloc)?;
            changed.set_minimum_number_should_match(7);
            Ok(cells(
                alloc,
                &[
                    Cell::Number(query.get_minimum_number_should_match() as u64),
                    Cell::Number(changed.get_minimum_number_should_match() as u64),
                    Cell::Number(query.clauses().len() as u64),
                ],
            )?)
        }
        ("phrase", AnyQuery::Phrase(query)) => phrase(
            alloc,
            query.field().field_id(),
            &query.phrase_terms(alloc)?,
        ),
        ("phrase", AnyQuery::PhrasePrefix(query)) => phrase(
            alloc,
            query.field().field_id(),
            &query.phrase_terms(alloc)?,
        ),
        _ => Err(Refusal::NotAsked),
    }
}

/// Each term, and whether its positions are needed.
fn read_terms(alloc: Global, terms: &[(&Term, bool)]) -> Result<Value, Refusal> {
    let mut list = Vec::new(alloc);
    for (term, positions) in terms {
        let bytes = hex(alloc, term.serialized_term())?;
        list.push(pair(alloc, bytes, flag(*positions))?)?;
    }
    Ok(Value::Array(list))
}

/// A field, and each term.
fn phrase(alloc: Global, field: u32, terms: &[Term]) -> Result<Value, Refusal> {
    let mut list = Vec::new(alloc);
    for term in terms {
        list.push(hex(alloc, term.serialized_term())?)?;
    }
    Ok(pair(alloc, number(u64::from(field)), Value::Array(list))?)
}
