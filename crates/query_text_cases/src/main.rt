//! `query_text_cases`: reads each line of standard input as a query, and answers it by the query, or by why it is none.
//! A line that is a schema as JSON is answered by how many fields it has, and the lines behind it are read by it; where
//! it stands in an object as `best`, by the best field alone.
#![tactic(auto)]

use common::RawAndDefault;
use query_text::{FieldScores, Refusal, SchemaVocabulary, read_text};
use query_trees::AnyQuery;
use schema::Schema;
use serde_json::Value;
use std::alloc::{AllocError, Global};
use std::io;
use std::process::ExitCode;

fn main(rt: HostRuntime) -> ExitCode {
    let alloc = rt.alloc();
    let Ok(lines) = io::read_to_string(alloc, rt.reader()) else {
        return ExitCode::FAILURE;
    };
    let Ok(answers) = answers(alloc, &lines) else {
        return ExitCode::FAILURE;
    };
    match print!(rt; "{answers}") {
        Ok(()) => ExitCode::SUCCESS,
        Err(_) => ExitCode::FAILURE,
    }
}

/// What lines are read by.
#[derive(Drop)]
struct Fields {
    schema: Schema,
    field_scores: FieldScores,
}

/// Answers each of `lines`.
fn answers(alloc: Global, lines: &str) -> Result<String, AllocError> {
    let mut fields = Fields {
        schema: Schema::builder(alloc).build(),
        field_scores: FieldScores::Sum,
    };
    let mut answers = String::new(alloc);
    for line in lines.lines() {
        let answer = match fields_in(alloc, line) {
            Some(next) => {
                fields = next;
                format!(in alloc; "{} fields", fields.schema.num_fields())?
            }
            None => answer_to(alloc, &fields, line)?,
        };
        answers.push_str(&answer)?;
        answers.push('\n')?;
    }
    Ok(answers)
}

/// Reads a line as a schema, if it is one.
fn fields_in(alloc: Global, line: &str) -> Option<Fields> {
    let value = Value::from_str(alloc, line).ok()?;
    match value.get("best") {
        Some(schema) => fields_of(alloc, schema, FieldScores::Best),
        None => fields_of(alloc, &value, FieldScores::Sum),
    }
}

/// Reads a JSON value as a schema, if it is one.
fn fields_of(alloc: Global, schema: &Value, field_scores: FieldScores) -> Option<Fields> {
    let schema = Schema::from_json_value(alloc, schema).ok()?;
    Some(Fields {
        schema,
        field_scores,
    })
}

/// Answers a line by the query that it is in an index of `fields`.
fn answer_to(alloc: Global, fields: &Fields, line: &str) -> Result<String, AllocError> {
    let words = SchemaVocabulary {
        schema: &fields.schema,
        analyzer: &RawAndDefault,
        field_scores: fields.field_scores,
    };
    match read_text(alloc, &words, line.as_bytes()) {
        Ok(query) => query_text(alloc, &query),
        Err(refusal) => refusal_text(alloc, refusal),
    }
}

/// Shows a query.
fn query_text(alloc: Global, query: &AnyQuery) -> Result<String, AllocError> {
    format!(in alloc; "{query:?}")
}

/// Shows why a line isn't read, and at which byte.
fn refusal_text(alloc: Global, refusal: Refusal) -> Result<String, AllocError> {
    format!(in alloc; "{:?} at {}", refusal.reason, refusal.place)
}
