//! The forms of queries and their names.

ghost use Rattle.std.specs.Prelude.{◌≡◌, option_map};
ghost use Rattle.definitions.specs.Json.{named};
ghost use Rattle.definitions.specs.QueryGrammar as definitions;
ghost use Rattle.query_checks.specs.QueryNames.{form_of};
ghost use Rattle.query_checks.specs.ReadQueries.{form_at};
ghost use Rattle.serde_json.specs.View.{view};

use schema::text_at;
use serde_json::Value as Json;

/// A form of queries.
#[derive(Clone, Copy)]
pub(crate) enum Form {
    All,
    Empty,
    Term,
    Phrase,
    PhrasePrefix,
    Boolean,
    DisjunctionMax,
    Boost,
    ConstScore,
}

/// Reads the form that `q` names.
pub(crate) fn form_at(json: &Json) -> Option<Form>
    ensures { option_map form_of result ≡ form_at (view json.now) }
{
    match text_at(json, "q") {
        Some(name) => form_named(name),
        None => None,
    }
}

/// Returns the form with the name `name`.
fn form_named(name: &str) -> Option<Form>
    ensures { option_map form_of result ≡ named definitions.forms name.now }
{
    match name {
        "all" => Some(Form::All),
        "none" => Some(Form::Empty),
        "term" => Some(Form::Term),
        "phrase" => Some(Form::Phrase),
        "phrase_prefix" => Some(Form::PhrasePrefix),
        "bool" => Some(Form::Boolean),
        "dismax" => Some(Form::DisjunctionMax),
        "boost" => Some(Form::Boost),
        "const" => Some(Form::ConstScore),
        _ => None,
    }
}
