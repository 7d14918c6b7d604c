//! Terms of what stands in JSON objects.

ghost use Rattle.std.specs.Prelude.{[], ◌++◌, ◌≡◌, IfOk, Some, map, option_map};
ghost use Rattle.std.specs.Result.{result_ok};
ghost use Rattle.common.specs.Token.{token_of};
ghost use Rattle.definitions.specs.Reading.{date_value};
ghost use Rattle.definitions.specs.Schema.{text_kind};
ghost use Rattle.definitions.specs.Terms.{leaf_bytes, type_code, value_bytes};
ghost use Rattle.definitions.specs.Values.{u64};
ghost use Rattle.query_text.specs.Answers as definitions;
ghost use Rattle.query_text.specs.Clauses.{phrase_of};
ghost use Rattle.query_text.specs.JsonPaths.{json_path_of};
ghost use Rattle.query_text.specs.Refusals.{Gives};
ghost use Rattle.query_trees.specs.Queries.{query_of};

use crate::phrase::Phrase;
use crate::refusal::Reason;
use crate::text_terms::words_query;
use common::{Analyzer, Token};
use query_trees::AnyQuery;
use schema::FieldEntry;
use std::alloc::{AllocError, Global};
use terms::{FastValue, Field, Term};
use values_json::{read_bool_text, read_date, read_i64_text, read_u64_text};

/// Where values stand in the JSON objects of a field: at the keys of a path, which dots part.
#[derive(Drop)]
pub(crate) struct JsonPath<'a> {
    pub(crate) field: Field,
    pub(crate) path: &'a str,
    pub(crate) expand_dots: bool,
}

/// Makes the query for the words of `text`, the text of `phrase`, at `json_path`.
pub(crate) fn json_text_query<A: Analyzer>(
    alloc: Global,
    analyzer: &A,
    entry: &FieldEntry,
    json_path: &JsonPath<'_>,
    text: &str,
    phrase: Phrase<'_>,
) -> Result<AnyQuery, Reason>
    requires { text.now ≡ phrase.text.now }
    ensures { Gives query_of result (definitions.json_text_query (A.analyze analyzer.now) entry.now
        (json_path_of json_path.now) (phrase_of phrase.entry)) }
{
    let tokens = analyzer.tokens(alloc, entry.tokenizer(), text)?;
    let terms = terms_at(alloc, json_path, &tokens)?;
    words_query(entry.records_positions(), phrase, terms)
}

/// Makes the term of each of `tokens`, at its position.
fn terms_at(
    alloc: Global,
    json_path: &JsonPath<'_>,
    tokens: &[Token],
) -> Result<Vec<(usize, Term)>, AllocError>
    ensures { IfOk result (λ terms. terms.items
        ≡ definitions.json_terms_at (json_path_of json_path.now) (map token_of tokens.now)) }
{
    let mut terms = Vec::with_capacity(alloc, tokens.len())?;
    for token in tokens {
        let term = text_term(alloc, json_path, token.text.as_str())?;
        terms.push((token.position, term))?;
    }
    Ok(terms)
}

/// Makes the term of a token.
#[tactic(auto, using(crate::proofs::JsonTerms::appended))]
fn text_term(alloc: Global, json_path: &JsonPath<'_>, token: &str) -> Result<Term, AllocError>
    ensures { IfOk result (λ term. term
        ≡ definitions.leaf_term (json_path_of json_path.now) (type_code text_kind ++ token.now)) }
{
    let mut term = term_start(alloc, json_path)?;
    term.append_type_and_str(token)?;
    Ok(term)
}

/// Makes the term of the value that `text` is at `json_path`: a whole number, a bool or a date; `None` if it is none.
pub(crate) fn json_value_term(
    alloc: Global,
    json_path: &JsonPath<'_>,
    text: &str,
) -> Result<Option<Term>, AllocError>
    ensures { IfOk result (λ found. found
        ≡ definitions.json_value_term (json_path_of json_path.now) (definitions.leaf_in text.now)) }
{
    match read_u64_text(text) {
        Ok(value) => Ok(Some(fast_term(alloc, json_path, value)?)),
        Err(_) => signed_term(alloc, json_path, text),
    }
}

/// Makes the term of a whole number, else of a bool or a date.
fn signed_term(
    alloc: Global,
    json_path: &JsonPath<'_>,
    text: &str,
) -> Result<Option<Term>, AllocError>
    ensures { IfOk result (λ found. found
        ≡ definitions.json_value_term (json_path_of json_path.now) (definitions.signed_in text.now)) }
{
    match read_i64_text(text) {
        Ok(value) => Ok(Some(fast_term(alloc, json_path, value)?)),
        Err(_) => bool_term(alloc, json_path, text),
    }
}

/// Makes the term of a bool, else of a date.
fn bool_term(
    alloc: Global,
    json_path: &JsonPath<'_>,
    text: &str,
) -> Result<Option<Term>, AllocError>
    ensures { IfOk result (λ found. found
        ≡ definitions.json_value_term (json_path_of json_path.now) (definitions.bool_in text.now)) }
{
    match read_bool_text(text) {
        Ok(value) => Ok(Some(fast_term(alloc, json_path, value)?)),
        Err(_) => date_term(alloc, json_path, text),
    }
}

/// Makes the term of a date, cut to its second.
fn date_term(
    alloc: Global,
    json_path: &JsonPath<'_>,
    text: &str,
) -> Result<Option<Term>, AllocError>
    ensures { IfOk result (λ found. found
        ≡ definitions.json_value_term (json_path_of json_path.now) (result_ok (date_value text.now))) }
{
    match read_date(text) {
        Ok(date) => Ok(Some(fast_term(alloc, json_path, date)?)),
        Err(_) => Ok(None),
    }
}

/// Makes the term of a value of eight bytes.
fn fast_term<T: FastValue>(
    alloc: Global,
    json_path: &JsonPath<'_>,
    value: T,
) -> Result<Term, AllocError>
    ensures { IfOk result (λ term.
        option_map (definitions.leaf_term (json_path_of json_path.now)) (leaf_bytes (T.value value)) ≡ Some term) }
{
    let mut term = term_start(alloc, json_path)?;
    term.append_type_and_fast_value(value)?;
    Ok(term)
}

/// Makes the start of the terms at `json_path`.
fn term_start(alloc: Global, json_path: &JsonPath<'_>) -> Result<Term, AllocError>
    ensures { IfOk result (λ term. term ≡ definitions.leaf_term (json_path_of json_path.now) []) }
{
    Term::from_field_json_path(
        alloc,
        json_path.field,
        json_path.path,
        json_path.expand_dots,
    )
}
