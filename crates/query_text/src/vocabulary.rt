//! What words and phrases mean in an index, by its schema and its analyzer.

ghost use Rattle.std.specs.List.{list_any};
ghost use Rattle.std.specs.Prelude.{◌≡◌, IfErr, IfOk, Result, map, option_map};
ghost use Rattle.definitions.specs.Indexable as indexable;
ghost use Rattle.definitions.specs.Query.{Query};
ghost use Rattle.query_text.specs.Answers as definitions;
ghost use Rattle.query_text.specs.Clauses.{phrase_of};
ghost use Rattle.query_text.specs.Findings.{found_of};
ghost use Rattle.query_text.specs.JsonPaths.{json_path_of};
ghost use Rattle.query_text.specs.Refusals.{Gives};
ghost use Rattle.query_text.specs.declared.refusal.Reason.{Reason};
ghost use Rattle.query_text.specs.declared.refusal.Reason.TheVariants as reasons;
ghost use Rattle.query_trees.specs.Queries.{query_of};
ghost use Rattle.terms.specs.Kinds.{kind_of};

use crate::field_scores::FieldScores;
use crate::json_terms::{JsonPath, json_text_query, json_value_term};
use crate::phrase::{Phrase, Vocabulary};
use crate::refusal::Reason;
use crate::text_terms::text_query;
use crate::values::value_term;
use common::Analyzer;
use options::IndexRecordOption;
use query_trees::{AnyQuery, DisjunctionMaxQuery, TermQuery};
use schema::{FieldEntry, Schema};
use std::alloc::Global;
use terms::{Field, Type};

/// What words and phrases mean in an index: its fields, and how their texts are cut.
#[derive(Drop)]
pub struct SchemaVocabulary<'a, A: Analyzer> {
    pub schema: &'a Schema,
    pub analyzer: &'a A,
    /// How the scores of a word's fields count together where it names none.
    pub field_scores: FieldScores,
}

impl<'a, A: Analyzer> Vocabulary for SchemaVocabulary<'a, A> {
    ghost use Rattle.query_text.specs.Answers.{vocabulary};

    ghost queries = { λ v. vocabulary v.schema.now (A.analyze v.analyzer.now) v.field_scores };

    fn query(&self, alloc: Global, phrase: Phrase<'_>) -> Result<AnyQuery, Reason> {
        phrase_query(alloc, self.schema, self.analyzer, self.field_scores, phrase)
    }
}

/// The queries that were found so far, and why one of them is none.
#[derive(Drop)]
struct Found {
    queries: Vec<AnyQuery>,
    reason: Reason,
}

/// Makes the query of `phrase`.
fn phrase_query<A: Analyzer>(
    alloc: Global,
    schema: &Schema,
    analyzer: &A,
    field_scores: FieldScores,
    phrase: Phrase<'_>,
) -> Result<AnyQuery, Reason>
    ensures { Gives query_of result
        (definitions.vocabulary schema.now (A.analyze analyzer.now) field_scores (phrase_of phrase.entry)) }
{
    let text = text_in(phrase.text)?;
    match phrase.field {
        Some(name) => {
            let name = text_in(name)?;
            named_query(alloc, schema, analyzer, name, text, phrase)
        }
        None => any_query(alloc, schema, analyzer, field_scores, text, phrase),
    }
}

/// Returns `bytes` as a text, if they are UTF-8.
fn text_in(bytes: &[u8]) -> Result<&str, Reason>
    ensures read { Gives (λ text. text.now) result (definitions.text_in bytes.now) }
    ensures same { IfOk result (λ text. text.now ≡ bytes.now) }
{
    match str::from_utf8(bytes) {
        Ok(text) => Ok(text),
        Err(_) => Err(Reason::NotUtf8),
    }
}

/// Makes the query of `phrase`, whose text is `text`, in the field with the name `name`.
fn named_query<A: Analyzer>(
    alloc: Global,
    schema: &Schema,
    analyzer: &A,
    name: &str,
    text: &str,
    phrase: Phrase<'_>,
) -> Result<AnyQuery, Reason>
    requires { text.now ≡ phrase.text.now }
    ensures { Gives query_of result
        (definitions.named_query schema.now (A.analyze analyzer.now) name.now (phrase_of phrase.entry)) }
{
    let Ok(field) = schema.get_field(name) else {
        return path_query(alloc, schema, analyzer, name, text, phrase);
    };
    let entry = schema.get_field_entry(field);
    if entry.field_type().is_str() {
        return text_query(alloc, analyzer, field, entry, text, phrase);
    }
    value_query(alloc, field, entry.value_type(), text, phrase.is_prefix)
}

/// Makes the query of `phrase`, whose text is `text`, in the field and at the path of `name`, which a dot parts.
fn path_query<A: Analyzer>(
    alloc: Global,
    schema: &Schema,
    analyzer: &A,
    name: &str,
    text: &str,
    phrase: Phrase<'_>,
) -> Result<AnyQuery, Reason>
    requires { text.now ≡ phrase.text.now }
    ensures { Gives query_of result
        (definitions.path_query schema.now (A.analyze analyzer.now) name.now (phrase_of phrase.entry)) }
{
    let Some((name, path)) = name_parts(name) else {
        return Err(Reason::UnknownField);
    };
    let Ok(field) = schema.get_field(name) else {
        return Err(Reason::UnknownField);
    };
    at_path(
        alloc,
        analyzer,
        field,
        schema.get_field_entry(field),
        path,
        text,
        phrase,
    )
}

/// Splits `name` at its first dot.
fn name_parts(name: &str) -> Option<(&str, &str)>
    ensures { option_map (λ p. (p.0.now, p.1.now)) result ≡ definitions.name_parts name.now }
{
    name.split_once('.')
}

/// Makes the query of `phrase`, whose text is `text`, at a path in `field`, which has to be one of JSON objects.
fn at_path<A: Analyzer>(
    alloc: Global,
    analyzer: &A,
    field: Field,
    entry: &FieldEntry,
    path: &str,
    text: &str,
    phrase: Phrase<'_>,
) -> Result<AnyQuery, Reason>
    requires { text.now ≡ phrase.text.now }
    ensures { Gives query_of result
        (definitions.at_path (A.analyze analyzer.now) field entry.now path.now (phrase_of phrase.entry)) }
{
    if !is_json(entry.value_type()) {
        return Err(Reason::UnknownField);
    }
    let json_path = JsonPath {
        field,
        path,
        expand_dots: entry.is_expand_dots_enabled(),
    };
    json_query(alloc, analyzer, entry, &json_path, text, phrase)
}

/// Whether `kind` is the type of JSON objects.
fn is_json(kind: Type) -> bool
    ensures { result ≡ indexable.is_json (kind_of kind) }
{
    matches!(kind, Type::Json)
}

/// Makes the query for documents with the value or the words that `text`, the text of `phrase`, is at `json_path`.
fn json_query<A: Analyzer>(
    alloc: Global,
    analyzer: &A,
    entry: &FieldEntry,
    json_path: &JsonPath<'_>,
    text: &str,
    phrase: Phrase<'_>,
) -> Result<AnyQuery, Reason>
    requires { text.now ≡ phrase.text.now }
    ensures { Gives query_of result (definitions.json_query (A.analyze analyzer.now) entry.now
        (json_path_of json_path.now) (phrase_of phrase.entry)) }
{
    let nothing = nothing_found(alloc, Reason::NoWord);
    let value = json_value_query(alloc, json_path, text, phrase.is_prefix);
    let found = found_more(nothing, value)?;
    let words = json_text_query(alloc, analyzer, entry, json_path, text, phrase);
    let all = found_more(found, words)?;
    one_of(all, 0)
}

/// Makes what was found before the first answer.
fn nothing_found(alloc: Global, reason: Reason) -> Found
    ensures { found_of result ≡ definitions.nothing_found reason }
{
    Found {
        queries: Vec::new(alloc),
        reason,
    }
}

/// Makes the query for documents with the value that `text` is at `json_path`.
fn json_value_query(
    alloc: Global,
    json_path: &JsonPath<'_>,
    text: &str,
    is_prefix: bool,
) -> Result<AnyQuery, Reason>
    ensures { Gives query_of result (definitions.json_value_query (json_path_of json_path.now) text.now is_prefix) }
{
    if is_prefix {
        return Err(Reason::BadValue);
    }
    match json_value_term(alloc, json_path, text)? {
        Some(term) => Ok(AnyQuery::Term(TermQuery::new(term, IndexRecordOption::WithFreqs))),
        None => Err(Reason::BadValue),
    }
}

/// Makes the query for documents with the value `text` in a field of the type `kind`.
fn value_query(
    alloc: Global,
    field: Field,
    kind: Type,
    text: &str,
    is_prefix: bool,
) -> Result<AnyQuery, Reason>
    ensures { Gives query_of result (definitions.value_query field (kind_of kind) text.now is_prefix) }
{
    if is_prefix {
        return Err(no_value(kind));
    }
    match value_term(alloc, field, kind, text)? {
        Some(term) => Ok(AnyQuery::Term(TermQuery::new(term, IndexRecordOption::WithFreqs))),
        None => Err(no_value(kind)),
    }
}

/// Returns why a text is no value in a field of the type `kind`.
fn no_value(kind: Type) -> Reason
    ensures { result ≡ definitions.no_value (kind_of kind) }
{
    match kind {
        Type::Json => Reason::NoPath,
        Type::Str
        | Type::U64
        | Type::I64
        | Type::Bool
        | Type::Date
        | Type::Facet
        | Type::Bytes
        | Type::IpAddr => Reason::BadValue,
    }
}

/// Makes the query of `phrase`, whose text is `text`, in every text field.
fn any_query<A: Analyzer>(
    alloc: Global,
    schema: &Schema,
    analyzer: &A,
    field_scores: FieldScores,
    text: &str,
    phrase: Phrase<'_>,
) -> Result<AnyQuery, Reason>
    requires { text.now ≡ phrase.text.now }
    ensures { Gives query_of result
        (definitions.any_query schema.now (A.analyze analyzer.now) field_scores (phrase_of phrase.entry)) }
{
    let mut found = nothing_found(alloc, Reason::NoTextField);
    for (field, entry) in schema.fields() {
        if entry.field_type().is_str() && entry.is_indexed() {
            let answer = text_query(alloc, analyzer, field, entry, text, phrase);
            found = found_more(found, answer)?;
        }
    }
    any_found(field_scores, phrase, found)
}

/// Makes one query of what was found in text fields.
fn any_found(
    field_scores: FieldScores,
    phrase: Phrase<'_>,
    found: Found,
) -> Result<AnyQuery, Reason>
    ensures { Gives query_of result
        (definitions.any_found field_scores (phrase_of phrase.entry) (found_of found)) }
{
    if lacks_positions(phrase.is_excluded, &found) {
        return Err(Reason::NoPositions);
    }
    one_of(found, field_scores.tie_breaker())
}

/// Whether a field records no positions for words that no other field finds beside each other, or that are left out.
fn lacks_positions(is_excluded: bool, found: &Found) -> bool
    ensures { result ≡ definitions.lacks_positions is_excluded (found_of found.now) }
{
    is_no_positions(found.reason) && (is_excluded || !has_phrase(&found.queries))
}

/// Whether `reason` is that a field records no positions.
fn is_no_positions(reason: Reason) -> bool
    ensures { result ≡ definitions.is_no_positions reason }
{
    matches!(reason, Reason::NoPositions)
}

/// Whether one of `queries` is for words beside each other.
fn has_phrase(queries: &[AnyQuery]) -> bool
    ensures { result ≡ list_any definitions.is_phrase (map query_of queries.now) }
{
    for query in queries {
        if is_phrase(query) {
            return true;
        }
    }
    false
}

/// Whether `query` is for words beside each other.
fn is_phrase(query: &AnyQuery) -> bool
    ensures { result ≡ definitions.is_phrase (query_of query.now) }
{
    matches!(query, AnyQuery::Phrase(_) | AnyQuery::PhrasePrefix(_))
}

/// Appends one more answer.
fn found_more(found: Found, answer: Result<AnyQuery, Reason>) -> Result<Found, Reason>
    ensures ok { (read : Result Query Reason) → Gives query_of answer read
        → IfOk result (λ longer. found_of longer ≡ definitions.found_more (found_of found) read) }
    ensures err { IfErr result (λ reason. reason ≡ reasons.OutOfMemory) }
{
    let Found {
        mut queries,
        reason,
    } = found;
    match answer {
        Ok(query) => {
            queries.push(query)?;
            Ok(Found { queries, reason })
        }
        Err(Reason::OutOfMemory) => Err(Reason::OutOfMemory),
        Err(later) => Ok(Found {
            queries,
            reason: told(reason, later),
        }),
    }
}

/// Returns the reason that is told: that a field records no positions before any other, and else the later one.
fn told(earlier: Reason, later: Reason) -> Reason
    ensures { result ≡ definitions.told earlier later }
{
    match earlier {
        Reason::NoPositions => Reason::NoPositions,
        _ => later,
    }
}

/// Makes one query of what was found, for which `tie_breaker` thousandths of the scores beside the best count.
#[tactic(auto, using(crate::proofs::SeveralQueries::single, crate::proofs::SeveralQueries::nothing))]
fn one_of(found: Found, tie_breaker: i64) -> Result<AnyQuery, Reason>
    ensures { Gives query_of result (definitions.one_of tie_breaker (found_of found)) }
{
    let Found {
        mut queries,
        reason,
    } = found;
    if queries.len() > 1 {
        let query = DisjunctionMaxQuery::with_tie_breaker(queries, tie_breaker);
        return Ok(AnyQuery::DisjunctionMax(query));
    }
    if queries.is_empty() {
        return Err(reason);
    }
    Ok(queries.remove(0))
}
