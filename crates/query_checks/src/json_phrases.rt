//! Phrases read from JSON.

ghost use Rattle.std.specs.Prelude.{◌≡◌, IfOk, IfSome, codes, option_map, true, zip};
ghost use Rattle.std.specs.List.{range_with_len};
ghost use Rattle.definitions.specs.Json as keys;
ghost use Rattle.definitions.specs.Phrases.{by_offset};
ghost use Rattle.definitions.specs.QueryGrammar as definitions;
ghost use Rattle.query_checks.specs.ReadPhrases.{given_terms, offsets_at, with_offsets};
ghost use Rattle.definitions.specs.TermGrammar.{term_in};
ghost use Rattle.query_checks.specs.ReadQueries.{Gives};
ghost use Rattle.query_trees.specs.PhraseTerms.{are_phrase_terms};
ghost use Rattle.query_trees.specs.Queries.{query_of};
ghost use Rattle.serde_json.specs.View.{items_view, view};

use definitions::Fault;
use query_trees::{AnyQuery, PhrasePrefixQuery, PhraseQuery, are_phrase_terms};
use schema::{Schema, has_only};
use serde_json::Value as Json;
use settings::term_beside;
use std::alloc::{AllocError, Global};
use terms::Term;

/// Reads a phrase query. By default its terms have consecutive offsets.
pub(crate) fn read_phrase_query(
    alloc: Global,
    schema: &Schema,
    json: &Json,
) -> Result<AnyQuery, Fault>
    ensures { Gives query_of result (definitions.phrase_query schema.now (view json.now)) }
{
    if !has_only(json, &["q", "terms", "offsets", "slop"]) {
        return Err(Fault::BadQuery);
    }
    let Some(terms) = terms_at(alloc, schema, json)? else {
        return Err(Fault::BadQuery);
    };
    let Some(slop) = slop_at(json) else {
        return Err(Fault::BadQuery);
    };
    Ok(AnyQuery::Phrase(PhraseQuery::new_with_offset_and_slop(terms, slop)?))
}

/// Reads a phrase prefix query: the last term is a prefix, which matches each term that begins with it.
#[tactic(auto, using(crate::proofs::PhraseSteps::one_enough))]
pub(crate) fn read_phrase_prefix_query(
    alloc: Global,
    schema: &Schema,
    json: &Json,
) -> Result<AnyQuery, Fault>
    ensures { Gives query_of result (definitions.prefix_query schema.now (view json.now)) }
{
    if !has_only(json, &["q", "terms", "offsets"]) {
        return Err(Fault::BadQuery);
    }
    let Some(terms) = terms_at(alloc, schema, json)? else {
        return Err(Fault::BadQuery);
    };
    let mut query = PhrasePrefixQuery::new_with_offset(terms)?;
    query.set_max_expansions(u32::MAX);
    Ok(AnyQuery::PhrasePrefix(query))
}

/// Reads the terms of a phrase with their offsets, in the order given: two or more, all of one field.
#[tactic(auto, using(crate::proofs::PhraseSteps::by_steps))]
fn terms_at(
    alloc: Global,
    schema: &Schema,
    json: &Json,
) -> Result<Option<Vec<(usize, Term)>>, AllocError>
    ensures terms { IfOk result (λ found. option_map (λ terms. by_offset terms.items) found
        ≡ definitions.terms_at schema.now (view json.now)) }
    ensures phrase { IfOk result (λ found. IfSome found (λ terms. are_phrase_terms 2 terms.items ≡ true)) }
{
    let Some(terms) = given_terms(alloc, schema, json)? else {
        return Ok(None);
    };
    let Some(pairs) = with_offsets(alloc, json, terms)? else {
        return Ok(None);
    };
    if are_phrase_terms(2, &pairs) {
        Ok(Some(pairs))
    } else {
        Ok(None)
    }
}

/// Reads the terms at `terms`, in order.
fn given_terms(alloc: Global, schema: &Schema, json: &Json) -> Result<Option<Vec<Term>>, AllocError>
    ensures { IfOk result (λ found. option_map (λ terms. terms.items) found ≡ given_terms schema.now (view json.now)) }
{
    match json.get("terms") {
        Some(Json::Array(items)) => read_each_term(alloc, schema, items.as_slice()),
        _ => Ok(None),
    }
}

/// Reads each of `items` as a term.
fn read_each_term(
    alloc: Global,
    schema: &Schema,
    items: &[Json],
) -> Result<Option<Vec<Term>>, AllocError>
    ensures { IfOk result (λ found. option_map (λ terms. terms.items) found
        ≡ keys.each (term_in schema.now) (items_view items.now)) }
{
    let mut terms = Vec::with_capacity(alloc, items.len())?;
    for item in items {
        let Some(term) = term_beside(alloc, schema, item, &[])? else {
            return Ok(None);
        };
        terms.push(term)?;
    }
    Ok(Some(terms))
}

/// Pairs the terms with their offsets; `None` unless there is one offset for each term.
fn with_offsets(
    alloc: Global,
    json: &Json,
    terms: Vec<Term>,
) -> Result<Option<Vec<(usize, Term)>>, AllocError>
    ensures { IfOk result (λ found. option_map (λ pairs. pairs.items) found
        ≡ with_offsets (view json.now) terms.items) }
{
    let Some(offsets) = offsets_at(alloc, json, terms.len())? else {
        return Ok(None);
    };
    if offsets.len() != terms.len() {
        return Ok(None);
    }
    Ok(Some(paired(alloc, &offsets, terms)?))
}

/// Pairs `offsets` and `terms`, up to the end of the shorter list.
fn paired(
    alloc: Global,
    offsets: &[usize],
    terms: Vec<Term>,
) -> Result<Vec<(usize, Term)>, AllocError>
    ensures { IfOk result (λ pairs. pairs.items ≡ zip offsets.now terms.items) }
{
    let mut left = terms;
    left.reverse();
    let mut pairs = Vec::with_capacity(alloc, left.len())?;
    for offset in offsets {
        match left.pop() {
            Some(term) => pairs.push((*offset, term))?,
            None => return Ok(pairs),
        }
    }
    Ok(pairs)
}

/// Reads the numbers at `offsets`; by default, `count` offsets from 0 on.
fn offsets_at(alloc: Global, json: &Json, count: usize) -> Result<Option<Vec<usize>>, AllocError>
    ensures { IfOk result (λ found. option_map (λ offsets. offsets.items) found ≡ offsets_at count (view json.now)) }
{
    match json.get("offsets") {
        Some(Json::Array(items)) => read_each_offset(alloc, items.as_slice()),
        Some(_) => Ok(None),
        None => Ok(Some(first_offsets(alloc, count)?)),
    }
}

/// Returns `count` offsets, from 0 on.
#[tactic(auto, using(crate::proofs::PhraseSteps::offset_more))]
fn first_offsets(alloc: Global, count: usize) -> Result<Vec<usize>, AllocError>
    ensures { IfOk result (λ offsets. offsets.items ≡ range_with_len 0 count) }
{
    let mut offsets = Vec::with_capacity(alloc, count)?;
    while offsets.len() < count {
        offsets.push(offsets.len())?;
    }
    Ok(offsets)
}

/// Reads each of `items` as an offset.
fn read_each_offset(alloc: Global, items: &[Json]) -> Result<Option<Vec<usize>>, AllocError>
    ensures { IfOk result (λ found. option_map (λ offsets. offsets.items) found
        ≡ keys.each (keys.number_below definitions.offset_limit) (items_view items.now)) }
{
    let mut offsets = Vec::with_capacity(alloc, items.len())?;
    for item in items {
        let Some(offset) = read_small(item) else {
            return Ok(None);
        };
        offsets.push(offset as usize)?;
    }
    Ok(Some(offsets))
}

/// Reads the number at `slop`; by default 0.
fn slop_at(json: &Json) -> Option<u32>
    ensures { result ≡ keys.at_or 0 (keys.number_below definitions.offset_limit) (codes "slop") (view json.now) }
{
    match json.get("slop") {
        Some(slop) => read_small(slop),
        None => Some(0),
    }
}

/// Reads a whole number from 0 to 2^32 - 1.
fn read_small(json: &Json) -> Option<u32>
    ensures { result ≡ keys.number_below definitions.offset_limit (view json.now) }
{
    let number = json.as_u64()?;
    if number < 1 << 32 {
        Some(number as u32)
    } else {
        None
    }
}
