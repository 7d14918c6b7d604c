//! The nodes of queries, by steps.

use crate::given_terms::{name, term_in, terms_in, terms_with_offsets_in};
use crate::parts::{items_in, small_in};
use crate::{Refusal, number_in, part, signed_in, text_in};
use options::IndexRecordOption;
use query_trees::{
    AllQuery, AnyQuery, BooleanQuery, BoostQuery, ConstScoreQuery, DisjunctionMaxQuery, EmptyQuery,
    Occur, PhrasePrefixQuery, PhraseQuery, TermQuery, are_phrase_terms,
};
use serde_json::Value;
use std::alloc::Global;

/// Adds a query without queries in it: `["all"]`, `["none"]`, `["term", TERM]`, also with what is read of the term,
/// `["any", TERMS]`, and phrases.
pub(crate) fn add_leaf(
    alloc: Global,
    made: &mut Vec<AnyQuery>,
    step: &Value,
) -> Result<(), Refusal> {
    let query = match name(step)? {
        "all" => AnyQuery::All(AllQuery),
        "none" => AnyQuery::Empty(EmptyQuery),
        "term" => {
            let term = term_in(alloc, part(step, 1)?)?;
            AnyQuery::Term(TermQuery::new(term, record_option(step.get(2))?))
        }
        "any" => {
            let terms = terms_in(alloc, part(step, 1)?)?;
            AnyQuery::Boolean(BooleanQuery::new_multiterms_query(alloc, terms)?)
        }
        "phrase" => AnyQuery::Phrase(phrase(alloc, step)?),
        "begun" => AnyQuery::PhrasePrefix(begun(alloc, step)?),
        _ => return Err(Refusal::NotAsked),
    };
    made.push(query)?;
    Ok(())
}

/// What is read of a term, by its name; counts where none is given.
fn record_option(name: Option<&Value>) -> Result<IndexRecordOption, Refusal> {
    let Some(name) = name else {
        return Ok(IndexRecordOption::WithFreqs);
    };
    match text_in(name)? {
        "basic" => Ok(IndexRecordOption::Basic),
        "freq" => Ok(IndexRecordOption::WithFreqs),
        "position" => Ok(IndexRecordOption::WithFreqsAndPositions),
        _ => Err(Refusal::NotAsked),
    }
}

/// `["phrase", [[OFFSET, TERM], ..]]`, and with a slop.
fn phrase(alloc: Global, step: &Value) -> Result<PhraseQuery, Refusal> {
    let terms = terms_with_offsets_in(alloc, part(step, 1)?)?;
    if !are_phrase_terms(2, &terms) {
        return Err(Refusal::NotAsked);
    }
    match step.get(2) {
        Some(slop) => {
            let mut query = PhraseQuery::new_with_offset(terms)?;
            query.set_slop(small_in(slop)?);
            Ok(query)
        }
        None => Ok(PhraseQuery::new_with_offset_and_slop(terms, 0)?),
    }
}

/// `["begun", [[OFFSET, TERM], ..]]`, and with a limit of expansions.
fn begun(alloc: Global, step: &Value) -> Result<PhrasePrefixQuery, Refusal> {
    let terms = terms_with_offsets_in(alloc, part(step, 1)?)?;
    if !are_phrase_terms(1, &terms) {
        return Err(Refusal::NotAsked);
    }
    let mut query = PhrasePrefixQuery::new_with_offset(terms)?;
    if let Some(limit) = step.get(2) {
        query.set_max_expansions(small_in(limit)?);
    }
    Ok(query)
}

/// Makes a bool of the last queries, one for each name of what is asked of it: `["bool", ["must", ..]]`, and with a
/// minimum.
pub(crate) fn add_clauses(
    alloc: Global,
    made: &mut Vec<AnyQuery>,
    step: &Value,
) -> Result<(), Refusal> {
    let asked = items_in(part(step, 1)?)?;
    let mut clauses = Vec::new(alloc);
    for asks in asked.iter().rev() {
        clauses.push((occur(text_in(asks)?)?, last(made)?))?;
    }
    clauses.reverse();
    let query = match step.get(2) {
        Some(minimum) => {
            let minimum = small_in(minimum)? as usize;
            BooleanQuery::with_minimum_required_clauses(clauses, minimum)
        }
        None => BooleanQuery::from(clauses),
    };
    made.push(AnyQuery::Boolean(query))?;
    Ok(())
}

/// What a clause asks, by its name.
fn occur(name: &str) -> Result<Occur, Refusal> {
    match name {
        "must" => Ok(Occur::Must),
        "should" => Ok(Occur::Should),
        "must_not" => Ok(Occur::MustNot),
        _ => Err(Refusal::NotAsked),
    }
}

/// Makes a bool of the last `COUNT` queries: `["and", COUNT]`, `["or", COUNT]`, `["at-least", COUNT, MINIMUM]`.
pub(crate) fn add_union(
    alloc: Global,
    made: &mut Vec<AnyQuery>,
    step: &Value,
) -> Result<(), Refusal> {
    let queries = last_ones(alloc, made, part(step, 1)?)?;
    let query = match name(step)? {
        "and" => BooleanQuery::intersection(alloc, queries)?,
        "or" => BooleanQuery::union(alloc, queries)?,
        _ => {
            let minimum = small_in(part(step, 2)?)? as usize;
            BooleanQuery::union_with_minimum_required_clauses(alloc, queries, minimum)?
        }
    };
    made.push(AnyQuery::Boolean(query))?;
    Ok(())
}

/// Makes a dismax of the last `COUNT` queries: `["best", COUNT]`, and with a tie breaker.
pub(crate) fn add_disjuncts(
    alloc: Global,
    made: &mut Vec<AnyQuery>,
    step: &Value,
) -> Result<(), Refusal> {
    let disjuncts = last_ones(alloc, made, part(step, 1)?)?;
    let query = match step.get(2) {
        Some(tie) => DisjunctionMaxQuery::with_tie_breaker(disjuncts, signed_in(tie)?),
        None => DisjunctionMaxQuery::new(disjuncts),
    };
    made.push(AnyQuery::DisjunctionMax(query))?;
    Ok(())
}

/// Boosts the last query: `["boost", FACTOR]`, or `COUNT` times with 1: `["boosts", COUNT]`.
pub(crate) fn add_times(
    alloc: Global,
    made: &mut Vec<AnyQuery>,
    step: &Value,
) -> Result<(), Refusal> {
    let mut query = last(made)?;
    if name(step)? == "boost" {
        let factor = signed_in(part(step, 1)?)?;
        query = AnyQuery::Boost(BoostQuery::new(alloc, query, factor)?);
    } else {
        for _ in 0..small_in(part(step, 1)?)? {
            query = AnyQuery::Boost(BoostQuery::new(alloc, query, 1)?);
        }
    }
    made.push(query)?;
    Ok(())
}

/// Gives the documents of the last query one score: `["const", SCORE]`.
pub(crate) fn add_constant(
    alloc: Global,
    made: &mut Vec<AnyQuery>,
    step: &Value,
) -> Result<(), Refusal> {
    let score = signed_in(part(step, 1)?)?;
    let query = last(made)?;
    made.push(AnyQuery::ConstScore(ConstScoreQuery::new(alloc, query, score)?))?;
    Ok(())
}

/// The last query, taken away.
fn last(made: &mut Vec<AnyQuery>) -> Result<AnyQuery, Refusal> {
    made.pop().ok_or(Refusal::NotAsked)
}

/// Takes the last `count` queries away, in order.
fn last_ones(
    alloc: Global,
    made: &mut Vec<AnyQuery>,
    count: &Value,
) -> Result<Vec<AnyQuery>, Refusal> {
    let mut queries = Vec::new(alloc);
    for _ in 0..number_in(count)? {
        queries.push(last(made)?)?;
    }
    queries.reverse();
    Ok(queries)
}
