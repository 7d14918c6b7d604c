//! How many living documents match, by the weight of a query's form.

ghost use Rattle.definitions.specs.Query as definitions;
ghost use Rattle.definitions.specs.Settings.{similarity_of};
ghost use Rattle.query_trees.specs.Queries.{query_of};
ghost use Rattle.query_scorers.specs.Accepted.{IsAccepted};

use crate::leaf_forms::{phrase_weight, term_weight};
use case_lines::Refusal;
use query::{AnyQuery, BoostQuery, ConstScoreQuery, PhraseQuery, TermQuery};
use settings::Settings;
use std::alloc::{AllocError, Global};
use weights::{AllWeight, BoostWeight, ConstWeight, EmptyWeight, SegmentReader, Weight};

/// How many living documents match, by the weight of the query's form, made by its constructor.
pub(crate) fn count_by_form<'a>(
    alloc: Global,
    query: &AnyQuery,
    statistics: &'a Settings,
    reader: &SegmentReader<'a>,
) -> Result<u32, Refusal>
    requires { IsAccepted (similarity_of statistics.now).weight 1 (query_of query.now) }
{
    let counted = match query {
        AnyQuery::All(_) => count_all(alloc, reader),
        AnyQuery::Empty(_) => count_none(alloc, reader),
        AnyQuery::Term(query) => count_term(alloc, query, statistics, reader),
        AnyQuery::Phrase(query) => count_phrase(alloc, query, statistics, reader),
        AnyQuery::Boost(query) => return count_boosted(alloc, query, statistics, reader),
        AnyQuery::ConstScore(query) => return count_constant(alloc, query, statistics, reader),
        _ => return Err(Refusal::NotAsked),
    };
    Ok(counted?)
}

/// How many living documents there are.
fn count_all(alloc: Global, reader: &SegmentReader<'_>) -> Result<u32, AllocError> {
    AllWeight.count(alloc, reader)
}

/// None.
fn count_none(alloc: Global, reader: &SegmentReader<'_>) -> Result<u32, AllocError> {
    EmptyWeight.count(alloc, reader)
}

/// How many living documents hold a term.
fn count_term<'a>(
    alloc: Global,
    query: &TermQuery,
    statistics: &'a Settings,
    reader: &SegmentReader<'a>,
) -> Result<u32, AllocError>
    requires { IsAccepted (similarity_of statistics.now).weight 1 (definitions.term query.now.0 query.now.1) }
{
    let weight = term_weight(query, statistics);
    weight.count(alloc, reader)
}

/// In how many living documents a phrase occurs.
fn count_phrase<'a>(
    alloc: Global,
    query: &PhraseQuery,
    statistics: &'a Settings,
    reader: &SegmentReader<'a>,
) -> Result<u32, AllocError>
    requires { IsAccepted (similarity_of statistics.now).weight 1 (definitions.phrase query.now.0 query.now.1) }
{
    let weight = phrase_weight(query, statistics);
    weight.count(alloc, reader)
}

/// How many living documents hold a term, by its weight under a boost.
fn count_boosted<'a>(
    alloc: Global,
    query: &BoostQuery,
    statistics: &'a Settings,
    reader: &SegmentReader<'a>,
) -> Result<u32, Refusal>
    requires { IsAccepted (similarity_of statistics.now).weight 1 (definitions.boost query.now.1 query.now.0) }
{
    let AnyQuery::Term(term) = query.query() else {
        return Err(Refusal::NotAsked);
    };
    let weight = BoostWeight::new(term_weight(term, statistics), query.boost());
    Ok(weight.count(alloc, reader)?)
}

/// How many living documents hold a term, by its weight under a constant score.
fn count_constant<'a>(
    alloc: Global,
    query: &ConstScoreQuery,
    statistics: &'a Settings,
    reader: &SegmentReader<'a>,
) -> Result<u32, Refusal>
    requires { IsAccepted (similarity_of statistics.now).weight 1 (definitions.const_score query.now.1 query.now.0) }
{
    let AnyQuery::Term(term) = query.query() else {
        return Err(Refusal::NotAsked);
    };
    let weight = ConstWeight::new(term_weight(term, statistics), query.score());
    Ok(weight.count(alloc, reader)?)
}
