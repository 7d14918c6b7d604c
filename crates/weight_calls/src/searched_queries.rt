//! What is asked of a query over a searcher of one segment.

ghost use Rattle.std.specs.Prelude.{◌≡◌, length};
ghost use Rattle.definitions.specs.Settings.{similarity_of};
ghost use Rattle.query_trees.specs.Queries.{query_of};
ghost use Rattle.query_scorers.specs.Accepted.{IsAccepted};
ghost use Rattle.segment_reader.specs.Searchers.{readers_in, statistics_of};

use crate::block_walks::by_blocks;
use crate::boxed_scorers::boxed;
use crate::counted_forms::count_by_form;
use crate::leaf_forms::term_weight;
use crate::made_weights::{form, made};
use crate::weighed_queries::weighed;
use case_lines::{Refusal, number, pair, text, triple};
use case_segments::explained_score;
use query::{AnyQuery, Query};
use serde_json::Value;
use settings::Settings;
use std::alloc::Global;
use weights::{AnyWeight, DocAddress, EnableScoring, GivenWeights, Searcher};

/// What an operation on a query answers over a searcher of one segment.
pub(crate) fn searched<'a>(
    alloc: Global,
    searcher: &'a Searcher<'a, Settings>,
    query: &AnyQuery,
    operation: &str,
) -> Result<Value, Refusal>
    requires one { length (readers_in searcher.now) ≡ 1 }
    requires accepted { IsAccepted (similarity_of (statistics_of searcher.now)).weight 1 (query_of query.now) }
{
    match operation {
        "by-form" | "in-a-row" => counted(alloc, searcher, query),
        "made" | "begun-in-a-row" | "both" => made_forms(alloc, searcher, query),
        "weighed" => by_weight(alloc, searcher, query),
        "explained-by-query" => explained_each(alloc, searcher, query),
        "by-blocks" => {
            let reader = searcher.segment_reader(0);
            by_blocks(alloc, query, searcher.statistics(), reader)
        }
        "boxed" => boxed(alloc, query, searcher),
        _ => Err(Refusal::NotAsked),
    }
}

/// How many living documents match, by the weight of the query's form and by the query itself.
fn counted<'a>(
    alloc: Global,
    searcher: &'a Searcher<'a, Settings>,
    query: &AnyQuery,
) -> Result<Value, Refusal>
    requires one { length (readers_in searcher.now) ≡ 1 }
    requires accepted { IsAccepted (similarity_of (statistics_of searcher.now)).weight 1 (query_of query.now) }
{
    let statistics = searcher.statistics();
    let by_form = count_by_form(alloc, query, statistics, searcher.segment_reader(0))?;
    let by_query = query.count(alloc, searcher)?;
    Ok(pair(alloc, number(u64::from(by_form)), number(by_query))?)
}

/// The forms of the weights that a constructor and the query make, and how many living documents match.
fn made_forms<'a>(
    alloc: Global,
    searcher: &'a Searcher<'a, Settings>,
    query: &AnyQuery,
) -> Result<Value, Refusal>
    requires one { length (readers_in searcher.now) ≡ 1 }
    requires accepted { IsAccepted (similarity_of (statistics_of searcher.now)).weight 1 (query_of query.now) }
{
    let made = made(query, searcher.statistics())?;
    let scoring = EnableScoring::enabled_from_searcher(searcher);
    let weight: AnyWeight<'_, GivenWeights<'a, Settings>> = query.weight(scoring);
    let constructed = text(alloc, form(&made))?;
    let of_query = text(alloc, form(&weight))?;
    Ok(triple(
        alloc,
        constructed,
        of_query,
        number(query.count(alloc, searcher)?),
    )?)
}

/// What the weight of a term answers.
fn by_weight<'a>(
    alloc: Global,
    searcher: &'a Searcher<'a, Settings>,
    query: &AnyQuery,
) -> Result<Value, Refusal>
    requires one { length (readers_in searcher.now) ≡ 1 }
    requires accepted { IsAccepted (similarity_of (statistics_of searcher.now)).weight 1 (query_of query.now) }
{
    let AnyQuery::Term(query) = query else {
        return Err(Refusal::NotAsked);
    };
    let weight = term_weight(query, searcher.statistics());
    weighed(alloc, &weight, searcher.segment_reader(0))
}

/// The score of each document, by the query's explanation; null of one that doesn't match.
fn explained_each<'a>(
    alloc: Global,
    searcher: &'a Searcher<'a, Settings>,
    query: &AnyQuery,
) -> Result<Value, Refusal>
    requires one { length (readers_in searcher.now) ≡ 1 }
    requires accepted { IsAccepted (similarity_of (statistics_of searcher.now)).weight 1 (query_of query.now) }
{
    let mut list = Vec::new(alloc);
    for doc in 0..searcher.segment_reader(0).max_doc() {
        let explained = query.explain(alloc, searcher, DocAddress::new(0, doc));
        list.push(explained_score(explained)?)?;
    }
    Ok(Value::Array(list))
}
