//! Words that weigh more the fewer documents have them.

ghost use Rattle.std.specs.Prelude.{◌*◌, ◌/◌, ◌<◌, ◌^◌, ◌≡◌, ◌≤◌, Bool, IfOk, List, map, max, ℕ};
ghost use Rattle.ask.specs.Rarity as definitions;
ghost use Rattle.ask.specs.Views.{weight_of};
ghost use Rattle.definitions.specs.Query.{disjunction_max};
ghost use Rattle.query_text.specs.Clauses.{phrase_of};
ghost use Rattle.query_text.specs.Refusals.{Gives};
ghost use Rattle.query_trees.specs.NeededTerms.{needed};
ghost use Rattle.query_trees.specs.Queries.{query_of};

use index::{AnyQuery, BoostQuery, DisjunctionMaxQuery, Term};
use query_text::{Phrase, Reason, Vocabulary};
use query_trees::{QueryClone, QueryTree};
use std::alloc::{AllocError, Global};

/// A term of a query, and how much it weighs.
#[derive(Clone, Copy)]
pub(crate) struct Weight<'q> {
    pub(crate) term: &'q Term,
    pub(crate) weight: u32,
}

/// Words and phrases, in each field with the weight of the rarest word there.
#[derive(Drop)]
pub(crate) struct Weighted<'a, V: Vocabulary> {
    pub(crate) words: &'a V,
    pub(crate) weights: &'a [Weight<'a>],
}

impl<'a, V: Vocabulary> Vocabulary for Weighted<'a, V> {
    ghost use Rattle.std.specs.Prelude.{map};
    ghost use Rattle.ask.specs.Rarity.{weighted_words};
    ghost use Rattle.ask.specs.Views.{weight_of};

    ghost queries = { λ v. weighted_words (map weight_of v.weights.now) (V.queries v.words.now) };

    fn query(&self, alloc: Global, phrase: Phrase<'_>) -> Result<AnyQuery, Reason> {
        weighted_query(alloc, self.words, self.weights, phrase)
    }
}

/// Makes the query of `phrase` by `words`, with its weight.
fn weighted_query<V: Vocabulary>(
    alloc: Global,
    words: &V,
    weights: &[Weight<'_>],
    phrase: Phrase<'_>,
) -> Result<AnyQuery, Reason>
    ensures { Gives query_of result
        (definitions.weighted_words (map weight_of weights.now) (V.queries words.now) (phrase_of phrase.entry)) }
{
    let query = words.query(alloc, phrase)?;
    Ok(with_weight(alloc, weights, query)?)
}

/// Returns `query` with its weight; of the best of several queries each has its own.
fn with_weight(
    alloc: Global,
    weights: &[Weight<'_>],
    query: AnyQuery,
) -> Result<AnyQuery, AllocError>
    ensures { IfOk result (λ made. query_of made ≡ definitions.weighted (map weight_of weights.now) (query_of query)) }
{
    match &query {
        AnyQuery::DisjunctionMax(best) => best_weighted(alloc, weights, best),
        AnyQuery::All(_)
        | AnyQuery::Empty(_)
        | AnyQuery::Term(_)
        | AnyQuery::Phrase(_)
        | AnyQuery::PhrasePrefix(_)
        | AnyQuery::Boolean(_)
        | AnyQuery::Boost(_)
        | AnyQuery::ConstScore(_) => with_own_weight(alloc, weights, query),
    }
}

/// Returns the best of the queries of `best`, each with its own weight.
fn best_weighted(
    alloc: Global,
    weights: &[Weight<'_>],
    best: &DisjunctionMaxQuery,
) -> Result<AnyQuery, AllocError>
    ensures { IfOk result (λ made. query_of made
        ≡ definitions.weighted (map weight_of weights.now) (disjunction_max best.now.0 best.now.1)) }
{
    let disjuncts = each_weighted(alloc, weights, best.disjuncts())?;
    let tie_breaker = best.tie_breaker();
    Ok(AnyQuery::DisjunctionMax(DisjunctionMaxQuery::with_tie_breaker(disjuncts, tie_breaker)))
}

/// Copies `queries`, each with its own weight.
fn each_weighted(
    alloc: Global,
    weights: &[Weight<'_>],
    queries: &[AnyQuery],
) -> Result<Vec<AnyQuery>, AllocError>
    ensures { IfOk result (λ made. map query_of made.items
        ≡ map (definitions.own_weighted (map weight_of weights.now)) (map query_of queries.now)) }
{
    let mut made = Vec::with_capacity(alloc, queries.len())?;
    for query in queries {
        let copy = query.try_clone(alloc)?;
        made.push(with_own_weight(alloc, weights, copy)?)?;
    }
    Ok(made)
}

/// Returns `query` with the weight of the heaviest term that it reads.
fn with_own_weight(
    alloc: Global,
    weights: &[Weight<'_>],
    query: AnyQuery,
) -> Result<AnyQuery, AllocError>
    ensures { IfOk result (λ made. query_of made
        ≡ definitions.own_weighted (map weight_of weights.now) (query_of query)) }
{
    let weight = heaviest(weights, &query.needed_terms(alloc)?);
    Ok(AnyQuery::Boost(BoostQuery::new(alloc, query, i64::from(weight))?))
}

/// Returns what the heaviest of `terms` weighs.
fn heaviest(weights: &[Weight<'_>], terms: &[(&Term, bool)]) -> u32
    ensures { result ≡ definitions.heaviest (map weight_of weights.now) (map needed terms.now) }
{
    let mut most = 1;
    for (term, _needs_positions) in terms {
        most = weight_in(weights, *term).max(most);
    }
    most
}

/// Returns what `term` weighs, 1 where nothing is said of it.
fn weight_in(weights: &[Weight<'_>], term: &Term) -> u32
    ensures { result ≡ definitions.weight_in (map weight_of weights.now) term.now }
{
    for weight in weights {
        if weight.term.serialized_term() == term.serialized_term() {
            return weight.weight;
        }
    }
    1
}

/// Returns what a word weighs that `count` of `total` documents have: 1, and 1 more each time half as many have it.
pub(crate) fn rarity(total: u64, count: u64) -> u32
    ensures above { max 1 (total / max 1 count) < 2 ^ result }
    ensures least { 2 ^ result ≤ 2 * max 1 (total / max 1 count) }
    ensures few { result ≤ 64 }
{
    (total / count.max(1)).max(1).ilog2() + 1
}
