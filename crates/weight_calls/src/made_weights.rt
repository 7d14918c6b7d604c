//! The weights of clauses, of the best of several queries and of phrase prefixes, made by their constructors.

ghost use Rattle.definitions.specs.Query.{phrase_prefix};
ghost use Rattle.definitions.specs.Settings.{similarity_of};
ghost use Rattle.query_trees.specs.Queries.{query_of};
ghost use Rattle.query_scorers.specs.Accepted.{IsAccepted};

use crate::leaf_forms::phrase_prefix_weight;
use case_lines::Refusal;
use query::{AnyQuery, BooleanQuery, PhrasePrefixQuery};
use settings::Settings;
use weights::{AnyWeight, BooleanWeight, DisjunctionMaxWeight, GivenWeights};

/// The weight of a query, made by the constructor of its form.
pub(crate) fn made<'q, 'a>(
    query: &'q AnyQuery,
    statistics: &'a Settings,
) -> Result<AnyWeight<'q, GivenWeights<'a, Settings>>, Refusal>
    requires { IsAccepted (similarity_of statistics.now).weight 1 (query_of query.now) }
{
    let weights = GivenWeights::new(Some(statistics));
    match query {
        AnyQuery::PhrasePrefix(query) => Ok(made_prefix(query, statistics, weights)),
        AnyQuery::Boolean(query) => Ok(AnyWeight::Boolean(made_boolean(query, weights))),
        AnyQuery::DisjunctionMax(query) => {
            let disjuncts = query.disjuncts();
            let best = DisjunctionMaxWeight::new(disjuncts, query.tie_breaker(), weights);
            Ok(AnyWeight::DisjunctionMax(best))
        }
        _ => Err(Refusal::NotAsked),
    }
}

/// The weight of a phrase prefix, beside that of its form.
fn made_prefix<'q, 'a>(
    query: &'q PhrasePrefixQuery,
    statistics: &'a Settings,
    weights: GivenWeights<'a, Settings>,
) -> AnyWeight<'q, GivenWeights<'a, Settings>>
    requires { IsAccepted (similarity_of statistics.now).weight 1 (phrase_prefix query.now.0 query.now.1) }
{
    let _weight = phrase_prefix_weight(query, statistics);
    AnyWeight::PhrasePrefix(query, weights)
}

/// The weight of clauses; one of `Should` clauses must match unless a minimum says otherwise.
fn made_boolean<'q, W>(query: &'q BooleanQuery, weights: W) -> BooleanWeight<'q, W> {
    let minimum = query.get_minimum_number_should_match();
    if minimum == 1 {
        return BooleanWeight::new(query.clauses(), weights);
    }
    BooleanWeight::with_minimum_number_should_match(query.clauses(), minimum, weights)
}

/// The name of a weight's form, in the words of steps.
pub(crate) fn form<W>(weight: &AnyWeight<'_, W>) -> &'static str {
    match weight {
        AnyWeight::All(_) => "all",
        AnyWeight::Empty(_) => "none",
        AnyWeight::Term(_, _) => "term",
        AnyWeight::Phrase(_, _) => "phrase",
        AnyWeight::PhrasePrefix(_, _) => "begun",
        AnyWeight::Boolean(_) => "bool",
        AnyWeight::DisjunctionMax(_) => "best",
        AnyWeight::Boost(_) => "boost",
        AnyWeight::ConstScore(_) => "const",
    }
}
