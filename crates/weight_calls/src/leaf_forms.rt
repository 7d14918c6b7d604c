//! The weights of queries that hold no other, made by their constructors.

ghost use Rattle.std.specs.Prelude.{◌≡◌};
ghost use Rattle.definitions.specs.Query.{phrase, phrase_prefix, term};
ghost use Rattle.leaf_weights.specs.PhrasePrefixWeights as prefixes;
ghost use Rattle.leaf_weights.specs.PhraseWeights as phrases;
ghost use Rattle.leaf_weights.specs.TermWeights as terms;
ghost use Rattle.query_scorers.specs.Accepted.{IsAccepted};

use leaf_weights::sum_of_weights;
use query::{PhrasePrefixQuery, PhraseQuery, TermQuery};
use weights::{PhrasePrefixWeight, PhraseWeight, Statistics, TermWeight};

/// The weight of a term.
pub(crate) fn term_weight<'q, 'a, S: Statistics>(
    query: &'q TermQuery,
    statistics: &'a S,
) -> TermWeight<'q, 'a>
    ensures query { term (terms.term_of result) (terms.option_asked result) ≡ term query.now.0 query.now.1 }
    ensures scores { terms.ScoresBy (S.similarity statistics.now) result }
{
    let term = query.term();
    let option = query.index_record_option();
    let norms = statistics.norms();
    let weight = statistics.weight_of(term);
    TermWeight::new(term, option, weight, norms)
}

/// The weight of a phrase, whose slop is set last.
pub(crate) fn phrase_weight<'q, 'a, S: Statistics>(
    query: &'q PhraseQuery,
    statistics: &'a S,
) -> PhraseWeight<'q, 'a>
    requires { IsAccepted (S.similarity statistics.now).weight 1 (phrase query.now.0 query.now.1) }
    ensures query { phrase (phrases.terms_of result) (phrases.slop_of result) ≡ phrase query.now.0 query.now.1 }
    ensures scores { phrases.ScoresBy (S.similarity statistics.now) result }
{
    let terms = query.terms();
    let norms = statistics.norms();
    let weight = sum_of_weights(statistics, terms);
    let slop = query.slop();
    let mut phrase = PhraseWeight::new(terms, 0, weight, norms);
    phrase.slop(slop);
    phrase
}

/// The weight of a phrase prefix.
pub(crate) fn phrase_prefix_weight<'q, 'a, S: Statistics>(
    query: &'q PhrasePrefixQuery,
    statistics: &'a S,
) -> PhrasePrefixWeight<'q, 'a>
    requires { IsAccepted (S.similarity statistics.now).weight 1 (phrase_prefix query.now.0 query.now.1) }
    ensures query { phrase_prefix (prefixes.prefix_terms_of result) (prefixes.limit_of result)
        ≡ phrase_prefix query.now.0 query.now.1 }
    ensures scores { prefixes.ScoresPrefixBy (S.similarity statistics.now) result }
{
    let terms = query.terms();
    let norms = statistics.norms();
    let weight = sum_of_weights(statistics, query.whole_terms());
    let max_expansions = query.max_expansions();
    PhrasePrefixWeight::new(terms, max_expansions, weight, norms)
}
