//! Bounds of scores.

ghost use Rattle.std.specs.Prelude.{◌*◌, ◌≡◌, if◌then◌else◌, length, nat_eq, ℕ};
ghost use Rattle.definitions.specs.Matching.{is_counted};
ghost use Rattle.definitions.specs.Query.{clauses_depth, depth};
ghost use Rattle.definitions.specs.Refusing as refusing;
ghost use Rattle.definitions.specs.Scoring.{natural, weight_sum};
ghost use Rattle.query_trees.specs.Queries.{clauses_of, occur_of, queries_of, query_of};
ghost use Rattle.query_checks.specs.Ranges.{in_range};

use common::{MAX_SCORE, Score};
use query_trees::{AnyQuery, Occur};
use settings::Statistics;
use terms::Term;

/// Multiplies `factor` and `bound`; `None` if `bound` is, or the product is above `MAX_SCORE`.
#[tactic(auto, using(crate::proofs::ScaledBounds::times_above, crate::proofs::ScaledBounds::times_found))]
pub(crate) fn times(factor: u64, bound: Option<u64>) -> Option<u64>
    ensures { (n : ℕ) → bound ≡ in_range n → result ≡ in_range (factor * n) }
{
    if factor == 0 {
        return Some(0);
    }
    match bound {
        Some(bound) => within_scores(factor as u128 * bound as u128),
        None => None,
    }
}

/// Converts a factor to a natural number; a negative one is 0.
pub(crate) fn natural(factor: Score) -> u64
    ensures { result ≡ natural factor }
{
    if factor < 0 { 0 } else { factor as u64 }
}

/// Returns a bound of the scores of `query` without a boost; `None` if it is above `MAX_SCORE`.
/// It leaves out the boosts above `query`; `times` multiplies by their product, in 128 bits. Each node is checked by
/// itself, with its own bound, so it is computed again for each node above, of which a path has at most 64.
#[cycle(bound)]
#[tactic(auto, using(crate::proofs::ScaledBounds::within_range))]
pub(crate) fn bound<S: Statistics>(statistics: &S, query: &AnyQuery) -> Option<u64>
    ensures { result ≡ in_range (refusing.bound (S.similarity statistics.now).weight 1 (query_of query.now)) }
{
    match query {
        AnyQuery::All(_) => Some(1),
        AnyQuery::Empty(_) => Some(0),
        AnyQuery::Term(query) => Some(statistics.weight_of(query.term())),
        AnyQuery::Phrase(query) => weights(statistics, query.terms()),
        AnyQuery::PhrasePrefix(query) => weights_of_whole(statistics, query.whole_terms()),
        AnyQuery::Boolean(query) => clauses_bound(statistics, query.clauses()),
        AnyQuery::DisjunctionMax(query) => disjuncts_bound(statistics, query.disjuncts()),
        AnyQuery::Boost(query) => {
            times(natural(query.boost()), bound(statistics, query.query()))
        }
        AnyQuery::ConstScore(query) => times(natural(query.score()), Some(1)),
    }
}

/// Sums the bounds of `clauses`.
#[cycle(bound)]
#[tactic(auto, using(query_trees::proofs::Clauses::clause_depth))]
fn clauses_bound<S: Statistics>(statistics: &S, clauses: &[(Occur, AnyQuery)]) -> Option<u64>
    ensures { result ≡ in_range
        (refusing.clauses_bound (S.similarity statistics.now).weight 1 (clauses_of clauses.now)) }
{
    let mut sum = 0;
    for (occur, query) in clauses {
        let Some(bound) = clause_bound(statistics, *occur, query) else {
            return None;
        };
        sum += bound;
        if sum > MAX_SCORE as u64 {
            return None;
        }
    }
    Some(sum)
}

/// Returns the bound of a clause; 0 if it gives no score.
#[cycle(bound)]
fn clause_bound<S: Statistics>(statistics: &S, occur: Occur, query: &AnyQuery) -> Option<u64>
    ensures { result ≡ in_range (if is_counted (occur_of occur)
        then refusing.bound (S.similarity statistics.now).weight 1 (query_of query.now) else 0) }
{
    match occur {
        Occur::Must | Occur::Should => bound(statistics, query),
        Occur::MustNot => Some(0),
    }
}

/// Sums the bounds of `disjuncts`.
#[cycle(bound)]
#[tactic(auto, using(query_trees::proofs::Clauses::query_depth))]
fn disjuncts_bound<S: Statistics>(statistics: &S, disjuncts: &[AnyQuery]) -> Option<u64>
    ensures { result ≡ in_range
        (refusing.queries_bound (S.similarity statistics.now).weight 1 (queries_of disjuncts.now)) }
{
    let mut sum = 0;
    for query in disjuncts {
        let Some(bound) = bound(statistics, query) else {
            return None;
        };
        sum += bound;
        if sum > MAX_SCORE as u64 {
            return None;
        }
    }
    Some(sum)
}

/// Sums the weights of `terms`, with repeats.
#[tactic(auto, using(crate::proofs::ScaledBounds::within_range, crate::proofs::ScaledBounds::above_range))]
fn weights<S: Statistics>(statistics: &S, terms: &[(usize, Term)]) -> Option<u64>
    ensures { result ≡ in_range (weight_sum (S.similarity statistics.now).weight terms.now) }
{
    let mut sum = 0;
    for (_offset, term) in terms {
        sum += statistics.weight_of(term);
        if sum > MAX_SCORE as u64 {
            return None;
        }
    }
    Some(sum)
}

/// Sums the weights of the whole terms of a phrase prefix; 1 if there is one term.
fn weights_of_whole<S: Statistics>(statistics: &S, terms: &[(usize, Term)]) -> Option<u64>
    ensures { result ≡ in_range (if nat_eq (length terms.now) 1
        then 1 else weight_sum (S.similarity statistics.now).weight terms.now) }
{
    if terms.len() == 1 {
        Some(1)
    } else {
        weights(statistics, terms)
    }
}

/// Returns `number` if it isn't above `MAX_SCORE`.
#[tactic(auto, using(crate::proofs::ScaledBounds::within_range, crate::proofs::ScaledBounds::above_range))]
fn within_scores(number: u128) -> Option<u64>
    ensures { result ≡ in_range number }
{
    if number > MAX_SCORE as u128 {
        return None;
    }
    Some(number as u64)
}
