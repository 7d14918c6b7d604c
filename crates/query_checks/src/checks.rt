//! Checks of queries: which of them are refused, and with which fault.

ghost use Rattle.std.specs.Prelude.{◌*◌, ◌≡◌, ◌≤◌, ◌||◌, IfOk, None, Some, if◌then◌else◌, nat_lt};
ghost use Rattle.std.specs.Result.{result_err};
ghost use Rattle.definitions.specs.Query.{clauses_depth, depth, queries_depth};
ghost use Rattle.definitions.specs.Refusing as refusing;
ghost use Rattle.definitions.specs.Scoring.{max_score, natural};
ghost use Rattle.query_trees.specs.Queries.{clauses_of, queries_of, query_of};

use crate::bounds::{bound, times};
use crate::node_tests::{check_own, is_outside};
use common::{MAX_SCORE, Score};
use definitions::Fault;
use query_trees::{AnyQuery, Occur};
use schema::Schema;
use settings::Statistics;

/// The greatest number of nodes on a path of a query.
const MAX_DEPTH: usize = 64;

/// Checks that `query` fits the schema, and that its scores stay in range. Nodes are checked from the root on, after
/// the lengths of the paths. It allocates nothing, and calls nest no deeper than 65 nodes, whatever the tree.
pub fn check_query<S: Statistics>(
    schema: &Schema,
    statistics: &S,
    query: &AnyQuery,
) -> Result<(), Fault>
    ensures { result_err result
        ≡ refusing.refusal schema.now (S.similarity statistics.now).weight (query_of query.now) }
{
    if is_deeper(query, MAX_DEPTH) {
        return Err(Fault::TooDeep);
    }
    check_tree(schema, statistics, 1, query)
}

/// Whether a path has more than `nodes` nodes. Doesn't visit nodes further down.
#[cycle(is_deeper)]
#[tactic(auto, using(crate::proofs::Depths::some_depth, crate::proofs::Depths::less_deep))]
fn is_deeper(query: &AnyQuery, nodes: usize) -> bool
    ensures { result ≡ nat_lt nodes (depth (query_of query.now)) }
{
    if nodes == 0 {
        return true;
    }
    match query {
        AnyQuery::Boolean(query) => any_clause_is_deeper(query.clauses(), nodes - 1),
        AnyQuery::DisjunctionMax(query) => any_is_deeper(query.disjuncts(), nodes - 1),
        AnyQuery::Boost(query) => is_deeper(query.query(), nodes - 1),
        AnyQuery::ConstScore(query) => is_deeper(query.query(), nodes - 1),
        AnyQuery::All(_)
        | AnyQuery::Empty(_)
        | AnyQuery::Term(_)
        | AnyQuery::Phrase(_)
        | AnyQuery::PhrasePrefix(_) => false,
    }
}

/// Whether a path in `clauses` has more than `nodes` nodes.
#[cycle(is_deeper)]
#[tactic(auto, using(query_trees::proofs::Clauses::clause_depth))]
fn any_clause_is_deeper(clauses: &[(Occur, AnyQuery)], nodes: usize) -> bool
    ensures { result ≡ nat_lt nodes (clauses_depth (clauses_of clauses.now)) }
{
    for (_occur, query) in clauses {
        if is_deeper(query, nodes) {
            return true;
        }
    }
    false
}

/// Whether a path in `queries` has more than `nodes` nodes.
#[cycle(is_deeper)]
#[tactic(auto, using(query_trees::proofs::Clauses::query_depth))]
fn any_is_deeper(queries: &[AnyQuery], nodes: usize) -> bool
    ensures { result ≡ nat_lt nodes (queries_depth (queries_of queries.now)) }
{
    for query in queries {
        if is_deeper(query, nodes) {
            return true;
        }
    }
    false
}

/// Checks a node, then the nodes below it; `boost` is the product of the boosts above.
#[cycle(check_tree)]
fn check_tree<S: Statistics>(
    schema: &Schema,
    statistics: &S,
    boost: u64,
    query: &AnyQuery,
) -> Result<(), Fault>
    requires { boost ≤ max_score }
    ensures { result_err result
        ≡ refusing.tree_fault schema.now (S.similarity statistics.now).weight boost (query_of query.now) }
{
    let boost = check_node(schema, statistics, boost, query)?;
    match query {
        AnyQuery::Boolean(query) => check_clauses(schema, statistics, boost, query.clauses()),
        AnyQuery::DisjunctionMax(query) => {
            check_disjuncts(schema, statistics, boost, query.disjuncts())
        }
        AnyQuery::Boost(query) => check_tree(schema, statistics, boost, query.query()),
        AnyQuery::ConstScore(query) => check_tree(schema, statistics, boost, query.query()),
        AnyQuery::All(_)
        | AnyQuery::Empty(_)
        | AnyQuery::Term(_)
        | AnyQuery::Phrase(_)
        | AnyQuery::PhrasePrefix(_) => Ok(()),
    }
}

/// Checks `clauses`, in order.
#[cycle(check_tree)]
#[tactic(auto, using(query_trees::proofs::Clauses::clause_depth))]
fn check_clauses<S: Statistics>(
    schema: &Schema,
    statistics: &S,
    boost: u64,
    clauses: &[(Occur, AnyQuery)],
) -> Result<(), Fault>
    requires { boost ≤ max_score }
    ensures { result_err result
        ≡ refusing.clauses_fault schema.now (S.similarity statistics.now).weight boost (clauses_of clauses.now) }
{
    for (_occur, query) in clauses {
        check_tree(schema, statistics, boost, query)?;
    }
    Ok(())
}

/// Checks `disjuncts`, in order.
#[cycle(check_tree)]
#[tactic(auto, using(query_trees::proofs::Clauses::query_depth))]
fn check_disjuncts<S: Statistics>(
    schema: &Schema,
    statistics: &S,
    boost: u64,
    disjuncts: &[AnyQuery],
) -> Result<(), Fault>
    requires { boost ≤ max_score }
    ensures { result_err result
        ≡ refusing.queries_fault schema.now (S.similarity statistics.now).weight boost (queries_of disjuncts.now) }
{
    for disjunct in disjuncts {
        check_tree(schema, statistics, boost, disjunct)?;
    }
    Ok(())
}

/// Checks a node by itself, and returns the product of the boosts down to it.
fn check_node<S: Statistics>(
    schema: &Schema,
    statistics: &S,
    boost: u64,
    query: &AnyQuery,
) -> Result<u64, Fault>
    requires { boost ≤ max_score }
    ensures fault { result_err result
        ≡ refusing.node_fault schema.now (S.similarity statistics.now).weight boost (query_of query.now) }
    ensures product { IfOk result (λ product. product ≡ refusing.product boost (query_of query.now)) }
    ensures within { IfOk result (λ product. product ≤ max_score) }
{
    check_own(schema, query)?;
    match scored_product(statistics, boost, query) {
        Some(product) => Ok(product),
        None => Err(Fault::ScoreTooLarge),
    }
}

/// Multiplies the boosts down to a node; `None` if a factor, the product or the node's bound is too large.
fn scored_product<S: Statistics>(statistics: &S, boost: u64, query: &AnyQuery) -> Option<u64>
    requires { boost ≤ max_score }
    ensures { let q = query_of query.now
        in result ≡ (if refusing.is_score_too_large (S.similarity statistics.now).weight boost q
        then None else Some (refusing.product boost q)) }
{
    let product = product(boost, query)?;
    times(boost, bound(statistics, query))?;
    Some(product)
}

/// Multiplies the boosts down to a node; `None` if a factor or the product is too large.
fn product(boost: u64, query: &AnyQuery) -> Option<u64>
    requires { boost ≤ max_score }
    ensures { let q = query_of query.now
        in result ≡ (if refusing.is_bad_factor q || nat_lt max_score (refusing.product boost q)
        then None else Some (refusing.product boost q)) }
{
    match query {
        AnyQuery::Boost(query) => product_with(boost, query.boost()),
        AnyQuery::ConstScore(query) => beside(boost, query.score()),
        AnyQuery::All(_)
        | AnyQuery::Empty(_)
        | AnyQuery::Term(_)
        | AnyQuery::Phrase(_)
        | AnyQuery::PhrasePrefix(_)
        | AnyQuery::Boolean(_)
        | AnyQuery::DisjunctionMax(_) => Some(boost),
    }
}

/// Multiplies `boost` by `factor`; `None` if `factor` or the product is too large.
fn product_with(boost: u64, factor: Score) -> Option<u64>
    requires { boost ≤ max_score }
    ensures { let product = boost * natural factor
        in result ≡ (if refusing.is_outside max_score factor || nat_lt max_score product
        then None else Some product) }
{
    if is_outside(MAX_SCORE, factor) {
        return None;
    }
    times(boost, Some(factor as u64))
}

/// Returns `boost`, which a constant score doesn't change; `None` if the constant is too large.
fn beside(boost: u64, constant: Score) -> Option<u64>
    requires { boost ≤ max_score }
    ensures { result ≡ (if refusing.is_outside max_score constant || nat_lt max_score boost
        then None else Some boost) }
{
    if is_outside(MAX_SCORE, constant) {
        return None;
    }
    Some(boost)
}
