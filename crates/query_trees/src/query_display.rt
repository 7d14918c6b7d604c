//! Queries shown, down to a depth.

use crate::any_query::AnyQuery;
use crate::boolean_query::BooleanQuery;
use crate::boost_query::BoostQuery;
use crate::const_score_query::ConstScoreQuery;
use crate::disjunction_max_query::DisjunctionMaxQuery;
use std::fmt;

/// How many nodes of a path are shown, of which a query that `check_query` accepts has no more. `..` stands for what is
/// below them.
pub(crate) const MAX_SHOWN: usize = 64;

/// Shows `query`, with no more than `nodes` nodes of a path.
#[cycle(show_query)]
pub(crate) fn show_query<W: fmt::Write>(
    f: &mut fmt::Formatter<W>,
    query: &AnyQuery,
    nodes: usize,
) -> fmt::Result {
    if nodes == 0 {
        return f.write_str("..");
    }
    match query {
        AnyQuery::All(query) => write!(f, "All({query:?}")?,
        AnyQuery::Empty(query) => write!(f, "Empty({query:?}")?,
        AnyQuery::Term(query) => write!(f, "Term({query:?}")?,
        AnyQuery::Phrase(query) => write!(f, "Phrase({query:?}")?,
        AnyQuery::PhrasePrefix(query) => write!(f, "PhrasePrefix({query:?}")?,
        AnyQuery::Boolean(query) => {
            f.write_str("Boolean(")?;
            show_boolean(f, query, nodes - 1)?;
        }
        AnyQuery::DisjunctionMax(query) => {
            f.write_str("DisjunctionMax(")?;
            show_max(f, query, nodes - 1)?;
        }
        AnyQuery::Boost(query) => {
            f.write_str("Boost(")?;
            show_boost(f, query, nodes - 1)?;
        }
        AnyQuery::ConstScore(query) => {
            f.write_str("ConstScore(")?;
            show_const_score(f, query, nodes - 1)?;
        }
    }
    f.write_str(")")
}

/// Shows a boolean query, with no more than `nodes` nodes of a path below it.
#[cycle(show_query)]
pub(crate) fn show_boolean<W: fmt::Write>(
    f: &mut fmt::Formatter<W>,
    query: &BooleanQuery,
    nodes: usize,
) -> fmt::Result {
    f.write_str("BooleanQuery { subqueries: [")?;
    for (index, (occur, query)) in query.clauses().iter().enumerate() {
        if index > 0 {
            f.write_str(", ")?;
        }
        write!(f, "({occur:?}, ")?;
        show_query(f, query, nodes)?;
        f.write_str(")")?;
    }
    write!(
        f,
        "], minimum_number_should_match: {} }}",
        query.get_minimum_number_should_match()
    )
}

/// Shows a query by the best score, with no more than `nodes` nodes of a path below it.
#[cycle(show_query)]
pub(crate) fn show_max<W: fmt::Write>(
    f: &mut fmt::Formatter<W>,
    query: &DisjunctionMaxQuery,
    nodes: usize,
) -> fmt::Result {
    f.write_str("DisjunctionMaxQuery { disjuncts: [")?;
    for (index, query) in query.disjuncts().iter().enumerate() {
        if index > 0 {
            f.write_str(", ")?;
        }
        show_query(f, query, nodes)?;
    }
    write!(f, "], tie_breaker: {} }}", query.tie_breaker())
}

/// Shows a query with a boost, with no more than `nodes` nodes of a path below it.
#[cycle(show_query)]
pub(crate) fn show_boost<W: fmt::Write>(
    f: &mut fmt::Formatter<W>,
    query: &BoostQuery,
    nodes: usize,
) -> fmt::Result {
    f.write_str("BoostQuery { query: ")?;
    show_query(f, query.query(), nodes)?;
    write!(f, ", boost: {} }}", query.boost())
}

/// Shows a query with a constant score, with no more than `nodes` nodes of a path below it.
#[cycle(show_query)]
pub(crate) fn show_const_score<W: fmt::Write>(
    f: &mut fmt::Formatter<W>,
    query: &ConstScoreQuery,
    nodes: usize,
) -> fmt::Result {
    f.write_str("ConstScoreQuery { query: ")?;
    show_query(f, query.query(), nodes)?;
    write!(f, ", score: {} }}", query.score())
}
