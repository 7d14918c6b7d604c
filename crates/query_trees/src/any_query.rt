//! Queries of any form.

ghost use Rattle.query_trees.specs.Queries.{query_of};

use crate::all_query::AllQuery;
use crate::boolean_query::BooleanQuery;
use crate::boost_query::BoostQuery;
use crate::const_score_query::ConstScoreQuery;
use crate::copies::copied_query;
use crate::disjunction_max_query::DisjunctionMaxQuery;
use crate::empty_query::EmptyQuery;
use crate::phrase_prefix_query::PhrasePrefixQuery;
use crate::phrase_query::PhraseQuery;
use crate::query_display::{MAX_SHOWN, show_query};
use crate::query_terms::query_terms;
use crate::query_traits::{QueryClone, QueryTree};
use crate::term_query::TermQuery;
use std::alloc::{AllocError, Global};
use std::fmt;
use terms::Term;

/// A query of any form.
#[cycle(queries)]
#[derive(Drop)]
pub enum AnyQuery {
    /// Every document.
    All(AllQuery),
    /// No document.
    Empty(EmptyQuery),
    /// Documents that hold a term.
    Term(TermQuery),
    /// Documents that hold terms at given distances.
    Phrase(PhraseQuery),
    /// Documents that hold terms at given distances, the last of which is a prefix.
    PhrasePrefix(PhrasePrefixQuery),
    /// Documents that match clauses.
    Boolean(BooleanQuery),
    /// Documents that match one of several queries; the score is the best one.
    DisjunctionMax(DisjunctionMaxQuery),
    /// Documents that match a query; the score is multiplied by a factor.
    Boost(BoostQuery),
    /// Documents that match a query; the score is constant.
    ConstScore(ConstScoreQuery),
}

impl QueryClone for AnyQuery {
    fn try_clone(&self, alloc: Global) -> Result<AnyQuery, AllocError> {
        copied_query(alloc, self)
    }
}

impl QueryTree for AnyQuery {
    ghost tree = { query_of };

    fn needed_terms(&self, alloc: Global) -> Result<Vec<(&Term, bool)>, AllocError> {
        query_terms(alloc, self)
    }
}

/// Shows no more than 64 nodes of a path, and `..` in place of what is below them.
impl fmt::Debug for AnyQuery {
    fn fmt<W: fmt::Write>(&self, f: &mut fmt::Formatter<W>) -> fmt::Result {
        show_query(f, self, MAX_SHOWN)
    }
}
