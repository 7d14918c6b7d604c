//! Queries for the documents of several queries, by their best score.

ghost use Rattle.std.specs.Prelude.{◌≡◌, pos};
ghost use Rattle.definitions.specs.Query as definitions;
ghost use Rattle.query_trees.specs.Queries.{queries_of};

use crate::any_query::AnyQuery;
use crate::copies::copied_max;
use crate::disposal::let_go;
use crate::query_display::{MAX_SHOWN, show_max};
use crate::query_terms::disjuncts_terms;
use crate::query_traits::{QueryClone, QueryTree};
use std::alloc::{AllocError, Global};
use std::fmt;
use std::marker::Model;
use terms::Term;

/// A query for documents that match at least one of several queries; the score is the greatest of theirs, and
/// `tie_breaker` thousandths of the others.
#[cycle(queries)]
pub struct DisjunctionMaxQuery {
    disjuncts: Vec<AnyQuery>,
    tie_breaker: i64,
}

impl Model for DisjunctionMaxQuery {
    ghost use Rattle.std.specs.Prelude.{ℤ};
    ghost use Rattle.definitions.specs.Query as definitions;

    ghost Value = { definitions.Queries × ℤ };

    ghost use Rattle.std.specs.Coded.{codes, coded_ℤ, coded×};
    ghost use Rattle.query_trees.specs.QueryCodesLaws.{queries_code};

    ghost coded = { coded× (queries_code (Prim.hlevel codes)) coded_ℤ };

    ghost use Rattle.query_trees.specs.Queries.{queries_of};

    ghost view = { λ q. (queries_of q.disjuncts.items, q.tie_breaker) };

    ghost size = { λ v. definitions.queries_depth v.0 };

    ghost use Rattle.query_trees.specs.QueryDepthsLaws.{queries_below};

    ghost size_decreases = { λ q h. queries_below q.disjuncts.items };
}

impl DisjunctionMaxQuery {
    /// Makes the query for `disjuncts` where only the greatest score counts.
    pub fn new(disjuncts: Vec<AnyQuery>) -> DisjunctionMaxQuery
        ensures { result ≡ (queries_of disjuncts.items, pos 0) }
    {
        DisjunctionMaxQuery::with_tie_breaker(disjuncts, 0)
    }

    /// Makes the query for `disjuncts` with a tie breaker in thousandths.
    pub fn with_tie_breaker(disjuncts: Vec<AnyQuery>, tie_breaker: i64) -> DisjunctionMaxQuery
        ensures { result ≡ (queries_of disjuncts.items, tie_breaker) }
    {
        DisjunctionMaxQuery {
            disjuncts,
            tie_breaker,
        }
    }

    /// Returns the queries, in order.
    pub fn disjuncts(&self) -> &[AnyQuery]
        ensures { queries_of result.now ≡ self.now.0 }
    {
        &self.disjuncts
    }

    /// Returns the queries, in order, and lets this one go.
    pub(crate) fn into_disjuncts(self) -> Vec<AnyQuery>
        ensures { queries_of result.items ≡ self.0 }
    {
        let DisjunctionMaxQuery {
            disjuncts,
            tie_breaker: _,
        } = self;
        disjuncts
    }

    /// Returns the thousandths of the other scores that count.
    pub fn tie_breaker(&self) -> i64
        ensures { result ≡ self.now.1 }
    {
        self.tie_breaker
    }
}

impl Drop for DisjunctionMaxQuery {
    fn drop(self) {
        let_go(AnyQuery::DisjunctionMax(self));
    }
}

impl QueryClone for DisjunctionMaxQuery {
    fn try_clone(&self, alloc: Global) -> Result<DisjunctionMaxQuery, AllocError> {
        copied_max(alloc, self)
    }
}

impl QueryTree for DisjunctionMaxQuery {
    ghost tree = { λ q. definitions.disjunction_max q.0 q.1 };

    fn needed_terms(&self, alloc: Global) -> Result<Vec<(&Term, bool)>, AllocError> {
        disjuncts_terms(alloc, self.disjuncts())
    }
}

/// Shows no more than 64 nodes of a path, and `..` in place of what is below them.
impl fmt::Debug for DisjunctionMaxQuery {
    fn fmt<W: fmt::Write>(&self, f: &mut fmt::Formatter<W>) -> fmt::Result {
        show_max(f, self, MAX_SHOWN - 1)
    }
}
