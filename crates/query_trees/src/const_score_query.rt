//! Queries with a constant score.

ghost use Rattle.std.specs.Prelude.{◌≡◌, IfOk};
ghost use Rattle.definitions.specs.Query as definitions;
ghost use Rattle.query_trees.specs.Queries.{query_of};

use crate::any_query::AnyQuery;
use crate::copies::copied_const_score;
use crate::disposal::let_go;
use crate::query_display::{MAX_SHOWN, show_const_score};
use crate::query_terms::query_terms;
use crate::query_traits::{QueryClone, QueryTree};
use std::alloc::{AllocError, Global};
use std::fmt;
use std::marker::Model;
use terms::Term;

/// A query for the documents of another, all with one score.
#[cycle(queries)]
pub struct ConstScoreQuery {
    query: Box<AnyQuery>,
    score: i64,
}

impl Model for ConstScoreQuery {
    ghost use Rattle.std.specs.Prelude.{ℤ};
    ghost use Rattle.definitions.specs.Query as definitions;

    ghost Value = { definitions.Query × ℤ };

    ghost use Rattle.std.specs.Coded.{codes, coded_ℤ, coded×};
    ghost use Rattle.query_trees.specs.QueryCodesLaws.{query_code};

    ghost coded = { coded× (query_code (Prim.hlevel codes)) coded_ℤ };

    ghost use Rattle.query_trees.specs.Queries.{query_of};

    ghost view = { λ q. (query_of q.query.value, q.score) };

    ghost size = { λ v. definitions.depth v.0 };

    ghost use Rattle.query_trees.specs.QueryDepthsLaws.{query_below};

    ghost size_decreases = { λ q h. query_below q.query.value };
}

impl ConstScoreQuery {
    /// Gives the documents of `query` the score `score`. `check_query` refuses one that is negative, or above
    /// `MAX_SCORE`.
    pub fn new(alloc: Global, query: AnyQuery, score: i64) -> Result<ConstScoreQuery, AllocError>
        ensures { IfOk result (λ made. made ≡ (query_of query, score)) }
    {
        let query = Box::new(alloc, query)?;
        Ok(ConstScoreQuery { query, score })
    }

    /// Returns the query that the documents match.
    pub fn query(&self) -> &AnyQuery
        ensures { query_of result.now ≡ self.now.0 }
    {
        &self.query
    }

    /// Returns the query that the documents match, and lets this one go.
    pub(crate) fn into_query(self) -> AnyQuery
        ensures { query_of result ≡ self.0 }
    {
        let ConstScoreQuery { query, score: _ } = self;
        Box::into_inner(query)
    }

    /// Returns the score of each document.
    pub fn score(&self) -> i64
        ensures { result ≡ self.now.1 }
    {
        self.score
    }
}

impl Drop for ConstScoreQuery {
    fn drop(self) {
        let_go(AnyQuery::ConstScore(self));
    }
}

impl QueryClone for ConstScoreQuery {
    fn try_clone(&self, alloc: Global) -> Result<ConstScoreQuery, AllocError> {
        copied_const_score(alloc, self)
    }
}

impl QueryTree for ConstScoreQuery {
    ghost tree = { λ q. definitions.const_score q.1 q.0 };

    fn needed_terms(&self, alloc: Global) -> Result<Vec<(&Term, bool)>, AllocError> {
        query_terms(alloc, self.query())
    }
}

/// Shows no more than 64 nodes of a path, and `..` in place of what is below them.
impl fmt::Debug for ConstScoreQuery {
    fn fmt<W: fmt::Write>(&self, f: &mut fmt::Formatter<W>) -> fmt::Result {
        show_const_score(f, self, MAX_SHOWN - 1)
    }
}
