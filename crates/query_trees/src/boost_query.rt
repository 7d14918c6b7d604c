//! Queries with a boost.

ghost use Rattle.std.specs.Prelude.{◌≡◌, IfOk};
ghost use Rattle.definitions.specs.Query as definitions;
ghost use Rattle.query_trees.specs.Queries.{query_of};

use crate::any_query::AnyQuery;
use crate::copies::copied_boost;
use crate::disposal::let_go;
use crate::query_display::{MAX_SHOWN, show_boost};
use crate::query_terms::query_terms;
use crate::query_traits::{QueryClone, QueryTree};
use std::alloc::{AllocError, Global};
use std::fmt;
use std::marker::Model;
use terms::Term;

/// A query whose scores are those of another, multiplied by a boost.
#[cycle(queries)]
pub struct BoostQuery {
    query: Box<AnyQuery>,
    boost: i64,
}

impl Model for BoostQuery {
    ghost use Rattle.std.specs.Prelude.{ℤ};
    ghost use Rattle.definitions.specs.Query as definitions;

    ghost Value = { definitions.Query × ℤ };

    ghost use Rattle.std.specs.Coded.{codes, coded_ℤ, coded×};
    ghost use Rattle.query_trees.specs.QueryCodesLaws.{query_code};

    ghost coded = { coded× (query_code (Prim.hlevel codes)) coded_ℤ };

    ghost use Rattle.query_trees.specs.Queries.{query_of};

    ghost view = { λ q. (query_of q.query.value, q.boost) };

    ghost size = { λ v. definitions.depth v.0 };

    ghost use Rattle.query_trees.specs.QueryDepthsLaws.{query_below};

    ghost size_decreases = { λ q h. query_below q.query.value };
}

impl BoostQuery {
    /// Boosts `query`. `check_query` refuses a boost that is negative, or above `MAX_SCORE`.
    pub fn new(alloc: Global, query: AnyQuery, boost: i64) -> Result<BoostQuery, AllocError>
        ensures { IfOk result (λ made. made ≡ (query_of query, boost)) }
    {
        let query = Box::new(alloc, query)?;
        Ok(BoostQuery { query, boost })
    }

    /// Returns the query that is boosted.
    pub fn query(&self) -> &AnyQuery
        ensures { query_of result.now ≡ self.now.0 }
    {
        &self.query
    }

    /// Returns the query that is boosted, and lets this one go.
    pub(crate) fn into_query(self) -> AnyQuery
        ensures { query_of result ≡ self.0 }
    {
        let BoostQuery { query, boost: _ } = self;
        Box::into_inner(query)
    }

    /// Returns the factor of its scores.
    pub fn boost(&self) -> i64
        ensures { result ≡ self.now.1 }
    {
        self.boost
    }
}

impl Drop for BoostQuery {
    fn drop(self) {
        let_go(AnyQuery::Boost(self));
    }
}

impl QueryClone for BoostQuery {
    fn try_clone(&self, alloc: Global) -> Result<BoostQuery, AllocError> {
        copied_boost(alloc, self)
    }
}

impl QueryTree for BoostQuery {
    ghost tree = { λ q. definitions.boost q.1 q.0 };

    fn needed_terms(&self, alloc: Global) -> Result<Vec<(&Term, bool)>, AllocError> {
        query_terms(alloc, self.query())
    }
}

/// Shows no more than 64 nodes of a path, and `..` in place of what is below them.
impl fmt::Debug for BoostQuery {
    fn fmt<W: fmt::Write>(&self, f: &mut fmt::Formatter<W>) -> fmt::Result {
        show_boost(f, self, MAX_SHOWN - 1)
    }
}
