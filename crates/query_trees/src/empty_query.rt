//! The query that no document matches.

ghost use Rattle.definitions.specs.Query as definitions;

use crate::query_traits::{QueryClone, QueryTree};
use std::alloc::{AllocError, Global};
use terms::Term;

/// A query that no document matches.
#[derive(Clone, Copy, Debug)]
pub struct EmptyQuery;

impl QueryClone for EmptyQuery {
    fn try_clone(&self, _alloc: Global) -> Result<EmptyQuery, AllocError> {
        Ok(*self)
    }
}

impl QueryTree for EmptyQuery {
    ghost tree = { λ q. definitions.empty };

    fn needed_terms(&self, alloc: Global) -> Result<Vec<(&Term, bool)>, AllocError> {
        Ok(Vec::new(alloc))
    }
}
