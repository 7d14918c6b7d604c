//! The query that every document matches.

ghost use Rattle.definitions.specs.Query as definitions;

use crate::query_traits::{QueryClone, QueryTree};
use std::alloc::{AllocError, Global};
use terms::Term;

/// A query that every document matches.
#[derive(Clone, Copy, Debug)]
pub struct AllQuery;

impl QueryClone for AllQuery {
    fn try_clone(&self, _alloc: Global) -> Result<AllQuery, AllocError> {
        Ok(*self)
    }
}

impl QueryTree for AllQuery {
    ghost tree = { λ q. definitions.all };

    fn needed_terms(&self, alloc: Global) -> Result<Vec<(&Term, bool)>, AllocError> {
        Ok(Vec::new(alloc))
    }
}
