//! The traits of queries.

ghost use Rattle.std.specs.Prelude.{◌≡◌, IfOk, map};
ghost use Rattle.definitions.specs.Query as definitions;
ghost use Rattle.definitions.specs.QueryTerms.{query_terms};
ghost use Rattle.query_trees.specs.NeededTerms.{needed};

use std::alloc::{AllocError, Global};
use terms::Term;

/// Queries that can be copied.
pub trait QueryClone: Sized {
    /// Copies the query. Calls don't nest, however deep the tree is.
    fn try_clone(&self, alloc: Global) -> Result<Self, AllocError>
        ensures { IfOk result (λ copy. copy ≡ self.now) };
}

/// A query of one form, or of any, as a tree.
pub trait QueryTree: QueryClone {
    // The query of the definitions.
    ghost tree: { Self → definitions.Query };

    /// Lists the terms that the query reads, of all nodes in order, each with whether its positions are needed. The
    /// prefix of a phrase prefix isn't among them. Calls don't nest, however deep the tree is.
    fn needed_terms(&self, alloc: Global) -> Result<Vec<(&Term, bool)>, AllocError>
        ensures { IfOk result (λ terms. map needed terms.items ≡ query_terms (tree self.now)) };
}
