//! Queries for phrases whose last term is a prefix.

ghost use Rattle.definitions.specs.Query as definitions;
ghost use Rattle.std.specs.Prelude.{◌≡◌, IfOk, map, true};
ghost use Rattle.std.specs.List.{enumerate_from};
ghost use Rattle.definitions.specs.Phrases.{by_offset, whole_terms};
ghost use Rattle.definitions.specs.Scoring.{phrase_field};
ghost use Rattle.query_trees.specs.PhraseTerms.{ArePhraseTerms, are_phrase_terms};

use crate::phrase_terms::{
    copied_terms, copied_with_offsets, in_a_row, show_terms, sort_by_offset,
};
use crate::query_terms::push_with_positions;
use crate::query_traits::{QueryClone, QueryTree};
use std::alloc::{AllocError, Global};
use std::fmt;
use std::marker::Model;
use terms::{Field, Term};

/// The default for the most terms of a prefix.
const DEFAULT_MAX_EXPANSIONS: u32 = 50;

/// A query for documents that hold terms of one field at the distances of their offsets. The last one is a prefix: it
/// matches each term that begins with it.
#[derive(Drop)]
pub struct PhrasePrefixQuery {
    terms: Vec<(usize, Term)>,
    max_expansions: u32,
}

impl Model for PhrasePrefixQuery {
    ghost use Rattle.std.specs.Prelude.{ℕ};
    ghost use Rattle.definitions.specs.Query.{Terms};
    ghost use Rattle.query_trees.specs.PhraseTerms.{AreSortedTerms};

    ghost Value = { Terms × ℕ };

    ghost view = { λ q. (q.terms.items, q.max_expansions) };

    ghost invariant = { λ q. AreSortedTerms 1 q.terms.items };
}

impl PhrasePrefixQuery {
    /// Makes the query for `terms` at consecutive offsets. The last one is the prefix.
    pub fn new(alloc: Global, terms: Vec<Term>) -> Result<PhrasePrefixQuery, AllocError>
        requires { are_phrase_terms 1 (enumerate_from 0 terms.items) ≡ true }
        ensures { IfOk result (λ query. query ≡ (enumerate_from 0 terms.items, 50)) }
    {
        let terms = in_a_row(alloc, terms)?;
        Ok(PhrasePrefixQuery {
            terms,
            max_expansions: DEFAULT_MAX_EXPANSIONS,
        })
    }

    /// Makes the query for terms at offsets. The last one of those with the greatest offset is the prefix.
    pub fn new_with_offset(terms: Vec<(usize, Term)>) -> Result<PhrasePrefixQuery, AllocError>
        requires { are_phrase_terms 1 terms.items ≡ true }
        ensures { IfOk result (λ query. query ≡ (by_offset terms.items, 50)) }
    {
        let mut terms = terms;
        sort_by_offset(&mut terms)?;
        Ok(PhrasePrefixQuery {
            terms,
            max_expansions: DEFAULT_MAX_EXPANSIONS,
        })
    }

    /// Sets the most terms that the prefix expands to. `check_query` refuses fewer than 4294967295.
    pub fn set_max_expansions(&mut self, value: u32)
        ensures { self.new ≡ (self.old.0, value) }
    {
        self.max_expansions = value;
    }

    /// Returns the field of the terms.
    pub fn field(&self) -> Field
        ensures { result ≡ phrase_field self.now.0 }
    {
        self.terms[0].1.field()
    }

    /// Copies the terms in the order of their offsets, without the prefix.
    pub fn phrase_terms(&self, alloc: Global) -> Result<Vec<Term>, AllocError>
        ensures { IfOk result (λ terms. terms.items ≡ map (λ t. t.1) (whole_terms self.now.0)) }
    {
        copied_terms(alloc, self.whole_terms())
    }

    /// Returns the terms with their offsets. The last one is the prefix.
    pub fn terms(&self) -> &[(usize, Term)]
        ensures value { result.now ≡ self.now.0 }
        ensures phrase { ArePhraseTerms 1 self.now.0 }
        ensures sorted { by_offset self.now.0 ≡ self.now.0 }
    {
        &self.terms
    }

    /// Returns the terms with their offsets, without the prefix.
    pub fn whole_terms(&self) -> &[(usize, Term)]
        ensures { result.now ≡ whole_terms self.now.0 }
    {
        &self.terms[..self.terms.len() - 1]
    }

    /// Returns the most terms that the prefix expands to.
    pub fn max_expansions(&self) -> u32
        ensures { result ≡ self.now.1 }
    {
        self.max_expansions
    }

    /// Copies the query.
    pub(crate) fn copied(&self, alloc: Global) -> Result<PhrasePrefixQuery, AllocError>
        ensures { IfOk result (λ copy. copy ≡ self.now) }
    {
        let terms = copied_with_offsets(alloc, &self.terms)?;
        Ok(PhrasePrefixQuery {
            terms,
            max_expansions: self.max_expansions,
        })
    }
}

impl QueryClone for PhrasePrefixQuery {
    fn try_clone(&self, alloc: Global) -> Result<PhrasePrefixQuery, AllocError> {
        self.copied(alloc)
    }
}

impl QueryTree for PhrasePrefixQuery {
    ghost tree = { λ q. definitions.phrase_prefix q.0 q.1 };

    fn needed_terms(&self, alloc: Global) -> Result<Vec<(&Term, bool)>, AllocError> {
        let mut found = Vec::new(alloc);
        push_with_positions(&mut found, self.whole_terms())?;
        Ok(found)
    }
}

impl fmt::Debug for PhrasePrefixQuery {
    fn fmt<W: fmt::Write>(&self, f: &mut fmt::Formatter<W>) -> fmt::Result {
        f.write_str("PhrasePrefixQuery(")?;
        show_terms(f, &self.terms)?;
        write!(f, "max_expansions={})", self.max_expansions)
    }
}
