//! Queries for phrases.

ghost use Rattle.definitions.specs.Query as definitions;
ghost use Rattle.std.specs.Prelude.{◌≡◌, IfOk, map, true};
ghost use Rattle.std.specs.List.{enumerate_from};
ghost use Rattle.definitions.specs.Phrases.{by_offset};
ghost use Rattle.definitions.specs.Scoring.{phrase_field};
ghost use Rattle.query_trees.specs.PhraseTerms.{ArePhraseTerms, are_phrase_terms};

use crate::phrase_terms::{
    copied_terms, copied_with_offsets, in_a_row, show_terms, sort_by_offset,
};
use crate::query_terms::push_with_positions;
use crate::query_traits::{QueryClone, QueryTree};
use std::alloc::{AllocError, Global};
use std::fmt;
use std::marker::Model;
use terms::{Field, Term};

/// A query for documents that hold terms of one field at the distances of their offsets.
/// Only the order of the offsets is kept, equal ones as they were given, also of a phrase in JSON: no match depends on
/// another order.
#[derive(Drop)]
pub struct PhraseQuery {
    phrase_terms: Vec<(usize, Term)>,
    slop: u32,
}

impl Model for PhraseQuery {
    ghost use Rattle.std.specs.Prelude.{ℕ};
    ghost use Rattle.definitions.specs.Query.{Terms};
    ghost use Rattle.query_trees.specs.PhraseTerms.{AreSortedTerms};

    ghost Value = { Terms × ℕ };

    ghost view = { λ q. (q.phrase_terms.items, q.slop) };

    ghost invariant = { λ q. AreSortedTerms 2 q.phrase_terms.items };
}

impl PhraseQuery {
    /// Makes the phrase of `terms` at consecutive offsets.
    pub fn new(alloc: Global, terms: Vec<Term>) -> Result<PhraseQuery, AllocError>
        requires { are_phrase_terms 2 (enumerate_from 0 terms.items) ≡ true }
        ensures { IfOk result (λ query. query ≡ (enumerate_from 0 terms.items, 0)) }
    {
        let phrase_terms = in_a_row(alloc, terms)?;
        Ok(PhraseQuery {
            phrase_terms,
            slop: 0,
        })
    }

    /// Makes the phrase of terms at offsets.
    pub fn new_with_offset(terms: Vec<(usize, Term)>) -> Result<PhraseQuery, AllocError>
        requires { are_phrase_terms 2 terms.items ≡ true }
        ensures { IfOk result (λ query. query ≡ (by_offset terms.items, 0)) }
    {
        PhraseQuery::new_with_offset_and_slop(terms, 0)
    }

    /// Makes the phrase of terms at offsets, which may be `slop` positions off in total.
    pub fn new_with_offset_and_slop(
        terms: Vec<(usize, Term)>,
        slop: u32,
    ) -> Result<PhraseQuery, AllocError>
        requires { are_phrase_terms 2 terms.items ≡ true }
        ensures { IfOk result (λ query. query ≡ (by_offset terms.items, slop)) }
    {
        let mut phrase_terms = terms;
        sort_by_offset(&mut phrase_terms)?;
        Ok(PhraseQuery { phrase_terms, slop })
    }

    /// Sets the slop: how many positions off the terms may be in total. A new phrase has 0.
    pub fn set_slop(&mut self, value: u32)
        ensures { self.new ≡ (self.old.0, value) }
    {
        self.slop = value;
    }

    /// Returns the field of the terms.
    pub fn field(&self) -> Field
        ensures { result ≡ phrase_field self.now.0 }
    {
        self.phrase_terms[0].1.field()
    }

    /// Copies the terms, in the order of their offsets.
    pub fn phrase_terms(&self, alloc: Global) -> Result<Vec<Term>, AllocError>
        ensures { IfOk result (λ terms. terms.items ≡ map (λ t. t.1) self.now.0) }
    {
        copied_terms(alloc, &self.phrase_terms)
    }

    /// Returns the terms with their offsets.
    pub fn terms(&self) -> &[(usize, Term)]
        ensures value { result.now ≡ self.now.0 }
        ensures phrase { ArePhraseTerms 2 self.now.0 }
        ensures sorted { by_offset self.now.0 ≡ self.now.0 }
    {
        &self.phrase_terms
    }

    /// Returns how many positions off the terms may be in total.
    pub fn slop(&self) -> u32
        ensures { result ≡ self.now.1 }
    {
        self.slop
    }

    /// Copies the query.
    pub(crate) fn copied(&self, alloc: Global) -> Result<PhraseQuery, AllocError>
        ensures { IfOk result (λ copy. copy ≡ self.now) }
    {
        let phrase_terms = copied_with_offsets(alloc, &self.phrase_terms)?;
        Ok(PhraseQuery {
            phrase_terms,
            slop: self.slop,
        })
    }
}

impl QueryClone for PhraseQuery {
    fn try_clone(&self, alloc: Global) -> Result<PhraseQuery, AllocError> {
        self.copied(alloc)
    }
}

impl QueryTree for PhraseQuery {
    ghost tree = { λ q. definitions.phrase q.0 q.1 };

    fn needed_terms(&self, alloc: Global) -> Result<Vec<(&Term, bool)>, AllocError> {
        let mut found = Vec::new(alloc);
        push_with_positions(&mut found, self.terms())?;
        Ok(found)
    }
}

impl fmt::Debug for PhraseQuery {
    fn fmt<W: fmt::Write>(&self, f: &mut fmt::Formatter<W>) -> fmt::Result {
        f.write_str("PhraseQuery(")?;
        show_terms(f, &self.phrase_terms)?;
        write!(f, "slop={})", self.slop)
    }
}
