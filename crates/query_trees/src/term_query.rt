//! Queries for a term.

ghost use Rattle.definitions.specs.Query as definitions;
ghost use Rattle.std.specs.Prelude.{◌≡◌, IfOk};
ghost use Rattle.options.specs.RecordOption.{record_option_of};

use crate::phrase_terms::copied;
use crate::query_terms::push_term;
use crate::query_traits::{QueryClone, QueryTree};
use options::IndexRecordOption;
use std::alloc::{AllocError, Global};
use std::fmt;
use std::marker::Model;
use terms::Term;

/// A query for documents that hold a term.
#[derive(Drop)]
pub struct TermQuery {
    term: Term,
    index_record_option: IndexRecordOption,
}

impl Model for TermQuery {
    ghost use Rattle.std.specs.Prelude.{List, ℕ};
    ghost use Rattle.definitions.specs.Schema as definitions;
    ghost use Rattle.options.specs.RecordOption.{record_option_of};

    ghost Value = { List ℕ × definitions.IndexRecordOption };

    ghost view = { λ q. (q.term, record_option_of q.index_record_option) };
}

impl TermQuery {
    /// Makes the query for `term`. Scores depend on its frequencies if `index_record_option` has them.
    pub fn new(term: Term, index_record_option: IndexRecordOption) -> TermQuery
        ensures { result ≡ (term, record_option_of index_record_option) }
    {
        TermQuery {
            term,
            index_record_option,
        }
    }

    /// Returns the term.
    pub fn term(&self) -> &Term
        ensures { result.now ≡ self.now.0 }
    {
        &self.term
    }

    /// Returns what is read of the term's postings.
    pub fn index_record_option(&self) -> IndexRecordOption
        ensures { record_option_of result ≡ self.now.1 }
    {
        self.index_record_option
    }

    /// Copies the query.
    pub(crate) fn copied(&self, alloc: Global) -> Result<TermQuery, AllocError>
        ensures { IfOk result (λ copy. copy ≡ self.now) }
    {
        let term = copied(alloc, &self.term)?;
        Ok(TermQuery::new(term, self.index_record_option))
    }
}

impl QueryClone for TermQuery {
    fn try_clone(&self, alloc: Global) -> Result<TermQuery, AllocError> {
        self.copied(alloc)
    }
}

impl QueryTree for TermQuery {
    ghost tree = { λ q. definitions.term q.0 q.1 };

    fn needed_terms(&self, alloc: Global) -> Result<Vec<(&Term, bool)>, AllocError> {
        let mut found = Vec::new(alloc);
        push_term(&mut found, &self.term)?;
        Ok(found)
    }
}

impl fmt::Debug for TermQuery {
    fn fmt<W: fmt::Write>(&self, f: &mut fmt::Formatter<W>) -> fmt::Result {
        write!(f, "TermQuery({:?})", self.term.serialized_term())
    }
}
