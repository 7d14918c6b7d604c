//! Boolean queries, which consist of clauses.

ghost use Rattle.std.specs.Prelude.{◌≡◌, IfOk, map};
ghost use Rattle.definitions.specs.Query as definitions;
ghost use Rattle.definitions.specs.Schema.{with_freqs};
ghost use Rattle.query_trees.specs.Queries.{clauses_of, each_asks, for_each_term, queries_of};
ghost use Rattle.query_trees.specs.declared.any_query.AnyQuery.TheVariants as forms;

use crate::any_query::AnyQuery;
use crate::copies::copied_boolean;
use crate::disposal::let_go;
use crate::occur::Occur;
use crate::query_display::{MAX_SHOWN, show_boolean};
use crate::query_terms::clauses_terms;
use crate::query_traits::{QueryClone, QueryTree};
use crate::term_query::TermQuery;
use options::IndexRecordOption;
use std::alloc::{AllocError, Global};
use std::fmt;
use std::marker::Model;
use terms::Term;

/// A query of clauses, with a minimum of the `Should` ones that must match.
#[cycle(queries)]
pub struct BooleanQuery {
    subqueries: Vec<(Occur, AnyQuery)>,
    minimum_number_should_match: usize,
}

impl Model for BooleanQuery {
    ghost use Rattle.std.specs.Prelude.{ℕ};
    ghost use Rattle.definitions.specs.Query as definitions;

    ghost Value = { definitions.Clauses × ℕ };

    ghost use Rattle.std.specs.Coded.{codes, coded_ℕ, coded×};
    ghost use Rattle.query_trees.specs.QueryCodesLaws.{clauses_code};

    ghost coded = { coded× (clauses_code (Prim.hlevel codes)) coded_ℕ };

    ghost use Rattle.definitions.specs.Schema.{with_freqs};
    ghost use Rattle.query_trees.specs.Queries.{clauses_of};

    ghost view = { λ q. (clauses_of q.subqueries.items, q.minimum_number_should_match) };

    ghost size = { λ v. definitions.clauses_depth v.0 };

    ghost use Rattle.query_trees.specs.QueryDepthsLaws.{clauses_below};

    ghost size_decreases = { λ q h. clauses_below q.subqueries.items };
}

impl BooleanQuery {
    /// Makes the query of the clauses `subqueries`. If there are any, and all are `Should`, at least one must match.
    pub fn new(subqueries: Vec<(Occur, AnyQuery)>) -> BooleanQuery
        ensures { let clauses = clauses_of subqueries.items
            in result ≡ (clauses, definitions.default_minimum clauses) }
    {
        let minimum_number_should_match = default_minimum(&subqueries);
        BooleanQuery::with_minimum_required_clauses(subqueries, minimum_number_should_match)
    }

    /// Makes the query of the clauses `subqueries`, of which at least `minimum_number_should_match` of the `Should`
    /// ones must match.
    pub fn with_minimum_required_clauses(
        subqueries: Vec<(Occur, AnyQuery)>,
        minimum_number_should_match: usize,
    ) -> BooleanQuery
        ensures { result ≡ (clauses_of subqueries.items, minimum_number_should_match) }
    {
        BooleanQuery {
            subqueries,
            minimum_number_should_match,
        }
    }

    /// Returns the number of the `Should` clauses that must match.
    pub fn get_minimum_number_should_match(&self) -> usize
        ensures { result ≡ self.now.1 }
    {
        self.minimum_number_should_match
    }

    /// Sets the number of the `Should` clauses that must match.
    pub fn set_minimum_number_should_match(&mut self, minimum_number_should_match: usize)
        ensures { self.new ≡ (self.old.0, minimum_number_should_match) }
    {
        self.minimum_number_should_match = minimum_number_should_match;
    }

    /// Returns the clauses, in order, and lets the query go.
    pub fn into_clauses(self) -> Vec<(Occur, AnyQuery)>
        ensures { clauses_of result.items ≡ self.0 }
    {
        let BooleanQuery {
            subqueries,
            minimum_number_should_match: _,
        } = self;
        subqueries
    }

    /// Returns the clauses, in order.
    pub fn clauses(&self) -> &[(Occur, AnyQuery)]
        ensures { clauses_of result.now ≡ self.now.0 }
    {
        &self.subqueries
    }
}

impl BooleanQuery {
    /// Makes the query for documents that match each of `queries`.
    #[tactic(auto, using(crate::proofs::Clauses::each_of, crate::proofs::Clauses::no_minimum))]
    pub fn intersection(alloc: Global, queries: Vec<AnyQuery>) -> Result<BooleanQuery, AllocError>
        ensures { IfOk result (λ query. query ≡ (each_asks definitions.must (queries_of queries.items), 0)) }
    {
        let subqueries = with_occur(alloc, Occur::Must, queries)?;
        Ok(BooleanQuery::new(subqueries))
    }

    /// Makes the query for documents that match at least one of `queries`.
    #[tactic(auto, using(crate::proofs::Clauses::each_of))]
    pub fn union(alloc: Global, queries: Vec<AnyQuery>) -> Result<BooleanQuery, AllocError>
        ensures { let clauses = each_asks definitions.should (queries_of queries.items)
            in IfOk result (λ query. query ≡ (clauses, definitions.default_minimum clauses)) }
    {
        let subqueries = with_occur(alloc, Occur::Should, queries)?;
        Ok(BooleanQuery::new(subqueries))
    }

    /// Makes the query for documents that match at least `minimum_required_clauses` of `queries`.
    #[tactic(auto, using(crate::proofs::Clauses::each_of))]
    pub fn union_with_minimum_required_clauses(
        alloc: Global,
        queries: Vec<AnyQuery>,
        minimum_required_clauses: usize,
    ) -> Result<BooleanQuery, AllocError>
        ensures { let clauses = each_asks definitions.should (queries_of queries.items)
            in IfOk result (λ query. query ≡ (clauses, minimum_required_clauses)) }
    {
        let subqueries = with_occur(alloc, Occur::Should, queries)?;
        Ok(BooleanQuery::with_minimum_required_clauses(subqueries, minimum_required_clauses))
    }

    /// Makes the query for documents that hold at least one of `terms`. Scores depend on the frequencies of the terms.
    #[tactic(auto, using(crate::proofs::Clauses::terms_of))]
    pub fn new_multiterms_query(alloc: Global, terms: Vec<Term>) -> Result<BooleanQuery, AllocError>
        ensures { let clauses = each_asks definitions.should (for_each_term terms.items)
            in IfOk result (λ query. query ≡ (clauses, definitions.default_minimum clauses)) }
    {
        let queries = term_queries(alloc, terms)?;
        BooleanQuery::union(alloc, queries)
    }
}

impl From<Vec<(Occur, AnyQuery)>> for BooleanQuery {
    ghost from_gives = { λ subqueries query.
        let clauses = clauses_of subqueries.items in query ≡ (clauses, definitions.default_minimum clauses) };

    fn from(subqueries: Vec<(Occur, AnyQuery)>) -> BooleanQuery {
        BooleanQuery::new(subqueries)
    }
}

/// Makes a clause of each of `queries`, all with `occur`.
pub fn with_occur(
    alloc: Global,
    occur: Occur,
    queries: Vec<AnyQuery>,
) -> Result<Vec<(Occur, AnyQuery)>, AllocError>
    ensures { IfOk result (λ clauses. clauses.items ≡ map (λ query. (occur, query)) queries.items) }
{
    queries
        .into_iter()
        .map(|query| (occur, query))
        .collect(alloc)
}

/// Makes the query of each of `terms`, with frequencies.
fn term_queries(alloc: Global, terms: Vec<Term>) -> Result<Vec<AnyQuery>, AllocError>
    ensures { IfOk result (λ queries. queries.items ≡ map (λ term. forms.Term (term, with_freqs)) terms.items) }
{
    terms
        .into_iter()
        .map(|term| AnyQuery::Term(TermQuery::new(term, IndexRecordOption::WithFreqs)))
        .collect(alloc)
}

/// Returns the default for the number of `Should` clauses that must match.
fn default_minimum(clauses: &[(Occur, AnyQuery)]) -> usize
    ensures { result ≡ definitions.default_minimum (clauses_of clauses.now) }
{
    if !clauses.is_empty() && all_should(clauses) {
        1
    } else {
        0
    }
}

/// Whether all clauses are `Should`.
fn all_should(clauses: &[(Occur, AnyQuery)]) -> bool
    ensures { result ≡ definitions.all_should (clauses_of clauses.now) }
{
    for (occur, _query) in clauses {
        if *occur != Occur::Should {
            return false;
        }
    }
    true
}

impl Drop for BooleanQuery {
    fn drop(self) {
        let_go(AnyQuery::Boolean(self));
    }
}

impl QueryClone for BooleanQuery {
    fn try_clone(&self, alloc: Global) -> Result<BooleanQuery, AllocError> {
        copied_boolean(alloc, self)
    }
}

impl QueryTree for BooleanQuery {
    ghost tree = { λ q. definitions.boolean q.0 q.1 };

    fn needed_terms(&self, alloc: Global) -> Result<Vec<(&Term, bool)>, AllocError> {
        clauses_terms(alloc, self.clauses())
    }
}

/// Shows no more than 64 nodes of a path, and `..` in place of what is below them.
impl fmt::Debug for BooleanQuery {
    fn fmt<W: fmt::Write>(&self, f: &mut fmt::Formatter<W>) -> fmt::Result {
        show_boolean(f, self, MAX_SHOWN - 1)
    }
}
