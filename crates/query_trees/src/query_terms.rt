//! The terms that queries read.

ghost use Rattle.std.specs.Prelude.{[], ◌++◌, ◌∷◌, ◌≡◌, IfOk, OnOk, false, map};
ghost use Rattle.std.specs.List.{flat_map};
ghost use Rattle.definitions.specs.QueryTerms as definitions;
ghost use Rattle.query_trees.specs.NeededTerms.{needed};
ghost use Rattle.query_trees.specs.Queries.{clauses_of, queries_of, query_of};
ghost use Rattle.query_trees.specs.Walks.{own_terms, seen, walk_back};

use crate::any_query::AnyQuery;
use crate::node_walks::{all_nodes, push_clauses, push_disjuncts, push_query};
use crate::occur::Occur;
use std::alloc::{AllocError, Global};
use terms::Term;

/// Lists the terms that `query` reads.
#[tactic(auto, using(crate::proofs::AllNodes::one_terms))]
pub(crate) fn query_terms(alloc: Global, query: &AnyQuery) -> Result<Vec<(&Term, bool)>, AllocError>
    ensures { IfOk result (λ terms. map needed terms.items ≡ definitions.query_terms (query_of query.now)) }
{
    let mut waiting = Vec::new(alloc);
    push_query(&mut waiting, query)?;
    terms_of_all(alloc, waiting)
}

/// Lists the terms that `clauses` read, in order.
#[tactic(auto, using(crate::proofs::AllNodes::listed_clauses_terms))]
pub(crate) fn clauses_terms(
    alloc: Global,
    clauses: &[(Occur, AnyQuery)],
) -> Result<Vec<(&Term, bool)>, AllocError>
    ensures { IfOk result (λ terms. map needed terms.items ≡ definitions.clauses_terms (clauses_of clauses.now)) }
{
    let mut waiting = Vec::new(alloc);
    push_clauses(&mut waiting, clauses)?;
    terms_of_all(alloc, waiting)
}

/// Lists the terms that `disjuncts` read, in order.
#[tactic(auto, using(crate::proofs::AllNodes::listed_queries_terms))]
pub(crate) fn disjuncts_terms(
    alloc: Global,
    disjuncts: &[AnyQuery],
) -> Result<Vec<(&Term, bool)>, AllocError>
    ensures { IfOk result (λ terms. map needed terms.items ≡ definitions.queries_terms (queries_of disjuncts.now)) }
{
    let mut waiting = Vec::new(alloc);
    push_disjuncts(&mut waiting, disjuncts)?;
    terms_of_all(alloc, waiting)
}

/// Lists the terms of the queries that are `waiting`, from the last of these to the first.
fn terms_of_all<'a>(
    alloc: Global,
    waiting: Vec<&'a AnyQuery>,
) -> Result<Vec<(&'a Term, bool)>, AllocError>
    ensures { IfOk result (λ terms. map needed terms.items
        ≡ flat_map own_terms (walk_back (map seen waiting.entry.items))) }
{
    let nodes = all_nodes(alloc, waiting)?;
    let mut found = Vec::new(alloc);
    for node in &nodes {
        push_own_terms(&mut found, *node)?;
    }
    Ok(found)
}

/// Appends the terms of `node`, without those of the queries below it.
fn push_own_terms<'a>(
    found: &mut Vec<(&'a Term, bool)>,
    node: &'a AnyQuery,
) -> Result<(), AllocError>
    ensures { OnOk result (map needed found.new.items
        ≡ map needed found.old.items ++ own_terms (query_of node.now)) }
{
    match node {
        AnyQuery::Term(query) => push_term(found, query.term()),
        AnyQuery::Phrase(query) => push_with_positions(found, query.terms()),
        AnyQuery::PhrasePrefix(query) => push_with_positions(found, query.whole_terms()),
        AnyQuery::All(_)
        | AnyQuery::Empty(_)
        | AnyQuery::Boolean(_)
        | AnyQuery::DisjunctionMax(_)
        | AnyQuery::Boost(_)
        | AnyQuery::ConstScore(_) => Ok(()),
    }
}

/// Appends `term`, whose positions aren't needed.
pub(crate) fn push_term<'a>(
    found: &mut Vec<(&'a Term, bool)>,
    term: &'a Term,
) -> Result<(), AllocError>
    ensures { OnOk result (map needed found.new.items ≡ map needed found.old.items ++ (term.now, false) ∷ []) }
{
    found.push((term, false))?;
    Ok(())
}

/// Appends `terms`, whose positions are needed.
pub(crate) fn push_with_positions<'a>(
    found: &mut Vec<(&'a Term, bool)>,
    terms: &'a [(usize, Term)],
) -> Result<(), AllocError>
    ensures { OnOk result (map needed found.new.items
        ≡ map needed found.old.items ++ definitions.with_positions terms.now) }
{
    for (_offset, term) in terms {
        found.push((term, true))?;
    }
    Ok(())
}
