//! Checks of a node that aren't about its score.

ghost use Rattle.std.specs.Prelude.{[], ◌++◌, ◌∷◌, ◌≡◌, ◌||◌, int_lt, length, map, nat_lt, not, pos};
ghost use Rattle.std.specs.List.{list_any};
ghost use Rattle.std.specs.Result.{result_err};
ghost use Rattle.definitions.specs.Refusing as refusing;
ghost use Rattle.definitions.specs.Terms.{is_text_term};
ghost use Rattle.definitions.specs.declared.fault.Fault.TheVariants as faults;
ghost use Rattle.query_trees.specs.Queries.{query_of};

use crate::term_tests::{
    has_no_positions, is_mismatched, is_not_indexed, is_text_term, is_unknown,
};
use common::Score;
use definitions::Fault;
use query_trees::AnyQuery;
use schema::Schema;
use terms::Term;

/// The greatest offset of a term in a phrase.
const MAX_OFFSET: usize = 1 << 30;

/// The limit of expansions that excludes none.
const ALL_EXPANSIONS: u32 = 4294967295;

/// The greatest tie breaker, in thousandths.
const MAX_TIE_BREAKER: Score = 1000;

/// Checks what isn't about the score of a node.
pub(crate) fn check_own(schema: &Schema, query: &AnyQuery) -> Result<(), Fault>
    ensures { result_err result ≡ refusing.first_fault (refusing.own_tests schema.now (query_of query.now)) }
{
    match query {
        AnyQuery::Term(query) => check_term(schema, query.term()),
        AnyQuery::Phrase(query) => check_phrase(schema, query.terms()),
        AnyQuery::PhrasePrefix(query) => {
            check_phrase_prefix(schema, query.terms(), query.max_expansions())
        }
        AnyQuery::DisjunctionMax(query) => check_tie_breaker(query.tie_breaker()),
        AnyQuery::All(_)
        | AnyQuery::Empty(_)
        | AnyQuery::Boolean(_)
        | AnyQuery::Boost(_)
        | AnyQuery::ConstScore(_) => Ok(()),
    }
}

/// Whether `number` is negative, or above `greatest`.
pub(crate) fn is_outside(greatest: Score, number: Score) -> bool
    ensures { result ≡ (int_lt number (pos 0) || int_lt greatest number) }
{
    number < 0 || number > greatest
}

/// Checks a term.
fn check_term(schema: &Schema, term: &Term) -> Result<(), Fault>
    ensures { result_err result ≡ refusing.first_fault (refusing.term_tests schema.now (term.now ∷ [])) }
{
    if is_unknown(schema, term) {
        return Err(Fault::UnknownField);
    }
    if is_not_indexed(schema, term) {
        return Err(Fault::NotIndexed);
    }
    if is_mismatched(schema, term) {
        return Err(Fault::TypeMismatch);
    }
    Ok(())
}

/// Checks the terms of a phrase, each check over all of them.
fn check_phrase(schema: &Schema, terms: &[(usize, Term)]) -> Result<(), Fault>
    ensures { result_err result ≡ refusing.first_fault
        (refusing.term_tests schema.now (map (λ t. t.1) terms.now) ++ refusing.phrase_tests schema.now terms.now) }
{
    check_terms(schema, terms)?;
    check_phrase_terms(schema, terms)
}

/// Checks the terms of a phrase prefix, and its limit of expansions.
fn check_phrase_prefix(
    schema: &Schema,
    terms: &[(usize, Term)],
    max_expansions: u32,
) -> Result<(), Fault>
    ensures { result_err result ≡ refusing.first_fault
        (refusing.term_tests schema.now (map (λ t. t.1) terms.now) ++ refusing.phrase_tests schema.now terms.now
        ++ ((nat_lt (length terms.now) 2, faults.NoWholeTerm)
        ∷ (nat_lt max_expansions refusing.all_expansions, faults.PartialExpansion) ∷ [])) }
{
    check_phrase(schema, terms)?;
    if terms.len() < 2 {
        return Err(Fault::NoWholeTerm);
    }
    if max_expansions < ALL_EXPANSIONS {
        return Err(Fault::PartialExpansion);
    }
    Ok(())
}

/// Checks a tie breaker.
fn check_tie_breaker(tie_breaker: Score) -> Result<(), Fault>
    ensures { result_err result
        ≡ refusing.first_fault ((refusing.is_outside 1000 tie_breaker, faults.BadTieBreaker) ∷ []) }
{
    if is_outside(MAX_TIE_BREAKER, tie_breaker) {
        return Err(Fault::BadTieBreaker);
    }
    Ok(())
}

/// Makes the checks of terms of any query, each over all terms of a phrase.
fn check_terms(schema: &Schema, terms: &[(usize, Term)]) -> Result<(), Fault>
    ensures { result_err result ≡ refusing.first_fault (refusing.term_tests schema.now (map (λ t. t.1) terms.now)) }
{
    if any_is_unknown(schema, terms) {
        return Err(Fault::UnknownField);
    }
    if any_is_not_indexed(schema, terms) {
        return Err(Fault::NotIndexed);
    }
    if any_is_mismatched(schema, terms) {
        return Err(Fault::TypeMismatch);
    }
    Ok(())
}

/// Makes the further checks of the terms of a phrase, each over all of them.
fn check_phrase_terms(schema: &Schema, terms: &[(usize, Term)]) -> Result<(), Fault>
    ensures { result_err result ≡ refusing.first_fault (refusing.phrase_tests schema.now terms.now) }
{
    if any_has_no_positions(schema, terms) {
        return Err(Fault::NoPositions);
    }
    if any_is_not_text(terms) {
        return Err(Fault::NotText);
    }
    if any_is_far_off(terms) {
        return Err(Fault::OffsetTooLarge);
    }
    Ok(())
}

/// Whether the schema lacks the field of one of `terms`.
fn any_is_unknown(schema: &Schema, terms: &[(usize, Term)]) -> bool
    ensures { result ≡ list_any (λ t. refusing.is_unknown schema.now t.1) terms.now }
{
    terms.iter().any(|(_offset, term)| is_unknown(schema, term))
}

/// Whether the field of one of `terms` isn't indexed.
fn any_is_not_indexed(schema: &Schema, terms: &[(usize, Term)]) -> bool
    ensures { result ≡ list_any (λ t. refusing.is_not_indexed schema.now t.1) terms.now }
{
    terms
        .iter()
        .any(|(_offset, term)| is_not_indexed(schema, term))
}

/// Whether one of `terms` isn't of its field's type.
fn any_is_mismatched(schema: &Schema, terms: &[(usize, Term)]) -> bool
    ensures { result ≡ list_any (λ t. refusing.is_mismatched schema.now t.1) terms.now }
{
    terms
        .iter()
        .any(|(_offset, term)| is_mismatched(schema, term))
}

/// Whether the field of one of `terms` records no positions.
fn any_has_no_positions(schema: &Schema, terms: &[(usize, Term)]) -> bool
    ensures { result ≡ list_any (λ t. refusing.has_no_positions schema.now t.1) terms.now }
{
    terms
        .iter()
        .any(|(_offset, term)| has_no_positions(schema, term))
}

/// Whether one of `terms` isn't a text's.
fn any_is_not_text(terms: &[(usize, Term)]) -> bool
    ensures { result ≡ list_any (λ t. not (is_text_term t.1)) terms.now }
{
    terms.iter().any(|(_offset, term)| !is_text_term(term))
}

/// Whether one of the offsets is above the greatest.
fn any_is_far_off(terms: &[(usize, Term)]) -> bool
    ensures { result ≡ list_any (λ t. nat_lt refusing.max_offset t.0) terms.now }
{
    terms.iter().any(|(offset, _term)| *offset > MAX_OFFSET)
}
