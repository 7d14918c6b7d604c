//! Queries for two terms of one field, without offsets.

ghost use Rattle.std.specs.Prelude.{◌≡◌};
ghost use Rattle.definitions.specs.Terms.{field_of};

use case_lines::Refusal;
use options::IndexRecordOption;
use query::{AnyQuery, BooleanQuery, Occur, PhrasePrefixQuery, PhraseQuery, TermQuery};
use schema::Term;
use std::alloc::{AllocError, Global};

/// The query that an operation makes of two terms: `in-a-row` of the phrase of both, `begun-in-a-row` of the first and
/// what begins with the second, `both` of documents that have both; none if it is another one.
pub(crate) fn query_of_two(
    alloc: Global,
    operation: &str,
    first: Term,
    second: Term,
) -> Result<AnyQuery, Refusal> {
    if first.field().field_id() != second.field().field_id() {
        return Err(Refusal::NotAsked);
    }
    match operation {
        "in-a-row" => Ok(AnyQuery::Phrase(in_a_row(alloc, first, second)?)),
        "begun-in-a-row" => Ok(AnyQuery::PhrasePrefix(begun_in_a_row(alloc, first, second)?)),
        "both" => Ok(AnyQuery::Boolean(both(alloc, first, second)?)),
        _ => Err(Refusal::NotAsked),
    }
}

/// The phrase of two terms.
fn in_a_row(alloc: Global, first: Term, second: Term) -> Result<PhraseQuery, AllocError>
    requires { field_of second ≡ field_of first }
{
    PhraseQuery::new(alloc, vec![in alloc; first, second]?)
}

/// A term, and behind it any one that begins with another.
fn begun_in_a_row(alloc: Global, first: Term, prefix: Term) -> Result<PhrasePrefixQuery, AllocError>
    requires { field_of prefix ≡ field_of first }
{
    let mut query = PhrasePrefixQuery::new(alloc, vec![in alloc; first, prefix]?)?;
    query.set_max_expansions(u32::MAX);
    Ok(query)
}

/// Both of two terms.
fn both(alloc: Global, first: Term, second: Term) -> Result<BooleanQuery, AllocError> {
    Ok(BooleanQuery::new(vec![in alloc;
        (Occur::Must, term_query(first)),
        (Occur::Must, term_query(second)),
    ]?))
}

/// The query for a term with counts.
fn term_query(term: Term) -> AnyQuery {
    AnyQuery::Term(TermQuery::new(term, IndexRecordOption::WithFreqs))
}
