//! Hits, with their stored values as values.

use crate::indexes::{DOCS, index_of, sea};
use common::Score;
use definitions::Fault;
use index::{AllQuery, AnyQuery, Hit, OwnedValue};
use std::alloc::{AllocError, Global};
use std::test::Fail;

// What is stored of a document that has at most one title and one year.
type Stored<'a> = (Option<&'a str>, Option<u64>);

const A: Stored<'static> = (Some("the old sea"), Some(1952));

const B: Stored<'static> = (Some("sea sea wind"), Some(1987));

// The one text in a field.
fn one_text(values: Option<&[OwnedValue]>) -> Option<&str> {
    match values {
        Some([OwnedValue::Str(text)]) => Some(text.as_str()),
        _ => None,
    }
}

// The one number in a field.
fn one_number(values: Option<&[OwnedValue]>) -> Option<u64> {
    match values {
        Some([OwnedValue::U64(number)]) => Some(*number),
        _ => None,
    }
}

// Each hit as its score, its title and its year.
fn told(alloc: Global, hits: &[Hit]) -> Result<Vec<(Score, Stored<'_>)>, AllocError> {
    let mut told = Vec::new(alloc);
    for hit in hits {
        let title = one_text(hit.doc.get("title"));
        let year = one_number(hit.doc.get("year"));
        told.push((hit.score, (title, year)))?;
    }
    Ok(told)
}

// Whether the hits of `sea` have their values.
fn have_hits_their_values(alloc: Global) -> Result<bool, Fault> {
    let mut index = index_of(alloc, &DOCS)?;
    let hits = index.search(&sea(alloc)?, 10)?;
    let expected = [(40, B), (30, A)];
    Ok(told(alloc, &hits)?.as_slice() == expected.as_slice())
}

// Whether a document of an unknown key alone is found without fields.
fn is_key_skipped(alloc: Global) -> Result<bool, Fault> {
    let mut index = index_of(alloc, &[r#"{"x":1.5}"#])?;
    let hits = index.search(&AnyQuery::All(AllQuery), 10)?;
    Ok(hits.len() == 1 && hits[0].doc.fields().is_empty() && hits[0].doc.get("x").is_none())
}

#[test]
fn values_of_hits(rt: HostRuntime) -> Result<(), Fail> {
    assert!(rt; have_hits_their_values(rt.alloc())?);
    Ok(())
}

#[test]
fn keys_of_no_field_are_skipped(rt: HostRuntime) -> Result<(), Fail> {
    assert!(rt; is_key_skipped(rt.alloc())?);
    Ok(())
}
