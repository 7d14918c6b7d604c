//! Queries that no text names.

use crate::indexes::{DOCS, MemoryIndex, builder, index_of, new_index, query_for, sea};
use definitions::Fault;
use index::{AnyQuery, BooleanQuery, Occur};
use options::STORED;
use schema::{Field, Term};
use std::alloc::{AllocError, Global};
use std::test::Fail;

// An index whose field 2 is a text that isn't indexed.
fn index_with_note(alloc: Global) -> Result<MemoryIndex, Fault> {
    let mut builder = builder(alloc)?;
    builder.add_text_field("note", STORED)?;
    new_index(alloc, builder.build())
}

// Whether a search and a count of a term are both refused so.
fn is_refused(index: &mut MemoryIndex, term: Term, k: usize, fault: Fault) -> bool {
    let query = query_for(term);
    index.search(&query, k).err() == Some(fault) && index.count(&query) == Err(fault)
}

// Whether texts are refused by the test that comes first for their field.
fn are_texts_refused(alloc: Global) -> Result<bool, Fault> {
    let mut index = index_with_note(alloc)?;
    for (field, fault) in [
        (3, Fault::UnknownField),
        (2, Fault::NotIndexed),
        (1, Fault::TypeMismatch),
    ] {
        let term = Term::from_field_text(alloc, Field::from_field_id(field), "sea")?;
        if !is_refused(&mut index, term, 10, fault) {
            return Ok(false);
        }
    }
    Ok(true)
}

// Whether numbers are. One in field 2 would be of the wrong type too.
fn are_numbers_refused(alloc: Global) -> Result<bool, Fault> {
    let mut index = index_with_note(alloc)?;
    for (field, fault) in [
        (3, Fault::UnknownField),
        (2, Fault::NotIndexed),
        (0, Fault::TypeMismatch),
    ] {
        let term = Term::from_field_u64(alloc, Field::from_field_id(field), 1952)?;
        if !is_refused(&mut index, term, 0, fault) {
            return Ok(false);
        }
    }
    Ok(true)
}

// `sea`, inside `bools` bools.
fn nested(alloc: Global, bools: usize) -> Result<AnyQuery, AllocError> {
    let mut query = sea(alloc)?;
    for _ in 0..bools {
        let mut clauses = Vec::new(alloc);
        clauses.push((Occur::Must, query))?;
        query = AnyQuery::Boolean(BooleanQuery::new(clauses));
    }
    Ok(query)
}

// Whether 63 bools are searched, and 64 are too deep; and so are a hundred thousand, which are let go.
fn is_depth_limited(alloc: Global) -> Result<bool, Fault> {
    let index = index_of(alloc, &DOCS)?;
    let most = index.count(&nested(alloc, 63)?);
    let more = index.count(&nested(alloc, 64)?);
    let deep = index.count(&nested(alloc, 100_000)?);
    Ok(most == Ok(2) && more == Err(Fault::TooDeep) && deep == Err(Fault::TooDeep))
}

// Whether a bool of one clause has its parts.
fn has_parts(alloc: Global, least: usize) -> Result<bool, AllocError> {
    let mut clauses = Vec::new(alloc);
    clauses.push((Occur::Should, sea(alloc)?))?;
    let query = BooleanQuery::with_minimum_required_clauses(clauses, least);
    Ok(query.get_minimum_number_should_match() == least && query.clauses().len() == 1)
}

#[test]
fn terms_that_are_refused(rt: HostRuntime) -> Result<(), Fail> {
    let texts = are_texts_refused(rt.alloc())?;
    let numbers = are_numbers_refused(rt.alloc())?;
    assert!(rt; texts && numbers);
    Ok(())
}

#[test]
fn nodes_on_a_path(rt: HostRuntime) -> Result<(), Fail> {
    assert!(rt; is_depth_limited(rt.alloc())?);
    Ok(())
}

#[test]
fn parts_of_a_bool(rt: HostRuntime) -> Result<(), Fail> {
    let alloc = rt.alloc();
    let have_parts = has_parts(alloc, 0)? && has_parts(alloc, 1)? && has_parts(alloc, 2)?;
    assert!(rt; have_parts);
    Ok(())
}
