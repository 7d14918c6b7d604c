//! The longest token that is indexed, and a longer one, which has no part in its field's length.

use crate::indexes::{MemoryIndex, query_for};
use common::{MemoryDevice, RawAndDefault, Score};
use definitions::Fault;
use index::{CompactDoc, Index, Settings};
use options::STRING;
use schema::{Field, Schema, Term};
use std::alloc::{AllocError, Global};
use std::test::Fail;

// The one field, each of whose texts is a token.
fn mark() -> Field {
    Field::from_field_id(0)
}

// An index of the field, where a term weighs 60, a field of at most one token has norm 1, and a longer one norm 2.
fn mark_index(alloc: Global) -> Result<MemoryIndex, Fault> {
    let mut norms = vec![in alloc; 1; 2]?;
    for _ in 2..256 {
        norms.push(2)?;
    }
    let settings = Settings::new(alloc, 9, 16384, 9, 60, Vec::new(alloc), norms)?;
    let mut builder = Schema::builder(alloc);
    builder.add_text_field("mark", STRING)?;
    let device = MemoryDevice::new(alloc);
    Ok(Index::create(alloc, device, RawAndDefault, builder.build(), settings)?)
}

// A text of `len` letters.
fn letters(alloc: Global, len: usize) -> Result<String, AllocError> {
    let mut text = String::new(alloc);
    for _ in 0..len {
        text.push('a')?;
    }
    Ok(text)
}

// Of a document with the token `x` and a token of `len` bytes: how often the long one is found, and the score of `x`.
fn told_of(alloc: Global, len: usize) -> Result<(u64, Option<Score>), Fault> {
    let long = letters(alloc, len)?;
    let mut doc = CompactDoc::new(alloc);
    doc.add_text(mark(), "x")?;
    doc.add_text(mark(), &long)?;
    let mut index = mark_index(alloc)?;
    index.add_document(&doc)?;
    index.commit()?;
    let count = index.count(&query_for(Term::from_field_text(alloc, mark(), &long)?))?;
    let hits = index.search(&query_for(Term::from_field_text(alloc, mark(), "x")?), 9)?;
    Ok((count, hits.first().map(|hit| hit.score)))
}

#[test]
fn tokens_of_the_greatest_length(rt: HostRuntime) -> Result<(), Fail> {
    let most = told_of(rt.alloc(), 65530)?;
    let more = told_of(rt.alloc(), 65531)?;
    assert!(rt; most == (1, Some(20)) && more == (0, Some(30)));
    Ok(())
}
