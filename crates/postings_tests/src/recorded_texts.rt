//! Tokens of texts, recorded one value after another.

use crate::written_terms::begins_with_a_text_field;
use common::{PreTokenizedStream, Token};
use definitions::Fault;
use options::TEXT;
use postings_writer::PostingsWriter;
use schema::Schema;
use std::alloc::Global;
use std::test::Fail;

// The position of a token, its length in positions, and its length in bytes.
type Shape = (usize, usize, usize);

fn tokens_of(alloc: Global, shapes: &[Shape]) -> Result<Vec<Token>, Fault> {
    let mut tokens = Vec::new(alloc);
    for (position, position_length, len) in shapes {
        let mut text = String::new(alloc);
        for _ in 0..*len {
            text.push('x')?;
        }
        tokens.push(Token {
            position: *position,
            position_length: *position_length,
            text,
        })?;
    }
    Ok(tokens)
}

/// Where the value behind one with these tokens begins.
fn next_start(alloc: Global, schema: &Schema, shapes: &[Shape], start: u32) -> Result<u32, Fault> {
    if !begins_with_a_text_field(schema) {
        return Err(Fault::BadSchema);
    }
    let mut term_buffer = Vec::new(alloc);
    term_buffer.extend_from_slice(b"\0\0\0\0s")?;
    let tokens = tokens_of(alloc, shapes)?;
    let mut stream = PreTokenizedStream::new(&tokens);
    let mut writer = PostingsWriter::for_schema(alloc, schema)?;
    let text = writer.index_text(schema, 0, &mut term_buffer, &mut stream, start, 1)?;
    Ok(text.next_start)
}

fn texts(alloc: Global) -> Result<Schema, Fault> {
    let mut builder = Schema::builder(alloc);
    builder.add_text_field("body", TEXT)?;
    Ok(builder.build())
}

/// Whether the value behind one with these tokens begins so, where the value itself begins at a position.
fn begins(
    alloc: Global,
    shapes: &[Shape],
    start: u32,
    next: Result<u32, Fault>,
) -> Result<bool, Fault> {
    let schema = texts(alloc)?;
    Ok(next_start(alloc, &schema, shapes, start) == next)
}

/// Whether a value begins a position behind the last token of the one before it.
fn follow_one_another(alloc: Global) -> Result<bool, Fault> {
    Ok(
        begins(alloc, &[], 0, Ok(1))?
            && begins(alloc, &[(0, 1, 3), (1, 1, 4)], 0, Ok(3))?
            && begins(alloc, &[(0, 1, 3), (0, 1, 3)], 3, Ok(5))?
            && begins(alloc, &[(5, 4, 1), (6, 1, 1)], 2, Ok(12))?,
    )
}

/// Whether tokens that are too long leave the others' positions.
fn are_long_tokens_dropped(alloc: Global) -> Result<bool, Fault> {
    Ok(
        begins(alloc, &[(9, 1, 65530)], 0, Ok(11))?
            && begins(alloc, &[(0, 1, 1), (9, 1, 65531)], 0, Ok(2))?
            && begins(alloc, &[(usize::MAX, 1, 65531)], 7, Ok(8))?,
    )
}

#[test]
fn values_follow_one_another(rt: HostRuntime) -> Result<(), Fail> {
    assert!(rt; follow_one_another(rt.alloc())? && are_long_tokens_dropped(rt.alloc())?);
    Ok(())
}

/// Whether the end of a token has a limit, and a value without tokens none.
fn have_a_limit(alloc: Global) -> Result<bool, Fault> {
    Ok(
        begins(alloc, &[(0, 1, 1)], 2147483645, Ok(2147483647))?
            && begins(alloc, &[(0, 1, 1)], 2147483646, Err(Fault::Limit))?
            && begins(alloc, &[], 2147483648, Ok(2147483648))?,
    )
}

/// Whether tokens past every number are over it.
fn are_greatest_limited(alloc: Global) -> Result<bool, Fault> {
    Ok(
        begins(alloc, &[(usize::MAX, 1, 1)], 0, Err(Fault::Limit))?
            && begins(alloc, &[(0, usize::MAX, 1)], 0, Err(Fault::Limit))?,
    )
}

#[test]
fn positions_have_a_limit(rt: HostRuntime) -> Result<(), Fail> {
    assert!(rt; have_a_limit(rt.alloc())? && are_greatest_limited(rt.alloc())?);
    Ok(())
}
