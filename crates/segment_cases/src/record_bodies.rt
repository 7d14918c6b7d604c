//! Bodies of segments. A part is a number, the index of a kept segment, or the hexadecimal digits of a new one; an
//! alive set is a text of a `1` for each document that is alive and a `0` for each that isn't.

use case_lines::{Arguments, Refusal, bytes_of_digits, flag, hex, number, pair, text};
use common::AliveBitSet;
use definitions::Fault;
use index_file::{Part, SegmentsBody, SegmentsBodyWriter, places_follow, read_segments_body};
use serde_json::Value;
use std::alloc::{AllocError, Global};

/// The bytes of a body with these parts and alive sets.
pub(crate) fn put(alloc: Global, arguments: &Arguments) -> Result<Value, Refusal> {
    let segments = new_segments(alloc, arguments.list(0)?)?;
    let parts = parts_of(alloc, arguments.list(0)?, &segments)?;
    let sets = alive_sets(alloc, arguments.list(1)?)?;
    let num_segments = u32::try_from(parts.len()).ok().ok_or(Refusal::NotAsked)?;
    let mut body = SegmentsBodyWriter::begin(alloc, num_segments)?;
    for part in &parts {
        put_part(&mut body, part)?;
    }
    body.put_sets(&sets)?;
    let frame = body.finish()?;
    // The body is behind its length, and before the closed gate.
    let (_, framed) = frame.split_at_checked(8).ok_or(Refusal::NotAsked)?;
    let (_, bytes) = framed.split_last().ok_or(Refusal::NotAsked)?;
    Ok(hex(alloc, bytes)?)
}

/// Appends a part to a body.
fn put_part(body: &mut SegmentsBodyWriter, part: &Part<'_>) -> Result<(), AllocError> {
    match *part {
        Part::Kept(index) => body.put_kept(index)?,
        Part::Fresh(segment) => {
            body.put_fresh(segment)?;
        }
    }
    Ok(())
}

/// The parts and the alive sets of a body.
pub(crate) fn read(alloc: Global, arguments: &Arguments) -> Result<Value, Refusal> {
    let bytes = arguments.bytes(alloc, 0)?;
    match read_segments_body(alloc, &bytes)? {
        Some(body) => Ok(shown(alloc, &body)?),
        None => Err(Refusal::Fault(Fault::Damaged(None))),
    }
}

/// Whether the indices of parts follow a list of this length.
pub(crate) fn follow(alloc: Global, arguments: &Arguments) -> Result<Value, Refusal> {
    let segments = new_segments(alloc, arguments.list(0)?)?;
    let parts = parts_of(alloc, arguments.list(0)?, &segments)?;
    Ok(flag(places_follow(&parts, arguments.number(1)? as usize)))
}

/// The bytes of each part that is a new segment, and none of the others.
fn new_segments(alloc: Global, list: &[Value]) -> Result<Vec<Vec<u8>>, Refusal> {
    let mut segments = Vec::new(alloc);
    for value in list {
        let segment = match value.as_str() {
            Some(_) => bytes_of_digits(alloc, value)?,
            None => Vec::new(alloc),
        };
        segments.push(segment)?;
    }
    Ok(segments)
}

/// The parts of a list, with the bytes of its new segments.
fn parts_of<'a>(
    alloc: Global,
    list: &[Value],
    segments: &'a [Vec<u8>],
) -> Result<Vec<Part<'a>>, Refusal> {
    let mut parts = Vec::new(alloc);
    for (value, segment) in list.iter().zip(segments) {
        parts.push(match value.as_u64() {
            Some(index) => Part::Kept(u32::try_from(index).ok().ok_or(Refusal::NotAsked)?),
            None => Part::Fresh(segment),
        })?;
    }
    Ok(parts)
}

/// The alive sets of a list of texts.
fn alive_sets(alloc: Global, list: &[Value]) -> Result<Vec<AliveBitSet>, Refusal> {
    let mut sets = Vec::new(alloc);
    for value in list {
        sets.push(alive_set(alloc, value.as_str().ok_or(Refusal::NotAsked)?)?)?;
    }
    Ok(sets)
}

/// The alive set of a text.
pub(crate) fn alive_set(alloc: Global, flags: &str) -> Result<AliveBitSet, Refusal> {
    let num_docs = u32::try_from(flags.len()).ok().ok_or(Refusal::NotAsked)?;
    let mut set = AliveBitSet::for_max_doc(alloc, num_docs)?;
    for (doc, byte) in flags.as_bytes().iter().enumerate() {
        if *byte == b'0' && doc < set.len() {
            set.kill(doc as u32);
        }
    }
    Ok(set)
}

/// The parts and the alive sets of a body, as they are written in a line.
fn shown(alloc: Global, body: &SegmentsBody<'_>) -> Result<Value, AllocError> {
    let mut parts = Vec::new(alloc);
    for part in &body.parts {
        parts.push(match part {
            Part::Kept(index) => number(u64::from(*index)),
            Part::Fresh(segment) => hex(alloc, segment)?,
        })?;
    }
    let mut sets = Vec::new(alloc);
    for set in &body.alive {
        sets.push(shown_set(alloc, set)?)?;
    }
    pair(alloc, Value::Array(parts), Value::Array(sets))
}

/// An alive set as a text.
pub(crate) fn shown_set(alloc: Global, set: &AliveBitSet) -> Result<Value, AllocError> {
    let mut flags = String::new(alloc);
    for doc in 0..set.len() {
        flags.push(if set.is_alive(doc as u32) { '1' } else { '0' })?;
    }
    text(alloc, &flags)
}
