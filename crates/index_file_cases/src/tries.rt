//! A file opened over and over, cut or changed.

use crate::files::opened;
use case_lines::{Refusal, Runs};
use serde_json::Value;
use std::alloc::{AllocError, Global};

/// What becomes of the file at each length, from no byte on: the outcomes one after the other, and of how many lengths
/// each is.
pub(crate) fn cuts(alloc: Global, bytes: &[u8]) -> Result<Value, Refusal> {
    let mut runs = Runs::new(alloc);
    for length in 0..=bytes.len() {
        let (front, _) = bytes.split_at(length);
        runs.add(opened(alloc, front)?)?;
    }
    Ok(runs.into_value(alloc)?)
}

/// What becomes of the file with another byte at each offset: 0, 255, and each that differs in one bit. The outcomes,
/// each once, one offset after the other, and of how many offsets they are.
pub(crate) fn changes(alloc: Global, bytes: Vec<u8>) -> Result<Value, Refusal> {
    let mut bytes = bytes;
    let mut runs = Runs::new(alloc);
    for offset in 0..bytes.len() {
        let old = bytes[offset];
        let mut outcomes = Vec::new(alloc);
        for byte in 0..=u8::MAX {
            if is_tried(old, byte) {
                bytes[offset] = byte;
                push_once(&mut outcomes, opened(alloc, &bytes)?)?;
            }
        }
        bytes[offset] = old;
        runs.add(Value::Array(outcomes))?;
    }
    Ok(runs.into_value(alloc)?)
}

/// Whether a byte is tried in place of another.
fn is_tried(old: u8, byte: u8) -> bool {
    byte != old && (byte == 0 || byte == u8::MAX || (byte ^ old).count_ones() == 1)
}

/// Appends an outcome, where it isn't there yet.
fn push_once(outcomes: &mut Vec<Value>, outcome: Value) -> Result<(), AllocError> {
    if !outcomes.contains(&outcome) {
        outcomes.push(outcome)?;
    }
    Ok(())
}
