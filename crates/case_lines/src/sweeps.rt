//! An operation tried over and over on bytes that are cut or changed: its first argument.

use crate::arguments::{Arguments, Damage};
use crate::operations::Operations;
use crate::outcomes::{Outcomes, outcome};
use crate::refusal::Refusal;
use serde_json::Value;
use std::alloc::Global;

/// What becomes of an operation on damaged bytes.
pub(crate) fn answer<O: Operations>(
    alloc: Global,
    operations: &mut O,
    sweep: &str,
    tried: &str,
    arguments: Arguments,
) -> Result<Value, Refusal> {
    match sweep {
        "cut" => cuts(alloc, operations, tried, arguments),
        "change-to-0-or-255" => changes(alloc, operations, tried, arguments, Change::ToEnds),
        "change-to-any-byte" => changes(alloc, operations, tried, arguments, Change::ToAny),
        "change-of-a-bit" => changes(alloc, operations, tried, arguments, Change::OfOneBit),
        _ => Err(Refusal::NotAsked),
    }
}

/// Tries each cut of the bytes: the outcomes, and of how many cuts each is.
fn cuts<O: Operations>(
    alloc: Global,
    operations: &mut O,
    tried: &str,
    mut arguments: Arguments,
) -> Result<Value, Refusal> {
    let mut outcomes = Outcomes::new(alloc);
    for length in 0..arguments.bytes(alloc, 0)?.len() {
        arguments.damage = Damage::Cut(length);
        let answer = operations.answer(tried, &arguments);
        outcomes.add(outcome(&answer))?;
    }
    Ok(outcomes.with_counts(alloc)?)
}

/// What a byte is changed to.
#[derive(Clone, Copy)]
enum Change {
    ToEnds,
    ToAny,
    OfOneBit,
}

/// Tries the bytes with each of them changed: the outcomes in the order of their names.
fn changes<O: Operations>(
    alloc: Global,
    operations: &mut O,
    tried: &str,
    mut arguments: Arguments,
    change: Change,
) -> Result<Value, Refusal> {
    let mut outcomes = Outcomes::new(alloc);
    let bytes = arguments.bytes(alloc, 0)?;
    for (offset, old) in bytes.iter().enumerate() {
        for byte in 0..=u8::MAX {
            if is_tried(change, *old, byte) {
                arguments.damage = Damage::Change(offset, byte);
                let answer = operations.answer(tried, &arguments);
                outcomes.add(outcome(&answer))?;
            }
        }
    }
    Ok(outcomes.names(alloc)?)
}

/// Whether a byte is changed to another one.
fn is_tried(change: Change, old: u8, byte: u8) -> bool {
    match change {
        Change::ToEnds => byte == 0 || byte == u8::MAX,
        Change::ToAny => true,
        Change::OfOneBit => (old ^ byte).count_ones() == 1,
    }
}
