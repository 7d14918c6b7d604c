//! Lines of cases and the lines of their answers.

use crate::arguments::Arguments;
use crate::operations::Operations;
use crate::refusal::Refusal;
use crate::sweeps;
use serde_json::Value;
use std::alloc::{AllocError, Global};

/// The answers to all lines of a text, each on a line of its own.
pub fn answers<O: Operations>(
    alloc: Global,
    operations: &mut O,
    text: &str,
) -> Result<String, AllocError> {
    let mut answers = String::new(alloc);
    for line in text.lines() {
        answers.push_str(&answer(alloc, operations, line)?)?;
        answers.push('\n')?;
    }
    Ok(answers)
}

/// The answer to a line: an empty line and one that begins with `#` are answered by themselves.
fn answer<O: Operations>(
    alloc: Global,
    operations: &mut O,
    line: &str,
) -> Result<String, AllocError> {
    if line.is_empty() || line.starts_with('#') {
        return String::from_str(alloc, line);
    }
    let (operation, rest) = line.split_once(' ').unwrap_or((line, ""));
    match value(alloc, operations, operation, rest) {
        Ok(value) => value.to_string(alloc),
        Err(Refusal::Fault(fault)) => String::from_str(alloc, fault.name()),
        Err(Refusal::NotAsked) => format!(in alloc; "? {operation}"),
    }
}

/// What an operation answers. One that begins with `each-` tries another operation, whose name stands behind it.
fn value<O: Operations>(
    alloc: Global,
    operations: &mut O,
    operation: &str,
    rest: &str,
) -> Result<Value, Refusal> {
    let Some(sweep) = operation.strip_prefix("each-") else {
        let arguments = Arguments::read(alloc, rest)?;
        return operations.answer(operation, &arguments);
    };
    let (tried, rest) = rest.split_once(' ').ok_or(Refusal::NotAsked)?;
    let arguments = Arguments::read(alloc, rest)?;
    sweeps::answer(alloc, operations, sweep, tried, arguments)
}
