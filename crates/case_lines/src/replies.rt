//! Answers, as JSON values.

use serde_json::Value;
use std::alloc::{AllocError, Global};

/// A text.
pub fn text(alloc: Global, text: &str) -> Result<Value, AllocError> {
    Ok(Value::String(String::from_str(alloc, text)?))
}

/// Texts.
pub fn texts(alloc: Global, texts: &[&str]) -> Result<Value, AllocError> {
    let mut list = Vec::with_capacity(alloc, texts.len())?;
    for item in texts {
        list.push(text(alloc, item)?)?;
    }
    Ok(Value::Array(list))
}

/// Bytes, by two hexadecimal digits each.
pub fn hex(alloc: Global, bytes: &[u8]) -> Result<Value, AllocError> {
    Ok(Value::String(hex::encode(alloc, bytes)?))
}

/// Two values.
pub fn pair(alloc: Global, first: Value, second: Value) -> Result<Value, AllocError> {
    Ok(Value::Array(vec![in alloc; first, second]?))
}

/// Three values.
pub fn triple(
    alloc: Global,
    first: Value,
    second: Value,
    third: Value,
) -> Result<Value, AllocError> {
    Ok(Value::Array(vec![in alloc; first, second, third]?))
}

/// A number or what a condition says, in a row of these.
#[derive(Clone, Copy)]
pub enum Cell {
    /// A number.
    Number(u64),
    /// What a condition says.
    Flag(bool),
}

/// A row of numbers and of what conditions say.
pub fn cells(alloc: Global, cells: &[Cell]) -> Result<Value, AllocError> {
    let mut list = Vec::with_capacity(alloc, cells.len())?;
    for cell in cells {
        list.push(match *cell {
            Cell::Number(told) => number(told),
            Cell::Flag(told) => flag(told),
        })?;
    }
    Ok(Value::Array(list))
}

/// What a condition says.
pub fn flag(condition: bool) -> Value {
    Value::Bool(condition)
}

/// A number.
pub fn number(number: u64) -> Value {
    Value::from(number)
}

/// Numbers.
pub fn numbers(alloc: Global, numbers: &[u32]) -> Result<Value, AllocError> {
    let mut list = Vec::with_capacity(alloc, numbers.len())?;
    for item in numbers {
        list.push(number(u64::from(*item)))?;
    }
    Ok(Value::Array(list))
}
