//! The arguments of a case: JSON values with commas between them.

use crate::refusal::Refusal;
use serde_json::Value;
use std::alloc::Global;

/// What is done to the bytes that are the first argument.
#[derive(Clone, Copy)]
pub(crate) enum Damage {
    /// Nothing.
    None,
    /// Only a given number of bytes is left.
    Cut(usize),
    /// The byte at an offset is another one.
    Change(usize, u8),
}

/// The arguments of a case, in order.
#[derive(Drop)]
pub struct Arguments {
    values: Vec<Value>,
    pub(crate) damage: Damage,
}

impl Arguments {
    /// Reads what stands behind the operation.
    pub(crate) fn read(alloc: Global, text: &str) -> Result<Arguments, Refusal> {
        let list = format!(in alloc; "[{text}]")?;
        match Value::from_str(alloc, &list) {
            Ok(Value::Array(values)) => Ok(Arguments {
                values,
                damage: Damage::None,
            }),
            _ => Err(Refusal::NotAsked),
        }
    }

    /// The argument at an index.
    pub fn value(&self, index: usize) -> Result<&Value, Refusal> {
        self.values.get(index).ok_or(Refusal::NotAsked)
    }

    /// The argument at an index, a text.
    pub fn text(&self, index: usize) -> Result<&str, Refusal> {
        self.value(index)?.as_str().ok_or(Refusal::NotAsked)
    }

    /// The argument at an index, a list.
    pub fn list(&self, index: usize) -> Result<&Vec<Value>, Refusal> {
        self.value(index)?.as_array().ok_or(Refusal::NotAsked)
    }

    /// The argument at an index, a list of texts.
    pub fn texts(&self, alloc: Global, index: usize) -> Result<Vec<&str>, Refusal> {
        let mut texts = Vec::new(alloc);
        for value in self.list(index)? {
            texts.push(value.as_str().ok_or(Refusal::NotAsked)?)?;
        }
        Ok(texts)
    }

    /// The argument at an index, a number.
    pub fn number(&self, index: usize) -> Result<u64, Refusal> {
        self.value(index)?.as_u64().ok_or(Refusal::NotAsked)
    }

    /// The argument at an index, a number below 2^32.
    pub fn small_number(&self, index: usize) -> Result<u32, Refusal> {
        u32::try_from(self.number(index)?)
            .ok()
            .ok_or(Refusal::NotAsked)
    }

    /// The argument at an index, a number below 256.
    pub fn byte(&self, index: usize) -> Result<u8, Refusal> {
        u8::try_from(self.number(index)?)
            .ok()
            .ok_or(Refusal::NotAsked)
    }

    /// The argument at an index, a number that may be negative.
    pub fn signed_number(&self, index: usize) -> Result<i64, Refusal> {
        self.value(index)?.as_i64().ok_or(Refusal::NotAsked)
    }

    /// The argument at an index, true or false.
    pub fn flag(&self, index: usize) -> Result<bool, Refusal> {
        self.value(index)?.as_bool().ok_or(Refusal::NotAsked)
    }

    /// The argument at an index, a list of numbers below 2^32: `[3, [0, 5], 2]` is 3, five times 0, and 2.
    pub fn numbers(&self, alloc: Global, index: usize) -> Result<Vec<u32>, Refusal> {
        let mut numbers = Vec::new(alloc);
        for value in self.list(index)? {
            let (number, times) = run_of(value)?;
            push_times(&mut numbers, number, times)?;
        }
        Ok(numbers)
    }

    /// The argument at an index, bytes: a text of two hexadecimal digits for each, or a list whose texts stand for
    /// their bytes and whose numbers are bytes, `[0, 5]` five bytes 0.
    pub fn bytes(&self, alloc: Global, index: usize) -> Result<Vec<u8>, Refusal> {
        let mut bytes = match self.value(index)? {
            Value::Array(parts) => joined_parts(alloc, parts)?,
            value => bytes_of_digits(alloc, value)?,
        };
        if index == 0 {
            self.do_damage(&mut bytes);
        }
        Ok(bytes)
    }

    /// Cuts or changes bytes.
    fn do_damage(&self, bytes: &mut Vec<u8>) {
        match self.damage {
            Damage::None => {}
            Damage::Cut(length) => bytes.truncate(length),
            Damage::Change(offset, byte) => {
                if let Some(old) = bytes.get_mut(offset) {
                    *old = byte;
                }
            }
        }
    }
}

/// The bytes of hexadecimal digits.
pub fn bytes_of_digits(alloc: Global, value: &Value) -> Result<Vec<u8>, Refusal> {
    let digits = value.as_str().ok_or(Refusal::NotAsked)?;
    hex::decode(alloc, digits).ok().ok_or(Refusal::NotAsked)
}

/// The bytes of texts and numbers, one after another.
fn joined_parts(alloc: Global, parts: &[Value]) -> Result<Vec<u8>, Refusal> {
    let mut bytes = Vec::new(alloc);
    for part in parts {
        match part.as_str() {
            Some(text) => bytes.extend_from_slice(text.as_bytes())?,
            None => push_bytes(&mut bytes, part)?,
        }
    }
    Ok(bytes)
}

/// Appends a byte, or one a given number of times.
fn push_bytes(bytes: &mut Vec<u8>, part: &Value) -> Result<(), Refusal> {
    let (number, times) = run_of(part)?;
    let byte = u8::try_from(number).ok().ok_or(Refusal::NotAsked)?;
    for _ in 0..times {
        bytes.push(byte)?;
    }
    Ok(())
}

/// Appends a number a given number of times.
fn push_times(numbers: &mut Vec<u32>, number: u32, times: u32) -> Result<(), Refusal> {
    for _ in 0..times {
        numbers.push(number)?;
    }
    Ok(())
}

/// A number, and how often it comes.
fn run_of(value: &Value) -> Result<(u32, u32), Refusal> {
    match value.as_array() {
        Some(run) => Ok((number_in(run.first())?, number_in(run.get(1))?)),
        None => Ok((number_in(Some(value))?, 1)),
    }
}

/// A number below 2^32.
fn number_in(value: Option<&Value>) -> Result<u32, Refusal> {
    value
        .and_then(Value::as_u64)
        .and_then(|number| u32::try_from(number).ok())
        .ok_or(Refusal::NotAsked)
}
