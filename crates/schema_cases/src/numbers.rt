//! Codes of numbers, bytes and texts.

use case_lines::{Arguments, Refusal, hex, number, pair, text};
use common::{
    put_bytes, put_u32, put_u64, put_vint, take_bytes, take_text, take_u32, take_u64, take_vint,
};
use serde_json::Value;
use std::alloc::Global;

/// What an operation on codes answers.
pub(crate) fn answer(
    alloc: Global,
    operation: &str,
    arguments: &Arguments,
) -> Result<Value, Refusal> {
    match operation.strip_prefix("take-") {
        Some(code) => taken(alloc, code, &arguments.bytes(alloc, 0)?),
        None => put(alloc, operation, arguments),
    }
}

/// The bytes of a code.
fn put(alloc: Global, code: &str, arguments: &Arguments) -> Result<Value, Refusal> {
    let mut out = Vec::new(alloc);
    match code {
        "seven-bits" => put_vint(&mut out, arguments.number(0)?),
        "four-bytes" => put_u32(&mut out, arguments.small_number(0)?),
        "eight-bytes" => put_u64(&mut out, arguments.number(0)?),
        "bytes" => put_bytes(&mut out, &arguments.bytes(alloc, 0)?),
        _ => return Err(Refusal::NotAsked),
    }?;
    Ok(hex(alloc, &out)?)
}

/// What a code at the front of bytes stands for, and the bytes behind it.
fn taken(alloc: Global, code: &str, bytes: &[u8]) -> Result<Value, Refusal> {
    let taken = match code {
        "seven-bits" => take_vint(bytes),
        "eight-bytes" => take_u64(bytes),
        "four-bytes" => return four_bytes_and_rest(alloc, bytes),
        "bytes" => return bytes_and_rest(alloc, bytes),
        "text" => return text_and_rest(alloc, bytes),
        _ => return Err(Refusal::NotAsked),
    };
    number_and_rest(alloc, taken?)
}

/// The number of four bytes, and the bytes behind it.
fn four_bytes_and_rest(alloc: Global, bytes: &[u8]) -> Result<Value, Refusal> {
    let (taken, rest) = take_u32(bytes)?;
    number_and_rest(alloc, (u64::from(taken), rest))
}

/// A number, and the bytes behind it.
fn number_and_rest(alloc: Global, taken: (u64, &[u8])) -> Result<Value, Refusal> {
    Ok(pair(alloc, number(taken.0), hex(alloc, taken.1)?)?)
}

/// Bytes, and the bytes behind them.
fn bytes_and_rest(alloc: Global, bytes: &[u8]) -> Result<Value, Refusal> {
    let (taken, rest) = take_bytes(bytes)?;
    Ok(pair(alloc, hex(alloc, taken)?, hex(alloc, rest)?)?)
}

/// A text, and the bytes behind it.
fn text_and_rest(alloc: Global, bytes: &[u8]) -> Result<Value, Refusal> {
    let (taken, rest) = take_text(bytes)?;
    Ok(pair(alloc, text(alloc, taken)?, hex(alloc, rest)?)?)
}
