//! Tokens of the analyzers that are always there.

use case_lines::{Arguments, Refusal, flag, number, text, triple};
use common::{Analyzer, RawAndDefault};
use serde_json::Value;
use std::alloc::Global;

/// What an operation on tokens answers.
pub(crate) fn answer(
    alloc: Global,
    operation: &str,
    arguments: &Arguments,
) -> Result<Value, Refusal> {
    match operation {
        "list" => tokens(alloc, arguments.text(0)?, arguments.text(1)?),
        "analyzer-known" => Ok(flag(RawAndDefault.knows(arguments.text(0)?))),
        _ => Err(Refusal::NotAsked),
    }
}

/// What a named analyzer makes of a text: of each token its position, how many positions it takes, and its text.
fn tokens(alloc: Global, name: &str, read: &str) -> Result<Value, Refusal> {
    let mut list = Vec::new(alloc);
    for token in &RawAndDefault.tokens(alloc, name, read)? {
        let position = number(token.position as u64);
        let length = number(token.position_length as u64);
        list.push(triple(alloc, position, length, text(alloc, &token.text)?)?)?;
    }
    Ok(Value::Array(list))
}
