//! Facets and their paths.

use case_lines::{Arguments, Refusal, flag, number, pair, text, texts, triple};
use schema::{FACET_SEP_BYTE, FACET_SEP_CHAR, Facet};
use serde_json::Value;
use std::alloc::Global;

/// What an operation on facets answers.
pub(crate) fn answer(
    alloc: Global,
    operation: &str,
    arguments: &Arguments,
) -> Result<Value, Refusal> {
    match operation {
        "text" => facet_of_text(alloc, arguments),
        "of-steps" => facet_of_steps(alloc, arguments),
        "steps" => steps(alloc, &facet(alloc, arguments, 0)?),
        "below" => is_below(alloc, arguments),
        "root" => Ok(text(alloc, Facet::root(alloc).encoded_str())?),
        "separator" => separator(alloc),
        _ => Err(Refusal::NotAsked),
    }
}

/// The facet of the path that is the argument at an index.
fn facet(alloc: Global, arguments: &Arguments, index: usize) -> Result<Facet, Refusal> {
    Ok(Facet::from_text(alloc, arguments.text(index)?)?)
}

/// The facet of a path: its steps with U+0000 between them, its path, and whether it is the root.
fn facet_of_text(alloc: Global, arguments: &Arguments) -> Result<Value, Refusal> {
    let facet = facet(alloc, arguments, 0)?;
    let path = path(alloc, &facet)?;
    let encoded = text(alloc, facet.encoded_str())?;
    Ok(triple(alloc, encoded, path, flag(facet.is_root()))?)
}

/// The facet of steps: its path, its steps, and whether it is the root.
fn facet_of_steps(alloc: Global, arguments: &Arguments) -> Result<Value, Refusal> {
    let facet = Facet::from_path(alloc, &arguments.texts(alloc, 0)?)?;
    let path = path(alloc, &facet)?;
    let steps = steps(alloc, &facet)?;
    Ok(triple(alloc, path, steps, flag(facet.is_root()))?)
}

/// The path of a facet.
fn path(alloc: Global, facet: &Facet) -> Result<Value, Refusal> {
    Ok(text(alloc, &facet.to_path_string(alloc)?)?)
}

/// The steps of a facet.
fn steps(alloc: Global, facet: &Facet) -> Result<Value, Refusal> {
    Ok(texts(alloc, &facet.to_path(alloc)?)?)
}

/// Whether the second path's facet is below that of the first one.
fn is_below(alloc: Global, arguments: &Arguments) -> Result<Value, Refusal> {
    let path = facet(alloc, arguments, 0)?;
    let other = facet(alloc, arguments, 1)?;
    Ok(flag(path.is_prefix_of(&other)))
}

/// What stands between the steps, as a byte and as a character.
fn separator(alloc: Global) -> Result<Value, Refusal> {
    let mut character = String::new(alloc);
    character.push(FACET_SEP_CHAR)?;
    Ok(pair(
        alloc,
        number(u64::from(FACET_SEP_BYTE)),
        Value::String(character),
    )?)
}
