//! Terms that are read from bytes, and the codes of their types.

use case_lines::{Arguments, Refusal, flag, hex, number, text, triple};
use schema::{Term, Type};
use serde_json::Value;
use std::alloc::Global;

/// What an operation on terms as bytes answers.
pub(crate) fn answer(
    alloc: Global,
    operation: &str,
    arguments: &Arguments,
) -> Result<Value, Refusal> {
    match operation {
        "read" => parts(alloc, &term(alloc, arguments, 0)?),
        "before" => Ok(flag(term(alloc, arguments, 0)? < term(alloc, arguments, 1)?)),
        "appended" => appended(alloc, arguments),
        "type-codes" => type_codes(alloc),
        "type-known" => Ok(flag(Type::from_code(arguments.byte(0)?).is_some())),
        _ => Err(Refusal::NotAsked),
    }
}

/// The term of the bytes at an index.
fn term(alloc: Global, arguments: &Arguments, index: usize) -> Result<Term, Refusal> {
    Ok(Term::wrap(arguments.bytes(alloc, index)?)?)
}

/// A term's field, the name of its type, and its value.
fn parts(alloc: Global, term: &Term) -> Result<Value, Refusal> {
    let field = number(u64::from(term.field().field_id()));
    let kind = text(alloc, term.typ().name())?;
    let value = hex(alloc, term.serialized_value_bytes())?;
    Ok(triple(alloc, field, kind, value)?)
}

/// A term with bytes behind its value.
fn appended(alloc: Global, arguments: &Arguments) -> Result<Value, Refusal> {
    let mut term = term(alloc, arguments, 0)?;
    term.append_bytes(&arguments.bytes(alloc, 1)?)?;
    Ok(hex(alloc, term.serialized_term())?)
}

/// The code of each type that its code names, in the order of the types.
fn type_codes(alloc: Global) -> Result<Value, Refusal> {
    let mut codes = Vec::new(alloc);
    for kind in Type::iter_values() {
        if Type::from_code(kind.to_code()) == Some(kind) {
            codes.push(kind.to_code())?;
        }
    }
    match String::from_utf8(codes) {
        Ok(codes) => Ok(Value::String(codes)),
        Err(_) => Err(Refusal::NotAsked),
    }
}
