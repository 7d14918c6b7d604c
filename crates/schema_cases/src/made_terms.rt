//! Terms of values, as bytes.

use crate::{terms_as_bytes, terms_at_paths};
use case_lines::{Arguments, Refusal, hex};
use schema::{DateTime, Facet, Field, IntoIpv6Addr, Term};
use serde_json::Value;
use std::alloc::Global;
use std::net::IpAddr;

/// What an operation on terms answers.
pub(crate) fn answer(
    alloc: Global,
    operation: &str,
    arguments: &Arguments,
) -> Result<Value, Refusal> {
    if let Some(value) = operation.strip_prefix("of-") {
        return Ok(hex(alloc, of_value(alloc, value, arguments)?.serialized_term())?);
    }
    match operation.strip_prefix("at-") {
        Some(value) => terms_at_paths::answer(alloc, value, arguments),
        None => terms_as_bytes::answer(alloc, operation, arguments),
    }
}

/// The first argument, a field by its number.
pub(crate) fn field(arguments: &Arguments) -> Result<Field, Refusal> {
    Ok(Field::from_field_id(arguments.small_number(0)?))
}

/// The term of a field's value: the field is the first argument, and the value the second one.
fn of_value(alloc: Global, kind: &str, arguments: &Arguments) -> Result<Term, Refusal> {
    let field = field(arguments)?;
    let term = match kind {
        "text" => Term::from_field_text(alloc, field, arguments.text(1)?),
        "u64" => Term::from_field_u64(alloc, field, arguments.number(1)?),
        "i64" => Term::from_field_i64(alloc, field, arguments.signed_number(1)?),
        "bool" => Term::from_field_bool(alloc, field, arguments.flag(1)?),
        "date" => Term::from_field_date(alloc, field, instant(arguments)?),
        "bytes" => Term::from_field_bytes(alloc, field, &arguments.bytes(alloc, 1)?),
        "address" => return of_address(alloc, arguments),
        "facet" => return of_facet(alloc, arguments),
        _ => return Err(Refusal::NotAsked),
    };
    Ok(term?)
}

/// The second argument, nanoseconds since 1970, as an instant that tells the same nanoseconds.
fn instant(arguments: &Arguments) -> Result<DateTime, Refusal> {
    let nanos = arguments.signed_number(1)?;
    let date = DateTime::from_timestamp_nanos(nanos);
    if date.into_timestamp_nanos() != nanos {
        return Err(Refusal::NotAsked);
    }
    Ok(date)
}

/// The term of an address.
fn of_address(alloc: Global, arguments: &Arguments) -> Result<Term, Refusal> {
    let Ok(address) = arguments.text(1)?.parse::<IpAddr>() else {
        return Err(Refusal::NotAsked);
    };
    Ok(Term::from_field_ip_addr(alloc, field(arguments)?, address.into_ipv6_addr())?)
}

/// The term of a facet, by its path.
fn of_facet(alloc: Global, arguments: &Arguments) -> Result<Term, Refusal> {
    let facet = Facet::from_text(alloc, arguments.text(1)?)?;
    Ok(Term::from_facet(alloc, field(arguments)?, &facet)?)
}
