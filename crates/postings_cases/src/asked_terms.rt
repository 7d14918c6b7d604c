//! Terms that a line asks for: `[FIELD, KIND, VALUE]`, and in JSON `[FIELD, KIND, VALUE, KEY]`.

use case_lines::{Refusal, bytes_of_digits, field_in, number_in, part, signed_in, text_in};
use schema::{DateTime, Facet, Field, IntoIpv6Addr, Term};
use serde_json::Value;
use std::alloc::Global;
use std::net::IpAddr;

/// The term of a field's value.
pub(crate) fn asked_term(alloc: Global, value: &Value) -> Result<Term, Refusal> {
    let field = field_in(part(value, 0)?)?;
    let kind = text_in(part(value, 1)?)?;
    let of = part(value, 2)?;
    match kind {
        "text" => Ok(Term::from_field_text(alloc, field, text_in(of)?)?),
        "u64" => Ok(Term::from_field_u64(alloc, field, number_in(of)?)?),
        "i64" => Ok(Term::from_field_i64(alloc, field, signed_in(of)?)?),
        "bool" => {
            let flag = of.as_bool().ok_or(Refusal::NotAsked)?;
            Ok(Term::from_field_bool(alloc, field, flag)?)
        }
        "date" => {
            let date = DateTime::from_timestamp_nanos(signed_in(of)?);
            Ok(Term::from_field_date(alloc, field, date)?)
        }
        _ => further_term(alloc, field, kind, value, of),
    }
}

/// The term of a value of a further kind.
fn further_term(
    alloc: Global,
    field: Field,
    kind: &str,
    value: &Value,
    of: &Value,
) -> Result<Term, Refusal> {
    match kind {
        "bytes" => Ok(Term::from_field_bytes(alloc, field, &bytes_of_digits(alloc, of)?)?),
        "facet" => {
            let facet = Facet::from_text(alloc, text_in(of)?)?;
            Ok(Term::from_facet(alloc, field, &facet)?)
        }
        "ip_addr" => {
            let Ok(address) = text_in(of)?.parse::<IpAddr>() else {
                return Err(Refusal::NotAsked);
            };
            Ok(Term::from_field_ip_addr(alloc, field, address.into_ipv6_addr())?)
        }
        _ => term_in_json(alloc, field, kind, text_in(part(value, 3)?)?, of),
    }
}

/// The term of a value under a key of JSON.
fn term_in_json(
    alloc: Global,
    field: Field,
    kind: &str,
    key: &str,
    of: &Value,
) -> Result<Term, Refusal> {
    let mut term = Term::from_field_json_keys(alloc, field, &[key], false)?;
    match kind {
        "json-text" => term.append_type_and_str(text_in(of)?)?,
        "json-i64" => term.append_type_and_fast_value(signed_in(of)?)?,
        _ => return Err(Refusal::NotAsked),
    }
    Ok(term)
}
