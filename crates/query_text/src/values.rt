//! Terms of values that texts are.

ghost use Rattle.std.specs.Int.{to_be_bytes, w128};
ghost use Rattle.std.specs.Prelude.{◌≡◌, IfOk, Some};
ghost use Rattle.definitions.specs.Schema.{bool_kind, bytes_kind, date_kind, facet_kind, i64_kind, ip_addr_kind, u64_kind};
ghost use Rattle.definitions.specs.Terms.{term_bytes};
ghost use Rattle.query_text.specs.Answers.{value_term};
ghost use Rattle.terms.specs.Kinds.{kind_of};

use definitions::Fault;
use std::alloc::{AllocError, Global};
use terms::{Field, Term, Type, push_term_header};
use values_json::{
    read_address, read_bool_text, read_bytes, read_date, read_facet, read_i64_text, read_u64_text,
};

/// Makes the term of the value that `text` is in a field of the type `kind`; `None` if it is none.
pub(crate) fn value_term(
    alloc: Global,
    field: Field,
    kind: Type,
    text: &str,
) -> Result<Option<Term>, AllocError>
    ensures { IfOk result (λ found. found ≡ value_term field (kind_of kind) text.now) }
{
    match kind {
        Type::U64 => u64_term(alloc, field, text),
        Type::I64 => i64_term(alloc, field, text),
        Type::Bool => bool_term(alloc, field, text),
        Type::Date => date_term(alloc, field, text),
        Type::Facet => facet_term(alloc, field, text),
        Type::Bytes => bytes_term(alloc, field, text),
        Type::IpAddr => address_term(alloc, field, text),
        Type::Str | Type::Json => Ok(None),
    }
}

/// Makes the term of a number from 0 below 2^64.
fn u64_term(alloc: Global, field: Field, text: &str) -> Result<Option<Term>, AllocError>
    ensures { IfOk result (λ found. found ≡ value_term field u64_kind text.now) }
{
    match read_u64_text(text) {
        Ok(value) => Ok(Some(Term::from_field_u64(alloc, field, value)?)),
        Err(_) => Ok(None),
    }
}

/// Makes the term of a signed number of 64 bits.
fn i64_term(alloc: Global, field: Field, text: &str) -> Result<Option<Term>, AllocError>
    ensures { IfOk result (λ found. found ≡ value_term field i64_kind text.now) }
{
    match read_i64_text(text) {
        Ok(value) => Ok(Some(Term::from_field_i64(alloc, field, value)?)),
        Err(_) => Ok(None),
    }
}

/// Makes the term of `true` or `false`.
fn bool_term(alloc: Global, field: Field, text: &str) -> Result<Option<Term>, AllocError>
    ensures { IfOk result (λ found. found ≡ value_term field bool_kind text.now) }
{
    match read_bool_text(text) {
        Ok(value) => Ok(Some(Term::from_field_bool(alloc, field, value)?)),
        Err(_) => Ok(None),
    }
}

/// Makes the term of a date, cut to its second.
fn date_term(alloc: Global, field: Field, text: &str) -> Result<Option<Term>, AllocError>
    ensures { IfOk result (λ found. found ≡ value_term field date_kind text.now) }
{
    match read_date(text) {
        Ok(date) => Ok(Some(Term::from_field_date(alloc, field, date)?)),
        Err(_) => Ok(None),
    }
}

/// Makes the term of a facet's path.
fn facet_term(alloc: Global, field: Field, text: &str) -> Result<Option<Term>, AllocError>
    ensures { IfOk result (λ found. found ≡ value_term field facet_kind text.now) }
{
    match read_facet(alloc, text) {
        Ok(facet) => Ok(Some(Term::from_facet(alloc, field, &facet)?)),
        Err(Fault::OutOfMemory) => Err(AllocError),
        Err(_) => Ok(None),
    }
}

/// Makes the term of bytes in base64.
fn bytes_term(alloc: Global, field: Field, text: &str) -> Result<Option<Term>, AllocError>
    ensures { IfOk result (λ found. found ≡ value_term field bytes_kind text.now) }
{
    match read_bytes(alloc, text) {
        Ok(bytes) => Ok(Some(Term::from_field_bytes(alloc, field, bytes.as_slice())?)),
        Err(Fault::OutOfMemory) => Err(AllocError),
        Err(_) => Ok(None),
    }
}

/// Makes the term of an IPv4 or IPv6 address.
fn address_term(alloc: Global, field: Field, text: &str) -> Result<Option<Term>, AllocError>
    ensures { IfOk result (λ found. found ≡ value_term field ip_addr_kind text.now) }
{
    match read_address(text) {
        Some(address) => term_of_bits(alloc, field, address),
        None => Ok(None),
    }
}

/// Makes the term of the address with these bits.
fn term_of_bits(alloc: Global, field: Field, address: u128) -> Result<Option<Term>, AllocError>
    ensures { IfOk result (λ found. found ≡ Some (term_bytes field ip_addr_kind (to_be_bytes w128 address))) }
{
    let mut bytes = Vec::new(alloc);
    push_term_header(&mut bytes, field, Type::IpAddr)?;
    bytes.extend_from_slice(&address.to_be_bytes())?;
    Ok(Term::wrap(bytes).ok())
}
