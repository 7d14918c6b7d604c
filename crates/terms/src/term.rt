//! Terms, by which documents are found.

ghost use Rattle.std.specs.Prelude.{[], ◌++◌, ◌∷◌, ◌≡◌, IfErr, IfOk, IsSome, List, OnErr, OnOk, Some, if◌then◌else◌, is_ok, is_some, map, option_map, refl, ℕ};
ghost use Rattle.std.specs.Cmp as Cmp;
ghost use Rattle.std.specs.Cmp.{on_equiv, on_per, on_po, on_total};
ghost use Rattle.std.specs.Cmp.Lexicographic.{nat_list_cmp_total, nat_list_eq_equiv, slice_cmp, texts_po, texts_ties};
ghost use Rattle.std.specs.Int.{to_be_bytes, w128, w64};
ghost use Rattle.std.specs.Net.Addr.{ipv6_bits};
ghost use Rattle.std.specs.Ordering.{nat_cmp};
ghost use Rattle.std.specs.Str.{bytes_eq};
ghost use Rattle.definitions.specs.Facets.{encoded};
ghost use Rattle.definitions.specs.Schema.{bool_kind, bytes_kind, date_kind, facet_kind, i64_kind, ip_addr_kind, json_kind, text_kind, u64_kind};
ghost use Rattle.definitions.specs.Terms.{field_of, json_term, kind_in, leaf_bytes, path_of_keys, payload_of, signed_bytes, term_bytes, type_code, value_bytes, whole_seconds};
ghost use Rattle.definitions.specs.declared.fault.Fault.TheVariants as faults;
ghost use Rattle.terms.specs.JsonPaths.{keys_in};
ghost use Rattle.terms.specs.Kinds.{kind_of};

use crate::date_time::DateTime;
use crate::facet::Facet;
use crate::fast_value::FastValue;
use crate::field::Field;
use crate::field_type::Type;
use crate::json_path::{push_keys, push_path};
use definitions::Fault;
use std::alloc::{AllocError, Global};
use std::cmp::Ordering;
use std::marker::Model;
use std::net::Ipv6Addr;

/// The number of bytes before the value: four of the field's number, one of the type's code.
pub const HEADER_LEN: usize = 5;

/// The byte after the path of a JSON term.
pub(crate) const PATH_END: u8 = 0;

/// Returns the type of the code in a term's bytes.
fn type_of(bytes: &[u8]) -> Type
    requires { IsSome (kind_in bytes.now) }
    ensures kind { kind_in bytes.now ≡ Some (kind_of result) }
    ensures parts { bytes.now ≡ term_bytes (field_of bytes.now) (kind_of result) (payload_of bytes.now) }
{
    Type::from_code(bytes[4]).unwrap()
}

/// A term: its field's number, the code of its type and its value, as bytes. Terms are ordered by these bytes.
#[derive(Drop)]
pub struct Term {
    bytes: Vec<u8>,
}

impl Model for Term {
    ghost Value = { List ℕ };

    ghost view = { λ t. t.bytes.items };

    ghost invariant = { λ t. IsSome (kind_in t.bytes.items) };
}

/// Encodes a term.
fn bytes_of(alloc: Global, field: Field, kind: Type, value: &[u8]) -> Result<Vec<u8>, AllocError>
    ensures { IfOk result (λ bytes. bytes.items ≡ term_bytes field (kind_of kind) value.now) }
{
    let mut bytes = Vec::with_capacity(alloc, HEADER_LEN + value.len())?;
    push_term_header(&mut bytes, field, kind)?;
    bytes.extend_from_slice(value)?;
    Ok(bytes)
}

/// Appends the header of the terms of `field`: its number, and the code of the type `kind`.
pub fn push_term_header(bytes: &mut Vec<u8>, field: Field, kind: Type) -> Result<(), AllocError>
    ensures { OnOk result (bytes.new.items ≡ bytes.old.items ++ term_bytes field (kind_of kind) []) }
{
    bytes.extend_from_slice(&field.field_id().to_be_bytes())?;
    bytes.push(kind.to_code())?;
    Ok(())
}

/// Appends the first bytes of the terms at a path of a JSON field, by its `keys`, which may be any texts.
pub fn push_json_path(
    bytes: &mut Vec<u8>,
    field: Field,
    keys: &[&str],
    expand_dots: bool,
) -> Result<(), AllocError>
    ensures { OnOk result (bytes.new.items
        ≡ bytes.old.items ++ json_term field (path_of_keys expand_dots (map (λ key. key.now) keys.now)) []) }
{
    push_term_header(bytes, field, Type::Json)?;
    push_keys(bytes, keys, expand_dots)?;
    bytes.push(PATH_END)?;
    Ok(())
}

impl Term {
    /// Makes the term of a token of a text field.
    pub fn from_field_text(alloc: Global, field: Field, text: &str) -> Result<Term, AllocError>
        ensures { IfOk result (λ term. term ≡ term_bytes field text_kind text.now) }
    {
        let bytes = bytes_of(alloc, field, Type::Str, text.as_bytes())?;
        Ok(Term { bytes })
    }

    /// Makes the term of a number in a u64 field.
    pub fn from_field_u64(alloc: Global, field: Field, value: u64) -> Result<Term, AllocError>
        ensures { IfOk result (λ term. term ≡ term_bytes field u64_kind (to_be_bytes w64 value)) }
    {
        Term::from_fast_value(alloc, field, value)
    }

    /// Makes the term of a number in an i64 field.
    pub fn from_field_i64(alloc: Global, field: Field, value: i64) -> Result<Term, AllocError>
        ensures { IfOk result (λ term. term ≡ term_bytes field i64_kind (signed_bytes value)) }
    {
        Term::from_fast_value(alloc, field, value)
    }

    /// Makes the term of a bool in a bool field.
    pub fn from_field_bool(alloc: Global, field: Field, value: bool) -> Result<Term, AllocError>
        ensures { IfOk result (λ term. term ≡ term_bytes field bool_kind (to_be_bytes w64 (if value then 1 else 0))) }
    {
        Term::from_fast_value(alloc, field, value)
    }

    /// Makes the term of an instant in a date field: the instant is cut to its whole second, toward 1970.
    pub fn from_field_date(alloc: Global, field: Field, value: DateTime) -> Result<Term, AllocError>
        ensures { IfOk result (λ term. term ≡ term_bytes field date_kind (signed_bytes (whole_seconds value))) }
    {
        Term::from_fast_value(alloc, field, value)
    }

    /// Makes the term of an IP address in an IP address field.
    pub fn from_field_ip_addr(
        alloc: Global,
        field: Field,
        value: Ipv6Addr,
    ) -> Result<Term, AllocError>
        ensures { IfOk result (λ term. term ≡ term_bytes field ip_addr_kind (to_be_bytes w128 (ipv6_bits value))) }
    {
        let bytes = bytes_of(alloc, field, Type::IpAddr, &value.to_bits().to_be_bytes())?;
        Ok(Term { bytes })
    }

    /// Makes the term of bytes in a bytes field.
    pub fn from_field_bytes(alloc: Global, field: Field, value: &[u8]) -> Result<Term, AllocError>
        ensures { IfOk result (λ term. term ≡ term_bytes field bytes_kind value.now) }
    {
        let bytes = bytes_of(alloc, field, Type::Bytes, value)?;
        Ok(Term { bytes })
    }

    /// Makes the term of a facet in a facet field. It finds the facets below this one, too.
    pub fn from_facet(alloc: Global, field: Field, facet: &Facet) -> Result<Term, AllocError>
        ensures { IfOk result (λ term. term ≡ term_bytes field facet_kind (encoded facet.now)) }
    {
        let value = facet.encoded_str().as_bytes();
        let bytes = bytes_of(alloc, field, Type::Facet, value)?;
        Ok(Term { bytes })
    }

    /// Makes the start of the terms at a path of a JSON field; the value is still to be appended. Dots separate the
    /// keys in `json_path`, and a backslash escapes the next character; with `expand_dots` each key is split at its
    /// dots, too.
    pub fn from_field_json_path(
        alloc: Global,
        field: Field,
        json_path: &str,
        expand_dots: bool,
    ) -> Result<Term, AllocError>
        ensures { IfOk result (λ term. term ≡ json_term field (path_of_keys expand_dots (keys_in json_path.now)) []) }
    {
        let mut bytes = bytes_of(alloc, field, Type::Json, &[])?;
        push_path(&mut bytes, json_path, expand_dots)?;
        bytes.push(PATH_END)?;
        Ok(Term { bytes })
    }

    /// Like `from_field_json_path`, but with the path as its `keys`, which may be any texts.
    pub fn from_field_json_keys(
        alloc: Global,
        field: Field,
        keys: &[&str],
        expand_dots: bool,
    ) -> Result<Term, AllocError>
        ensures { IfOk result (λ term. term
            ≡ json_term field (path_of_keys expand_dots (map (λ key. key.now) keys.now)) []) }
    {
        let mut bytes = Vec::new(alloc);
        push_json_path(&mut bytes, field, keys, expand_dots)?;
        Ok(Term { bytes })
    }

    /// Makes a term from its bytes, as `serialized_term` returns them. Fewer than five bytes or an unknown code of a
    /// type are `BadTerm`; what comes after the code isn't checked.
    pub fn wrap(bytes: Vec<u8>) -> Result<Term, Fault>
        ensures ok { IfOk result (λ term. term ≡ bytes.items) }
        ensures err { IfErr result (λ fault. fault ≡ faults.BadTerm) }
        ensures exact { is_ok result ≡ is_some (kind_in bytes.items) }
    {
        if has_type(bytes.as_slice()) {
            Ok(Term { bytes })
        } else {
            Err(Fault::BadTerm)
        }
    }

    /// Appends `bytes` to the value.
    pub fn append_bytes(&mut self, bytes: &[u8]) -> Result<(), AllocError>
        ensures ok { OnOk result (self.new ≡ self.old ++ bytes.now) }
        ensures unchanged { OnErr result (self.new ≡ self.old) }
    {
        self.bytes.extend_from_slice(bytes)
    }

    /// Appends a text as the value at a path of a JSON field: the code of texts and the bytes of `value`.
    pub fn append_type_and_str(&mut self, value: &str) -> Result<(), AllocError>
        ensures ok { OnOk result (self.new ≡ self.old ++ (type_code text_kind ++ value.now)) }
        ensures unchanged { OnErr result (self.new ≡ self.old) }
    {
        self.append_type_and_bytes(Type::Str, value.as_bytes())
    }

    /// Appends a u64, an i64, a bool or a `DateTime` as the value at a path of a JSON field: the code of its type and
    /// eight bytes. A u64 that fits i64 is an i64 there, as such a number of a document is.
    pub fn append_type_and_fast_value<T: FastValue>(&mut self, value: T) -> Result<(), AllocError>
        ensures ok { OnOk result
            (option_map (λ leaf. self.old ++ leaf) (leaf_bytes (T.value value)) ≡ Some self.new) }
        ensures unchanged { OnErr result (self.new ≡ self.old) }
    {
        let (leaf_type, number) = value.to_leaf();
        self.append_type_and_bytes(leaf_type, &number.to_be_bytes())
    }

    /// Returns the term's field.
    pub fn field(&self) -> Field
        ensures { result ≡ field_of self.now }
    {
        let bytes = self.bytes.as_slice();
        Field::from_field_id(u32::from_be_bytes([bytes[0], bytes[1], bytes[2], bytes[3]]))
    }

    /// Returns the type of the term's value.
    pub fn typ(&self) -> Type
        ensures kind { kind_in self.now ≡ Some (kind_of result) }
        ensures parts { self.now ≡ term_bytes (field_of self.now) (kind_of result) (payload_of self.now) }
    {
        type_of(self.bytes.as_slice())
    }

    /// Returns the bytes of the whole term: field, code and value.
    pub fn serialized_term(&self) -> &[u8]
        ensures { result.now ≡ self.now }
    {
        self.bytes.as_slice()
    }

    /// Returns the bytes of the value alone, as its type encodes it.
    pub fn serialized_value_bytes(&self) -> &[u8]
        ensures { result.now ≡ payload_of self.now }
    {
        &self.bytes.as_slice()[HEADER_LEN..]
    }
}

impl Term {
    /// Makes the term of a value of eight bytes in a field of its type.
    fn from_fast_value<T: FastValue>(
        alloc: Global,
        field: Field,
        value: T,
    ) -> Result<Term, AllocError>
        ensures { IfOk result (λ term. option_map (term_bytes field T.kind) (value_bytes T.kind (T.value value))
            ≡ Some term) }
    {
        let payload = value.to_u64().to_be_bytes();
        let bytes = bytes_of(alloc, field, T::to_type(), &payload)?;
        Ok(Term { bytes })
    }

    /// Appends the code of a type and the bytes of a value.
    fn append_type_and_bytes(&mut self, kind: Type, value: &[u8]) -> Result<(), AllocError>
        ensures ok { OnOk result (self.new ≡ self.old ++ (type_code (kind_of kind) ++ value.now)) }
        ensures unchanged { OnErr result (self.new ≡ self.old) }
    {
        self.bytes.reserve(1 + value.len())?;
        self.bytes.push(kind.to_code())?;
        self.bytes.extend_from_slice(value)
    }
}

/// Whether there is a type's code after four bytes.
fn has_type(bytes: &[u8]) -> bool
    ensures { result ≡ is_some (kind_in bytes.now) }
{
    match bytes.get(4) {
        Some(code) => Type::from_code(*code).is_some(),
        None => false,
    }
}

impl PartialEq for Term {
    ghost eq = { bytes_eq };

    ghost laws = { on_per (λ x. x) (Cmp.partial_equiv_from_equiv nat_list_eq_equiv) };

    fn eq(&self, other: &Self) -> bool {
        self.serialized_term() == other.serialized_term()
    }
}

impl Eq for Term {
    ghost laws = { on_equiv (λ x. x) nat_list_eq_equiv };
}

impl PartialOrd for Term {
    ghost partial_cmp = { λ x y. Some (slice_cmp nat_cmp x y) };

    ghost laws = { on_po (λ x. x) texts_po };

    fn partial_cmp(&self, other: &Self) -> Option<Ordering> {
        Some(self.cmp(other))
    }
}

impl Ord for Term {
    ghost cmp = { slice_cmp nat_cmp };

    ghost total = { on_total (λ x. x) nat_list_cmp_total };

    ghost matches_partial_cmp = { λ x y. refl };

    ghost matches_eq = { λ x y. texts_ties x y };

    fn cmp(&self, other: &Self) -> Ordering {
        self.serialized_term().cmp(other.serialized_term())
    }
}
