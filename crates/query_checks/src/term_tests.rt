//! Checks of a term: its field, and the codes in its bytes.

ghost use Rattle.std.specs.Prelude.{[], ◌&&◌, ◌==◌, ◌∷◌, ◌≡◌, bytes_eq, false, find, is_none, is_some, option_map, slice_get, take};
ghost use Rattle.std.specs.List.{after_first};
ghost use Rattle.std.specs.Option.{option_map_or};
ghost use Rattle.definitions.specs.Refusing as refusing;
ghost use Rattle.definitions.specs.Schema.{is_text, json_kind};
ghost use Rattle.definitions.specs.Terms.{field_of, has_kind, inner_kind, is_text_term, leaf_kinds, type_code};
ghost use Rattle.terms.specs.Kinds.{kind_of};

use schema::{FieldEntry, Schema};
use terms::{Term, Type};

/// Whether the schema lacks the field of `term`.
pub(crate) fn is_unknown(schema: &Schema, term: &Term) -> bool
    ensures { result ≡ refusing.is_unknown schema.now term.now }
{
    term.field().field_id() as usize >= schema.num_fields()
}

/// Whether the field of `term` isn't indexed.
pub(crate) fn is_not_indexed(schema: &Schema, term: &Term) -> bool
    ensures { result ≡ refusing.is_not_indexed schema.now term.now }
{
    match entry_of(schema, term) {
        Some(entry) => !entry.is_indexed(),
        None => true,
    }
}

/// Whether `term` is of another type than its field, or a JSON term without the code of a value after its path.
pub(crate) fn is_mismatched(schema: &Schema, term: &Term) -> bool
    ensures { result ≡ refusing.is_mismatched schema.now term.now }
{
    match entry_of(schema, term) {
        Some(entry) => !has_type(term, entry.value_type()) || lacks_leaf(term),
        None => true,
    }
}

/// Whether the field of `term` records no positions.
pub(crate) fn has_no_positions(schema: &Schema, term: &Term) -> bool
    ensures { result ≡ refusing.has_no_positions schema.now term.now }
{
    match entry_of(schema, term) {
        Some(entry) => !entry.records_positions(),
        None => true,
    }
}

/// Whether `term` is of a text field, or of a text in a JSON field.
pub(crate) fn is_text_term(term: &Term) -> bool
    ensures { result ≡ is_text_term term.now }
{
    has_type(term, Type::Str)
        || has_type(term, Type::Json) && has_text_code(term.serialized_value_bytes())
}

/// Returns the entry of the field of `term`, if the schema has it.
fn entry_of<'a>(schema: &'a Schema, term: &Term) -> Option<&'a FieldEntry>
    ensures { option_map (λ entry. entry.now) result ≡ slice_get schema.now (field_of term.now) }
{
    if is_unknown(schema, term) {
        return None;
    }
    Some(schema.get_field_entry(term.field()))
}

/// Whether `term` is a JSON term without the code of a value after its path.
fn lacks_leaf(term: &Term) -> bool
    ensures { result ≡ (has_kind json_kind term.now && is_none (inner_kind term.now)) }
{
    has_type(term, Type::Json) && !has_leaf_code(term.serialized_value_bytes())
}

/// Whether the code of `term` is that of `value_type`.
fn has_type(term: &Term, value_type: Type) -> bool
    ensures { result ≡ has_kind (kind_of value_type) term.now }
{
    term.typ().to_code() == value_type.to_code()
}

/// Whether the byte after the first U+0000 is the code of a value in a JSON field.
fn has_leaf_code(bytes: &[u8]) -> bool
    ensures { let code = take 1 (after_first (◌==◌ 0) bytes.now)
        in result ≡ is_some (find (λ kind. bytes_eq code (type_code kind)) leaf_kinds) }
{
    match behind_path(bytes).first() {
        Some(code) => is_leaf_code(*code),
        None => false,
    }
}

/// Whether the byte after the first U+0000 is the code of a text.
fn has_text_code(bytes: &[u8]) -> bool
    ensures { let code = take 1 (after_first (◌==◌ 0) bytes.now)
        in result ≡ option_map_or is_text (find (λ kind. bytes_eq code (type_code kind)) leaf_kinds) false }
{
    match behind_path(bytes).first() {
        Some(code) => is_text_code(*code),
        None => false,
    }
}

/// Returns the bytes after the first U+0000.
#[tactic(auto, using(crate::proofs::TermKinds::behind_first, crate::proofs::TermKinds::behind_other))]
fn behind_path(bytes: &[u8]) -> &[u8]
    ensures { result.now ≡ after_first (◌==◌ 0) bytes.now }
{
    let mut rest = bytes;
    while let Some((byte, behind)) = rest.split_first() {
        rest = behind;
        if *byte == 0 {
            break;
        }
    }
    rest
}

/// Whether `code` is that of a type of values in JSON fields.
fn is_leaf_code(code: u8) -> bool
    ensures { result ≡ is_some (find (λ kind. bytes_eq (code ∷ []) (type_code kind)) leaf_kinds) }
{
    matches!(code, b's' | b'u' | b'i' | b'o' | b'd')
}

/// Whether `code` is that of texts.
fn is_text_code(code: u8) -> bool
    ensures { result
        ≡ option_map_or is_text (find (λ kind. bytes_eq (code ∷ []) (type_code kind)) leaf_kinds) false }
{
    code == b's'
}
