//! Which documents can be indexed.

ghost use Rattle.std.specs.Prelude.{◌≡◌, IsTrue, Some, nat_le, option_map, slice_get};
ghost use Rattle.definitions.specs.Indexable.{has_foreign_leaf, have_foreign_leaf, is_indexable, is_indexable_value, is_of_kind, members_have_foreign_leaf};
ghost use Rattle.definitions.specs.Json.{only_if};
ghost use Rattle.definitions.specs.Values.{members_nesting, nesting, values_nesting};
ghost use Rattle.document.specs.IndexedKinds.{indexed_kind};
ghost use Rattle.document.specs.Shallow.{IsShallow};
ghost use Rattle.document_values.specs.Shown.{value_of};
ghost use Rattle.layouts.specs.DocumentReading.{to_members, to_values};
ghost use Rattle.terms.specs.Kinds.{kind_of};

use crate::compact_doc::CompactDoc;
use document_values::{CompactDocArrayIter, CompactDocObjectIter, CompactDocValue, MAX_NESTING};
use schema::Schema;
use terms::{Field, Type};

impl CompactDoc {
    /// Whether each value can be indexed. None may nest more than 128 deep; those of an indexed field are of
    /// its type; and those of an indexed JSON field hold no facet, byte string, address or pre-tokenised text.
    pub fn indexable(&self, schema: &Schema) -> bool
        ensures value { result ≡ is_indexable schema.now self.now }
        ensures nests { IsTrue result → IsShallow self.now }
    {
        for (field, value) in self.field_values() {
            if !is_indexable_value(schema, field, value) {
                return false;
            }
        }
        true
    }
}

/// Whether `value` of `field` can be indexed.
fn is_indexable_value(schema: &Schema, field: Field, value: CompactDocValue<'_>) -> bool
    ensures { result ≡ is_indexable_value schema.now (field, value_of value.entry) }
{
    let indexed = indexed_type(schema, field);
    let of_type = match indexed {
        Some(field_type) => is_of_type(field_type, &value),
        None => true,
    };
    match foreign_leaf(MAX_NESTING, value) {
        Some(foreign) => of_type && !(foreign && matches!(indexed, Some(Type::Json))),
        None => false,
    }
}

/// Returns the type of `field`, where it is indexed.
fn indexed_type(schema: &Schema, field: Field) -> Option<Type>
    ensures { option_map kind_of result ≡ indexed_kind (slice_get schema.now field) }
{
    if field.field_id() as usize >= schema.num_fields() {
        return None;
    }
    let entry = schema.get_field_entry(field);
    if !entry.is_indexed() {
        return None;
    }
    Some(entry.field_type().value_type())
}

/// Whether a field of `field_type` takes `value`.
fn is_of_type(field_type: Type, value: &CompactDocValue<'_>) -> bool
    ensures { result ≡ is_of_kind (kind_of field_type) (value_of value.now) }
{
    match field_type {
        Type::Str => matches!(
            value,
            CompactDocValue::Str(_) | CompactDocValue::PreTokStr(_)
        ),
        Type::U64 => matches!(value, CompactDocValue::U64(_)),
        Type::I64 => matches!(value, CompactDocValue::I64(_)),
        Type::Bool => matches!(value, CompactDocValue::Bool(_)),
        Type::Date => matches!(value, CompactDocValue::Date(_)),
        Type::Facet => matches!(value, CompactDocValue::Facet(_)),
        Type::Bytes => matches!(value, CompactDocValue::Bytes(_)),
        Type::Json => matches!(value, CompactDocValue::Object(_)),
        Type::IpAddr => matches!(value, CompactDocValue::IpAddr(_)),
    }
}

/// Whether `value` is or holds what no JSON field takes; `None`, before going deeper, where it nests over `depth` deep.
#[cycle(foreign_leaf)]
fn foreign_leaf(depth: usize, value: CompactDocValue<'_>) -> Option<bool>
    ensures { result ≡ only_if (nat_le (nesting (value_of value.entry)) depth)
        (Some (has_foreign_leaf (value_of value.entry))) }
{
    match value {
        CompactDocValue::Null
        | CompactDocValue::Str(_)
        | CompactDocValue::U64(_)
        | CompactDocValue::I64(_)
        | CompactDocValue::Bool(_)
        | CompactDocValue::Date(_) => Some(false),
        CompactDocValue::PreTokStr(_)
        | CompactDocValue::Facet(_)
        | CompactDocValue::Bytes(_)
        | CompactDocValue::IpAddr(_) => Some(true),
        CompactDocValue::Array(values) => foreign_value(depth.checked_sub(1)?, values),
        CompactDocValue::Object(members) => foreign_member(depth.checked_sub(1)?, members),
    }
}

#[cycle(foreign_leaf)]
fn foreign_value(depth: usize, values: CompactDocArrayIter<'_>) -> Option<bool>
    ensures { result ≡ only_if (nat_le (values_nesting (to_values values.entry)) depth)
        (Some (have_foreign_leaf (to_values values.entry))) }
{
    let mut found = false;
    for value in values {
        found = foreign_leaf(depth, value)? || found;
    }
    Some(found)
}

#[cycle(foreign_leaf)]
fn foreign_member(depth: usize, members: CompactDocObjectIter<'_>) -> Option<bool>
    ensures { result ≡ only_if (nat_le (members_nesting (to_members members.entry)) depth)
        (Some (members_have_foreign_leaf (to_members members.entry))) }
{
    let mut found = false;
    for (_, value) in members {
        found = foreign_leaf(depth, value)? || found;
    }
    Some(found)
}
