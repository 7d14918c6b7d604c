//! The look-up of a field by its number.

ghost use Rattle.std.specs.Prelude.{◌==◌, ◌≡◌, find, map, nat_lt, option_map};
ghost use Rattle.segment_reader.specs.Searching.{IsFirstFrom};
ghost use Rattle.layouts.specs.Deltas.{IsAscendingFrom};

use crate::field_index::FieldIndex;

/// Whether the field of `index` is before `field`.
fn is_below(index: &FieldIndex, field: u32) -> bool
    ensures { result ≡ nat_lt index.now.kind.field field }
{
    index.kind.field < field
}

/// Returns the number of fields before `field`.
fn first_from(indexes: &[FieldIndex], field: u32) -> usize
    requires { IsAscendingFrom 0 (map (λ i. i.kind.field) indexes.now) }
    ensures { IsFirstFrom field (map (λ i. i.kind.field) indexes.now) result }
{
    indexes.partition_point(|index| is_below(index, field))
}

/// Returns the entry of field number `field` in `indexes`, if it has one.
pub(crate) fn index_of(indexes: &[FieldIndex], field: u32) -> Option<&FieldIndex>
    requires { IsAscendingFrom 0 (map (λ i. i.kind.field) indexes.now) }
    ensures { option_map (λ i. i.now) result ≡ find (λ i. i.kind.field == field) indexes.now }
{
    let index = indexes.get(first_from(indexes, field))?;
    if index.kind.field != field {
        return None;
    }
    Some(index)
}
