//! The lengths of fields.

ghost use Rattle.std.specs.Prelude.{◌+◌, ◌<◌, ◌≡◌, ◌≤◌, OnOk, length, replicate, set, slice_index_or};
ghost use Rattle.std.specs.List.{AllByRecursion};
ghost use Rattle.definitions.specs.Schema.{max_fields};
ghost use Rattle.document_indexer.specs.FieldLengths.{cut, with_ids};

use codes::FieldNormsWriter;
use std::alloc::AllocError;
use terms::Field;

/// Sets `lengths` to a length of 0 for each of `num_fields` fields.
pub(crate) fn begin_lengths(lengths: &mut Vec<u32>, num_fields: usize) -> Result<(), AllocError>
    ensures { OnOk result (lengths.new.items ≡ replicate num_fields 0) }
{
    lengths.clear();
    lengths.resize(num_fields, 0)
}

/// Adds `len` to the length of `field`; a field that has none keeps none.
pub(crate) fn add_length(lengths: &mut Vec<u32>, field: Field, len: u32)
    ensures { lengths.new.items ≡ set lengths.old.items field (cut (slice_index_or lengths.old.items field 0 + len)) }
{
    let index = field.field_id() as usize;
    if index < lengths.len() {
        lengths[index] = lengths[index].saturating_add(len);
    }
}

/// Appends the lengths of `doc` to those of the documents before it.
pub(crate) fn record_lengths(
    norms: &mut FieldNormsWriter,
    doc: u32,
    lengths: &[u32],
) -> Result<(), AllocError>
    requires few { length lengths.now ≤ max_fields }
    requires kept { AllByRecursion (λ p. (p.0 < length lengths.now) × (length p.1 ≡ doc)) norms.old }
    ensures { OnOk result (norms.new ≡ with_ids lengths.now norms.old) }
{
    for field in 0..lengths.len() {
        norms.record(doc, field as u32, lengths[field] as usize)?;
    }
    Ok(())
}
