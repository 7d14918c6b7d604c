//! Checks of the documents that are added.

ghost use Rattle.std.specs.Prelude.{◌+◌, ◌<◌, ◌^◌, ◌≡◌, ◌≤◌, ◌⊎◌, IfErr, OnOk, length};
ghost use Rattle.std.specs.Result.{result_err};
ghost use Rattle.definitions.specs.Calls.{document_given};
ghost use Rattle.definitions.specs.declared.fault.Fault.TheVariants as faults;
ghost use Rattle.document.specs.Shallow.{IsShallow};
ghost use Rattle.index_state.specs.Given.{IsGiven};
ghost use Rattle.segment_definitions.specs.Segments.{IsTaken};
ghost use Rattle.segment_definitions.specs.Slots.{slot};

use definitions::Fault;
use document::{CompactDoc, has_unknown_field};
use schema::Schema;
use std::alloc::Global;

/// Checks that an add accepts `doc`: the schema has its fields, and then each of its values can be indexed.
pub(crate) fn check_document(schema: &Schema, doc: &CompactDoc) -> Result<(), Fault>
    ensures fault { result_err result ≡ result_err (document_given schema.now doc.now) }
    ensures given { OnOk result (IsGiven schema.now doc.now) }
    ensures taken { OnOk result (IsTaken schema.now doc.now) }
    ensures nests { OnOk result (IsShallow doc.now) }
    ensures err { IfErr result (λ fault. (fault ≡ faults.UnknownField) ⊎ (fault ≡ faults.NotIndexable)) }
{
    if has_unknown_field(schema, doc) {
        return Err(Fault::UnknownField);
    }
    if !doc.indexable(schema) {
        return Err(Fault::NotIndexable);
    }
    let _pairs = doc.len();
    Ok(())
}

/// Checks that `doc` can be stored; `Limit` if its slot is too long beside a block. No value may nest more than 128
/// deep.
pub(crate) fn check_slot(
    alloc: Global,
    schema: &Schema,
    block_size: u32,
    doc: &CompactDoc,
) -> Result<(), Fault>
    requires nests { IsShallow doc.now }
    ensures ok { OnOk result (block_size + length (slot schema.now doc.now) + 8 < 2 ^ 32) }
    ensures err { IfErr result (λ fault. (fault ≡ faults.OutOfMemory)
        ⊎ ((fault ≡ faults.Limit) × (2 ^ 32 ≤ block_size + length (slot schema.now doc.now) + 8))) }
{
    let beside = block_size as usize + 8;
    if doc.serialized_at_most().saturating_add(beside) < 1 << 32 {
        return Ok(());
    }
    let slot = doc.serialize(alloc, schema)?;
    if slot.len() + beside >= 1 << 32 {
        return Err(Fault::Limit);
    }
    Ok(())
}
