//! Documents: which an add accepts, and how they are decoded from their slots.

ghost use Rattle.std.specs.Prelude.{◌<◌, ◌^◌, ◌≡◌, ◌⊎◌, ◌↔◌, IfErr, IfOk, IsTrue, List, None, length};
ghost use Rattle.definitions.specs.declared.fault.Fault.TheVariants as faults;
ghost use Rattle.segment.specs.SlotDocuments.{IsNoDocument, IsSlotOf};
ghost use Rattle.segment_definitions.specs.Segments.{IsTaken};

use definitions::Fault;
use document::{CompactDoc, has_unknown_field};
use schema::Schema;
use std::alloc::Global;

/// Decodes a slot as a document of the schema's fields; `Damaged` if it isn't one.
pub(crate) fn read_slot(alloc: Global, schema: &Schema, slot: &[u8]) -> Result<CompactDoc, Fault>
    ensures ok { IfOk result (λ read. IsSlotOf schema.now slot.now read) }
    ensures err { IfErr result (λ fault. (fault ≡ faults.OutOfMemory)
        ⊎ ((fault ≡ faults.Damaged None) × IsNoDocument schema.now slot.now)) }
    ensures short { length slot.now < 2 ^ 64 }
{
    let doc = CompactDoc::deserialize(alloc, slot)?;
    if has_unknown_field(schema, &doc) {
        return Err(Fault::Damaged(None));
    }
    Ok(doc)
}

/// Returns whether an add accepts `doc`: the schema has its fields, and each of its values can be indexed.
pub fn is_taken(schema: &Schema, doc: &CompactDoc) -> bool
    ensures { IsTrue result ↔ IsTaken schema.now doc.now }
{
    let _pairs = doc.len();
    !has_unknown_field(schema, doc) && doc.indexable(schema)
}
