//! Documents encoded in the binary form.

ghost use Rattle.std.specs.Prelude.{◌++◌, ◌+◌, ◌≡◌, ◌≤◌, IfOk, OnOk, Some, flat_map, length, true};
ghost use Rattle.std.specs.List.{AllByRecursion};
ghost use Rattle.definitions.specs.Schema as schemas;
ghost use Rattle.definitions.specs.Schema.{field_has};
ghost use Rattle.definitions.specs.Stored.{stored_pairs};
ghost use Rattle.document.specs.Shallow.{IsShallow};
ghost use Rattle.document_values.specs.Docs.{IsGoodPair};
ghost use Rattle.document_values.specs.Held.{held_pairs};
ghost use Rattle.layouts.specs.DocumentReading.{deepest, read_document};
ghost use Rattle.layouts.specs.DocumentBytes.{document_bytes, pair_bytes};

use crate::compact_doc::CompactDoc;
use common::{put_u32, put_vint};
use document_values::put_value;
use schema::Schema;
use std::alloc::{AllocError, Global};
use terms::Field;

impl CompactDoc {
    /// Encodes the pairs of stored fields in the binary form, pre-tokenised texts as texts. `deserialize` decodes the
    /// document of these pairs. No value may nest more than 128 deep.
    pub fn serialize(&self, alloc: Global, schema: &Schema) -> Result<Vec<u8>, AllocError>
        requires nests { IsShallow self.now }
        ensures bytes { IfOk result (λ bytes. bytes.items ≡ document_bytes (stored_pairs schema.now self.now)) }
        ensures read_back { read_document (document_bytes (stored_pairs schema.now self.now))
            ≡ Some (stored_pairs schema.now self.now) }
    {
        let mut bytes = Vec::new(alloc);
        self.serialize_into(&mut bytes, schema)?;
        Ok(bytes)
    }

    /// Appends what `serialize` encodes. If memory is wanting, what stands in `out` is of no use.
    pub fn serialize_into(&self, out: &mut Vec<u8>, schema: &Schema) -> Result<(), AllocError>
        requires nests { IsShallow self.now }
        ensures ok { OnOk result (out.new.items
            ≡ out.old.items ++ document_bytes (stored_pairs schema.now self.now)) }
        ensures read_back { read_document (document_bytes (stored_pairs schema.now self.now))
            ≡ Some (stored_pairs schema.now self.now) }
    {
        let count = self.stored_count(schema);
        out.reserve(self.serialized_at_most())?;
        put_vint(out, count as u64)?;
        self.put_stored(out, schema)
    }

    /// Returns how many bytes the pairs take in memory, and ten for their count. No schema's binary form is longer.
    pub fn serialized_at_most(&self) -> usize
        ensures bytes { result ≡ length (held_pairs self.now) + 10 }
        ensures most { (schema : schemas.Schema) → length (document_bytes (stored_pairs schema self.now)) ≤ result }
    {
        let (bytes, _) = self.held();
        bytes.len() + 10
    }

    // Returns how many pairs are of stored fields.
    fn stored_count(&self, schema: &Schema) -> usize
        ensures count { result ≡ length (stored_pairs schema.now self.now) }
        ensures pairs { AllByRecursion (IsGoodPair true deepest) self.now }
    {
        let mut stored = self.len();
        for (field, _) in self.field_values() {
            if !is_stored(schema, field) {
                stored -= 1;
            }
        }
        stored
    }

    // Appends the pairs of stored fields.
    fn put_stored(&self, out: &mut Vec<u8>, schema: &Schema) -> Result<(), AllocError>
        ensures { OnOk result (out.new.items
            ≡ out.old.items ++ flat_map pair_bytes (stored_pairs schema.now self.now)) }
    {
        for (field, value) in self.field_values() {
            if is_stored(schema, field) {
                put_u32(out, field.field_id())?;
                put_value(out, value)?;
            }
        }
        Ok(())
    }
}

/// Whether the schema has `field`, and its values come back with their documents.
pub(crate) fn is_stored(schema: &Schema, field: Field) -> bool
    ensures { result ≡ field_has (λ e. e.stored) schema.now field }
{
    (field.field_id() as usize) < schema.num_fields() && schema.get_field_entry(field).is_stored()
}
