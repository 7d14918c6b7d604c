//! The writing of the terms of all fields.

ghost use Rattle.std.specs.Prelude.{[], ◌≡◌, ◌≤◌, ◌∷◌, IfErr, IfOk, List, Some, length, slice_get, true, ℕ};
ghost use Rattle.std.specs.List.{AllByRecursion};
ghost use Rattle.definitions.specs.Schema.{Schema as Fields, is_indexed};
ghost use Rattle.definitions.specs.Terms.{term_bytes};
ghost use Rattle.layouts.specs.InvertedIndexes.{AreGiven, AreSections, IndexedField, field_ids, option_of_term};
ghost use Rattle.postings_writer.specs.Fields.{option_of_key};
ghost use Rattle.postings_writer.specs.Limits.{IsFieldRefusal, IsFieldWithin, IsSerializeRefusal};
ghost use Rattle.postings_writer.specs.Occurrences.{Occurrence, places_of, postings_at, postings_in};
ghost use Rattle.postings_writer.specs.Sections.{AreFieldsAdded, IsFieldOf};
ghost use Rattle.postings_writer.specs.Writers.{Stands};

use crate::InvertedIndexSerializer;
use crate::postings_writer::PostingsWriter;
use codes::FieldNormReaders;
use definitions::Fault;
use schema::{FieldEntry, Schema};
use terms::Field;

impl PostingsWriter {
    /// Writes the terms of the indexed fields, field by field in the order of their numbers, with their postings
    /// and positions. A field that keeps lengths has one for each document that was recorded.
    pub fn serialize(
        &self,
        schema: &Schema,
        fieldnorm_readers: &FieldNormReaders<'_>,
        mut serializer: InvertedIndexSerializer,
    ) -> Result<InvertedIndexSerializer, Fault>
        requires stands { ∥ ((os : List Occurrence) × Stands schema.now self.now os) ∥₁ }
        requires lengths { AllByRecursion (λ p. self.now.num_docs ≤ length p.1) fieldnorm_readers.now }
        requires new { serializer ≡ record { terms = 1 ∷ []; postings = []; positions = [] } }
        ensures ok { (num_docs : ℕ) (os : List Occurrence) → self.now.num_docs ≤ num_docs
            → Stands schema.now self.now os
            → IfOk result (λ s. (fields : List IndexedField)
            × AreSections schema.now num_docs fieldnorm_readers.now fields s.terms s.postings s.positions
            × AreGiven (λ t. postings_in (option_of_term schema.now t) t os) schema.now fields
            × AllByRecursion (IsFieldWithin schema.now) fields) }
        ensures err { (os : List Occurrence) → Stands schema.now self.now os
            → IfErr result (λ fault. IsSerializeRefusal fault schema.now fieldnorm_readers.now
            (λ t. postings_in (option_of_term schema.now t) t os)) }
    {
        for (field, entry) in schema.fields() {
            if entry.is_indexed() {
                serializer = self.serialize_field(field, entry, fieldnorm_readers, serializer)?;
            }
        }
        Ok(serializer)
    }

    /// Writes `field` after the fields before.
    fn serialize_field(
        &self,
        field: Field,
        entry: &FieldEntry,
        fieldnorm_readers: &FieldNormReaders<'_>,
        serializer: InvertedIndexSerializer,
    ) -> Result<InvertedIndexSerializer, Fault>
        requires stands { ∥ ((schema : Fields) × (os : List Occurrence) × Stands schema self.now os
            × (slice_get schema field ≡ Some entry.now)) ∥₁ }
        requires lengths { AllByRecursion (λ p. self.now.num_docs ≤ length p.1) fieldnorm_readers.now }
        requires indexed { is_indexed entry.now ≡ true }
        ensures ok { (schema : Fields) (os : List Occurrence) → Stands schema self.now os
            → slice_get schema field ≡ Some entry.now
            → IfOk result (λ sections. (f : IndexedField) × (f.field ≡ field)
            × IsFieldOf entry.now (field_ids fieldnorm_readers.now field)
            (λ key. places_of (term_bytes field entry.now.kind key) os) f
            × AreFieldsAdded serializer sections (f ∷ [])) }
        ensures err { (schema : Fields) (os : List Occurrence) → Stands schema self.now os
            → slice_get schema field ≡ Some entry.now
            → IfErr result (λ fault. IsFieldRefusal fault (option_of_key entry.now)
            (field_ids fieldnorm_readers.now field) (λ key. postings_at (option_of_key entry.now key)
            (places_of (term_bytes field entry.now.kind key) os))) }
    {
        let field_id = field.field_id();
        let fieldnorm_reader = fieldnorm_readers.get_field(field_id);
        let postings = &self.fields[field_id as usize];
        postings.serialize(self.alloc, field_id, entry, fieldnorm_reader, serializer)
    }
}
