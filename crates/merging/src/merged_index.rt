//! The writing of the fields of a merge.

ghost use Rattle.std.specs.Prelude.{[], ◌≡◌, ◌≤◌, ◌∷◌, IfErr, IfOk, List, Some, length, slice_get, true, ℕ};
ghost use Rattle.std.specs.List.{AllByRecursion};
ghost use Rattle.definitions.specs.Postings.{terminated};
ghost use Rattle.definitions.specs.Schema.{Schema as Fields, is_indexed};
ghost use Rattle.layouts.specs.InvertedIndexes.{IndexedField, field_ids};
ghost use Rattle.merging.specs.Members.{AreMembers, merged_in};
ghost use Rattle.merging.specs.MergedFields.{IsFieldGiven};
ghost use Rattle.merging.specs.ToldFields.{AreMerged, IsMergeRefusal};
ghost use Rattle.postings_writer.specs.Fields.{option_of_key};
ghost use Rattle.postings_writer.specs.Limits.{IsFieldRefusal};
ghost use Rattle.postings_writer.specs.Sections.{AreFieldsAdded};

use crate::member::Member;
use crate::merged_field::merge_field;
use codes::FieldNormReaders;
use definitions::Fault;
use postings_writer::InvertedIndexSerializer;
use schema::{FieldEntry, Schema};
use std::alloc::Global;
use terms::Field;

/// Writes the indexed fields of `schema`, in the order of their numbers: each with the terms that living documents of
/// the members have, and their postings in all members. The lengths are those of the merged documents.
pub fn merge_fields(
    alloc: Global,
    schema: &Schema,
    members: &[Member<'_>],
    fieldnorm_readers: &FieldNormReaders<'_>,
    mut serializer: InvertedIndexSerializer,
) -> Result<InvertedIndexSerializer, Fault>
    requires { ∥ ((num_docs : ℕ) × (all : List (List IndexedField))
        × AreMembers schema.now 0 num_docs members.now all × (num_docs ≤ terminated)
        × AllByRecursion (λ p. num_docs ≤ length p.1) fieldnorm_readers.now) ∥₁ }
    ensures ok { (num_docs : ℕ) (all : List (List IndexedField)) → AreMembers schema.now 0 num_docs members.now all
        → IfOk result (λ sections. AreMerged schema.now fieldnorm_readers.now members.now all serializer sections) }
    ensures err { (num_docs : ℕ) (all : List (List IndexedField)) → AreMembers schema.now 0 num_docs members.now all
        → IfErr result (λ fault. IsMergeRefusal fault schema.now fieldnorm_readers.now members.now all) }
{
    for (field, entry) in schema.fields() {
        if entry.is_indexed() {
            serializer = merge_one(alloc, members, field, entry, fieldnorm_readers, serializer)?;
        }
    }
    Ok(serializer)
}

/// Writes a field after those before.
fn merge_one(
    alloc: Global,
    members: &[Member<'_>],
    field: Field,
    entry: &FieldEntry,
    fieldnorm_readers: &FieldNormReaders<'_>,
    serializer: InvertedIndexSerializer,
) -> Result<InvertedIndexSerializer, Fault>
    requires indexed { is_indexed entry.now ≡ true }
    requires known { ∥ ((schema : Fields) × (num_docs : ℕ) × (all : List (List IndexedField))
        × AreMembers schema 0 num_docs members.now all × (num_docs ≤ terminated)
        × AllByRecursion (λ p. num_docs ≤ length p.1) fieldnorm_readers.now) ∥₁ }
    ensures ok { (schema : Fields) (num_docs : ℕ) (all : List (List IndexedField))
        → AreMembers schema 0 num_docs members.now all
        → IfOk result (λ sections. (f : IndexedField) × (f.field ≡ field)
        × IsFieldGiven entry.now (field_ids fieldnorm_readers.now field) (λ key. merged_in field key members.now all) f
        × AreFieldsAdded serializer sections (f ∷ [])) }
    ensures err { (schema : Fields) (num_docs : ℕ) (all : List (List IndexedField))
        → AreMembers schema 0 num_docs members.now all
        → IfErr result (λ fault. IsFieldRefusal fault (option_of_key entry.now) (field_ids fieldnorm_readers.now field)
        (λ key. merged_in field key members.now all)) }
{
    let fieldnorm_reader = fieldnorm_readers.get_field(field.field_id());
    merge_field(alloc, members, field, entry, fieldnorm_reader, serializer)
}
