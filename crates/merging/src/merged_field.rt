//! The writing of a field of a merge.

ghost use Rattle.std.specs.Prelude.{[], ◌≡◌, ◌≤◌, ◌∷◌, IfErr, IfOk, IfSome, List, OnOk, length, map, true, ℕ};
ghost use Rattle.definitions.specs.Postings.{terminated};
ghost use Rattle.definitions.specs.Schema.{Schema, is_indexed};
ghost use Rattle.segment_reader.specs.Readers.{dictionary_in};
ghost use Rattle.layouts.specs.InvertedIndexes.{IndexedField, IndexedTerm};
ghost use Rattle.merging.specs.MergedFields.{IsFieldGiven};
ghost use Rattle.merging.specs.Members.{AreMembers, merged_in};
ghost use Rattle.merging.specs.MergedTerms.{AreAdded, IsTermsRefusal};
ghost use Rattle.merging.specs.ToldFields.{told_of_all};
ghost use Rattle.merging.specs.KeyLists.{merged_keys};
ghost use Rattle.codes.specs.UnpackedBlocks.{listed};
ghost use Rattle.postings_writer.specs.Fields.{option_of_key};
ghost use Rattle.postings_writer.specs.Limits.{IsFieldRefusal};
ghost use Rattle.postings_writer.specs.Sections.{AreFieldsAdded};
ghost use Rattle.terms.specs.Kinds.{kind_of};

use crate::TermMerger;
use crate::field_terms::merge_terms;
use crate::member::Member;
use codes::FieldNormReader;
use definitions::Fault;
use postings_writer::{FieldSerializer, InvertedIndexSerializer, index_record_option};
use schema::FieldEntry;
use std::alloc::{AllocError, Global};
use terms::{Field, Type};

/// Writes a field after those before: the terms that living documents of the members have, each with its postings in
/// all of them, and the lengths of the field, if it keeps any.
pub(crate) fn merge_field(
    alloc: Global,
    members: &[Member<'_>],
    field: Field,
    entry: &FieldEntry,
    fieldnorm_reader: Option<FieldNormReader<'_>>,
    serializer: InvertedIndexSerializer,
) -> Result<InvertedIndexSerializer, Fault>
    requires indexed { is_indexed entry.now ≡ true }
    requires known { ∥ ((schema : Schema) × (num_docs : ℕ) × (all : List (List IndexedField))
        × AreMembers schema 0 num_docs members.now all × (num_docs ≤ terminated)
        × IfSome fieldnorm_reader (λ ids. num_docs ≤ length ids)) ∥₁ }
    ensures ok { (schema : Schema) (num_docs : ℕ) (all : List (List IndexedField))
        → AreMembers schema 0 num_docs members.now all
        → IfOk result (λ sections. (f : IndexedField) × (f.field ≡ field)
        × IsFieldGiven entry.now (listed fieldnorm_reader.entry) (λ key. merged_in field key members.now all) f
        × AreFieldsAdded serializer sections (f ∷ [])) }
    ensures err { (schema : Schema) (num_docs : ℕ) (all : List (List IndexedField))
        → AreMembers schema 0 num_docs members.now all
        → IfErr result (λ fault. IsFieldRefusal fault (option_of_key entry.now) (listed fieldnorm_reader.entry)
        (λ key. merged_in field key members.now all)) }
{
    let mut field_serializer = serializer.new_field(
        alloc,
        field.field_id(),
        index_record_option(entry),
        fieldnorm_reader,
    );
    write_terms(
        alloc,
        members,
        field,
        entry.value_type(),
        &mut field_serializer,
    )?;
    Ok(field_serializer.close()?)
}

/// Writes the terms of a field that living documents of the members have.
fn write_terms(
    alloc: Global,
    members: &[Member<'_>],
    field: Field,
    kind: Type,
    serializer: &mut FieldSerializer<'_>,
) -> Result<(), Fault>
    requires known { ∥ ((schema : Schema) × (num_docs : ℕ) × (all : List (List IndexedField))
        × AreMembers schema 0 num_docs members.now all × (num_docs ≤ terminated)
        × IfSome serializer.old.writing.norms (λ ids. num_docs ≤ length ids)) ∥₁ }
    requires nothing { serializer.old.positions.1 ≡ [] }
    ensures ok { (schema : Schema) (num_docs : ℕ) (all : List (List IndexedField))
        → AreMembers schema 0 num_docs members.now all
        → OnOk result ((ts : List IndexedTerm) × AreAdded (kind_of kind) serializer.old serializer.new
        (told_of_all field members.now all) ts) }
    ensures err { (schema : Schema) (num_docs : ℕ) (all : List (List IndexedField))
        → AreMembers schema 0 num_docs members.now all
        → IfErr result (λ fault. IsTermsRefusal fault (kind_of kind) serializer.old
        (told_of_all field members.now all)) }
{
    let terms = all_terms(alloc, members, field)?;
    merge_terms(alloc, members, field, kind, terms, serializer)
}

/// Returns the terms of a field in all members.
fn all_terms<'a>(
    alloc: Global,
    members: &[Member<'a>],
    field: Field,
) -> Result<TermMerger<'a>, AllocError>
    requires { ∥ ((schema : Schema) × (num_docs : ℕ) × (all : List (List IndexedField))
        × AreMembers schema 0 num_docs members.now all) ∥₁ }
    ensures { IfOk result (λ terms. terms
        ≡ record {
          members = map (λ m. dictionary_in m.inverted_index.now field) members.now;
          keys = merged_keys (map (λ m. dictionary_in m.inverted_index.now field) members.now);
        }) }
{
    let mut dictionaries = Vec::with_capacity(alloc, members.len())?;
    for member in members {
        dictionaries.push(member.inverted_index.terms(field))?;
    }
    TermMerger::new(alloc, dictionaries)
}
