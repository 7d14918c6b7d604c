//! The writing of the terms of a field of a merge.

ghost use Rattle.std.specs.Prelude.{[], ◌≡◌, ◌≤◌, IfErr, IfSome, List, OnOk, length, map, ℕ};
ghost use Rattle.definitions.specs.Postings.{terminated};
ghost use Rattle.definitions.specs.Schema.{Schema};
ghost use Rattle.segment_reader.specs.Readers.{dictionary_in};
ghost use Rattle.layouts.specs.InvertedIndexes.{IndexedField, IndexedTerm};
ghost use Rattle.merging.specs.Members.{AreMembers};
ghost use Rattle.merging.specs.MergedTerms.{AreAdded, IsTermsRefusal, told_in};
ghost use Rattle.terms.specs.Kinds.{kind_of};

use crate::TermMerger;
use crate::member::Member;
use crate::merged_term::merge_term;
use definitions::Fault;
use postings_writer::FieldSerializer;
use std::alloc::Global;
use terms::{Field, Type};

/// Writes the terms of a field of type `kind` that living documents have, one after another, each with its postings in
/// all members.
pub(crate) fn merge_terms(
    alloc: Global,
    members: &[Member<'_>],
    field: Field,
    kind: Type,
    mut terms: TermMerger<'_>,
    serializer: &mut FieldSerializer<'_>,
) -> Result<(), Fault>
    requires known { ∥ ((schema : Schema) × (num_docs : ℕ) × (all : List (List IndexedField))
        × AreMembers schema 0 num_docs members.now all × (num_docs ≤ terminated)
        × IfSome serializer.old.writing.norms (λ ids. num_docs ≤ length ids)) ∥₁ }
    requires dictionaries { terms.members ≡ map (λ m. dictionary_in m.inverted_index.now field) members.now }
    requires nothing { serializer.old.positions.1 ≡ [] }
    ensures ok { (schema : Schema) (num_docs : ℕ) (all : List (List IndexedField))
        → AreMembers schema 0 num_docs members.now all
        → OnOk result ((ts : List IndexedTerm) × AreAdded (kind_of kind) serializer.old serializer.new
        (told_in field terms.entry.keys members.now all) ts) }
    ensures err { (schema : Schema) (num_docs : ℕ) (all : List (List IndexedField))
        → AreMembers schema 0 num_docs members.now all
        → IfErr result (λ fault. IsTermsRefusal fault (kind_of kind) serializer.old
        (told_in field terms.entry.keys members.now all)) }
{
    let mut deltas = Vec::new(alloc);
    while let Some(key) = terms.key() {
        let is_text = kind.is_text_value(key);
        merge_term(members, field, &terms, is_text, &mut deltas, serializer)?;
        terms.advance();
    }
    Ok(())
}
