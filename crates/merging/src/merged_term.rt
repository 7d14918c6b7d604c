//! The writing of a term of a merge.

ghost use Rattle.std.specs.Prelude.{◌++◌, ◌≡◌, ◌≤◌, IfErr, IfOk, IfSome, List, OnErr, OnOk, Some, if◌then◌else◌, length, map, slice_get, ℕ};
ghost use Rattle.definitions.specs.Postings.{terminated};
ghost use Rattle.definitions.specs.Schema.{Schema, basic};
ghost use Rattle.segment_reader.specs.Readers.{dictionary_in};
ghost use Rattle.layouts.specs.InvertedIndexes.{IndexedField};
ghost use Rattle.merging.specs.Members.{AreMembers, merged_in};
ghost use Rattle.merging.specs.MergedTerm.{IsMergedTerm, IsTermRefusal};
ghost use Rattle.merging.specs.Living.{has_some};
ghost use Rattle.merging.specs.Written.{AreWritten, counts_in};
ghost use Rattle.postings_writer.specs.FieldWriting.{AreKept, IsOpen};
ghost use Rattle.postings_writer.specs.TermWriting.{IsSumRefusal};

use crate::TermMerger;
use crate::member::Member;
use definitions::Fault;
use postings_writer::FieldSerializer;
use terms::Field;

/// Writes the members' living documents with the current term, `key`, to the open term; returns whether any exist.
fn write_members(
    members: &[Member<'_>],
    field: Field,
    key: &[u8],
    terms: &TermMerger<'_>,
    deltas: &mut Vec<u32>,
    serializer: &mut FieldSerializer<'_>,
) -> Result<bool, Fault>
    requires known { ∥ ((schema : Schema) × (num_docs : ℕ) × (all : List (List IndexedField))
        × AreMembers schema 0 num_docs members.now all × (num_docs ≤ terminated)
        × IfSome serializer.old.writing.norms (λ ids. num_docs ≤ length ids)) ∥₁ }
    requires dictionaries { terms.now.members ≡ map (λ m. dictionary_in m.inverted_index.now field) members.now }
    requires key { slice_get terms.now.keys 0 ≡ Some key.now }
    requires new { serializer.old.writing.next ≡ 0 }
    ensures ok { (schema : Schema) (num_docs : ℕ) (all : List (List IndexedField))
        → AreMembers schema 0 num_docs members.now all
        → OnOk result (AreWritten serializer.old serializer.new (merged_in field key.now members.now all)) }
    ensures some { (schema : Schema) (num_docs : ℕ) (all : List (List IndexedField))
        → AreMembers schema 0 num_docs members.now all
        → IfOk result (λ some. some ≡ has_some (merged_in field key.now members.now all)) }
    ensures err { (schema : Schema) (num_docs : ℕ) (all : List (List IndexedField)) (docs counts numbers : List ℕ)
        → AreMembers schema 0 num_docs members.now all → IsOpen serializer.old docs counts numbers
        → IfErr result (λ fault. IsSumRefusal fault
        (counts ++ counts_in serializer.old (merged_in field key.now members.now all))) }
    ensures refused { OnErr result (AreKept serializer.old serializer.new) }
{
    let mut some = false;
    for number in 0..members.len() {
        let info = terms.term_info(number);
        let wrote = members[number].write_postings(field, key, info, deltas, serializer)?;
        some = some || wrote;
    }
    Ok(some)
}

/// Writes the current term of `terms` after those before, if a living document has it; only its documents unless
/// `record_term_freq`.
pub(crate) fn merge_term(
    members: &[Member<'_>],
    field: Field,
    terms: &TermMerger<'_>,
    record_term_freq: bool,
    deltas: &mut Vec<u32>,
    serializer: &mut FieldSerializer<'_>,
) -> Result<(), Fault>
    requires known { ∥ ((schema : Schema) × (num_docs : ℕ) × (all : List (List IndexedField))
        × AreMembers schema 0 num_docs members.now all × (num_docs ≤ terminated)
        × IfSome serializer.old.writing.norms (λ ids. num_docs ≤ length ids)) ∥₁ }
    requires dictionaries { terms.now.members ≡ map (λ m. dictionary_in m.inverted_index.now field) members.now }
    ensures ok { (schema : Schema) (num_docs : ℕ) (all : List (List IndexedField)) (key : List ℕ)
        → AreMembers schema 0 num_docs members.now all → slice_get terms.now.keys 0 ≡ Some key
        → OnOk result (IsMergedTerm serializer.old serializer.new key
        (if record_term_freq then serializer.old.writing.mode else basic) (merged_in field key members.now all)) }
    ensures err { (schema : Schema) (num_docs : ℕ) (all : List (List IndexedField)) (key : List ℕ)
        → AreMembers schema 0 num_docs members.now all → slice_get terms.now.keys 0 ≡ Some key
        → IfErr result (λ fault. IsTermRefusal fault serializer.old
        (if record_term_freq then serializer.old.writing.mode else basic) (merged_in field key members.now all)) }
{
    let Some(key) = terms.key() else {
        return Ok(());
    };
    serializer.new_term(key, record_term_freq)?;
    if write_members(members, field, key, terms, deltas, serializer)? {
        serializer.close_term()?;
    }
    Ok(())
}
