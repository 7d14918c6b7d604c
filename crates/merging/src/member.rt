//! A member of a merge.

ghost use Rattle.std.specs.Prelude.{◌++◌, ◌≡◌, ◌≤◌, IfErr, IfOk, IfSome, List, OnErr, OnOk, length, option_map, ℕ};
ghost use Rattle.definitions.specs.Postings.{terminated};
ghost use Rattle.definitions.specs.Schema.{Schema};
ghost use Rattle.segment_reader.specs.Readers.{dictionary_in, info_in, postings_in};
ghost use Rattle.layouts.specs.InvertedIndexes.{IndexedField};
ghost use Rattle.merging.specs.Members.{IsMember, living_of};
ghost use Rattle.merging.specs.Living.{has_some};
ghost use Rattle.merging.specs.Mappings.{end_of};
ghost use Rattle.merging.specs.Written.{AreWritten, counts_in};
ghost use Rattle.postings_writer.specs.FieldWriting.{AreKept, IsOpen};
ghost use Rattle.postings_writer.specs.TermWriting.{IsSumRefusal};

use crate::{DocIdMapping, write_postings};
use definitions::Fault;
use options::IndexRecordOption;
use postings_writer::FieldSerializer;
use segment_reader::{InvertedIndexReader, TermInfo};
use terms::Field;

/// A member of a merge: its terms, and the new ids of its documents.
#[derive(Drop)]
pub struct Member<'a> {
    pub inverted_index: &'a InvertedIndexReader,
    pub doc_ids: DocIdMapping,
}

impl<'a> Member<'a> {
    /// Writes the living documents that have the term `key` to the open term, under their new ids, and returns whether
    /// there are any. `info` locates the member's postings of the term, if it has it.
    pub(crate) fn write_postings(
        &self,
        field: Field,
        key: &[u8],
        info: Option<&TermInfo>,
        deltas: &mut Vec<u32>,
        serializer: &mut FieldSerializer<'_>,
    ) -> Result<bool, Fault>
        requires known { ∥ ((schema : Schema) × (fields : List IndexedField) × IsMember schema self.now fields) ∥₁ }
        requires info { option_map (λ i. i.now) info
            ≡ info_in key.now (dictionary_in self.now.inverted_index.now field) }
        requires few { end_of self.now.doc_ids ≤ terminated }
        requires next { serializer.old.writing.next ≤ self.now.doc_ids.base }
        requires kept { IfSome serializer.old.writing.norms (λ ids. end_of self.now.doc_ids ≤ length ids) }
        ensures ok { (schema : Schema) (fields : List IndexedField) → IsMember schema self.now fields
            → OnOk result (AreWritten serializer.old serializer.new
            (living_of self.now.doc_ids (postings_in fields field key.now))) }
        ensures some { (schema : Schema) (fields : List IndexedField) → IsMember schema self.now fields
            → IfOk result (λ some. some ≡ has_some (living_of self.now.doc_ids (postings_in fields field key.now))) }
        ensures next { OnOk result (serializer.new.writing.next ≤ end_of self.now.doc_ids) }
        ensures err { (schema : Schema) (fields : List IndexedField) (docs counts numbers : List ℕ)
            → IsMember schema self.now fields → IsOpen serializer.old docs counts numbers
            → IfErr result (λ fault. IsSumRefusal fault
            (counts ++ counts_in serializer.old (living_of self.now.doc_ids (postings_in fields field key.now)))) }
        ensures refused { OnErr result (AreKept serializer.old serializer.new) }
    {
        let Some(info) = info else {
            return Ok(false);
        };
        let option = IndexRecordOption::WithFreqsAndPositions;
        let mut postings = self
            .inverted_index
            .read_postings_from_terminfo(field, key, info, option);
        write_postings(&mut postings, &self.doc_ids, deltas, serializer)
    }
}
