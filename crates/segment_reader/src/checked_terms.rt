//! Checks of the terms of fields.

ghost use Rattle.std.specs.Prelude.{IfErr, IfOk, IfSome, List, None, OnOk, ◌≡◌, ◌≢◌, ◌≤◌, length, sum_by};
ghost use Rattle.std.specs.List.{AllByRecursion};
ghost use Rattle.codes.specs.UnpackedBlocks.{listed};
ghost use Rattle.definitions.specs.Postings.{terminated};
ghost use Rattle.definitions.specs.declared.fault.Fault.TheVariants as faults;
ghost use Rattle.segment_reader.specs.CheckedTerms.{AreCheckedFields, IsCheckedField, IsCheckedTerm, IsChecking, IsTermAt, IsWithin, bytes_of};
ghost use Rattle.layouts.specs.InvertedIndexes.{IndexedTerm};

use crate::field_index::FieldIndex;
use crate::field_kind::FieldKind;
use crate::section_bytes::SectionBytes;
use crate::term_info::TermInfo;
use crate::term_keys::is_key;
use crate::term_range::TermRange;
use codes::{FieldNormReader, FieldNormReaders};
use definitions::Fault;
use segment_postings::check_term;
use std::alloc::Global;

/// Checks the term with the value bytes `key` and the term info `info`, its value bytes before its postings, and
/// returns its number of tokens.
fn check_at(
    sections: SectionBytes<'_>,
    kind: FieldKind,
    key: &[u8],
    info: &TermInfo,
    fieldnorm_reader: &Option<FieldNormReader>,
    num_docs: u32,
) -> Result<u64, Fault>
    requires kept { IfSome fieldnorm_reader.now (λ ids. length ids ≡ num_docs) }
    requires few { num_docs ≤ terminated }
    requires within { IsWithin (bytes_of sections) (key.now, info.now) }
    ensures ok { IfOk result (λ total. (x : IndexedTerm) × IsTermAt (bytes_of sections.entry) (key.now, info.now) x
        × IsCheckedTerm kind num_docs (listed fieldnorm_reader.now) x
        × (total ≡ sum_by (λ p. p.count) x.postings)) }
    ensures err { IfErr result (λ fault. (fault ≡ faults.Damaged None)
        × ((x : IndexedTerm) → IsTermAt (bytes_of sections.entry) (key.now, info.now) x
        → IsCheckedTerm kind num_docs (listed fieldnorm_reader.now) x → ⊥)) }
{
    if !is_key(kind.value_type, key) {
        return Err(Fault::Damaged(None));
    }
    check_term(
        &sections.postings[info.postings_range.start..info.postings_range.end],
        &sections.positions[info.positions_range.start..info.positions_range.end],
        info.doc_freq,
        kind.option_of(key),
        fieldnorm_reader,
        num_docs,
    )
}

/// Checks the terms of a field, and their number of tokens.
pub(crate) fn check_field(
    alloc: Global,
    sections: SectionBytes<'_>,
    index: &FieldIndex,
    fieldnorm_reader: &Option<FieldNormReader>,
    num_docs: u32,
) -> Result<(), Fault>
    requires kept { IfSome fieldnorm_reader.now (λ ids. length ids ≡ num_docs) }
    requires few { num_docs ≤ terminated }
    requires within { ∥ IsChecking (bytes_of sections) index.now ∥₁ }
    ensures ok { OnOk result ((xs : List IndexedTerm)
        × IsCheckedField (bytes_of sections.entry) num_docs (listed fieldnorm_reader.now) index.now xs) }
    ensures err { IfErr result (λ fault. fault ≢ faults.OutOfMemory → (fault ≡ faults.Damaged None)
        × ((xs : List IndexedTerm)
        → IsCheckedField (bytes_of sections.entry) num_docs (listed fieldnorm_reader.now) index.now xs → ⊥)) }
{
    let mut range = TermRange::new(alloc, sections.terms, index.shape)?;
    let mut left = index.num_tokens;
    for _ in 0..index.shape.num_terms {
        range.advance();
        let (key, info) = (range.key(), range.value());
        let total = check_at(sections, index.kind, key, info, fieldnorm_reader, num_docs)?;
        if total > left {
            return Err(Fault::Damaged(None));
        }
        left -= total;
    }
    if left != 0 {
        return Err(Fault::Damaged(None));
    }
    Ok(())
}

/// Checks the terms of fields whose lengths are `fieldnorm_readers`.
pub(crate) fn check_fields(
    alloc: Global,
    sections: SectionBytes<'_>,
    indexes: &[FieldIndex],
    fieldnorm_readers: &FieldNormReaders<'_>,
    num_docs: u32,
) -> Result<(), Fault>
    requires kept { AllByRecursion (λ p. length p.1 ≡ num_docs) fieldnorm_readers.now }
    requires few { num_docs ≤ terminated }
    requires within { AllByRecursion (λ i. ∥ IsChecking (bytes_of sections) i ∥₁) indexes.now }
    ensures ok { OnOk result ((xss : List (List IndexedTerm))
        × AreCheckedFields (bytes_of sections.entry) num_docs fieldnorm_readers.now indexes.now xss) }
    ensures err { IfErr result (λ fault. fault ≢ faults.OutOfMemory → (fault ≡ faults.Damaged None)
        × ((xss : List (List IndexedTerm))
        → AreCheckedFields (bytes_of sections.entry) num_docs fieldnorm_readers.now indexes.now xss → ⊥)) }
{
    for index in indexes {
        let fieldnorm_reader = fieldnorm_readers.get_field(index.kind.field);
        check_field(alloc, sections, index, &fieldnorm_reader, num_docs)?;
    }
    Ok(())
}
