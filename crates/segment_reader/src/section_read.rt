//! The fields of the section of terms.

ghost use Rattle.std.specs.Prelude.{Bool, IfErr, IfOk, IsTrue, List, None, Some, length, map, slice_get, ◌↔◌, ◌≡◌, ◌≢◌};
ghost use Rattle.definitions.specs.declared.fault.Fault.TheVariants as faults;
ghost use Rattle.layouts.specs.TermSections.{FieldTerms, kind_byte};
ghost use Rattle.segment_reader.specs.TermPlaces.{IsSection, fields_start};
ghost use Rattle.segment_reader.specs.ToldFields.{AreTold};

use crate::field_index::FieldIndex;
use crate::field_kind::FieldKind;
use crate::field_read::take_field;
use crate::terms_read::SectionLengths;
use definitions::Fault;
use front_coding::{TermStart, prefixes_of};
use std::alloc::Global;

/// Returns whether a section of terms is front-coded, by its first byte; `Damaged` if there is no such kind.
fn take_kind(section: &[u8]) -> Result<bool, Fault>
    ensures ok { IfOk result (λ front_coded. slice_get section.now 0 ≡ Some (kind_byte front_coded)) }
    ensures err { IfErr result (λ fault. (fault ≡ faults.Damaged None)
        × ((front_coded : Bool) → slice_get section.now 0 ≡ Some (kind_byte front_coded) → ⊥)) }
{
    match section.first() {
        Some(0) => Ok(false),
        Some(1) => Ok(true),
        _ => Err(Fault::Damaged(None)),
    }
}

/// Decodes the fields `kinds` of a section of terms, which has these and no others.
pub(crate) fn take_fields(
    alloc: Global,
    section: &[u8],
    lengths: SectionLengths,
    kinds: &[FieldKind],
) -> Result<Vec<FieldIndex>, Fault>
    ensures ok { IfOk result (λ told. (front_coded : Bool) × (fs : List FieldTerms)
        × IsSection front_coded section.now lengths.postings lengths.positions (map (λ k. k.field) kinds.now) fs
        × AreTold front_coded fields_start fs told.items) }
    ensures kinds { IfOk result (λ told. map (λ i. i.kind) told.items ≡ kinds.now) }
    ensures err { IfErr result (λ fault. fault ≢ faults.OutOfMemory → (fault ≡ faults.Damaged None)
        × ((front_coded : Bool) (fs : List FieldTerms)
        → IsSection front_coded section.now lengths.postings lengths.positions (map (λ k. k.field) kinds.now) fs → ⊥)) }
{
    let front_coded = take_kind(section)?;
    let mut start = TermStart {
        entry: 1,
        postings: 0,
        positions: 0,
    };
    let mut told = Vec::new(alloc);
    for kind in kinds {
        let (num_tokens, shape, starts, end) = take_field(
            alloc,
            section,
            front_coded,
            start,
            lengths,
            kind.field,
        )?;
        let prefixes = prefixes_of(alloc, section, &starts)?;
        told.push(FieldIndex {
            kind: *kind,
            num_tokens,
            shape,
            starts,
            prefixes,
        })?;
        start = end;
    }
    if !is_end(section, start, lengths) {
        return Err(Fault::Damaged(None));
    }
    Ok(told)
}

/// Whether `start` is the end of all three sections.
fn is_end(section: &[u8], start: TermStart, lengths: SectionLengths) -> bool
    ensures { IsTrue result
        ↔ (start ≡ record { entry = length section.now; postings = lengths.postings; positions = lengths.positions }) }
{
    start.entry == section.len()
        && start.postings == lengths.postings
        && start.positions == lengths.positions
}
