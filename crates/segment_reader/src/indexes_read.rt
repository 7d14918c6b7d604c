//! What is kept of fields whose sections were checked whole.

ghost use Rattle.std.specs.Prelude.{◌≡◌, ◌≢◌, ◌≤◌, IfErr, IfOk, List, None, length, ℕ};
ghost use Rattle.std.specs.List.{AllByRecursion};
ghost use Rattle.definitions.specs.Postings.{terminated};
ghost use Rattle.definitions.specs.declared.fault.Fault.TheVariants as faults;
ghost use Rattle.segment_definitions.specs.Keys.{AreKeyed};
ghost use Rattle.segment_reader.specs.Readers.{AreKnown, IsReader};
ghost use Rattle.layouts.specs.InvertedIndexes.{AreSections, IndexedField};

use crate::checked_terms::check_fields;
use crate::field_index::FieldIndex;
use crate::field_kind::field_kinds;
use crate::section_bytes::SectionBytes;
use crate::section_read::take_fields;
use crate::terms_read::SectionLengths;
use codes::FieldNormReaders;
use definitions::Fault;
use schema::Schema;
use std::alloc::{AllocError, Global};

/// Returns what is kept of each field of sections that are known to be in their layout.
pub(crate) fn known_indexes(
    alloc: Global,
    schema: &Schema,
    terms: &[u8],
    postings: &[u8],
    positions: &[u8],
) -> Result<Vec<FieldIndex>, AllocError>
    requires { ∥ AreKnown schema.now (record { terms = terms.now; postings = postings.now; positions = positions.now })
        ∥₁ }
    ensures { (num_docs : ℕ) (norms : List (ℕ × List ℕ)) (fields : List IndexedField)
        → num_docs ≤ terminated
        → AreSections schema.now num_docs norms fields terms.now postings.now positions.now
        → IfOk result (λ indexes. IsReader schema.now num_docs norms fields
        (record {
          sections = record { terms = terms.now; postings = postings.now; positions = positions.now };
          indexes
              = indexes.items;
        })) }
{
    let kinds = field_kinds(alloc, schema)?;
    let lengths = SectionLengths {
        postings: postings.len(),
        positions: positions.len(),
    };
    match take_fields(alloc, terms, lengths, &kinds) {
        Ok(indexes) => Ok(indexes),
        Err(fault) => Err(want_of_memory(&fault)),
    }
}

/// Converts an error that can only be out of memory.
fn want_of_memory(_fault: &Fault) -> AllocError
    requires { (_fault.now ≢ faults.OutOfMemory) → ⊥ }
{
    AllocError
}

/// Checks the sections of a segment of `num_docs` documents with the lengths `fieldnorm_readers`, and returns what is
/// kept of each field.
pub(crate) fn read_indexes(
    alloc: Global,
    schema: &Schema,
    fieldnorm_readers: &FieldNormReaders<'_>,
    num_docs: u32,
    terms: &[u8],
    postings: &[u8],
    positions: &[u8],
) -> Result<Vec<FieldIndex>, Fault>
    requires kept { AllByRecursion (λ p. length p.1 ≡ num_docs) fieldnorm_readers.now }
    requires few { num_docs ≤ terminated }
    ensures exact { IfOk result (λ indexes. (fields : List IndexedField)
        × IsReader schema.now num_docs fieldnorm_readers.now fields
        (record {
          sections = record { terms = terms.now; postings = postings.now; positions = positions.now };
          indexes
              = indexes.items;
        }) × AreKeyed schema.now fields) }
    ensures ok { IfOk result (λ indexes. (fields : List IndexedField)
        → AreSections schema.now num_docs fieldnorm_readers.now fields terms.now postings.now positions.now
        → IsReader schema.now num_docs fieldnorm_readers.now fields
        (record {
          sections = record { terms = terms.now; postings = postings.now; positions = positions.now };
          indexes
              = indexes.items;
        })) }
    ensures err { IfErr result (λ fault. fault ≢ faults.OutOfMemory → (fault ≡ faults.Damaged None)
        × ((fields : List IndexedField)
        → AreSections schema.now num_docs fieldnorm_readers.now fields terms.now postings.now positions.now
        → AreKeyed schema.now fields → ⊥)) }
{
    let kinds = field_kinds(alloc, schema)?;
    let lengths = SectionLengths {
        postings: postings.len(),
        positions: positions.len(),
    };
    let indexes = take_fields(alloc, terms, lengths, &kinds)?;
    let sections = SectionBytes {
        terms,
        postings,
        positions,
    };
    check_fields(alloc, sections, &indexes, fieldnorm_readers, num_docs)?;
    Ok(indexes)
}
