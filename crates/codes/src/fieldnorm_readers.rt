//! Readers of the section that keeps the lengths of fields.

ghost use Rattle.std.specs.Prelude.{length, take, drop, ◌*◌, ◌+◌, ◌≡◌, ◌≤◌, IfErr, IfOk, List, None, OnOk, Some, ℕ};
ghost use Rattle.codes.specs.FieldNormReaders.{take_ids};
ghost use Rattle.definitions.specs.declared.fault.Fault.TheVariants as faults;
ghost use Rattle.layouts.specs.Deltas.{IsAscendingFrom};
ghost use Rattle.layouts.specs.FieldNorms.{IsNorms, ids_of};

use crate::field_ranks::index_of;
use crate::fieldnorm_reader::FieldNormReader;
use common::take_u32;
use definitions::Fault;
use std::marker::Model;

/// How many bytes a field's number takes.
const NUMBER_LEN: usize = 4;

/// The length ids of all fields that keep lengths, borrowed from the bytes of their section. Nothing else is kept, so
/// one can be made for each use.
#[derive(Drop)]
pub struct FieldNormReaders<'a> {
    bytes: &'a [u8],
    num_docs: u32,
    fields: &'a [u32],
}

impl<'a> Model for FieldNormReaders<'a> {
    ghost use Rattle.std.specs.Prelude.{List, length, ◌*◌, ◌+◌, ◌≡◌, ℕ};
    ghost use Rattle.codes.specs.FieldNormReaders.{norms_in};
    ghost use Rattle.layouts.specs.Deltas.{IsAscendingFrom};

    ghost Value = { List (ℕ × List ℕ) };

    ghost view = { λ r. norms_in r.num_docs r.fields.now r.bytes.now };

    ghost invariant = { λ r. IsAscendingFrom 0 r.fields.now × (length r.bytes.now ≡ length r.fields.now * (4 + r.num_docs)) };
}

impl<'a> FieldNormReaders<'a> {
    /// Opens the section of `fields`, ascending, which is known to have one length id for each of `num_docs` documents.
    pub fn new(bytes: &'a [u8], num_docs: u32, fields: &'a [u32]) -> FieldNormReaders<'a>
        requires ascend { IsAscendingFrom 0 fields.now }
        requires known { ∥ ((norms : List (ℕ × List ℕ)) × IsNorms fields.now num_docs bytes.now norms) ∥₁ }
        ensures { (norms : List (ℕ × List ℕ)) → IsNorms fields.now num_docs bytes.now norms → result ≡ norms }
    {
        FieldNormReaders {
            bytes,
            num_docs,
            fields,
        }
    }

    /// Opens the section of `fields`, ascending, with one length id for each of `num_docs` documents.
    /// Other bytes are `Damaged`.
    pub fn open(
        bytes: &'a [u8],
        num_docs: u32,
        fields: &'a [u32],
    ) -> Result<FieldNormReaders<'a>, Fault>
        requires { IsAscendingFrom 0 fields.now }
        ensures ok { IfOk result (λ readers. IsNorms fields.now num_docs bytes.now readers) }
        ensures err { IfErr result (λ fault. (fault ≡ faults.Damaged None)
            × ((norms : List (ℕ × List ℕ)) → IsNorms fields.now num_docs bytes.now norms → ⊥)) }
    {
        check_norms(bytes, num_docs, fields)?;
        Ok(FieldNormReaders::new(bytes, num_docs, fields))
    }

    /// Returns a copy of these readers.
    pub fn copied(&self) -> FieldNormReaders<'a>
        ensures { result ≡ self.now }
    {
        FieldNormReaders {
            bytes: self.bytes,
            num_docs: self.num_docs,
            fields: self.fields,
        }
    }

    /// Returns the length ids of `field`, where it keeps lengths.
    pub fn get_field(&self, field: u32) -> Option<FieldNormReader<'a>>
        ensures { result ≡ ids_of field self.now }
    {
        let index = index_of(self.fields, field)?;
        let ids = ids_at(self.bytes, index, self.num_docs as usize);
        Some(FieldNormReader::of_ids(ids))
    }
}

/// Returns the ids of the field at `index`, among fields with `num_docs` ids each.
fn ids_at(bytes: &[u8], index: usize, num_docs: usize) -> &[u8]
    requires { index * (4 + num_docs) + 4 + num_docs ≤ length bytes.now }
    ensures { result.now ≡ take num_docs (drop (index * (4 + num_docs) + 4) bytes.now) }
{
    let start = index * (NUMBER_LEN + num_docs) + NUMBER_LEN;
    &bytes[start..start + num_docs]
}

/// Checks that the bytes are the section of `fields`.
fn check_norms(bytes: &[u8], num_docs: u32, fields: &[u32]) -> Result<(), Fault>
    ensures ok { OnOk result ((norms : List (ℕ × List ℕ)) × IsNorms fields.now num_docs bytes.now norms) }
    ensures err { IfErr result (λ fault. (fault ≡ faults.Damaged None)
        × ((norms : List (ℕ × List ℕ)) → IsNorms fields.now num_docs bytes.now norms → ⊥)) }
{
    let mut rest = bytes;
    for field in fields {
        let (_, after) = take_ids(rest, *field, num_docs)?;
        rest = after;
    }
    if !rest.is_empty() {
        return Err(Fault::Damaged(None));
    }
    Ok(())
}

/// Decodes the ids of `field`, which must come first; returns them, and the bytes after them.
fn take_ids<'a>(bytes: &'a [u8], field: u32, num_docs: u32) -> Result<(&'a [u8], &'a [u8]), Fault>
    ensures ok { IfOk result (λ p. take_ids num_docs field bytes.now ≡ Some (p.0.now, p.1.now)) }
    ensures err { IfErr result (λ fault. (fault ≡ faults.Damaged None) × (take_ids num_docs field bytes.now ≡ None)) }
{
    let (number, rest) = take_u32(bytes)?;
    if number != field {
        return Err(Fault::Damaged(None));
    }
    rest.split_at_checked(num_docs as usize)
        .ok_or(Fault::Damaged(None))
}
