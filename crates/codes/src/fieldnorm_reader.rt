//! A reader of the lengths of a field.

ghost use Rattle.std.specs.Prelude.{length, replicate, slice_index, ◌<◌, ◌≡◌, ◌≢◌, ◌^◌, IfErr, IfOk, None, ℕ};
ghost use Rattle.definitions.specs.Lengths as lengths;
ghost use Rattle.definitions.specs.declared.fault.Fault.TheVariants as faults;

use crate::fieldnorm_code::{fieldnorm_to_id, id_to_fieldnorm};
use definitions::Fault;
use std::marker::Model;

/// The length ids of a field's documents.
#[derive(Drop)]
pub struct FieldNormReader<'a> {
    norms: Norms<'a>,
}

#[derive(Clone, Copy)]
enum Norms<'a> {
    Constant { num_docs: u32, id: u8 },
    Ids(&'a [u8]),
}

impl<'a> Model for FieldNormReader<'a> {
    ghost use Rattle.std.specs.Prelude.{List, ℕ};

    ghost Value = { List ℕ };

    ghost use Rattle.codes.specs.FieldNormReaders.{AreLengthIds, ids_in};

    ghost view = { λ r. ids_in r.norms };

    ghost invariant = { λ r. AreLengthIds (ids_in r.norms) };
}

impl<'a> FieldNormReader<'a> {
    /// Returns a reader of `num_docs` documents, each of the length `fieldnorm`.
    pub fn constant(num_docs: u32, fieldnorm: usize) -> FieldNormReader<'a>
        ensures { result ≡ replicate num_docs (lengths.fieldnorm_to_id fieldnorm) }
    {
        FieldNormReader {
            norms: Norms::Constant {
                num_docs,
                id: fieldnorm_to_id(fieldnorm),
            },
        }
    }

    /// Opens the length ids of `num_docs` documents; `Damaged` where there are more or fewer.
    pub fn open(ids: &'a [u8], num_docs: u32) -> Result<FieldNormReader<'a>, Fault>
        ensures ok { IfOk result (λ reader. (length ids.now ≡ num_docs) × (reader ≡ ids.now)) }
        ensures err { IfErr result (λ fault. (fault ≡ faults.Damaged None) × (length ids.now ≢ num_docs)) }
    {
        if ids.len() != num_docs as usize {
            return Err(Fault::Damaged(None));
        }
        Ok(FieldNormReader::of_ids(ids))
    }

    /// Returns a reader of the length ids of a field.
    pub(crate) fn of_ids(ids: &'a [u8]) -> FieldNormReader<'a>
        requires { length ids.now < 2 ^ 32 }
        ensures { result ≡ ids.now }
    {
        FieldNormReader {
            norms: Norms::Ids(ids),
        }
    }

    /// Returns how many documents there are.
    pub fn num_docs(&self) -> u32
        ensures { result ≡ length self.now }
    {
        match self.norms {
            Norms::Constant { num_docs, .. } => num_docs,
            Norms::Ids(ids) => ids.len() as u32,
        }
    }

    /// States that each length id is one of 256. A caller's proof can't see it otherwise.
    #[inline]
    pub fn ids_are_below_256(&self)
        ensures { (doc : ℕ) → slice_index self.now doc < 256 }
    {
        let _ = &self.norms;
    }

    /// Returns the length id of `doc`.
    #[inline]
    pub fn fieldnorm_id(&self, doc: u32) -> u8
        requires { doc < length self.now }
        ensures { result ≡ slice_index self.now doc }
    {
        match self.norms {
            Norms::Constant { id, .. } => id,
            Norms::Ids(ids) => ids[doc as usize],
        }
    }

    /// Returns the length that the id of `doc` represents.
    pub fn fieldnorm(&self, doc: u32) -> u32
        requires { doc < length self.now }
        ensures { result ≡ lengths.id_to_fieldnorm (slice_index self.now doc) }
    {
        id_to_fieldnorm(self.fieldnorm_id(doc))
    }
}
