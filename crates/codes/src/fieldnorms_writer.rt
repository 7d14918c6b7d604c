//! A writer of the lengths of fields, document by document.

ghost use Rattle.std.specs.Prelude.{[], length, map, replicate, zip, ◌++◌, ◌-◌, ◌<◌, ◌≡◌, ◌≤◌, ◌∷◌, IfOk, List, OnErr, OnOk, ℕ};
ghost use Rattle.std.specs.List.{AllByRecursion};
ghost use Rattle.codes.specs.FieldNorms.{all_padded, padded, with_length};
ghost use Rattle.definitions.specs.Lengths as lengths;
ghost use Rattle.layouts.specs.Deltas.{IsAscendingFrom};
ghost use Rattle.layouts.specs.FieldNorms.{norms_bytes};

use crate::field_ranks::index_of;
use crate::fieldnorm_code::fieldnorm_to_id;
use crate::fieldnorms_serializer::FieldNormsSerializer;
use std::alloc::{AllocError, Global};
use std::marker::Model;

/// The length ids of the fields that keep lengths, by ascending field. A field has one id for each
/// document up to the last that was recorded for it.
#[derive(Drop)]
pub struct FieldNormsWriter {
    fields: Vec<u32>,
    ids: Vec<Vec<u8>>,
}

impl Model for FieldNormsWriter {
    ghost Value = { List (ℕ × List ℕ) };

    ghost view = { λ w. zip w.fields.items (map (λ v. v.items) w.ids.items) };

    ghost invariant = { λ w. IsAscendingFrom 0 w.fields.items × (length w.ids.items ≡ length w.fields.items) };
}

impl FieldNormsWriter {
    /// Returns a writer for `fields`, ascending, without documents.
    pub fn for_fields(alloc: Global, fields: &[u32]) -> Result<FieldNormsWriter, AllocError>
        requires { IsAscendingFrom 0 fields.now }
        ensures { IfOk result (λ writer. writer ≡ map (λ field. (field, [])) fields.now) }
    {
        let mut ids = Vec::with_capacity(alloc, fields.len())?;
        for _ in fields {
            ids.push(Vec::new(alloc))?;
        }
        Ok(FieldNormsWriter {
            fields: Vec::from_slice(alloc, fields)?,
            ids,
        })
    }

    /// Records the length `fieldnorm` of `doc` in `field`. Documents before it that weren't recorded get the id of
    /// length 0; nothing is recorded for a field that keeps no lengths.
    pub fn record(&mut self, doc: u32, field: u32, fieldnorm: usize) -> Result<(), AllocError>
        requires once { AllByRecursion (λ p. p.0 ≡ field → length p.1 ≤ doc) self.old }
        ensures ok { OnOk result (self.new ≡ with_length doc field fieldnorm self.old) }
        ensures err { OnErr result (self.new ≡ self.old) }
    {
        match index_of(&self.fields, field) {
            Some(index) => put_id(
                &mut self.ids[index],
                doc as usize,
                fieldnorm_to_id(fieldnorm),
            ),
            None => Ok(()),
        }
    }

    /// Gives the id of length 0 to the documents below `max_doc` that weren't recorded. When out of memory some fields
    /// may have theirs already.
    pub fn fill_up_to_max_doc(&mut self, max_doc: u32) -> Result<(), AllocError>
        ensures ok { OnOk result (self.new ≡ all_padded max_doc self.old) }
        ensures err { OnErr result (all_padded max_doc self.new ≡ all_padded max_doc self.old) }
    {
        for ids in self.ids.iter_mut() {
            pad(ids, max_doc as usize)?;
        }
        Ok(())
    }

    /// Appends the section's bytes to those of `serializer`; returns them all.
    pub fn serialize(&self, serializer: FieldNormsSerializer) -> Result<Vec<u8>, AllocError>
        ensures { IfOk result (λ bytes. bytes.items ≡ serializer ++ norms_bytes self.now) }
    {
        let mut serializer = serializer;
        for (index, field) in self.fields.iter().enumerate() {
            serializer.serialize_field(*field, &self.ids[index])?;
        }
        Ok(serializer.close())
    }
}

/// Pads `ids` up to `num_docs` documents.
fn pad(ids: &mut Vec<u8>, num_docs: usize) -> Result<(), AllocError>
    ensures ok { OnOk result (ids.new.items ≡ padded num_docs ids.old.items) }
    ensures err { OnErr result (ids.new.items ≡ ids.old.items) }
{
    if ids.len() < num_docs {
        return ids.resize(num_docs, 0);
    }
    Ok(())
}

/// Pads `ids` up to `doc`, and appends its own `id`.
fn put_id(ids: &mut Vec<u8>, doc: usize, id: u8) -> Result<(), AllocError>
    ensures ok { OnOk result (ids.new.items ≡ padded doc ids.old.items ++ id ∷ []) }
    ensures err { OnErr result (ids.new.items ≡ ids.old.items) }
{
    let recorded = ids.len();
    pad(ids, doc)?;
    if ids.push(id).is_err() {
        ids.truncate(recorded);
        return Err(AllocError);
    }
    Ok(())
}
