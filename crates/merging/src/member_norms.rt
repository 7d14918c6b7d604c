//! The writing of the section of lengths of a merge.

ghost use Rattle.std.specs.Prelude.{◌++◌, ◌≡◌, IfOk, OnOk, length};
ghost use Rattle.std.specs.List.{AllByRecursion, items_where_true};
ghost use Rattle.layouts.specs.FieldNorms.{norms_bytes};
ghost use Rattle.merging.specs.MergedNorms.{IsFlagged, merged_ids, merged_norms};

use codes::{FieldNormReader, FieldNormReaders, FieldNormsSerializer};
use common::AliveBitSet;
use std::alloc::{AllocError, Global};

/// A member of a merge: the lengths of its documents, and which of these are alive.
#[derive(Drop)]
pub struct MemberNorms<'a> {
    pub norms: FieldNormReaders<'a>,
    pub alive: &'a AliveBitSet,
}

/// Returns the section of lengths of `fields`, with the length ids of the members' living documents.
pub fn merge_norms(
    alloc: Global,
    fields: &[u32],
    members: &[MemberNorms<'_>],
) -> Result<Vec<u8>, AllocError>
    requires { AllByRecursion IsFlagged members.now }
    ensures { IfOk result (λ bytes. bytes.items ≡ norms_bytes (merged_norms fields.now members.now)) }
{
    let mut serializer = FieldNormsSerializer::from_write(Vec::new(alloc));
    for field in fields {
        let ids = living_ids(alloc, *field, members)?;
        serializer.serialize_field(*field, &ids)?;
    }
    Ok(serializer.close())
}

/// Returns the length ids of a field's living documents.
fn living_ids(alloc: Global, field: u32, members: &[MemberNorms<'_>]) -> Result<Vec<u8>, AllocError>
    requires { AllByRecursion IsFlagged members.now }
    ensures { IfOk result (λ ids. ids.items ≡ merged_ids field members.now) }
{
    let mut ids = Vec::new(alloc);
    for member in members {
        if let Some(reader) = member.norms.get_field(field) {
            push_living(&reader, member.alive, &mut ids)?;
        }
    }
    Ok(ids)
}

/// Appends the length ids of living documents.
fn push_living(
    reader: &FieldNormReader<'_>,
    alive: &AliveBitSet,
    out: &mut Vec<u8>,
) -> Result<(), AllocError>
    requires { length reader.now ≡ length alive.now }
    ensures { OnOk result (out.new.items ≡ out.old.items ++ items_where_true alive.now reader.now) }
{
    for doc in 0..reader.num_docs() {
        if alive.is_alive(doc) {
            out.push(reader.fieldnorm_id(doc))?;
        }
    }
    Ok(())
}
