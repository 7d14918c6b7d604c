//! The skip index of a store while its blocks are written, and how it is encoded.

ghost use Rattle.std.specs.Prelude.{◌++◌, ◌+◌, ◌<◌, ◌≡◌, ◌≤◌, ◌^◌, ◌∷◌, [], IfErr, IfOk, List, None, OnErr, OnOk, Some, flat_map, length, ℕ};
ghost use Rattle.definitions.specs.NumberCodes.{vint_bytes};
ghost use Rattle.layouts.specs.Stores.{above, group_docs, layer_bytes, layers, skip_index_bytes};
ghost use Rattle.store.specs.Spelling.{layer_lengths, layers_bytes};

use crate::groups::put_group;
use common::put_vint;
use layouts::Checkpoint;
use std::alloc::{AllocError, Global};
use std::marker::Model;
use std::ops::Range;

/// How many checkpoints a group has.
const GROUP_LEN: usize = 8;

/// Returns the documents of `group`, from the first one's start to the last one's end.
pub(crate) fn group_docs(group: &[Checkpoint]) -> Range<u32>
    requires { 0 < length group.now }
    ensures { result ≡ group_docs group.now }
{
    group[0].doc_range.start..group[group.len() - 1].doc_range.end
}

/// Returns the bytes of `layer`, and the layer above: where each group stands in these bytes.
fn encode_layer(
    alloc: Global,
    layer: &[Checkpoint],
) -> Result<(Vec<u8>, Vec<Checkpoint>), AllocError>
    ensures bytes { IfOk result (λ p. p.0.items ≡ layer_bytes layer.now) }
    ensures higher { IfOk result (λ p. p.1.items ≡ above layer.now) }
{
    let mut bytes = Vec::new(alloc);
    let mut higher = Vec::new(alloc);
    let mut rest = layer;
    while rest.len() > 0 {
        let (group, after) = rest.split_at(rest.len().min(GROUP_LEN));
        let start = bytes.len();
        put_group(&mut bytes, group)?;
        higher.push(Checkpoint {
            doc_range: group_docs(group),
            byte_range: start..bytes.len(),
        })?;
        rest = after;
    }
    Ok((bytes, higher))
}

/// Appends `layer` and the layers above it, from the top, and the length of each.
fn put_layers(
    alloc: Global,
    lengths: &mut Vec<usize>,
    body: &mut Vec<u8>,
    layer: &[Checkpoint],
) -> Result<(), AllocError>
    ensures lengths { OnOk result (lengths.new.items ≡ lengths.old.items ++ layer_lengths (layers layer.now)) }
    ensures body { OnOk result (body.new.items ≡ body.old.items ++ layers_bytes (layers layer.now)) }
{
    if layer.is_empty() {
        return Ok(());
    }
    let (bytes, higher) = encode_layer(alloc, layer)?;
    if layer.len() > GROUP_LEN {
        put_layers(alloc, lengths, body, &higher)?;
    }
    lengths.push(bytes.len())?;
    body.extend_from_slice(&bytes)?;
    Ok(())
}

/// Appends the number of `lengths`, and then these.
fn put_lengths(out: &mut Vec<u8>, lengths: &[usize]) -> Result<(), AllocError>
    ensures { OnOk result (out.new.items
        ≡ out.old.items ++ (vint_bytes (length lengths.now) ++ flat_map vint_bytes lengths.now)) }
{
    put_vint(out, lengths.len() as u64)?;
    for length in lengths {
        put_vint(out, *length as u64)?;
    }
    Ok(())
}

/// Appends the skip index whose lowest layer is `checkpoints`.
pub(crate) fn put_skip_index(
    alloc: Global,
    out: &mut Vec<u8>,
    checkpoints: &[Checkpoint],
) -> Result<(), AllocError>
    ensures { OnOk result (out.new.items ≡ out.old.items ++ skip_index_bytes checkpoints.now) }
{
    let mut lengths = Vec::new(alloc);
    let mut body = Vec::new(alloc);
    put_layers(alloc, &mut lengths, &mut body, checkpoints)?;
    put_lengths(out, &lengths)?;
    out.extend_from_slice(&body)?;
    Ok(())
}

/// The checkpoints of a store's blocks as they are written, seen as their list.
#[derive(Drop)]
pub struct SkipIndexBuilder {
    checkpoints: Vec<Checkpoint>,
}

impl Model for SkipIndexBuilder {
    ghost use Rattle.std.specs.Prelude.{List};
    ghost use Rattle.layouts.specs.declared.checkpoint.Checkpoint.{Checkpoint as Reach};

    ghost Value = { List Reach };

    ghost view = { λ builder. builder.checkpoints.items };
}

impl SkipIndexBuilder {
    /// Returns a builder without checkpoints.
    pub fn new(alloc: Global) -> SkipIndexBuilder
        ensures { result ≡ [] }
    {
        SkipIndexBuilder {
            checkpoints: Vec::new(alloc),
        }
    }

    /// Appends a checkpoint.
    pub fn insert(&mut self, checkpoint: Checkpoint) -> Result<(), AllocError>
        ensures ok { OnOk result (self.new ≡ self.old ++ checkpoint ∷ []) }
        ensures err { OnErr result (self.new ≡ self.old) }
    {
        self.checkpoints.push(checkpoint)?;
        Ok(())
    }

    /// Appends the skip index over the checkpoints to `out`.
    pub fn serialize_into(&self, out: &mut Vec<u8>) -> Result<(), AllocError>
        ensures { OnOk result (out.new.items ≡ out.old.items ++ skip_index_bytes self.now) }
    {
        let alloc = *self.checkpoints.allocator();
        put_skip_index(alloc, out, &self.checkpoints)
    }
}
