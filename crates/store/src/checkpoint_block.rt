//! A group of checkpoints, as layers of a skip index hold them.

ghost use Rattle.std.specs.Prelude.{◌++◌, ◌<◌, ◌≡◌, ◌∷◌, [], IfErr, IfOk, IfSome, List, OnErr, OnOk, Some, is_some, length, nat_lt, slice_get, ℕ};
ghost use Rattle.layouts.specs.Stores.{group_bytes, group_docs};
ghost use Rattle.layouts.specs.declared.checkpoint.Checkpoint.{Checkpoint as Reach};
ghost use Rattle.store.specs.TakenGroups.{IsDamage, IsGroup};

use crate::groups::{put_group, take_group};
use crate::skip_index_builder::group_docs;
use definitions::Fault;
use layouts::Checkpoint;
use std::alloc::{AllocError, Global};
use std::marker::Model;
use std::ops::Range;

/// The checkpoints of one group, seen as their list.
#[derive(Drop)]
pub struct CheckpointBlock {
    checkpoints: Vec<Checkpoint>,
}

impl Model for CheckpointBlock {
    ghost use Rattle.std.specs.Prelude.{List};
    ghost use Rattle.layouts.specs.declared.checkpoint.Checkpoint.{Checkpoint as Reach};

    ghost Value = { List Reach };

    ghost view = { λ block. block.checkpoints.items };
}

impl CheckpointBlock {
    /// Returns a group without checkpoints.
    pub fn new(alloc: Global) -> CheckpointBlock
        ensures { result ≡ [] }
    {
        CheckpointBlock {
            checkpoints: Vec::new(alloc),
        }
    }

    /// Returns the documents from the first checkpoint's first one to the last one's end.
    pub fn doc_interval(&self) -> Option<Range<u32>>
        ensures some { IfSome result (λ docs. docs ≡ group_docs self.now) }
        ensures variant { is_some result ≡ nat_lt 0 (length self.now) }
    {
        if self.checkpoints.is_empty() {
            return None;
        }
        Some(group_docs(&self.checkpoints))
    }

    /// Appends a checkpoint.
    pub fn push(&mut self, checkpoint: Checkpoint) -> Result<(), AllocError>
        ensures ok { OnOk result (self.new ≡ self.old ++ checkpoint ∷ []) }
        ensures err { OnErr result (self.new ≡ self.old) }
    {
        self.checkpoints.push(checkpoint)?;
        Ok(())
    }

    /// Returns how many checkpoints there are.
    pub fn len(&self) -> usize
        ensures { result ≡ length self.now }
    {
        self.checkpoints.len()
    }

    /// Returns the checkpoint at index `at`.
    pub fn get(&self, at: usize) -> &Checkpoint
        requires { at < length self.now }
        ensures { Some result.now ≡ slice_get self.now at }
    {
        &self.checkpoints[at]
    }

    /// Removes every checkpoint.
    pub fn clear(&mut self)
        ensures { self.new ≡ [] }
    {
        self.checkpoints.clear();
    }

    /// Appends the group to `out`.
    pub fn serialize(&self, out: &mut Vec<u8>) -> Result<(), AllocError>
        ensures { OnOk result (out.new.items ≡ out.old.items ++ group_bytes self.now) }
    {
        put_group(out, &self.checkpoints)
    }

    /// Decodes a group that replaces the checkpoints; returns the bytes after it. A failed call leaves no checkpoints.
    pub fn deserialize<'a>(&mut self, bytes: &'a [u8]) -> Result<&'a [u8], Fault>
        ensures ok { IfOk result (λ rest. IsGroup self.new × (bytes.now ≡ group_bytes self.new ++ rest.now)) }
        ensures err { IfErr result (λ fault. IsDamage fault ((cs : List Reach) (rest : List ℕ) → IsGroup cs
            → bytes.now ≡ group_bytes cs ++ rest → ⊥)) }
        ensures emptied { OnErr result (self.new ≡ []) }
    {
        self.checkpoints.clear();
        match take_group(&mut self.checkpoints, bytes) {
            Ok(rest) => Ok(rest),
            Err(fault) => {
                self.checkpoints.clear();
                Err(fault)
            }
        }
    }
}
