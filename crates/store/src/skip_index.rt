//! The skip index of a store: where the block of a document lies.

ghost use Rattle.std.specs.Prelude.{◌++◌, ◌<◌, ◌≡◌, ◌^◌, ◌↔◌, IfErr, IfNone, IfOk, IfSome, IsTrue, List, None, OnOk, Some, find, option_copied, slice_get};
ghost use Rattle.definitions.specs.declared.fault.Fault.TheVariants as faults;
ghost use Rattle.std.specs.List.{position_or_len};
ghost use Rattle.layouts.specs.Stores.{AreCheckpoints, IsSkipIndex, byte_end, doc_end, layer_bytes};
ghost use Rattle.layouts.specs.declared.checkpoint.Checkpoint.{Checkpoint as Reach};
ghost use Rattle.store.specs.SkipIndexes.{adjoins, follows, lowest_of, passes, take_last};
ghost use Rattle.store.specs.TakenGroups.{IsDamage, IsGroup};

use crate::groups::take_group;
use crate::skip_index_builder::put_skip_index;
use common::{TERMINATED, take_vint};
use definitions::Fault;
use layouts::Checkpoint;
use std::alloc::Global;
use std::marker::Model;

/// Decodes `count` numbers; returns the last, and the bytes after them.
fn take_last(count: u64, bytes: &[u8]) -> Result<(u64, &[u8]), Fault>
    ensures ok { IfOk result (λ p. take_last count 0 bytes.now ≡ Some (p.0, p.1.now)) }
    ensures err { IfErr result (λ fault. (fault ≡ faults.Damaged None) × (take_last count 0 bytes.now ≡ None)) }
{
    let mut left = count;
    let mut last = 0;
    let mut rest = bytes;
    while left > 0 {
        let (number, after) = take_vint(rest)?;
        last = number;
        rest = after;
        left -= 1;
    }
    Ok((last, rest))
}

/// Returns the bytes of the lowest layer.
fn lowest_layer(bytes: &[u8]) -> Result<&[u8], Fault>
    ensures ok { IfOk result (λ lowest. lowest_of bytes.now ≡ Some lowest.now) }
    ensures err { IfErr result (λ fault. (fault ≡ faults.Damaged None) × (lowest_of bytes.now ≡ None)) }
{
    let (count, rest) = take_vint(bytes)?;
    let (last, rest) = take_last(count, rest)?;
    if last > rest.len() as u64 {
        return Err(Fault::Damaged(None));
    }
    Ok(rest.split_at(rest.len() - last as usize).1)
}

/// Decodes the checkpoints of a layer, appending them to `out`.
fn take_layer(out: &mut Vec<Checkpoint>, bytes: &[u8]) -> Result<(), Fault>
    ensures ok { (cs : List Reach) → IsGroup cs → bytes.now ≡ layer_bytes cs
        → OnOk result (out.new.items ≡ out.old.items ++ cs) }
    ensures err { IfErr result (λ fault. IsDamage fault ((cs : List Reach) → IsGroup cs → bytes.now ≡ layer_bytes cs
        → ⊥)) }
{
    let mut rest = bytes;
    while rest.len() > 0 {
        let after = take_group(out, rest)?;
        rest = after;
    }
    Ok(())
}

/// Whether `reach` begins at `doc` and `byte`, and holds a document.
fn follows(doc: u32, byte: usize, reach: &Checkpoint) -> bool
    ensures value { result ≡ follows doc byte reach.now }
    ensures fits { reach.now.byte_range.end < 2 ^ 64 }
{
    let byte_end = reach.byte_range.end;
    reach.doc_range.start == doc
        && reach.byte_range.start == byte
        && doc < reach.doc_range.end
        && byte <= byte_end
}

/// Whether `checkpoints` adjoin from the first document and byte on, up to the limit.
fn are_checkpoints(checkpoints: &[Checkpoint]) -> bool
    ensures { result ≡ adjoins 0 0 checkpoints.now }
{
    let mut doc = 0;
    let mut byte = 0;
    for reach in checkpoints {
        if !follows(doc, byte, reach) {
            return false;
        }
        doc = reach.doc_range.end;
        byte = reach.byte_range.end;
    }
    doc <= TERMINATED
}

/// Returns how many documents the blocks at `checkpoints` hold.
pub(crate) fn doc_end(checkpoints: &[Checkpoint]) -> u32
    ensures { result ≡ doc_end 0 checkpoints.now }
{
    match checkpoints.last() {
        Some(last) => last.doc_range.end,
        None => 0,
    }
}

/// Whether `a` and `b` are equal.
fn are_same(a: &[u8], b: &[u8]) -> bool
    ensures { IsTrue result ↔ (a.now ≡ b.now) }
{
    a == b
}

/// The checkpoints of a store's blocks in order, seen as their list.
#[derive(Drop)]
pub struct SkipIndex {
    checkpoints: Vec<Checkpoint>,
}

impl Model for SkipIndex {
    ghost use Rattle.std.specs.Prelude.{List};
    ghost use Rattle.layouts.specs.Stores.{AreCheckpoints};
    ghost use Rattle.layouts.specs.declared.checkpoint.Checkpoint.{Checkpoint as Reach};

    ghost Value = { List Reach };

    ghost view = { λ index. index.checkpoints.items };

    ghost invariant = { λ index. AreCheckpoints index.checkpoints.items };
}

impl SkipIndex {
    /// Opens a skip index, and checks it whole.
    pub fn open(alloc: Global, bytes: &[u8]) -> Result<SkipIndex, Fault>
        ensures ok { IfOk result (λ index. IsSkipIndex index bytes.now) }
        ensures err { IfErr result (λ fault. IsDamage fault ((cs : List Reach) → IsSkipIndex cs bytes.now → ⊥)) }
    {
        let mut checkpoints = Vec::new(alloc);
        let lowest = lowest_layer(bytes)?;
        take_layer(&mut checkpoints, lowest)?;
        if !are_checkpoints(&checkpoints) {
            return Err(Fault::Damaged(None));
        }
        let mut spelled = Vec::new(alloc);
        put_skip_index(alloc, &mut spelled, &checkpoints)?;
        if !are_same(&spelled, bytes) {
            return Err(Fault::Damaged(None));
        }
        Ok(SkipIndex { checkpoints })
    }

    /// Returns the checkpoints in order.
    pub fn checkpoints(&self) -> &[Checkpoint]
        ensures all { result.now ≡ self.now }
        ensures valid { AreCheckpoints self.now }
    {
        &self.checkpoints
    }

    /// Returns the first checkpoint whose documents end past `target`, by binary search.
    /// It looks in the lowest layer alone, which is kept decoded; the upper ones are checked by `open`, and not kept.
    pub fn seek(&self, target: u32) -> Option<&Checkpoint>
        ensures { option_copied result ≡ find (passes target) self.now }
    {
        let at = self.block_of(target);
        if at < self.checkpoints.len() {
            Some(&self.checkpoints[at])
        } else {
            None
        }
    }

    /// Returns how many documents the blocks hold.
    pub(crate) fn doc_end(&self) -> u32
        ensures { result ≡ doc_end 0 self.now }
    {
        doc_end(&self.checkpoints)
    }

    /// Returns how many bytes the blocks have.
    pub(crate) fn byte_end(&self) -> usize
        ensures { result ≡ byte_end 0 self.now }
    {
        match self.checkpoints.last() {
            Some(last) => last.byte_range.end,
            None => 0,
        }
    }

    /// Returns the block of `doc`: its index, and its checkpoint.
    pub(crate) fn find_block(&self, doc: u32) -> Option<(usize, &Checkpoint)>
        ensures some { IfSome result (λ p. (p.0 ≡ position_or_len (passes doc) self.now)
            × (slice_get self.now p.0 ≡ Some p.1.now)) }
        ensures none { IfNone result (slice_get self.now (position_or_len (passes doc) self.now) ≡ None) }
    {
        let at = self.block_of(doc);
        if at < self.checkpoints.len() {
            Some((at, &self.checkpoints[at]))
        } else {
            None
        }
    }

    /// Returns how many blocks end at or before `target`.
    pub(crate) fn block_of(&self, target: u32) -> usize
        ensures { result ≡ position_or_len (passes target) self.now }
    {
        let mut low = 0;
        let mut high = self.checkpoints.len();
        while low < high {
            let middle = low + (high - low) / 2;
            if self.checkpoints[middle].doc_range.end <= target {
                low = middle + 1;
            } else {
                high = middle;
            }
        }
        low
    }
}
