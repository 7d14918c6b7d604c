//! The decoder of bodies that list segments.

ghost use Rattle.std.specs.Prelude.{◌∷◌, ◌≡◌, ◌≢◌, Bool, IfErr, IfNone, IfOk, IfSome, List, map, ℕ};
ghost use Rattle.definitions.specs.declared.fault.Fault.TheVariants as faults;
ghost use Rattle.index_file.specs.Bodies.{IsBody};
ghost use Rattle.index_file.specs.Parts.{part_of};
ghost use Rattle.segment_definitions.specs.ListBodies as layout;

use crate::alive_sets_reader::take_sets;
use crate::part::Part;
use crate::parts_reader::take_parts;
use common::{AliveBitSet, take_u32};
use definitions::Fault;
use std::alloc::{AllocError, Global};

/// A decoded body: the segments of a list, and which documents of each are alive.
#[derive(Drop)]
pub struct SegmentsBody<'a> {
    pub parts: Vec<Part<'a>>,
    pub alive: Vec<AliveBitSet>,
}

/// Decodes the segments and the alive sets of `body`; `None` if it isn't a body that lists segments. New segments are
/// borrowed from it.
///
/// Indices aren't compared with the list before, nor alive sets with their segments: nothing here is opened.
pub fn read_segments_body(
    alloc: Global,
    body: &[u8],
) -> Result<Option<SegmentsBody<'_>>, AllocError>
    ensures some { IfOk result (λ found. IfSome found (λ b.
        IsBody (map part_of b.parts.items) b.alive.items body.now)) }
    ensures none { IfOk result (λ found. IfNone found ((parts : List layout.Part) (sets : List (List Bool))
        → ¬ IsBody parts sets body.now)) }
{
    match take_body(alloc, body) {
        Ok(found) => Ok(Some(found)),
        Err(Fault::OutOfMemory) => Err(AllocError),
        Err(_) => Ok(None),
    }
}

/// Like `read_segments_body`, but with an error for what isn't a body that lists segments.
fn take_body(alloc: Global, body: &[u8]) -> Result<SegmentsBody<'_>, Fault>
    ensures ok { IfOk result (λ b. IsBody (map part_of b.parts.items) b.alive.items body.now) }
    ensures err { IfErr result (λ fault. fault ≢ faults.OutOfMemory
        → (parts : List layout.Part) (sets : List (List Bool))
        → ¬ IsBody parts sets body.now) }
{
    let rest = behind_code(body)?;
    let (num_parts, rest) = take_u32(rest)?;
    let (parts, rest) = take_parts(alloc, num_parts, rest)?;
    let (alive, rest) = take_sets(alloc, parts.len(), rest)?;
    if !rest.is_empty() {
        return Err(Fault::Damaged(None));
    }
    Ok(SegmentsBody { parts, alive })
}

/// Returns what follows byte 2.
fn behind_code(body: &[u8]) -> Result<&[u8], Fault>
    ensures ok { IfOk result (λ rest. body.now ≡ 2 ∷ rest.now) }
    ensures err { IfErr result (λ fault. (rest : List ℕ) → body.now ≢ 2 ∷ rest) }
{
    match body.split_first() {
        Some((2, rest)) => Ok(rest),
        _ => Err(Fault::Damaged(None)),
    }
}
