//! Groups of checkpoints, encoded and decoded.

ghost use Rattle.std.specs.Prelude.{◌++◌, ◌+◌, ◌<◌, ◌≡◌, ◌≤◌, ◌^◌, ◌∷◌, [], IfErr, IfOk, List, None, OnOk, Some, flat_map, length, ℕ};
ghost use Rattle.definitions.specs.declared.fault.Fault.TheVariants as faults;
ghost use Rattle.layouts.specs.Stores.{Adjoin, extent_bytes, group_bytes};
ghost use Rattle.layouts.specs.declared.checkpoint.Checkpoint.{Checkpoint as Reach};
ghost use Rattle.store.specs.TakenGroups.{IsDamage, take_extent, take_extents, take_group};

use common::{put_vint, take_vint};
use definitions::Fault;
use layouts::Checkpoint;
use std::alloc::AllocError;

/// Decodes one extent from `doc` and `byte` on; returns it, and the bytes after it.
fn take_extent(doc: u32, byte: usize, bytes: &[u8]) -> Result<(Checkpoint, &[u8]), Fault>
    ensures ok { IfOk result (λ p. take_extent doc byte bytes.now ≡ Some (p.0, p.1.now)) }
    ensures err { IfErr result (λ fault. (fault ≡ faults.Damaged None) × (take_extent doc byte bytes.now ≡ None)) }
{
    let (docs, rest) = take_vint(bytes)?;
    let (len, rest) = take_vint(rest)?;
    if docs >= (1 << 32) - doc as u64 || len > u64::MAX - byte as u64 {
        return Err(Fault::Damaged(None));
    }
    let reach = Checkpoint {
        doc_range: doc..doc + docs as u32,
        byte_range: byte..byte + len as usize,
    };
    Ok((reach, rest))
}

/// Decodes `count` checkpoints from `first_doc` and `first_byte` on into `out`; returns the bytes after them.
fn take_extents<'a>(
    out: &mut Vec<Checkpoint>,
    count: u64,
    first_doc: u32,
    first_byte: usize,
    bytes: &'a [u8],
) -> Result<&'a [u8], Fault>
    ensures ok { IfOk result (λ rest. (cs : List Reach)
        × (take_extents count first_doc first_byte bytes.now ≡ Some (cs, rest.now))
        × (out.new.items ≡ out.old.items ++ cs)) }
    ensures err { IfErr result (λ fault. IsDamage fault (take_extents count first_doc first_byte bytes.now ≡ None)) }
{
    let mut left = count;
    let mut doc = first_doc;
    let mut byte = first_byte;
    let mut rest = bytes;
    while left > 0 {
        let (reach, after) = take_extent(doc, byte, rest)?;
        doc = reach.doc_range.end;
        byte = reach.byte_range.end;
        out.push(reach)?;
        rest = after;
        left -= 1;
    }
    Ok(rest)
}

/// Decodes the checkpoints of a group, appending them to `out`; returns the bytes after the group.
pub(crate) fn take_group<'a>(out: &mut Vec<Checkpoint>, bytes: &'a [u8]) -> Result<&'a [u8], Fault>
    ensures ok { IfOk result (λ rest. (cs : List Reach) × (take_group bytes.now ≡ Some (cs, rest.now))
        × (out.new.items ≡ out.old.items ++ cs)) }
    ensures err { IfErr result (λ fault. IsDamage fault (take_group bytes.now ≡ None)) }
{
    let (count, rest) = take_vint(bytes)?;
    if count == 0 {
        return Ok(rest);
    }
    let (doc, rest) = take_vint(rest)?;
    let (byte, rest) = take_vint(rest)?;
    if doc >= 1 << 32 {
        return Err(Fault::Damaged(None));
    }
    take_extents(out, count, doc as u32, byte as usize, rest)
}

/// Appends how many documents and how many bytes the block at `reach` has.
fn put_extent(out: &mut Vec<u8>, reach: &Checkpoint) -> Result<(), AllocError>
    ensures { OnOk result (out.new.items ≡ out.old.items ++ extent_bytes reach.now) }
{
    put_vint(
        out,
        reach.doc_range.end.saturating_sub(reach.doc_range.start) as u64,
    )?;
    put_vint(
        out,
        reach.byte_range.end.saturating_sub(reach.byte_range.start) as u64,
    )
}

/// Appends the bytes of `group`.
pub(crate) fn put_group(out: &mut Vec<u8>, group: &[Checkpoint]) -> Result<(), AllocError>
    ensures { OnOk result (out.new.items ≡ out.old.items ++ group_bytes group.now) }
{
    put_vint(out, group.len() as u64)?;
    let Some(first) = group.first() else {
        return Ok(());
    };
    put_vint(out, first.doc_range.start as u64)?;
    put_vint(out, first.byte_range.start as u64)?;
    put_extents(out, group)
}

/// Appends the extent of each checkpoint.
fn put_extents(out: &mut Vec<u8>, group: &[Checkpoint]) -> Result<(), AllocError>
    ensures { OnOk result (out.new.items ≡ out.old.items ++ flat_map extent_bytes group.now) }
{
    for reach in group {
        put_extent(out, reach)?;
    }
    Ok(())
}
