//! The alive sets after a merge.

ghost use Rattle.std.specs.Prelude.{◌++◌, ◌≡◌, ◌≤◌, IfOk, OnOk, length};
ghost use Rattle.index_state.specs.Merges.{new_flags, replaced};

use crate::new_segments::NewSegment;
use common::AliveBitSet;
use std::alloc::{AllocError, Global};

/// Returns the alive sets after the segments `from..to` are replaced by `new`, or by none.
pub(crate) fn merged_sets(
    alloc: Global,
    alive: &[AliveBitSet],
    from: usize,
    to: usize,
    new: &Option<NewSegment>,
) -> Result<Vec<AliveBitSet>, AllocError>
    requires some { from ≤ to }
    requires within { to ≤ length alive.now }
    ensures { IfOk result (λ sets. sets.items
        ≡ replaced from to (new_flags new.now) alive.now) }
{
    let mut sets = Vec::with_capacity(alloc, alive.len())?;
    push_copies(alloc, &alive[..from], &mut sets)?;
    push_new(alloc, new, &mut sets)?;
    push_copies(alloc, &alive[to..], &mut sets)?;
    Ok(sets)
}

/// Appends copies of alive sets.
pub(crate) fn push_copies(
    alloc: Global,
    alive: &[AliveBitSet],
    sets: &mut Vec<AliveBitSet>,
) -> Result<(), AllocError>
    ensures { OnOk result (sets.new.items ≡ sets.old.items ++ alive.now) }
{
    for set in alive {
        sets.push(set.try_clone(alloc)?)?;
    }
    Ok(())
}

/// Appends the alive set of the new segment, if there is one.
fn push_new(
    alloc: Global,
    new: &Option<NewSegment>,
    sets: &mut Vec<AliveBitSet>,
) -> Result<(), AllocError>
    ensures { OnOk result (sets.new.items ≡ sets.old.items ++ new_flags new.now) }
{
    let Some(new) = new else {
        return Ok(());
    };
    sets.push(AliveBitSet::for_max_doc(alloc, new.num_docs)?)?;
    Ok(())
}
