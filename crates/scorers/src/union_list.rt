//! The documents of a union as a list.

ghost use Rattle.std.specs.Prelude.{◌≡◌, IfOk, map};
ghost use Rattle.docsets.specs.ScoredEntries.{AreScores};
ghost use Rattle.scorers.specs.Signed.{signed};
ghost use Rattle.scorers.specs.Windows.{StandsAt, windowed};

use crate::buffered_union::settle;
use crate::window_bits::WindowBits;
use common::{DocId, Score, TERMINATED};
use docsets::{ScoreCombiner, Scorer};
use std::alloc::{AllocError, Global};

/// Lists the documents that remain in a window and in the cursors after it, each with its score. `start` is where the
/// window starts, `doc` the current document, `bucket` the word of its flag. What a step needs is kept in local
/// variables, where a borrowed cursor would store it for each document.
pub(crate) fn list_rest<S: Scorer, C: ScoreCombiner>(
    alloc: Global,
    docsets: &mut Vec<S>,
    fresh: C,
    present: &mut WindowBits,
    slots: &mut Vec<C>,
    start: DocId,
    doc: DocId,
    bucket: u32,
) -> Result<Vec<(DocId, Score)>, AllocError>
    requires { StandsAt C.answer C.total present.old slots.old.items fresh start (map S.entries docsets.old.items) doc
        bucket }
    ensures pairs { IfOk result (λ pairs. pairs.items
        ≡ signed (windowed C.answer present.old slots.old.items fresh start
        (map S.entries docsets.old.items) doc)) }
{
    let mut start = start;
    let mut doc = doc;
    let mut bucket = bucket;
    let mut pairs = Vec::new(alloc);
    while doc != TERMINATED {
        let k = (doc - start) as usize;
        pairs.push((doc, slots[k].score()))?;
        slots[k] = fresh;
        let found = present.next_after(bucket);
        let (next_start, next, next_bucket) = settle(
            docsets,
            fresh,
            present,
            slots,
            found,
            start,
            doc + 1,
        );
        start = next_start;
        doc = next;
        bucket = next_bucket;
    }
    Ok(pairs)
}
