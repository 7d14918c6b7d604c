//! Cursors over ascending documents.

ghost use Rattle.std.specs.Prelude.{[], ◌<◌, ◌≡◌, ◌≤◌, List, count_by, drop, false, length, map, min, slice_index_or, take, ℕ};
ghost use Rattle.definitions.specs.Postings.{terminated};
ghost use Rattle.docsets.specs.Entries.{Entry, Rising, first, from};

use crate::seek_danger_result::SeekDangerResult;
use common::{AliveBitSet, DocId, TERMINATED};

/// The greatest number of documents that `fill_buffer` writes.
pub const COLLECT_BLOCK_BUFFER_LEN: usize = 64;

/// A cursor over ascending documents: its current document is the first that remains, or `TERMINATED` if exhausted.
pub trait DocSet {
    ghost use Rattle.docsets.specs.Danger.{IsDangerAnswer};

    // The entries that remain. No move changes an entry.
    ghost entries: { Self → List Entry };

    /// Moves to the next document and returns it; stays at `TERMINATED` after the last.
    fn advance(&mut self) -> DocId
        ensures rest { entries self.new ≡ drop 1 (entries self.old) }
        ensures at { result ≡ first (entries self.new) };

    /// Moves to the first document >= `target` and returns it.
    fn seek(&mut self, target: DocId) -> DocId
        requires ahead { first (entries self.old) ≤ target }
        requires small { target ≤ terminated }
        ensures rest { entries self.new ≡ from target (entries self.old) }
        ensures at { result ≡ first (entries self.new) }
    {
        let mut doc = self.doc();
        while doc < target {
            doc = self.advance();
        }
        doc
    }

    /// Checks whether `target`, any document below `TERMINATED`, remains. The cursor then is on it, or somewhere
    /// before the next document.
    fn seek_danger(&mut self, target: DocId) -> SeekDangerResult
        requires { target < terminated }
        ensures { IsDangerAnswer result target (entries self.old) (entries self.new) }
    {
        let doc = self.doc();
        if target < doc {
            return SeekDangerResult::SeekLowerBound(doc);
        }
        let doc = self.seek(target);
        if target < doc {
            return SeekDangerResult::SeekLowerBound(doc);
        }
        SeekDangerResult::Found
    }

    /// Writes as many of the remaining documents into `buffer` as it takes, moves after them, and returns their number.
    fn fill_buffer(&mut self, buffer: &mut [DocId; 64]) -> usize
        ensures len { result ≡ min 64 (length (entries self.old)) }
        ensures written { take result buffer.new ≡ map (λ e. e.doc) (take 64 (entries self.old)) }
        ensures rest { entries self.new ≡ drop 64 (entries self.old) }
    {
        let mut doc = self.doc();
        for filled in 0..COLLECT_BLOCK_BUFFER_LEN {
            if doc == TERMINATED {
                return filled;
            }
            buffer[filled] = doc;
            doc = self.advance();
        }
        COLLECT_BLOCK_BUFFER_LEN
    }

    /// Returns the current document.
    fn doc(&self) -> DocId
        ensures { result ≡ first (entries self.now) };

    /// Returns an estimate of the number of remaining documents.
    fn size_hint(&self) -> u32;

    /// Returns an estimate of the cost of a walk over the remaining documents.
    fn cost(&self) -> u64 {
        u64::from(self.size_hint())
    }

    /// Returns the number of remaining documents that are alive; `alive` has a flag for each of them. The cursor is
    /// exhausted after it.
    fn count(&mut self, alive: &AliveBitSet) -> u32
        requires { from (length alive.now) (entries self.old) ≡ [] }
        ensures count { result ≡ count_by (λ e. slice_index_or alive.now e.doc false) (entries self.old) }
        ensures done { entries self.new ≡ [] }
    {
        let mut count = 0;
        let mut doc = self.doc();
        while doc != TERMINATED {
            count += alive.is_alive(doc) as u32;
            doc = self.advance();
        }
        count
    }

    /// Returns the number of remaining documents. The cursor is exhausted after it.
    fn count_including_deleted(&mut self) -> u32
        ensures count { result ≡ length (entries self.old) }
        ensures done { entries self.new ≡ [] }
    {
        let mut count = 0;
        let mut doc = self.doc();
        while doc != TERMINATED {
            count += 1;
            doc = self.advance();
        }
        count
    }

    // The documents ascend below `TERMINATED`, and no score is above the greatest.
    ghost rising: { (s : Self) → Rising 0 (entries s) };
}
