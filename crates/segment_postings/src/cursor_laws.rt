//! Laws of what remains of a cursor, by the blocks that it holds.

ghost use Rattle.std.specs.Prelude.{◌≡◌, drop, map};
ghost use Rattle.segment_postings.specs.Cursors.{cursor_blocks, cursor_place, docs_left, entries_left};
ghost use Rattle.segment_postings.specs.declared.segment_postings.SegmentPostings.{SegmentPostings};

/// States that the documents that remain of a cursor are those of its blocks from its index on.
pub fn entries_are_those_of_blocks()
    ensures { (s : SegmentPostings) → map (λ e. e.doc) (entries_left s)
        ≡ drop (cursor_place s) (docs_left (cursor_blocks s)) }
{}
