//! One term's postings, document by document.

ghost use Rattle.std.specs.Prelude.{[], ◌*◌, ◌+◌, ◌/◌, ◌<◌, ◌≡◌, ◌≤◌, IsSome, List, OnOk, drop, if◌then◌else◌, length, min, replicate, slice_index, true, ℕ};
ghost use Rattle.codes.specs.UnpackedBlocks.{listed};
ghost use Rattle.definitions.specs.Blocks.{block_len};
ghost use Rattle.definitions.specs.Postings.{terminated};
ghost use Rattle.docsets.specs.Entries.{AreSingle, first, first_positions, most_positions, single};
ghost use Rattle.docsets.proofs.EntryLaws.{AreSingle-prop};
ghost use Rattle.layouts.specs.Positions.{differences};
ghost use Rattle.layouts.specs.TermPostings.{skip_entries};
ghost use Rattle.segment_postings.specs.BoundedBlocks.{AreBounded};
ghost use Rattle.segment_postings.specs.CountBounds.{TellCounts};
ghost use Rattle.segment_postings.specs.Reading.{HasPostings, counts_at, docs_at};
ghost use Rattle.segment_postings.specs.TermEntries.{HasPositions, entries_from, entries_of, term_entries};

use crate::block_segment_postings::BlockSegmentPostings;
use crate::position_lists::{append_numbers, append_positions};
use codes::{PositionReader, Recorded};
use common::DocId;
use docsets::{DocSet, Postings, SeekDangerResult};
use std::alloc::AllocError;

/// A cursor over the documents that have a term, borrowed from their bytes.
/// The contracts of `advance`, `seek` and `seek_danger` say which block and index they reached; that of `fill_buffer`
/// only which documents remain, as a search that counts blocks has no use for it.
#[derive(Drop)]
pub struct SegmentPostings<'a> {
    blocks: BlockSegmentPostings<'a>,
    cur: usize,
    positions: Option<PositionReader<'a>>,
    ghost inside: { cur < block_len },
    ghost placed: { IsSome positions → blocks.reads_positions ≡ true },
    ghost told: { IsSome positions → ∥ TellCounts (length (listed positions)) blocks.skips (counts_at blocks.reads_counts blocks.before blocks.skips blocks.bytes.now) ∥₁ },
    ghost of_one_term: { AreSingle (entries_from cur blocks.skips.position_offset (docs_at blocks.before blocks.skips blocks.bytes.now) (counts_at blocks.reads_counts blocks.before blocks.skips blocks.bytes.now) (listed positions)) } by { AreSingle-prop (entries_from cur blocks.skips.position_offset (docs_at blocks.before blocks.skips blocks.bytes.now) (counts_at blocks.reads_counts blocks.before blocks.skips blocks.bytes.now) (listed positions)) },
}

impl<'a> SegmentPostings<'a> {
    ghost use Rattle.segment_postings.specs.Cursors.{HasStayed, counts_left, cursor_blocks, cursor_blocks_decoded, cursor_doc_freq, cursor_place, cursor_positions, docs_left, entries_left, first_bound, skips_left, skips_reached};
    ghost use Rattle.segment_postings.specs.Reading.{below};
    ghost use Rattle.codes.specs.SkipBlocks.{last_doc};

    /// Returns an exhausted cursor.
    pub fn empty() -> SegmentPostings<'a>
        ensures entries { entries_left result ≡ [] }
        ensures decoded { cursor_blocks_decoded result ≡ 0 }
        ensures doc_freq { cursor_doc_freq result ≡ 0 }
        ensures positions { cursor_positions result ≡ 0 }
        ensures blocks { (docs_left (cursor_blocks result) ≡ []) × (skips_left (cursor_blocks result) ≡ []) }
        ensures index { cursor_place result ≡ 0 }
        ensures reached { skips_reached (cursor_blocks result) ≡ skips_left (cursor_blocks result) }
    {
        SegmentPostings {
            blocks: BlockSegmentPostings::empty(),
            cur: 0,
            positions: None,
        }
    }

    /// Returns a cursor on the first document of a term's postings, `bytes`, which are known to be in their layout. If
    /// counts aren't read each is 1.
    pub fn new(
        bytes: &'a [u8],
        doc_freq: u32,
        recorded: Recorded,
        reads_counts: bool,
    ) -> SegmentPostings<'a>
        requires known { ∥ ((docs counts : List ℕ)
            × HasPostings recorded.counts recorded.positions doc_freq bytes.now docs counts) ∥₁ }
        requires counts { reads_counts ≡ true → recorded.counts ≡ true }
        ensures entries { (docs counts : List ℕ)
            → HasPostings recorded.counts recorded.positions doc_freq bytes.now docs counts
            → entries_left result ≡ entries_of docs (if reads_counts then counts else replicate doc_freq 1) [] }
        ensures decoded { cursor_blocks_decoded result ≡ min 1 doc_freq }
        ensures doc_freq { cursor_doc_freq result ≡ doc_freq }
        ensures positions { cursor_positions result ≡ 0 }
        ensures docs { (docs counts : List ℕ)
            → HasPostings recorded.counts recorded.positions doc_freq bytes.now docs counts
            → docs_left (cursor_blocks result) ≡ docs }
        ensures skips { (docs counts : List ℕ)
            (known : HasPostings recorded.counts recorded.positions doc_freq bytes.now docs counts)
            → skips_left (cursor_blocks result)
            ≡ skip_entries known.option known.ids (length docs / block_len) 0 docs counts }
        ensures index { cursor_place result ≡ 0 }
        ensures reached { skips_reached (cursor_blocks result) ≡ skips_left (cursor_blocks result) }
        ensures bounded { (docs counts : List ℕ)
            (known : HasPostings recorded.counts recorded.positions doc_freq bytes.now docs counts)
            → AreBounded known.ids (skips_left (cursor_blocks result)) (docs_left (cursor_blocks result))
            (counts_left (cursor_blocks result)) }
    {
        SegmentPostings {
            blocks: BlockSegmentPostings::new(bytes, doc_freq, recorded, reads_counts, false),
            cur: 0,
            positions: None,
        }
    }

    /// Like `new`, but with counts and with `positions`, which are known to be those of the term's documents.
    pub fn with_positions(
        bytes: &'a [u8],
        doc_freq: u32,
        recorded: Recorded,
        positions: PositionReader<'a>,
    ) -> SegmentPostings<'a>
        requires known { ∥ ((docs counts : List ℕ) × (lists : List (List ℕ))
            × HasPostings recorded.counts recorded.positions doc_freq bytes.now docs counts
            × HasPositions counts lists positions) ∥₁ }
        requires recorded { (recorded.counts ≡ true) × (recorded.positions ≡ true) }
        ensures entries { (docs counts : List ℕ) (lists : List (List ℕ))
            → HasPostings recorded.counts recorded.positions doc_freq bytes.now docs counts
            → HasPositions counts lists positions.entry → entries_left result ≡ term_entries docs counts lists }
        ensures decoded { cursor_blocks_decoded result ≡ min 1 doc_freq }
        ensures doc_freq { cursor_doc_freq result ≡ doc_freq }
        ensures positions { cursor_positions result ≡ length positions.entry }
        ensures docs { (docs counts : List ℕ)
            → HasPostings recorded.counts recorded.positions doc_freq bytes.now docs counts
            → docs_left (cursor_blocks result) ≡ docs }
        ensures skips { (docs counts : List ℕ)
            (known : HasPostings recorded.counts recorded.positions doc_freq bytes.now docs counts)
            → skips_left (cursor_blocks result)
            ≡ skip_entries known.option known.ids (length docs / block_len) 0 docs counts }
        ensures index { cursor_place result ≡ 0 }
        ensures reached { skips_reached (cursor_blocks result) ≡ skips_left (cursor_blocks result) }
        ensures bounded { (docs counts : List ℕ)
            (known : HasPostings recorded.counts recorded.positions doc_freq bytes.now docs counts)
            → AreBounded known.ids (skips_left (cursor_blocks result)) (docs_left (cursor_blocks result))
            (counts_left (cursor_blocks result)) }
    {
        SegmentPostings {
            blocks: BlockSegmentPostings::new(bytes, doc_freq, recorded, true, true),
            cur: 0,
            positions: Some(positions),
        }
    }

    /// Returns the number of blocks with documents that were decoded, including the first.
    #[inline]
    pub fn decoded_blocks(&self) -> u64
        ensures { result ≡ cursor_blocks_decoded self.now }
    {
        self.blocks.decoded_blocks()
    }

    /// Reaches the first block, from the current one on, that may contain `target`, without decoding it. A lesser
    /// target than that of the call before goes back.
    #[inline]
    pub fn seek_block(&mut self, target: DocId)
        requires { target ≤ terminated }
        ensures same { entries_left self.new ≡ entries_left self.old }
        ensures stayed { HasStayed self.old self.new }
        ensures reached { skips_reached (cursor_blocks self.new)
            ≡ drop (below target (docs_left (cursor_blocks self.old)) / block_len)
            (skips_left (cursor_blocks self.old)) }
        ensures ahead { target ≤ last_doc (skips_reached (cursor_blocks self.new)) }
        ensures block { (index : ℕ) → index < length (docs_left (cursor_blocks self.old))
            → target ≤ slice_index (docs_left (cursor_blocks self.old)) index
            → slice_index (docs_left (cursor_blocks self.old)) index
            ≤ last_doc (skips_reached (cursor_blocks self.new))
            → index / block_len ≡ below target (docs_left (cursor_blocks self.old)) / block_len }
        ensures ends { 0 < length (skips_reached (cursor_blocks self.new))
            → below (last_doc (skips_reached (cursor_blocks self.new)) + 1) (docs_left (cursor_blocks self.old))
            ≡ block_len * (below target (docs_left (cursor_blocks self.old)) / block_len + 1) }
    {
        self.blocks.seek_block(target);
    }

    /// Returns the bound of the block reached, which is that of the last `seek_block` until a seek or a move to another
    /// block: its least length id and its greatest count. None if the entry stores no bound, and in the rest.
    #[inline]
    pub fn block_bound(&self) -> Option<(u8, u8)>
        ensures { result ≡ first_bound (skips_reached (cursor_blocks self.now)) }
    {
        self.blocks.block_bound()
    }

    /// Returns the last document of the block reached; `TERMINATED` in the rest.
    #[inline]
    pub fn last_doc_in_block(&self) -> DocId
        ensures { result ≡ last_doc (skips_reached (cursor_blocks self.now)) }
    {
        self.blocks.last_doc_in_block()
    }

    /// Returns the number of documents that have the term.
    #[inline]
    pub fn doc_freq(&self) -> u32
        ensures { result ≡ cursor_doc_freq self.now }
    {
        self.blocks.doc_freq()
    }

    /// Replaces what `output` holds by the first position in the current document and then the differences, as they are
    /// written, so that a merge passes them on; by none if no positions are read.
    pub fn position_deltas(&mut self, output: &mut Vec<u32>) -> Result<(), AllocError>
        requires on { first (entries_left self.old) < terminated }
        ensures same { entries_left self.new ≡ entries_left self.old }
        ensures ok { OnOk result (output.new.items ≡ differences 0 (single (first_positions (entries_left self.old)))) }
    {
        output.clear();
        let count = self.blocks.freq(self.cur) as usize;
        let begin = self.blocks.positions_before(self.cur);
        append_numbers(&mut self.positions, begin, count, output)?;
        Ok(())
    }
}

impl<'a> DocSet for SegmentPostings<'a> {
    ghost use Rattle.std.specs.Prelude.{drop, max, nat_lt};
    ghost use Rattle.definitions.specs.Postings.{terminated};
    ghost use Rattle.docsets.specs.Danger.{IsDangerAnswer};
    ghost use Rattle.docsets.specs.Entries.{first, from};
    ghost use Rattle.segment_postings.specs.Cursors.{HasMoved, counts_left, cursor_blocks, cursor_place, docs_left, entries_left, skips_left, skips_reached};
    ghost use Rattle.segment_postings.specs.Reading.{below};

    ghost entries = { entries_left };

    #[inline]
    fn advance(&mut self) -> DocId
        ensures rest { entries_left self.new ≡ drop 1 (entries_left self.old) }
        ensures at { result ≡ first (entries_left self.new) }
        ensures moved { HasMoved (cursor_place self.old + 1) self.old self.new }
        ensures reached { skips_reached (cursor_blocks self.new)
            ≡ (if nat_lt (cursor_place self.old + 1) block_len then skips_reached (cursor_blocks self.old)
            else skips_left (cursor_blocks self.new)) }
    {
        if self.cur == 127 {
            self.blocks.advance();
            self.cur = 0;
            return self.doc();
        }
        self.cur += 1;
        self.doc()
    }

    #[inline]
    fn seek(&mut self, target: DocId) -> DocId
        requires ahead { first (entries_left self.old) ≤ target }
        requires small { target ≤ terminated }
        ensures rest { entries_left self.new ≡ from target (entries_left self.old) }
        ensures at { result ≡ first (entries_left self.new) }
        ensures moved { HasMoved (below target (docs_left (cursor_blocks self.old))) self.old self.new }
        ensures reached { skips_reached (cursor_blocks self.new) ≡ skips_left (cursor_blocks self.new) }
    {
        self.cur = self.blocks.seek(target);
        self.doc()
    }

    #[inline]
    fn seek_danger(&mut self, target: DocId) -> SeekDangerResult
        requires { target < terminated }
        ensures answer { IsDangerAnswer result target (entries_left self.old) (entries_left self.new) }
        ensures moved { HasMoved
            (max (cursor_place self.old) (below target (docs_left (cursor_blocks self.old))))
            self.old self.new }
        ensures reached { skips_reached (cursor_blocks self.new)
            ≡ (if nat_lt target (first (entries_left self.old)) then skips_reached (cursor_blocks self.old)
            else skips_left (cursor_blocks self.new)) }
    {
        let doc = self.doc();
        if target < doc {
            return SeekDangerResult::SeekLowerBound(doc);
        }
        let doc = self.seek(target);
        if target < doc {
            return SeekDangerResult::SeekLowerBound(doc);
        }
        SeekDangerResult::Found
    }

    #[inline]
    fn doc(&self) -> DocId {
        self.blocks.doc(self.cur)
    }

    #[inline]
    fn size_hint(&self) -> u32 {
        self.doc_freq()
    }

    ghost use Rattle.segment_postings.specs.CursorsLaws.{rising_left};

    ghost rising = { rising_left };
}

impl<'a> Postings for SegmentPostings<'a> {
    ghost use Rattle.std.specs.Prelude.{◌++◌};
    ghost use Rattle.segment_postings.specs.CursorsLaws.{alone_left, single_left};
    ghost use Rattle.segment_postings.specs.Cursors.{cursor_positions, entries_left};

    ghost joined = { λ held positions. held ++ positions };

    #[inline]
    fn term_freq(&self) -> u32 {
        self.blocks.freq(self.cur)
    }

    fn append_positions_with_offset(
        &mut self,
        offset: u32,
        output: &mut Vec<u32>,
    ) -> Result<(), AllocError> {
        let count = self.blocks.freq(self.cur) as usize;
        let begin = self.blocks.positions_before(self.cur);
        append_positions(&mut self.positions, begin, count, offset, output)?;
        Ok(())
    }

    #[inline]
    fn positions_bound(&self) -> usize {
        self.blocks.freq(self.cur) as usize
    }

    /// Returns an upper bound, from each skip entry that is left and the number of positions.
    fn most_positions(&self) -> usize
        ensures most { most_positions (entries_left self.now) ≤ result }
        ensures few { result ≤ cursor_positions self.now }
    {
        match &self.positions {
            Some(positions) => self.blocks.greatest_count(positions.num_positions()) as usize,
            None => 0,
        }
    }

    ghost of_one_term = { single_left };

    ghost alone = { alone_left };
}
