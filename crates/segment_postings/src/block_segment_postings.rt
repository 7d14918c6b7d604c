//! One term's postings, block by block.

ghost use Rattle.std.specs.Prelude.{[], ◌%◌, ◌*◌, ◌+◌, ◌/◌, ◌<◌, ◌≡◌, ◌≤◌, Bool, IsSome, List, None, Some, drop, if◌then◌else◌, length, min, nat_lt, replicate, slice_index, slice_index_or, sum, take, true, ℕ};
ghost use Rattle.definitions.specs.Blocks.{block_len};
ghost use Rattle.definitions.specs.NumberCodes.{take_bytes};
ghost use Rattle.definitions.specs.Postings.{terminated};
ghost use Rattle.layouts.specs.TermPostings.{skip_entries};
ghost use Rattle.segment_postings.specs.Ahead.{IsAhead};
ghost use Rattle.segment_postings.specs.AheadLaws.{IsAhead-prop};
ghost use Rattle.segment_postings.specs.CountBounds.{TellCounts};
ghost use Rattle.segment_postings.specs.Reading.{Ascends, HasPassed, HasPostings, IsHeld, IsSummed, StandsIn, below, counts_at, docs_at};
ghost use Rattle.segment_postings.specs.ReadingLaws.{Ascends-prop, StandsIn-prop};
ghost use Rattle.codes.specs.SkipBlocks.{last_doc};

use crate::decoded_block::decode_block;
use crate::greatest_count::greatest_count;
use codes::{BlockDecoder, BlockInfo, COMPRESSION_BLOCK_SIZE, Recorded, SkipReader};
use common::{DocId, take_bytes};

/// A block that `seek_block` reached without decoding it: the skip entries from it on, the last document before it, and
/// the target that was sought.
#[derive(Drop)]
struct Ahead<'a> {
    skips: SkipReader<'a>,
    before: u32,
    target: u32,
}

/// A cursor over the postings of a term, a block of 128 documents at a time, borrowed from their bytes. It holds the
/// current block; a move decodes the block that it reaches. `seek_block` looks ahead for a block's bound and decodes
/// nothing.
#[derive(Drop)]
pub struct BlockSegmentPostings<'a> {
    bytes: &'a [u8],
    skips: SkipReader<'a>,
    before: u32,
    reads_counts: bool,
    reads_positions: bool,
    doc_freq: u32,
    decoder: BlockDecoder,
    docs: [u32; COMPRESSION_BLOCK_SIZE],
    counts: [u32; COMPRESSION_BLOCK_SIZE],
    len: usize,
    decoded: u64,
    // An index in the block, and the sum of the counts before it.
    summed_len: usize,
    summed: u64,
    // The block that `seek_block` reached since the last move.
    ahead: Option<Ahead<'a>>,
    ghost stands: { StandsIn reads_counts reads_positions before skips bytes.now } by { StandsIn-prop reads_counts reads_positions before skips bytes.now },
    ghost held: { IsHeld docs counts len (docs_at before skips bytes.now) (counts_at reads_counts before skips bytes.now) },
    ghost ascends: { Ascends 0 (docs_at before skips bytes.now) } by { Ascends-prop 0 (docs_at before skips bytes.now) },
    ghost few: { decoded + length (docs_at before skips bytes.now) ≤ 4294967296 },
    ghost adds_up: { IsSummed counts summed_len summed },
    ghost found: { IsAhead reads_counts reads_positions before skips ahead bytes.now } by { IsAhead-prop reads_counts reads_positions before skips ahead bytes.now },
}

impl<'a> BlockSegmentPostings<'a> {
    ghost use Rattle.segment_postings.specs.Cursors.{blocks_decoded, counts_are_read, counts_left, doc_freq_of, docs_left, first_bound, positions_are_read, positions_passed, skips_left, skips_reached};
    ghost use Rattle.codes.specs.SkipBlocks.{last_doc};

    /// Returns an exhausted cursor.
    pub fn empty() -> BlockSegmentPostings<'a>
        ensures docs { docs_left result ≡ [] }
        ensures counts { counts_left result ≡ [] }
        ensures decoded { blocks_decoded result ≡ 0 }
        ensures doc_freq { doc_freq_of result ≡ 0 }
        ensures entries { skips_left result ≡ [] }
        ensures reached { skips_reached result ≡ [] }
    {
        let recorded = Recorded {
            counts: false,
            positions: false,
        };
        BlockSegmentPostings::begin(SkipReader::new(&[], 0, recorded), &[], 0, false, false)
    }

    /// Returns a cursor at the first block of a term's postings, `bytes`, which are known to be in their layout. If
    /// counts aren't read each is 1; positions are read only beside counts.
    pub fn new(
        bytes: &'a [u8],
        doc_freq: u32,
        recorded: Recorded,
        reads_counts: bool,
        reads_positions: bool,
    ) -> BlockSegmentPostings<'a>
        requires known { ∥ ((docs counts : List ℕ)
            × HasPostings recorded.counts recorded.positions doc_freq bytes.now docs counts) ∥₁ }
        requires counts { reads_counts ≡ true → recorded.counts ≡ true }
        requires positions { reads_positions ≡ true → (recorded.positions ≡ true) × (reads_counts ≡ true) }
        ensures docs { (docs counts : List ℕ)
            → HasPostings recorded.counts recorded.positions doc_freq bytes.now docs counts → docs_left result ≡ docs }
        ensures counts { (docs counts : List ℕ)
            → HasPostings recorded.counts recorded.positions doc_freq bytes.now docs counts
            → counts_left result ≡ (if reads_counts then counts else replicate doc_freq 1) }
        ensures decoded { blocks_decoded result ≡ min 1 doc_freq }
        ensures doc_freq { doc_freq_of result ≡ doc_freq }
        ensures offset { positions_passed result ≡ 0 }
        ensures reads { (counts_are_read result ≡ reads_counts) × (positions_are_read result ≡ reads_positions) }
        ensures entries { (docs counts : List ℕ) (known : HasPostings recorded.counts recorded.positions doc_freq
            bytes.now docs counts) → skips_left result
            ≡ skip_entries known.option known.ids (length docs / block_len) 0 docs counts }
        ensures reached { skips_reached result ≡ skips_left result }
    {
        let (entries, blocks) = split_entries(bytes, doc_freq);
        let skips = SkipReader::new(entries, doc_freq, recorded);
        BlockSegmentPostings::begin(skips, blocks, doc_freq, reads_counts, reads_positions)
    }

    /// Returns a cursor at the block that `skips` is at, which is decoded; `bytes` are those of the blocks.
    pub(crate) fn begin(
        skips: SkipReader<'a>,
        bytes: &'a [u8],
        doc_freq: u32,
        reads_counts: bool,
        reads_positions: bool,
    ) -> BlockSegmentPostings<'a>
        requires { StandsIn reads_counts reads_positions 0 skips bytes.now }
        ensures docs { docs_left result ≡ docs_at 0 skips.entry bytes.now }
        ensures counts { counts_left result ≡ counts_at reads_counts 0 skips.entry bytes.now }
        ensures decoded { result.decoded ≡ min 1 (length (docs_at 0 skips.entry bytes.now)) }
        ensures doc_freq { result.doc_freq ≡ doc_freq }
        ensures reads { (result.reads_counts ≡ reads_counts) × (result.reads_positions ≡ reads_positions) }
        ensures offset { result.skips.position_offset ≡ skips.entry.position_offset }
        ensures entries { result.skips.left ≡ skips.entry.left }
        ensures reached { skips_reached result ≡ skips.entry.left }
    {
        let mut decoder = BlockDecoder::with_val(0);
        let mut docs = [0; COMPRESSION_BLOCK_SIZE];
        let mut counts = [0; COMPRESSION_BLOCK_SIZE];
        let len = decode_block(
            bytes,
            &skips,
            0,
            reads_counts,
            &mut decoder,
            &mut docs,
            &mut counts,
        );
        let mut decoded = 0;
        count_block(&mut decoded, len);
        BlockSegmentPostings {
            bytes,
            skips,
            before: 0,
            reads_counts,
            reads_positions,
            doc_freq,
            decoder,
            docs,
            counts,
            len,
            decoded,
            summed_len: 0,
            summed: 0,
            ahead: None,
        }
    }

    /// Returns the number of documents that have the term.
    #[inline]
    pub fn doc_freq(&self) -> u32
        ensures { result ≡ doc_freq_of self.now }
    {
        self.doc_freq
    }

    /// Returns the documents of the current block; none after the last block.
    #[inline]
    pub fn docs(&self) -> &[DocId]
        ensures { result.now ≡ take block_len (docs_left self.now) }
    {
        &self.docs[..self.len]
    }

    /// Returns the document at `index` of the current block; `TERMINATED` after its documents.
    #[inline]
    pub fn doc(&self, index: usize) -> DocId
        requires { index < block_len }
        ensures { result ≡ slice_index_or (docs_left self.now) index terminated }
    {
        self.docs[index]
    }

    /// Returns how often the term occurs in each document of the current block; 1 if counts aren't read.
    #[inline]
    pub fn freqs(&self) -> &[u32]
        ensures { result.now ≡ take block_len (counts_left self.now) }
    {
        &self.counts[..self.len]
    }

    /// Returns the count at `index` of the current block.
    #[inline]
    pub fn freq(&self, index: usize) -> u32
        requires block { index < block_len }
        requires within { index < length (docs_left self.now) }
        ensures { result ≡ slice_index (counts_left self.now) index }
    {
        self.counts[index]
    }

    /// Returns the number of documents of the current block.
    #[inline]
    pub fn block_len(&self) -> usize
        ensures { result ≡ min block_len (length (docs_left self.now)) }
    {
        self.docs().len()
    }

    /// Returns the number of positions before those of the document at `index`, in all blocks. Adds up from the
    /// index of the call before, unless that is after `index`: documents are asked for in order.
    pub(crate) fn positions_before(&mut self, index: usize) -> u64
        requires { index ≤ min block_len (length (docs_left self.old)) }
        ensures value { result ≡ self.old.skips.position_offset + sum (take index (counts_left self.old)) }
        ensures docs { docs_left self.new ≡ docs_left self.old }
        ensures counts { counts_left self.new ≡ counts_left self.old }
        ensures entries { skips_left self.new ≡ skips_left self.old }
        ensures reached { skips_reached self.new ≡ skips_reached self.old }
        ensures decoded { blocks_decoded self.new ≡ blocks_decoded self.old }
        ensures offset { positions_passed self.new ≡ positions_passed self.old }
        ensures kept { (doc_freq_of self.new ≡ doc_freq_of self.old)
            × (counts_are_read self.new ≡ counts_are_read self.old)
            × (positions_are_read self.new ≡ positions_are_read self.old) }
    {
        if index < self.summed_len {
            self.summed_len = 0;
            self.summed = 0;
        }
        self.summed += sum_of(&self.counts[self.summed_len..index]);
        self.summed_len = index;
        self.skips.position_offset() + self.summed
    }

    /// Returns an upper bound of the counts from the current block on, if there are `num_positions` positions in all.
    pub(crate) fn greatest_count(&self, num_positions: u128) -> u32
        ensures above { (counts : List ℕ) → TellCounts num_positions self.now.skips counts
            → (i : ℕ) → slice_index counts i ≤ result }
        ensures few { (counts : List ℕ) → TellCounts num_positions self.now.skips counts → result ≤ num_positions }
    {
        greatest_count(self.skips.copied(), num_positions)
    }

    /// Returns the number of blocks with documents that were decoded, including the first.
    #[inline]
    pub fn decoded_blocks(&self) -> u64
        ensures { result ≡ blocks_decoded self.now }
    {
        self.decoded
    }

    /// Returns the first block, from the current one on, that may contain `target`.
    fn found_block(&self, target: DocId) -> Ahead<'a>
        requires { target ≤ terminated }
        ensures passed { HasPassed self.now.reads_counts self.now.reads_positions target self.now.before
            self.now.skips result.before result.skips self.now.bytes.now }
        ensures target { result.target ≡ target }
        ensures late { target ≤ last_doc result.skips.left }
    {
        let mut skips = self.skips.copied();
        let before = find_block(&mut skips, self.before, &self.ahead, target);
        Ahead {
            skips,
            before,
            target,
        }
    }

    /// Reaches the first block, from the current one on, that may contain `target`, without decoding it: the current
    /// block and what remains stay. A lesser target than that of the call before goes back.
    pub fn seek_block(&mut self, target: DocId)
        requires { target ≤ terminated }
        ensures reached { skips_reached self.new
            ≡ drop (below target (docs_left self.old) / block_len) (skips_left self.old) }
        ensures ahead { target ≤ last_doc (skips_reached self.new) }
        ensures block { (index : ℕ) → index < length (docs_left self.old)
            → target ≤ slice_index (docs_left self.old) index
            → slice_index (docs_left self.old) index ≤ last_doc (skips_reached self.new)
            → index / block_len ≡ below target (docs_left self.old) / block_len }
        ensures ends { 0 < length (skips_reached self.new)
            → below (last_doc (skips_reached self.new) + 1) (docs_left self.old)
            ≡ block_len * (below target (docs_left self.old) / block_len + 1) }
        ensures docs { docs_left self.new ≡ docs_left self.old }
        ensures counts { counts_left self.new ≡ counts_left self.old }
        ensures entries { skips_left self.new ≡ skips_left self.old }
        ensures decoded { blocks_decoded self.new ≡ blocks_decoded self.old }
        ensures offset { positions_passed self.new ≡ positions_passed self.old }
        ensures kept { (doc_freq_of self.new ≡ doc_freq_of self.old)
            × (counts_are_read self.new ≡ counts_are_read self.old)
            × (positions_are_read self.new ≡ positions_are_read self.old) }
    {
        let found = self.found_block(target);
        self.ahead = Some(found);
    }

    /// Returns the skip entries from the block reached on.
    #[inline]
    fn reached(&self) -> &SkipReader<'a>
        ensures { result.now.left ≡ skips_reached self.now }
    {
        match &self.ahead {
            Some(ahead) => &ahead.skips,
            None => &self.skips,
        }
    }

    /// Returns the bound of the block that `seek_block` or a move reached, whichever came last: its least length id and
    /// its greatest count. None if the entry stores no bound, and in the rest.
    pub fn block_bound(&self) -> Option<(u8, u8)>
        ensures { result ≡ first_bound (skips_reached self.now) }
    {
        match self.reached().block_info() {
            BlockInfo::BitPacked {
                block_wand_fieldnorm_id,
                block_wand_term_freq,
                ..
            } => stored_bound(block_wand_fieldnorm_id, block_wand_term_freq),
            BlockInfo::VInt { .. } => None,
        }
    }

    /// Returns the last document of the block that `seek_block` or a move reached, whichever came last; `TERMINATED` in
    /// the rest.
    #[inline]
    pub fn last_doc_in_block(&self) -> DocId
        ensures { result ≡ last_doc (skips_reached self.now) }
    {
        self.reached().last_doc_in_block()
    }

    /// Moves to the block after the current one, whichever block `seek_block` reached.
    pub fn advance(&mut self)
        ensures docs { docs_left self.new ≡ drop block_len (docs_left self.old) }
        ensures counts { counts_left self.new ≡ drop block_len (counts_left self.old) }
        ensures entries { skips_left self.new ≡ drop 1 (skips_left self.old) }
        ensures reached { skips_reached self.new ≡ skips_left self.new }
        ensures decoded { blocks_decoded self.new ≡ blocks_decoded self.old + min 1 (length (docs_left self.new)) }
        ensures room { positions_are_read self.old ≡ true
            → positions_passed self.new + sum (counts_left self.new)
            ≤ positions_passed self.old + sum (counts_left self.old) }
        ensures offset { positions_are_read self.old ≡ true → 0 < length (docs_left self.new)
            → positions_passed self.new ≡ positions_passed self.old + sum (take block_len (counts_left self.old)) }
        ensures kept { (doc_freq_of self.new ≡ doc_freq_of self.old)
            × (counts_are_read self.new ≡ counts_are_read self.old)
            × (positions_are_read self.new ≡ positions_are_read self.old) }
    {
        self.before = self.skips.last_doc_in_block();
        self.skips.advance();
        self.ahead = None;
        self.len = decode_block(
            self.bytes,
            &self.skips,
            self.before,
            self.reads_counts,
            &mut self.decoder,
            &mut self.docs,
            &mut self.counts,
        );
        count_block(&mut self.decoded, self.len);
        self.summed_len = 0;
        self.summed = 0;
    }

    /// Moves to the first block that may contain `target` (maybe the current one); returns the index in it of the first
    /// document >= `target`.
    pub fn seek(&mut self, target: DocId) -> usize
        requires { target ≤ terminated }
        ensures docs { docs_left self.new
            ≡ drop (block_len * (below target (docs_left self.old) / block_len)) (docs_left self.old) }
        ensures counts { counts_left self.new
            ≡ drop (block_len * (below target (docs_left self.old) / block_len)) (counts_left self.old) }
        ensures entries { skips_left self.new
            ≡ drop (below target (docs_left self.old) / block_len) (skips_left self.old) }
        ensures reached { skips_reached self.new ≡ skips_left self.new }
        ensures index { result ≡ below target (docs_left self.old) % block_len }
        ensures decoded { blocks_decoded self.new
            ≡ blocks_decoded self.old + (if nat_lt (below target (docs_left self.old)) block_len then 0 else min 1
            (length (docs_left self.new))) }
        ensures room { positions_are_read self.old ≡ true
            → positions_passed self.new + sum (counts_left self.new)
            ≤ positions_passed self.old + sum (counts_left self.old) }
        ensures offset { positions_are_read self.old ≡ true
            → positions_passed self.new
            ≡ positions_passed self.old + sum (take (block_len * (below target (docs_left self.old) / block_len))
            (counts_left self.old)) }
        ensures kept { (doc_freq_of self.new ≡ doc_freq_of self.old)
            × (counts_are_read self.new ≡ counts_are_read self.old)
            × (positions_are_read self.new ≡ positions_are_read self.old) }
    {
        if target <= self.skips.last_doc_in_block() {
            self.ahead = None;
            return first_from(&self.docs, target);
        }
        self.before = find_block(&mut self.skips, self.before, &self.ahead, target);
        self.ahead = None;
        self.len = decode_block(
            self.bytes,
            &self.skips,
            self.before,
            self.reads_counts,
            &mut self.decoder,
            &mut self.docs,
            &mut self.counts,
        );
        count_block(&mut self.decoded, self.len);
        self.summed_len = 0;
        self.summed = 0;
        first_from(&self.docs, target)
    }
}

/// Returns the bound that an entry stores; a count of 255 stands for none.
fn stored_bound(least_id: u8, greatest_count: u8) -> Option<(u8, u8)>
    ensures { result ≡ (if nat_lt 254 greatest_count then None else Some (least_id, greatest_count)) }
{
    if greatest_count > 254 {
        return None;
    }
    Some((least_id, greatest_count))
}

/// Counts one more decoded block of `len` documents, unless `len` is 0.
fn count_block(decoded: &mut u64, len: usize)
    requires { decoded.old ≤ 4294967296 }
    ensures { decoded.new ≡ decoded.old + min 1 len }
{
    *decoded += len.min(1) as u64;
}

/// Moves `skips` to the first block that may contain `target`, from the block `ahead` on if that was sought for no
/// greater target; returns the last document before the block reached, or `before`.
fn find_block<'a>(
    skips: &mut SkipReader<'a>,
    before: u32,
    ahead: &Option<Ahead<'a>>,
    target: DocId,
) -> u32
    requires { target ≤ terminated }
    ensures passed { (reads sums : Bool) (bytes : List ℕ) → StandsIn reads sums before skips.old bytes
        → IsAhead reads sums before skips.old ahead.now bytes
        → HasPassed reads sums target before skips.old result skips.new bytes }
    ensures late { target ≤ last_doc skips.new.left }
{
    match ahead {
        Some(ahead) if ahead.target <= target => {
            *skips = ahead.skips.copied();
            pass_blocks(skips, ahead.before, target)
        }
        _ => pass_blocks(skips, before, target),
    }
}

/// Passes blocks that end before `target`; returns the last document before the block reached, or `before`.
fn pass_blocks(skips: &mut SkipReader, before: u32, target: DocId) -> u32
    requires { target ≤ terminated }
    ensures passed { (reads sums : Bool) (bytes : List ℕ) → StandsIn reads sums before skips.old bytes
        → HasPassed reads sums target before skips.old result skips.new bytes }
    ensures late { target ≤ last_doc skips.new.left }
{
    let mut before = before;
    let mut last = skips.last_doc_in_block();
    while last < target {
        before = last;
        skips.advance();
        last = skips.last_doc_in_block();
    }
    before
}

/// Returns the index of the first document of a block that is >= `target`.
fn first_from(docs: &[u32; COMPRESSION_BLOCK_SIZE], target: DocId) -> usize
    requires within { below target docs.now < block_len }
    requires order { (index : ℕ) → index < block_len → slice_index docs.now index < target
        → index < below target docs.now }
    ensures { result ≡ below target docs.now }
{
    let mut index = 0;
    let mut len = COMPRESSION_BLOCK_SIZE;
    while len > 1 {
        let half = len / 2;
        if docs[index + half - 1] < target {
            index += half;
        }
        len -= half;
    }
    index
}

/// Splits the postings of `doc_freq` documents into skip entries, known to be there, and the blocks after them.
fn split_entries(bytes: &[u8], doc_freq: u32) -> (&[u8], &[u8])
    requires { block_len ≤ doc_freq → IsSome (take_bytes bytes.now) }
    ensures few { doc_freq < block_len → (result.0.now ≡ []) × (result.1.now ≡ bytes.now) }
    ensures many { block_len ≤ doc_freq → take_bytes bytes.now ≡ Some (result.0.now, result.1.now) }
{
    if doc_freq < COMPRESSION_BLOCK_SIZE as u32 {
        return (&bytes[..0], bytes);
    }
    match take_bytes(bytes) {
        Ok(parts) => parts,
        Err(_) => unreachable!(),
    }
}

/// Returns the sum of a block's counts.
fn sum_of(counts: &[u32]) -> u64
    requires { length counts.now ≤ block_len }
    ensures value { result ≡ sum counts.now }
    ensures few { result ≤ 4294967295 * length counts.now }
{
    let mut total = 0;
    for count in counts {
        total += *count as u64;
    }
    total
}
