//! The decoding of blocks of documents and counts.

ghost use Rattle.std.specs.Prelude.{[], ◌*◌, ◌++◌, ◌+◌, ◌-◌, ◌<◌, ◌^◌, ◌≡◌, ◌≤◌, Bool, IsSome, Some, drop, length, map, min, replicate, true, slice_index, take, ℕ};
ghost use Rattle.definitions.specs.Blocks.{block_len};
ghost use Rattle.definitions.specs.Postings.{terminated};
ghost use Rattle.codes.specs.DecodedBlocks.{output_list};
ghost use Rattle.layouts.specs.VintBlocks.{take_documents, take_numbers};
ghost use Rattle.segment_postings.specs.Blocks.{more_1};
ghost use Rattle.segment_postings.specs.Reading.{IsHeld, StandsIn, block_counts, block_docs, counts_at, docs_at, found, rest_counts, rest_docs};

use codes::{BlockDecoder, BlockInfo, COMPRESSION_BLOCK_SIZE, SkipReader, VIntDecoder};
use common::TERMINATED;

/// Decodes the block that `skips` is at, and returns the number of its documents.
pub(crate) fn decode_block(
    bytes: &[u8],
    skips: &SkipReader,
    before: u32,
    reads_counts: bool,
    decoder: &mut BlockDecoder,
    docs: &mut [u32; COMPRESSION_BLOCK_SIZE],
    counts: &mut [u32; COMPRESSION_BLOCK_SIZE],
) -> usize
    requires { (sums : Bool) × StandsIn reads_counts sums before skips.now bytes.now }
    ensures { IsHeld docs.new counts.new result (docs_at before skips.now bytes.now)
        (counts_at reads_counts before skips.now bytes.now) }
{
    let block = &bytes[skips.byte_offset()..];
    match skips.block_info() {
        BlockInfo::BitPacked {
            doc_num_bits,
            tf_num_bits,
            ..
        } => {
            let consumed = decode_docs(block, before, doc_num_bits, decoder, docs);
            decode_counts(
                &block[consumed..],
                tf_num_bits,
                reads_counts,
                decoder,
                counts,
            );
            COMPRESSION_BLOCK_SIZE
        }
        BlockInfo::VInt { num_docs } => {
            let num_docs = num_docs as usize;
            let consumed = decode_rest_docs(block, before, num_docs, decoder, docs);
            decode_rest_counts(&block[consumed..], num_docs, reads_counts, decoder, counts);
            num_docs
        }
    }
}

/// Decodes the documents of a full block, and returns how many bytes they take.
fn decode_docs(
    bytes: &[u8],
    before: u32,
    width: u8,
    decoder: &mut BlockDecoder,
    docs: &mut [u32; COMPRESSION_BLOCK_SIZE],
) -> usize
    requires width { width ≤ 32 }
    requires room { 16 * width ≤ length bytes.now }
    requires small { (i : ℕ) → slice_index (block_docs before width bytes.now) i < 2 ^ 32 }
    ensures docs { docs.new ≡ block_docs before width bytes.now }
    ensures consumed { result ≡ 16 * width }
{
    let consumed = decoder.uncompress_block_sorted(bytes, before, width);
    docs.copy_from_slice(decoder.output_array());
    consumed
}

/// Decodes the counts of a full block; each is 1 if counts aren't read.
fn decode_counts(
    bytes: &[u8],
    width: u8,
    reads_counts: bool,
    decoder: &mut BlockDecoder,
    counts: &mut [u32; COMPRESSION_BLOCK_SIZE],
)
    requires width { width ≤ 32 }
    requires room { 16 * width ≤ length bytes.now }
    requires fit { (i : ℕ) → slice_index (block_counts reads_counts width bytes.now) i < 2 ^ 32 }
    ensures { counts.new ≡ block_counts reads_counts width bytes.now }
{
    if !reads_counts {
        fill(counts, 1);
        return;
    }
    decoder.uncompress_block_unsorted(bytes, width);
    add_1(decoder.output_array(), counts);
}

/// Decodes the documents of the rest, with `TERMINATED` after them, and returns how many bytes they take.
fn decode_rest_docs(
    bytes: &[u8],
    before: u32,
    num_docs: usize,
    decoder: &mut BlockDecoder,
    docs: &mut [u32; COMPRESSION_BLOCK_SIZE],
) -> usize
    requires few { num_docs ≤ block_len }
    requires some { IsSome (take_documents before num_docs bytes.now) }
    ensures docs { docs.new ≡ rest_docs before num_docs bytes.now ++ replicate (block_len - num_docs) terminated }
    ensures count { length (rest_docs before num_docs bytes.now) ≡ num_docs }
    ensures behind { (found (take_documents before num_docs bytes.now)).1 ≡ drop result bytes.now }
    ensures within { result ≤ length bytes.now }
{
    let consumed = decoder.uncompress_vint_sorted(bytes, before, num_docs, TERMINATED);
    fill(docs, TERMINATED);
    docs[..num_docs].copy_from_slice(decoder.output_array());
    consumed
}

/// Decodes the counts of the rest; each is 1 if counts aren't read.
fn decode_rest_counts(
    bytes: &[u8],
    num_docs: usize,
    reads_counts: bool,
    decoder: &mut BlockDecoder,
    counts: &mut [u32; COMPRESSION_BLOCK_SIZE],
)
    requires few { num_docs ≤ block_len }
    requires some { reads_counts ≡ true → IsSome (take_numbers num_docs bytes.now) }
    requires fit { (i : ℕ) → slice_index (rest_counts reads_counts num_docs bytes.now) i < 2 ^ 32 }
    ensures { take num_docs counts.new ≡ rest_counts reads_counts num_docs bytes.now }
{
    if !reads_counts {
        fill(counts, 1);
        return;
    }
    decoder.uncompress_vint_unsorted(bytes, num_docs, 0);
    add_1(decoder.output_array(), counts);
}

/// Sets each of `numbers` to `number`.
fn fill(numbers: &mut [u32; COMPRESSION_BLOCK_SIZE], number: u32)
    ensures { numbers.new ≡ replicate block_len number }
{
    numbers.fill(number);
}

/// Writes `numbers`, each plus 1, to the start of `counts`.
fn add_1(numbers: &[u32], counts: &mut [u32; COMPRESSION_BLOCK_SIZE])
    requires few { length numbers.now ≤ block_len }
    requires fit { (i : ℕ) → slice_index (more_1 numbers.now) i < 2 ^ 32 }
    ensures { take (length numbers.now) counts.new ≡ more_1 numbers.now }
{
    for (index, number) in numbers.iter().enumerate() {
        counts[index] = *number + 1;
    }
}
