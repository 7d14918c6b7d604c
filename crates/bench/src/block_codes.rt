//! How many integers a second come out of packed blocks, and go into them: a table in millions.

ghost use Rattle.std.specs.Prelude.{◌<◌, ◌≤◌};

use crate::times::{nanos_since, now};
use codes::{BlockDecoder, BlockEncoder, compressed_block_size, numbers_by_bits};
use definitions::Fault;
use std::time::Clock;

/// How many bytes stand in memory, as blocks one after another.
const LEN: usize = 16384;

/// How many integers a run goes over, at least.
const INTEGERS: u64 = 1 << 24;

/// How many runs the best is taken of.
const RUNS: u32 = 9;

/// What is measured.
#[derive(Clone, Copy)]
enum Work {
    Unsorted,
    Sorted,
    ByBits,
    Packing,
}

/// Bytes to read, and room for what is read and written.
#[derive(Drop)]
struct Bench {
    bytes: [u8; 16384],
    numbers: [u32; 128],
    decoder: BlockDecoder,
    encoder: BlockEncoder,
}

/// Prints a row for each width.
pub(crate) fn measure(rt: &HostRuntime) -> Result<(), Fault> {
    let mut bench = Bench {
        bytes: noise(),
        numbers: [0; 128],
        decoder: BlockDecoder::with_val(0),
        encoder: BlockEncoder::new(),
    };
    let _ = println!(rt; "| width | unsorted | sorted | bit at a time | packing |");
    let _ = println!(rt; "|---|---|---|---|---|");
    for num_bits in [1, 4, 7, 13, 20, 32] {
        let unsorted = best(rt, &mut bench, Work::Unsorted, num_bits)?;
        let sorted = best(rt, &mut bench, Work::Sorted, num_bits)?;
        let by_bits = best(rt, &mut bench, Work::ByBits, num_bits)?;
        let packing = best(rt, &mut bench, Work::Packing, num_bits)?;
        let _ = println!(rt; "| {num_bits} | {unsorted} | {sorted} | {by_bits} | {packing} |");
    }
    let seen = bench.decoder.output(127) ^ bench.numbers[127];
    let _ = println!(rt; "({seen})");
    Ok(())
}

/// Bytes without order.
fn noise() -> [u8; 16384] {
    let mut bytes = [0; LEN];
    let mut state = 7u32;
    for byte in bytes.iter_mut() {
        state = state.wrapping_mul(1664525).wrapping_add(1013904223);
        *byte = (state >> 24) as u8;
    }
    bytes
}

/// Millions of integers a second in the best run.
fn best(clock: &impl Clock, bench: &mut Bench, work: Work, num_bits: u8) -> Result<u128, Fault>
    requires least { 0 < num_bits }
    requires greatest { num_bits ≤ 32 }
{
    let mut best = 0u128;
    for _ in 0..RUNS {
        let begun = now(clock)?;
        let integers = run(bench, work, num_bits);
        let nanos = nanos_since(clock, begun)?;
        if nanos > 0 {
            best = best.max(integers as u128 * 1000 / nanos);
        }
    }
    Ok(best)
}

/// Does the work over all the bytes until enough integers went by, and answers how many.
fn run(bench: &mut Bench, work: Work, num_bits: u8) -> u64
    requires least { 0 < num_bits }
    requires greatest { num_bits ≤ 32 }
{
    let mut integers = 0u64;
    for _ in 0..INTEGERS {
        if integers >= INTEGERS {
            break;
        }
        let blocks = match work {
            Work::Unsorted => unsorted(&mut bench.decoder, &bench.bytes, num_bits),
            Work::Sorted => sorted(&mut bench.decoder, &bench.bytes, num_bits),
            Work::ByBits => by_bits(&mut bench.numbers, &bench.bytes, num_bits),
            Work::Packing => packing(&mut bench.encoder, &bench.numbers),
        };
        integers = integers.saturating_add(blocks.saturating_mul(128));
    }
    integers
}

fn unsorted(decoder: &mut BlockDecoder, bytes: &[u8], num_bits: u8) -> u64
    requires least { 0 < num_bits }
    requires greatest { num_bits ≤ 32 }
{
    let len = compressed_block_size(num_bits);
    let mut rest = bytes;
    let mut blocks = 0u64;
    while rest.len() >= len {
        decoder.uncompress_block_unsorted(rest, num_bits);
        rest = &rest[len..];
        blocks = blocks.saturating_add(1);
    }
    blocks
}

fn sorted(decoder: &mut BlockDecoder, bytes: &[u8], num_bits: u8) -> u64
    requires least { 0 < num_bits }
    requires greatest { num_bits ≤ 32 }
{
    let len = compressed_block_size(num_bits);
    let mut rest = bytes;
    let mut blocks = 0u64;
    while rest.len() >= len {
        decoder.uncompress_block_sorted(rest, 7, num_bits);
        rest = &rest[len..];
        blocks = blocks.saturating_add(1);
    }
    blocks
}

fn by_bits(numbers: &mut [u32; 128], bytes: &[u8], num_bits: u8) -> u64
    requires least { 0 < num_bits }
    requires greatest { num_bits ≤ 32 }
{
    let len = compressed_block_size(num_bits);
    let mut rest = bytes;
    let mut blocks = 0u64;
    while rest.len() >= len {
        numbers_by_bits(rest, num_bits, numbers);
        rest = &rest[len..];
        blocks = blocks.saturating_add(1);
    }
    blocks
}

/// Packs the numbers that were read last.
fn packing(encoder: &mut BlockEncoder, numbers: &[u32; 128]) -> u64 {
    for _ in 0..64 {
        encoder.compress_block_unsorted(numbers);
    }
    64
}
