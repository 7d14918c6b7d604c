//! The documents of a term that no full block holds yet.

ghost use Rattle.std.specs.Prelude.{nat_eq, ◌<◌, ◌≡◌, length, sum};
ghost use Rattle.definitions.specs.Blocks.{block_len};
ghost use Rattle.definitions.specs.Scoring.{greatest_of};
ghost use Rattle.layouts.specs.TermPostings.{less_1};
ghost use Rattle.postings_writer.specs.TermWriting.{joined, nothing_waits};

use codes::COMPRESSION_BLOCK_SIZE;
use std::marker::Model;

/// At most 128 documents with their counts, and what their bound is computed from.
#[derive(Drop)]
pub(crate) struct Block {
    docs: [u32; COMPRESSION_BLOCK_SIZE],
    // Each count less 1, as it is stored.
    counts_less_1: [u32; COMPRESSION_BLOCK_SIZE],
    len: usize,
    least_id: u8,
    greatest_count: u32,
    count_sum: u64,
}

impl Model for Block {
    ghost use Rattle.std.specs.Prelude.{◌*◌, ◌+◌, ◌≡◌, ◌≤◌, map, sum, take};
    ghost use Rattle.definitions.specs.Blocks.{block_len};
    ghost use Rattle.definitions.specs.Scoring.{greatest_of};
    ghost use Rattle.postings_writer.specs.TermWriting.{Waiting};

    ghost Value = { Waiting };

    ghost view = { λ b. record { docs = take b.len b.docs; counts = map (λ n. n + 1) (take b.len b.counts_less_1); least_id = b.least_id } };

    ghost invariant = { λ b. (b.len ≤ block_len) × (b.greatest_count ≡ greatest_of (map (λ n. n + 1) (take b.len b.counts_less_1))) × (b.count_sum ≡ sum (map (λ n. n + 1) (take b.len b.counts_less_1))) × (b.count_sum ≤ 4294967295 * b.len) };
}

impl Block {
    /// Returns an empty block.
    pub(crate) fn new() -> Block
        ensures { result ≡ nothing_waits }
    {
        Block {
            docs: [0; COMPRESSION_BLOCK_SIZE],
            counts_less_1: [0; COMPRESSION_BLOCK_SIZE],
            len: 0,
            least_id: 0,
            greatest_count: 0,
            count_sum: 0,
        }
    }

    /// Appends `doc` with its count and its length id.
    pub(crate) fn append_doc(&mut self, doc: u32, term_freq: u32, fieldnorm_id: u8)
        requires room { length self.old.docs < block_len }
        requires some { 0 < term_freq }
        ensures { self.new ≡ joined self.old doc term_freq fieldnorm_id }
    {
        self.docs[self.len] = doc;
        self.counts_less_1[self.len] = term_freq - 1;
        self.least_id = if self.len == 0 {
            fieldnorm_id
        } else {
            self.least_id.min(fieldnorm_id)
        };
        self.greatest_count = self.greatest_count.max(term_freq);
        self.count_sum += term_freq as u64;
        self.len += 1;
    }

    /// Whether it has 128 documents.
    pub(crate) fn is_full(&self) -> bool
        ensures { result ≡ nat_eq (length self.now.docs) block_len }
    {
        self.len == COMPRESSION_BLOCK_SIZE
    }

    /// Returns the documents.
    pub(crate) fn docs(&self) -> &[u32]
        ensures { result.now ≡ self.now.docs }
    {
        &self.docs[..self.len]
    }

    /// Returns the counts, each less 1.
    pub(crate) fn counts_less_1(&self) -> &[u32]
        ensures { result.now ≡ less_1 self.now.counts }
    {
        &self.counts_less_1[..self.len]
    }

    /// Returns the least length id of the documents.
    pub(crate) fn least_id(&self) -> u8
        ensures { result ≡ self.now.least_id }
    {
        self.least_id
    }

    /// Returns the greatest count.
    pub(crate) fn greatest_count(&self) -> u32
        ensures { result ≡ greatest_of self.now.counts }
    {
        self.greatest_count
    }

    /// Returns the sum of the counts.
    pub(crate) fn count_sum(&self) -> u64
        ensures { result ≡ sum self.now.counts }
    {
        self.count_sum
    }

    /// Removes all documents.
    pub(crate) fn clear(&mut self)
        ensures { self.new ≡ nothing_waits }
    {
        self.len = 0;
        self.least_id = 0;
        self.greatest_count = 0;
        self.count_sum = 0;
    }
}
