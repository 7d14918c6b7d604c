//! The postings of terms, encoded.

ghost use Rattle.std.specs.Prelude.{[], ◌++◌, ◌+◌, ◌/◌, ◌<◌, ◌≡◌, ◌≤◌, ◌^◌, ◌∷◌, IfErr, IfSome, IsTrue, List, OnOk, false, if◌then◌else◌, length, nat_le, ℕ};
ghost use Rattle.codes.specs.UnpackedBlocks.{listed};
ghost use Rattle.definitions.specs.Blocks.{block_len};
ghost use Rattle.definitions.specs.Postings.{terminated};
ghost use Rattle.definitions.specs.Schema.{basic, has_freq, has_positions};
ghost use Rattle.layouts.specs.TermPostings.{ArePosted, SumsFit, id_of, postings_bytes};
ghost use Rattle.options.specs.RecordOption.{record_option_of};
ghost use Rattle.postings_writer.specs.TermWriting.{AreWritten, IsRefusal, IsSumRefusal, begun, passes_sum, recorded_count};

use crate::block_writer::BlockWriter;
use crate::unfilled_block::Block;
use codes::{COMPRESSION_BLOCK_SIZE, FieldNormReader};
use definitions::Fault;
use options::IndexRecordOption;
use std::alloc::Global;
use std::marker::Model;

/// A writer of the postings of a field's terms, one term after another. Full blocks are pending as bytes, and up to
/// 127 documents as numbers, until the term is closed.
///
/// After a refused call what is written of the term is of no use; another term may begin.
#[derive(Drop)]
pub struct PostingsSerializer<'a> {
    mode: IndexRecordOption,
    option: IndexRecordOption,
    fieldnorm_reader: Option<FieldNormReader<'a>>,
    block: Block,
    blocks: BlockWriter,
    // The last document of the full blocks, or 0.
    last_doc: u32,
    // The least document that may come next.
    next_doc: u32,
}

impl<'a> Model for PostingsSerializer<'a> {
    ghost use Rattle.options.specs.RecordOption.{record_option_of};
    ghost use Rattle.postings_writer.specs.TermWriting.{IsWriting, Writing};

    ghost Value = { Writing };

    ghost view = { λ s. record { mode = record_option_of s.mode; option = record_option_of s.option; norms = s.fieldnorm_reader; offset = s.last_doc; next = s.next_doc; waiting = s.block; written = s.blocks } };

    ghost invariant = { λ s. IsWriting s.fieldnorm_reader s.last_doc s.next_doc s.block };
}

impl<'a> PostingsSerializer<'a> {
    /// Returns a serializer for terms of a field that records `mode`; `fieldnorm_reader` has its lengths, if it keeps
    /// any.
    pub fn new(
        alloc: Global,
        mode: IndexRecordOption,
        fieldnorm_reader: Option<FieldNormReader<'a>>,
    ) -> PostingsSerializer<'a>
        ensures begun { result ≡ begun (record_option_of mode) (record_option_of mode) fieldnorm_reader.entry }
        ensures nothing { AreWritten result [] [] }
    {
        PostingsSerializer {
            mode,
            option: mode,
            fieldnorm_reader,
            block: Block::new(),
            blocks: BlockWriter::new(alloc),
            last_doc: 0,
            next_doc: 0,
        }
    }

    /// Begins a term; only its documents are recorded unless `record_term_freq`.
    pub fn new_term(&mut self, record_term_freq: bool)
        ensures begun { self.new
            ≡ begun self.old.mode (if record_term_freq then self.old.mode else basic) self.old.norms }
        ensures nothing { AreWritten self.new [] [] }
    {
        self.option = if record_term_freq {
            self.mode
        } else {
            IndexRecordOption::Basic
        };
        self.clear();
    }

    /// Removes all documents.
    fn clear(&mut self)
        ensures { self.new ≡ begun self.old.mode self.old.option self.old.norms }
    {
        self.block.clear();
        self.blocks.clear();
        self.last_doc = 0;
        self.next_doc = 0;
    }

    /// Returns the length id of `doc`, 1 if the field keeps no lengths.
    fn fieldnorm_id(&self, doc: u32) -> u8
        requires { IfSome self.now.norms (λ ids. doc < length ids) }
        ensures { result ≡ id_of (listed self.now.norms) doc }
    {
        match &self.fieldnorm_reader {
            Some(reader) => reader.fieldnorm_id(doc),
            None => 1,
        }
    }

    /// Whether the term records positions.
    pub(crate) fn has_positions(&self) -> bool
        ensures { result ≡ has_positions self.now.option }
    {
        self.option.has_positions()
    }

    /// Returns the count that is recorded for `term_freq`.
    fn recorded_count(&self, term_freq: u32) -> u32
        requires { IsTrue (has_freq self.now.option) → 0 < term_freq }
        ensures count { result ≡ recorded_count self.now.option term_freq }
        ensures some { 0 < result }
    {
        if self.option.has_freq() { term_freq } else { 1 }
    }

    /// Adds `doc` to the term, and `term_freq`, how often the term occurs in it, which is ignored if no counts are
    /// recorded. `Limit` for a block of 128 documents if the sum of its counts is past 32 bits.
    pub fn write_doc(&mut self, doc: u32, term_freq: u32) -> Result<(), Fault>
        requires next { self.old.next ≤ doc }
        requires fits { doc < terminated }
        requires kept { IfSome self.old.norms (λ ids. doc < length ids) }
        requires some { IsTrue (has_freq self.old.option) → 0 < term_freq }
        ensures written { (docs counts : List ℕ) → AreWritten self.old docs counts
            → OnOk result (AreWritten self.new (docs ++ doc ∷ []) (counts ++ recorded_count self.old.option term_freq
            ∷ [])) }
        ensures within { OnOk result (passes_sum (self.old.waiting.counts ++ recorded_count self.old.option term_freq
            ∷ []) ≡ false) }
        ensures err { IfErr result (λ fault. IsRefusal fault
            (passes_sum (self.old.waiting.counts ++ recorded_count self.old.option term_freq ∷ []))) }
        ensures sums { (docs counts : List ℕ) → AreWritten self.old docs counts
            → IfErr result (λ fault. IsSumRefusal fault (counts ++ recorded_count self.old.option term_freq ∷ [])) }
        ensures same { (self.new.mode ≡ self.old.mode) × (self.new.option ≡ self.old.option)
            × (self.new.norms ≡ self.old.norms) × (self.new.next ≡ doc + 1) }
    {
        let count = self.recorded_count(term_freq);
        let fieldnorm_id = self.fieldnorm_id(doc);
        self.block.append_doc(doc, count, fieldnorm_id);
        self.next_doc = doc + 1;
        if !self.block.is_full() {
            return Ok(());
        }
        let written = self
            .blocks
            .write_block(self.option, self.last_doc, &self.block);
        self.block.clear();
        self.last_doc = doc;
        written
    }

    /// Appends the postings of the term, of `doc_freq` documents, to `output`; `Limit` if they take 2^32 bytes or more.
    pub fn close_term(&mut self, doc_freq: u32, output: &mut Vec<u8>) -> Result<(), Fault>
        ensures ok { (docs counts : List ℕ) → AreWritten self.old docs counts → length docs ≡ doc_freq
            → OnOk result (output.new.items
            ≡ output.old.items ++ postings_bytes self.old.option (listed self.old.norms) docs counts) }
        ensures within { (docs counts : List ℕ) → AreWritten self.old docs counts → length docs ≡ doc_freq
            → OnOk result (length (postings_bytes self.old.option (listed self.old.norms) docs counts) < 2 ^ 32) }
        ensures err { (docs counts : List ℕ) → AreWritten self.old docs counts → length docs ≡ doc_freq
            → IfErr result (λ fault. IsRefusal fault (nat_le (2 ^ 32)
            (length (postings_bytes self.old.option (listed self.old.norms) docs counts)))) }
        ensures posted { (docs counts : List ℕ) → AreWritten self.old docs counts
            → ArePosted self.old.option docs counts }
        ensures sums { (docs counts : List ℕ) → AreWritten self.old docs counts
            → SumsFit (length docs / block_len) counts }
        ensures begun { OnOk result (self.new ≡ begun self.old.mode self.old.option self.old.norms) }
        ensures kept { OnOk result (length output.old.items ≤ length output.new.items) }
        ensures same { (self.new.mode ≡ self.old.mode) × (self.new.option ≡ self.old.option)
            × (self.new.norms ≡ self.old.norms) }
    {
        self.blocks
            .write_rest(self.option, self.last_doc, &self.block)?;
        self.blocks
            .append_to(doc_freq as usize >= COMPRESSION_BLOCK_SIZE, output)?;
        self.clear();
        Ok(())
    }
}
