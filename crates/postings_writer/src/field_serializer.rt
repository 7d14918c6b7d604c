//! The terms of a field, written with their postings and positions.

ghost use Rattle.std.specs.Prelude.{[], ◌+◌, ◌++◌, ◌<◌, ◌≡◌, ◌≤◌, ◌^◌, ◌∷◌, IfErr, IfOk, IfSome, IsTrue, List, OnErr, OnOk, if◌then◌else◌, length, slice_index, ℕ};
ghost use Rattle.definitions.specs.Postings.{terminated};
ghost use Rattle.definitions.specs.Schema.{basic, has_freq, has_positions};
ghost use Rattle.layouts.specs.InvertedIndexes.{HasPositions};
ghost use Rattle.postings_writer.specs.FieldWriting.{AreKept, IsCloseRefusal, IsClosed, IsOpen, IsSameField, IsSameTerm, field_closed};
ghost use Rattle.postings_writer.specs.TermWriting.{IsSumRefusal, recorded_count};

use crate::inverted_index_serializer::InvertedIndexSerializer;
use crate::postings_serializer::PostingsSerializer;
use crate::term_dictionary_builder::TermDictionaryBuilder;
use codes::PositionSerializer;
use definitions::Fault;
use std::alloc::AllocError;
use std::marker::Model;

/// A writer of the terms of a field, one after another. What a refused call began of a term is of no use, and another
/// term may begin; if it was `close_term`, parts of the term may be left after the terms before.
#[derive(Drop)]
pub struct FieldSerializer<'a> {
    pub(crate) terms: TermDictionaryBuilder,
    pub(crate) postings_serializer: PostingsSerializer<'a>,
    pub(crate) postings: Vec<u8>,
    pub(crate) positions_serializer: PositionSerializer,
    pub(crate) key: Vec<u8>,
    pub(crate) doc_freq: u32,
    pub(crate) total_term_freq: u64,
    pub(crate) field: u32,
    pub(crate) num_tokens: u64,
}

impl<'a> Model for FieldSerializer<'a> {
    ghost use Rattle.std.specs.Prelude.{◌*◌, ◌≤◌};
    ghost use Rattle.postings_writer.specs.FieldWriting.{FieldWriting};

    ghost Value = { FieldWriting };

    ghost view = { λ s. record { field = s.field; num_tokens = s.num_tokens; terms = s.terms; postings = s.postings.items; positions = s.positions_serializer; key = s.key.items; doc_freq = s.doc_freq; total_term_freq = s.total_term_freq; writing = s.postings_serializer } };

    ghost invariant = { λ s. (s.doc_freq ≤ s.postings_serializer.next) × (s.total_term_freq ≤ s.postings_serializer.next * 4294967295) };
}

impl<'a> FieldSerializer<'a> {
    /// Begins the term with the value bytes `key`; only its documents are recorded unless `record_term_freq`.
    pub fn new_term(&mut self, key: &[u8], record_term_freq: bool) -> Result<(), AllocError>
        ensures ready { OnOk result (IsOpen self.new [] [] []) }
        ensures key { OnOk result (self.new.key ≡ key.now) }
        ensures option { OnOk result (self.new.writing.option
            ≡ (if record_term_freq then self.old.writing.mode else basic)) }
        ensures next { OnOk result (self.new.writing.next ≡ 0) }
        ensures total { OnOk result (self.new.total_term_freq ≡ 0) }
        ensures kept { AreKept self.old self.new }
        ensures waiting { self.new.positions.1 ≡ [] }
    {
        self.postings_serializer.new_term(record_term_freq);
        self.positions_serializer.clear();
        self.doc_freq = 0;
        self.total_term_freq = 0;
        self.key.clear();
        self.key.extend_from_slice(key)?;
        Ok(())
    }

    /// Begins the term with the value bytes `key`, of which only the documents are recorded.
    pub fn new_term_without_freq(&mut self, key: &[u8]) -> Result<(), AllocError>
        ensures ready { OnOk result (IsOpen self.new [] [] []) }
        ensures key { OnOk result (self.new.key ≡ key.now) }
        ensures option { OnOk result (self.new.writing.option ≡ basic) }
        ensures next { OnOk result (self.new.writing.next ≡ 0) }
        ensures total { OnOk result (self.new.total_term_freq ≡ 0) }
        ensures kept { AreKept self.old self.new }
        ensures waiting { self.new.positions.1 ≡ [] }
    {
        self.new_term(key, false)
    }

    /// Adds `doc` to the term: how often the term occurs in it, `term_freq`, and, if positions are recorded, its first
    /// position and the differences. If counts aren't recorded `term_freq` has to be 1: it is what the field's sum of
    /// tokens counts, and a reader takes 1 for each such document.
    pub fn write_doc(
        &mut self,
        doc: u32,
        term_freq: u32,
        position_deltas: &[u32],
    ) -> Result<(), Fault>
        requires next { self.old.writing.next ≤ doc }
        requires fits { doc < terminated }
        requires kept { IfSome self.old.writing.norms (λ ids. doc < length ids) }
        requires some { IsTrue (has_freq self.old.writing.option) → 0 < term_freq }
        requires positions { (i : ℕ) → slice_index position_deltas.now i < 2 ^ 31 }
        ensures written { (docs counts numbers : List ℕ) → IsOpen self.old docs counts numbers
            → OnOk result (IsOpen self.new (docs ++ doc
            ∷ []) (counts ++ recorded_count self.old.writing.option term_freq ∷ []) (numbers ++ position_deltas.now)) }
        ensures same { OnOk result (IsSameTerm self.old self.new) }
        ensures next { OnOk result (self.new.writing.next ≡ doc + 1) }
        ensures total { OnOk result (self.new.total_term_freq ≡ self.old.total_term_freq + term_freq) }
        ensures err { (docs counts numbers : List ℕ) → IsOpen self.old docs counts numbers
            → IfErr result (λ fault. IsSumRefusal fault (counts ++ recorded_count self.old.writing.option term_freq
            ∷ [])) }
        ensures refused { OnErr result (AreKept self.old self.new) }
    {
        self.postings_serializer.write_doc(doc, term_freq)?;
        self.write_positions(position_deltas)?;
        self.doc_freq += 1;
        self.total_term_freq += u64::from(term_freq);
        Ok(())
    }

    /// Appends the positions of a document, if they are recorded.
    fn write_positions(&mut self, position_deltas: &[u32]) -> Result<(), AllocError>
        requires { (i : ℕ) → slice_index position_deltas.now i < 2 ^ 31 }
        ensures ok { OnOk result (self.new
            ≡ record self.old {
              positions = (
                self.old.positions.0,
                self.old.positions.1 ++
                    (if has_positions self.old.writing.option then position_deltas.now else []),
              );
            }) }
        ensures refused { OnErr result (self.new ≡ self.old) }
    {
        if !self.postings_serializer.has_positions() {
            return Ok(());
        }
        self.positions_serializer
            .write_positions_delta(position_deltas)?;
        Ok(())
    }

    /// Closes the term: its postings and positions follow those of the terms before, and its tokens, the sum of each
    /// `term_freq` that `write_doc` was given, count for the field.
    pub fn close_term(&mut self) -> Result<(), Fault>
        ensures ok { (docs counts numbers : List ℕ) → IsOpen self.old docs counts numbers
            → OnOk result (IsClosed self.old self.new docs counts numbers) }
        ensures tokens { OnOk result ((self.new.num_tokens ≡ self.old.num_tokens + self.old.total_term_freq)
            × (self.old.num_tokens + self.old.total_term_freq < 2 ^ 64)) }
        ensures same { OnOk result ((self.new.field ≡ self.old.field) × (self.new.writing.mode ≡ self.old.writing.mode)
            × (self.new.writing.norms ≡ self.old.writing.norms)) }
        ensures err { (docs counts numbers : List ℕ) → IsOpen self.old docs counts numbers
            → IfErr result (λ fault. IsCloseRefusal fault self.old docs counts numbers) }
        ensures refused { OnErr result (IsSameField self.old self.new) }
    {
        let num_tokens = self
            .num_tokens
            .checked_add(self.total_term_freq)
            .ok_or(Fault::Limit)?;
        let doc_freq = self.doc_freq;
        self.doc_freq = 0;
        self.total_term_freq = 0;
        let postings_start = self.postings.len();
        self.postings_serializer
            .close_term(doc_freq, &mut self.postings)?;
        let positions_start = self.positions_serializer.written_bytes();
        self.close_positions()?;
        let postings_len = (self.postings.len() - postings_start) as u64;
        let positions_len = self.positions_serializer.written_bytes() - positions_start;
        if positions_len >= 1 << 32 {
            return Err(Fault::Limit);
        }
        self.terms
            .insert(&self.key, doc_freq, postings_len, positions_len)?;
        self.num_tokens = num_tokens;
        Ok(())
    }

    /// Closes the positions of the term, if they are recorded.
    fn close_positions(&mut self) -> Result<(), AllocError>
        ensures ok { OnOk result ((bytes : List ℕ)
            × HasPositions (has_positions self.old.writing.option) self.old.positions.1 bytes
            × (self.new ≡ record self.old {
              positions = (
                self.old.positions.0 ++ bytes,
                if has_positions
                    self.old.writing.option then [] else self.old.positions.1,
              );
            })) }
        ensures refused { OnErr result (self.new ≡ self.old) }
    {
        if !self.postings_serializer.has_positions() {
            return Ok(());
        }
        self.positions_serializer.close_term()?;
        Ok(())
    }

    /// Closes the field: its terms follow those of the fields before.
    pub fn close(self) -> Result<InvertedIndexSerializer, AllocError>
        ensures { IfOk result (λ sections. sections ≡ field_closed self.entry) }
    {
        let mut terms = self.terms;
        let mut positions_serializer = self.positions_serializer;
        positions_serializer.clear();
        terms.close_field(self.field, self.num_tokens)?;
        Ok(InvertedIndexSerializer {
            terms,
            postings: self.postings,
            positions_serializer,
        })
    }
}
