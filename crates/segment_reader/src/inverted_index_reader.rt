//! An inverted index, read from its sections.

ghost use Rattle.std.specs.Prelude.{[], ◌↔◌, ◌<◌, ◌∷◌, ◌≡◌, ◌≢◌, ◌≤◌, IfErr, IfNone, IfOk, IfSome, IsTrue, List, None, Some, if◌then◌else◌, length, map, option_map, slice_range, ℕ};
ghost use Rattle.std.specs.List.{AllByRecursion};
ghost use Rattle.docsets.specs.Entries.{from};
ghost use Rattle.definitions.specs.Analyzers.{Analyzer};
ghost use Rattle.definitions.specs.Postings.{terminated};
ghost use Rattle.definitions.specs.Terms.{field_of, payload_of};
ghost use Rattle.definitions.specs.Values.{Document};
ghost use Rattle.definitions.specs.declared.fault.Fault.TheVariants as faults;
ghost use Rattle.segment_definitions.specs.Keys.{AreKeyed};
ghost use Rattle.segment_reader.specs.Dictionaries.{ahead};
ghost use Rattle.segment_reader.specs.FieldDictionaries.{IsFound, dictionary_of};
ghost use Rattle.segment_reader.specs.FieldKinds.{option_in};
ghost use Rattle.segment_reader.specs.NewCursors.{AreNewBlocks, IsAtStart, IsNewCursor, posted, posted_in};
ghost use Rattle.segment_reader.specs.Readers.{AreKnown, AreOfDocuments, Contents, HasKind, IsInfo, IsReader, dictionary_in, full_bounds, index_in, info_in, postings_held, term_held, term_in, tokens_held};
ghost use Rattle.segment_reader.specs.Searching.{between};
ghost use Rattle.segment_reader.specs.declared.field_index.FieldIndex.{FieldIndex};
ghost use Rattle.layouts.specs.InvertedIndexes.{AreSections, IndexedField, term_of_key};
ghost use Rattle.layouts.specs.TermPostings.{bound_in};
ghost use Rattle.options.specs.RecordOption.{record_option_of};
ghost use Rattle.segment_postings.specs.Cursors.{blocks_decoded, cursor_blocks, cursor_doc_freq, doc_freq_of, skips_left};
ghost use Rattle.terms.specs.Kinds.{kind_of};

use crate::field_index::FieldIndex;
use crate::field_lookup::index_of;
use crate::indexes_read::{known_indexes, read_indexes};
use crate::opened_term::{open_term, open_term_blocks};
use crate::term_dictionary::TermDictionary;
use crate::term_info::TermInfo;
use crate::term_range::TermRange;
use bytes::Bytes;
use codes::FieldNormReaders;
use definitions::Fault;
use options::IndexRecordOption;
use schema::Schema;
use segment_postings::{BlockSegmentPostings, SegmentPostings};
use std::alloc::{AllocError, Global};
use std::marker::Model;
use terms::{Field, Term, Type};

/// The terms of all indexed fields of a segment, with their postings. The sections are shared, and no part of
/// them is copied.
/// Its `Contents` are known to whoever opened it: for sections from the writer, the fields of the documents; for other
/// bytes, only that there are some.
#[derive(Drop)]
pub struct InvertedIndexReader {
    terms: Bytes,
    postings: Bytes,
    positions: Bytes,
    indexes: Vec<FieldIndex>,
}

impl Model for InvertedIndexReader {
    ghost use Rattle.segment_reader.specs.Readers.{Contents, Reader};

    ghost Value = { Reader };

    ghost view = { λ r. record { sections = record { terms = r.terms; postings = r.postings; positions = r.positions }; indexes = r.indexes.items } };

    ghost invariant = { λ r. ∥ Contents (record { sections = record { terms = r.terms; postings = r.postings; positions = r.positions }; indexes = r.indexes.items }) ∥₁ };
}

impl InvertedIndexReader {
    /// Returns an index without fields.
    pub fn empty(alloc: Global) -> InvertedIndexReader
        ensures value { result ≡ record {
          sections = record {
            terms = 0
                ∷ [];
            postings = [];
            positions = [];
          };
          indexes = [];
        } }
        ensures ok { IsReader [] 0 [] [] result }
    {
        InvertedIndexReader {
            terms: Bytes::from_static(&[0]),
            postings: Bytes::from_static(&[]),
            positions: Bytes::from_static(&[]),
            indexes: Vec::new(alloc),
        }
    }

    /// Returns the index of a segment's sections of terms, postings and positions, which are known to be in their
    /// layout, since they were just written, or checked before. The section of terms is walked once; the others aren't
    /// looked at.
    pub fn new(
        alloc: Global,
        schema: &Schema,
        terms: Bytes,
        postings: Bytes,
        positions: Bytes,
    ) -> Result<InvertedIndexReader, AllocError>
        requires { ∥ AreKnown schema.now (record { terms = terms; postings = postings; positions = positions }) ∥₁ }
        ensures sections { IfOk result (λ r. r.sections
            ≡ record { terms = terms; postings = postings; positions = positions }) }
        ensures ok { (num_docs : ℕ) (norms : List (ℕ × List ℕ)) (fields : List IndexedField)
            → num_docs ≤ terminated
            → AreSections schema.now num_docs norms fields terms postings positions
            → IfOk result (λ r. IsReader schema.now num_docs norms fields r) }
    {
        let indexes = known_indexes(
            alloc,
            schema,
            terms.as_slice(),
            postings.as_slice(),
            positions.as_slice(),
        )?;
        Ok(InvertedIndexReader {
            terms,
            postings,
            positions,
            indexes,
        })
    }

    /// Opens the sections of terms, postings and positions of a segment of `num_docs` documents with the lengths
    /// `fieldnorm_readers`. All of them are checked whole; `Damaged` if they aren't in the layout, or a term hasn't the
    /// bytes of a value of its field.
    pub fn open(
        alloc: Global,
        schema: &Schema,
        fieldnorm_readers: &FieldNormReaders<'_>,
        num_docs: u32,
        terms: Bytes,
        postings: Bytes,
        positions: Bytes,
    ) -> Result<InvertedIndexReader, Fault>
        requires kept { AllByRecursion (λ p. length p.1 ≡ num_docs) fieldnorm_readers.now }
        requires few { num_docs ≤ terminated }
        ensures sections { IfOk result (λ r. r.sections
            ≡ record { terms = terms; postings = postings; positions = positions }) }
        ensures exact { IfOk result (λ r. (fields : List IndexedField)
            × IsReader schema.now num_docs fieldnorm_readers.now fields r × AreKeyed schema.now fields) }
        ensures ok { IfOk result (λ r. (fields : List IndexedField)
            → AreSections schema.now num_docs fieldnorm_readers.now fields terms postings positions
            → IsReader schema.now num_docs fieldnorm_readers.now fields r) }
        ensures err { IfErr result (λ fault. fault ≢ faults.OutOfMemory → (fault ≡ faults.Damaged None)
            × ((fields : List IndexedField)
            → AreSections schema.now num_docs fieldnorm_readers.now fields terms postings positions
            → AreKeyed schema.now fields → ⊥)) }
    {
        let indexes = read_indexes(
            alloc,
            schema,
            fieldnorm_readers,
            num_docs,
            terms.as_slice(),
            postings.as_slice(),
            positions.as_slice(),
        )?;
        Ok(InvertedIndexReader {
            terms,
            postings,
            positions,
            indexes,
        })
    }

    /// Returns what is kept of `field`, if it is indexed.
    fn index_of(&self, field: Field) -> Option<&FieldIndex>
        ensures index { option_map (λ i. i.now) result ≡ index_in field self.now.indexes }
        ensures known { ∥ Contents self.now ∥₁ }
    {
        index_of(&self.indexes, field.field_id())
    }

    /// Returns the terms of `field`, at most 4294967295; none if it isn't indexed.
    pub fn terms(&self, field: Field) -> TermDictionary<'_>
        ensures own { result ≡ dictionary_in self.now field }
        ensures few { length result ≤ 4294967295 }
        ensures ok { (contents : Contents self.now) → result ≡ dictionary_of 0 0 field contents.fields }
    {
        match self.index_of(field) {
            Some(index) => {
                let section = self.terms.as_slice();
                TermDictionary::new(section, index.shape, &index.starts, &index.prefixes)
            }
            None => TermDictionary::without_terms(),
        }
    }

    /// Returns the terms of `field` from `start` on that are before `end`, if there is one, by their value bytes.
    /// Memory for the longest key of the field is taken here, and none later.
    pub fn range(
        &self,
        alloc: Global,
        field: Field,
        start: &[u8],
        end: Option<&[u8]>,
    ) -> Result<TermRange<'_>, AllocError>
        ensures own { IfOk result (λ range. range
            ≡ ahead (between start.now (option_map (λ key. key.now) end.entry) (dictionary_in self.now field))) }
        ensures ok { (contents : Contents self.now) → IfOk result (λ range. range
            ≡ ahead (between start.now (option_map (λ key. key.now) end.entry)
            (dictionary_of 0 0 field contents.fields))) }
    {
        self.terms(field).range(alloc, start, end)
    }

    /// Whether `field` is indexed, and its values are of type `value_type`.
    fn has_type(&self, field: Field, value_type: Type) -> bool
        ensures { IsTrue result ↔ HasKind self.now field (kind_of value_type) }
    {
        match self.index_of(field) {
            Some(index) => index.kind.value_type.to_code() == value_type.to_code(),
            None => false,
        }
    }

    /// Returns where the postings of `term` are; none if no document has it.
    pub fn get_term_info(&self, term: &Term) -> Option<TermInfo>
        ensures own { IfSome result (λ info. info_in (payload_of term.now) (dictionary_in self.now (field_of term.now))
            ≡ Some info) }
        ensures same { (contents : Contents self.now)
            → IfSome result (λ info. term_held contents.schema contents.fields term.now
            ≡ term_in contents.fields (field_of term.now) (payload_of term.now)) }
        ensures ok { (contents : Contents self.now)
            → IsFound self.now.sections result (term_held contents.schema contents.fields term.now) }
        ensures whole { (contents : Contents self.now)
            → IfSome result (λ info. term_of_key contents.schema (field_of term.now) (payload_of term.now) ≡ term.now) }
    {
        if !self.has_type(term.field(), term.typ()) {
            return None;
        }
        self.terms(term.field()).get(term.serialized_value_bytes())
    }

    /// Returns the number of documents that have `term`.
    pub fn doc_freq(&self, term: &Term) -> u32
        ensures { (contents : Contents self.now)
            → result ≡ length (postings_held contents.schema contents.fields term.now) }
    {
        match self.get_term_info(term) {
            Some(info) => info.doc_freq,
            None => 0,
        }
    }

    /// Returns the number of tokens of `field`; 0 if it isn't indexed.
    pub fn total_num_tokens(&self, field: Field) -> u64
        ensures { (contents : Contents self.now) → result ≡ tokens_held contents.fields field }
    {
        match self.index_of(field) {
            Some(index) => index.num_tokens,
            None => 0,
        }
    }

    /// Returns what is recorded of the term of `field` with these value bytes.
    fn option_of(&self, field: Field, value_bytes: &[u8]) -> IndexRecordOption
        ensures option { (i : FieldIndex) → index_in field self.now.indexes ≡ Some i
            → record_option_of result ≡ option_in i.kind value_bytes.now }
        ensures known { ∥ Contents self.now ∥₁ }
    {
        match self.index_of(field) {
            Some(index) => index.kind.option_of(value_bytes),
            None => IndexRecordOption::Basic,
        }
    }

    /// Returns the bytes of the postings and of the positions that `term_info`, one of this reader, locates.
    fn bytes_of(&self, term_info: &TermInfo) -> (&[u8], &[u8])
        requires { IsInfo self.now term_info.now }
        ensures postings { result.0.now
            ≡ slice_range self.now.sections.postings term_info.now.postings_range.start
            term_info.now.postings_range.end }
        ensures positions { result.1.now
            ≡ slice_range self.now.sections.positions term_info.now.positions_range.start
            term_info.now.positions_range.end }
    {
        let postings = &term_info.postings_range;
        let positions = &term_info.positions_range;
        (
            &self.postings.as_slice()[postings.start..postings.end],
            &self.positions.as_slice()[positions.start..positions.end],
        )
    }

    /// Returns the postings of the term of `field` with these value bytes, whose info is known, with as much as
    /// `option` asks for. The first block is decoded.
    /// In a JSON field the value bytes say whether counts are recorded.
    pub fn read_postings_from_terminfo(
        &self,
        field: Field,
        value_bytes: &[u8],
        term_info: &TermInfo,
        option: IndexRecordOption,
    ) -> SegmentPostings<'_>
        requires { info_in value_bytes.now (dictionary_in self.now field) ≡ Some term_info.now }
        ensures ok { (contents : Contents self.now)
            → IsNewCursor (record_option_of option) (posted_in contents field value_bytes.now) result }
        ensures start { IsAtStart result }
        ensures doc_freq { cursor_doc_freq result ≡ term_info.now.doc_freq }
    {
        let recorded = self.option_of(field, value_bytes);
        let (postings, positions) = self.bytes_of(term_info);
        open_term(postings, positions, term_info.doc_freq, recorded, option)
    }

    /// Returns the postings of `term`, with as much as `option` asks for; none if no document has it.
    pub fn read_postings(
        &self,
        term: &Term,
        option: IndexRecordOption,
    ) -> Option<SegmentPostings<'_>>
        ensures some { (contents : Contents self.now)
            → IfSome result (IsNewCursor (record_option_of option) (posted contents term.now)) }
        ensures none { (contents : Contents self.now)
            → IfNone result (postings_held contents.schema contents.fields term.now ≡ []) }
        ensures start { IfSome result IsAtStart }
        ensures bounds { (contents : Contents self.now) (analyze : Analyzer) (docs : List Document)
            → AreOfDocuments self.now contents analyze docs
            → IfSome result (λ p. map bound_in (skips_left (cursor_blocks p))
            ≡ full_bounds contents.schema analyze term.now docs) }
    {
        let term_info = self.get_term_info(term)?;
        let value_bytes = term.serialized_value_bytes();
        Some(self.read_postings_from_terminfo(term.field(), value_bytes, &term_info, option))
    }

    /// Like `read_postings_from_terminfo`, but block by block, and without positions.
    fn open_blocks(
        &self,
        field: Field,
        value_bytes: &[u8],
        term_info: &TermInfo,
        option: IndexRecordOption,
    ) -> BlockSegmentPostings<'_>
        requires { info_in value_bytes.now (dictionary_in self.now field) ≡ Some term_info.now }
        ensures ok { (contents : Contents self.now)
            → AreNewBlocks (record_option_of option) (posted_in contents field value_bytes.now) result }
        ensures decoded { blocks_decoded result ≡ 1 }
        ensures doc_freq { doc_freq_of result ≡ term_info.now.doc_freq }
    {
        let recorded = self.option_of(field, value_bytes);
        let (postings, _) = self.bytes_of(term_info);
        open_term_blocks(postings, term_info.doc_freq, recorded, option)
    }

    /// Returns the postings of `term` block by block, without positions; none if no document has it.
    pub fn read_block_postings(
        &self,
        term: &Term,
        option: IndexRecordOption,
    ) -> Option<BlockSegmentPostings<'_>>
        ensures some { (contents : Contents self.now)
            → IfSome result (AreNewBlocks (record_option_of option) (posted contents term.now)) }
        ensures none { (contents : Contents self.now)
            → IfNone result (postings_held contents.schema contents.fields term.now ≡ []) }
        ensures decoded { IfSome result (λ p. blocks_decoded p ≡ 1) }
        ensures bounds { (contents : Contents self.now) (analyze : Analyzer) (docs : List Document)
            → AreOfDocuments self.now contents analyze docs
            → IfSome result (λ p. map bound_in (skips_left p)
            ≡ full_bounds contents.schema analyze term.now docs) }
    {
        let term_info = self.get_term_info(term)?;
        let value_bytes = term.serialized_value_bytes();
        Some(self.open_blocks(term.field(), value_bytes, &term_info, option))
    }
}
