//! A segment as queries see it.

ghost use Rattle.std.specs.Prelude.{◌≡◌, ◌≤◌, nat_lt, option_map};
ghost use Rattle.definitions.specs.Postings.{terminated};
ghost use Rattle.segment_reader.specs.Together.{AreTogether};
ghost use Rattle.segment_reader.specs.Flags.{HasFlags};
ghost use Rattle.segment_reader.specs.FlagsLaws.{HasFlags-prop};

use crate::InvertedIndexReader;
use codes::FieldNormReaders;
use common::{AliveBitSet, DocId};

/// The terms of a segment, the lengths of its fields, and which of its documents are alive, all borrowed.
#[derive(Drop)]
pub struct SegmentReader<'a> {
    max_doc: DocId,
    inverted_index: &'a InvertedIndexReader,
    fieldnorms_readers: FieldNormReaders<'a>,
    alive_bitset: Option<&'a AliveBitSet>,
    ghost together: { ∥ AreTogether max_doc fieldnorms_readers inverted_index.now ∥₁ },
    ghost few: { max_doc ≤ terminated },
    ghost flagged: { HasFlags max_doc (option_map (λ flags. flags.now) alive_bitset) } by { HasFlags-prop max_doc (option_map (λ flags. flags.now) alive_bitset) },
}

impl<'a> SegmentReader<'a> {
    ghost use Rattle.segment_reader.specs.SegmentReaders.{alive_in, index_of, lengths_of, max_doc_of, num_alive};

    /// Returns a segment of `max_doc` documents with their terms and lengths; all of them are alive unless
    /// `alive_bitset` says otherwise.
    pub fn new(
        max_doc: DocId,
        inverted_index: &'a InvertedIndexReader,
        fieldnorms_readers: FieldNormReaders<'a>,
        alive_bitset: Option<&'a AliveBitSet>,
    ) -> SegmentReader<'a>
        requires together { ∥ AreTogether max_doc fieldnorms_readers inverted_index.now ∥₁ }
        requires flagged { HasFlags max_doc (option_map (λ flags. flags.now) alive_bitset) }
        ensures max_doc { max_doc_of result ≡ max_doc }
        ensures index { index_of result ≡ inverted_index.now }
        ensures lengths { lengths_of result ≡ fieldnorms_readers.entry }
        ensures alive { alive_in result ≡ option_map (λ flags. flags.now) alive_bitset.entry }
    {
        SegmentReader {
            max_doc,
            inverted_index,
            fieldnorms_readers,
            alive_bitset,
        }
    }

    /// Returns the number of documents, dead or alive.
    #[inline]
    pub fn max_doc(&self) -> DocId
        ensures value { result ≡ max_doc_of self.now }
        ensures few { result ≤ terminated }
    {
        self.max_doc
    }

    /// Returns the number of living documents.
    pub fn num_docs(&self) -> u32
        ensures { result ≡ num_alive self.now }
    {
        match self.alive_bitset {
            Some(alive) => alive.num_alive() as u32,
            None => self.max_doc,
        }
    }

    /// Whether any document is dead.
    pub fn has_deletes(&self) -> bool
        ensures { result ≡ nat_lt (num_alive self.now) (max_doc_of self.now) }
    {
        self.num_docs() < self.max_doc
    }

    /// Returns the set of living documents; none if no set was given, so that all are alive.
    pub fn alive_bitset(&self) -> Option<&'a AliveBitSet>
        ensures { option_map (λ flags. flags.now) result ≡ alive_in self.now }
    {
        self.alive_bitset
    }

    /// Returns the terms of all fields.
    pub fn inverted_index(&self) -> &'a InvertedIndexReader
        ensures { result.now ≡ index_of self.now }
    {
        self.inverted_index
    }

    /// Returns the length ids of all fields that keep lengths.
    pub fn fieldnorms_readers(&self) -> FieldNormReaders<'a>
        ensures { result ≡ lengths_of self.now }
    {
        self.fieldnorms_readers.copied()
    }
}
