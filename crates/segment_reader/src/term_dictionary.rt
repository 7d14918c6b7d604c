//! The terms of a field.

ghost use Rattle.std.specs.Prelude.{IfOk, IfSome, [], bytes_eq, drop, find, length, min, option_map, ◌*◌, ◌-◌, ◌<◌, ◌^◌, ◌≡◌};
ghost use Rattle.std.specs.List.{prefix_len};
ghost use Rattle.front_coding.specs.Lengths.{located_at};
ghost use Rattle.layouts.specs.TermSections.{block_size};
ghost use Rattle.segment_reader.specs.Dictionaries.{InfoFits, ahead, info_of_located};
ghost use Rattle.segment_reader.specs.KeptTerms.{IsKeptTerms, placed_terms, shape_from};
ghost use Rattle.segment_reader.specs.Searching.{between, is_before, is_below};

use crate::field_index::TermsShape;
use crate::term_info::TermInfo;
use crate::term_range::TermRange;
use front_coding::{BlockSearch, TermPlace, TermStart, blocks_up_to, search_block, terms_in_block};
use std::alloc::{AllocError, Global};
use std::marker::Model;

/// The terms of a field by their value bytes, in ascending order, borrowed from the section of terms. The block that may
/// have a key is looked up among the first bytes of blocks, and then checked: no answer rests on these.
#[derive(Drop)]
pub struct TermDictionary<'a> {
    section: &'a [u8],
    shape: TermsShape,
    starts: &'a [TermStart],
    prefixes: &'a [u64],
}

impl<'a> Model for TermDictionary<'a> {
    ghost use Rattle.std.specs.Prelude.{List};
    ghost use Rattle.segment_reader.specs.Dictionaries.{Placed};
    ghost use Rattle.segment_reader.specs.KeptTerms.{IsKeptTerms, placed_terms};

    ghost Value = { List Placed };

    ghost view = { λ d. placed_terms d.section.now d.shape };

    ghost invariant = { λ d. ∥ IsKeptTerms d.section.now d.shape d.starts.now ∥₁ };
}

impl<'a> TermDictionary<'a> {
    /// Returns the dictionary of the terms of this shape in the section of terms, whose blocks begin at `starts`, with
    /// the prefixes of the blocks' first keys.
    pub(crate) fn new(
        section: &'a [u8],
        shape: TermsShape,
        starts: &'a [TermStart],
        prefixes: &'a [u64],
    ) -> TermDictionary<'a>
        requires { ∥ IsKeptTerms section.now shape starts.now ∥₁ }
        ensures { result ≡ placed_terms section.now shape }
    {
        TermDictionary {
            section,
            shape,
            starts,
            prefixes,
        }
    }

    /// Returns the dictionary without terms.
    pub(crate) fn without_terms() -> TermDictionary<'a>
        ensures { result ≡ [] }
    {
        let first = TermStart {
            entry: 0,
            postings: 0,
            positions: 0,
        };
        let shape = TermsShape {
            front_coded: false,
            num_terms: 0,
            longest: 0,
            first,
        };
        TermDictionary::new(&[], shape, &[], &[])
    }

    /// Returns the number of terms.
    pub fn num_terms(&self) -> usize
        ensures { result ≡ length self.now }
    {
        self.shape.num_terms as usize
    }

    /// Returns where the postings of the term with the value bytes `key` are; none if the field doesn't have it.
    pub fn get(&self, key: &[u8]) -> Option<TermInfo>
        ensures { result ≡ option_map (λ t. t.1) (find (λ t. bytes_eq t.0 key.now) self.now) }
    {
        match self.search(key).found {
            Some(found) => Some(info_of(&found)),
            None => None,
        }
    }

    /// Looks `key` up: how many terms are below it, and the term that has it.
    fn search(&self, key: &[u8]) -> BlockSearch
        ensures below { result.below ≡ prefix_len (λ t. is_below key.now t.0) self.now }
        ensures found { option_map info_of_located (option_map located_at result.found)
            ≡ option_map (λ t. t.1) (find (λ t. bytes_eq t.0 key.now) self.now) }
        ensures fits { IfSome result.found (λ found. InfoFits (info_of_located (located_at found))) }
    {
        let up_to = blocks_up_to(self.section, self.starts, self.prefixes, key);
        if up_to == 0 {
            return BlockSearch {
                below: 0,
                found: None,
            };
        }
        let block = up_to - 1;
        let front_coded = self.shape.front_coded;
        let left = terms_left(self.shape, block);
        let told = search_block(self.section, front_coded, left, self.starts[block], key);
        BlockSearch {
            below: terms_in_block(front_coded) * block as u64 + told.below,
            found: told.found,
        }
    }

    /// Returns the index of the first term whose value bytes aren't below `key`.
    fn first_from(&self, key: &[u8]) -> u64
        ensures { result ≡ prefix_len (λ t. is_below key.now t.0) self.now }
    {
        self.search(key).below
    }

    /// Returns the index of the first term that isn't before `end`, if there is one.
    fn end_from(&self, end: Option<&[u8]>) -> u64
        ensures { result ≡ prefix_len (λ t. is_before (option_map (λ key. key.now) end.entry) t.0) self.now }
    {
        match end {
            Some(key) => self.first_from(key),
            None => self.shape.num_terms,
        }
    }

    /// Returns the terms from `start` on that are before `end`, if there is one. Memory for the longest key of the field
    /// is taken here, and none later.
    pub fn range(
        &self,
        alloc: Global,
        start: &[u8],
        end: Option<&[u8]>,
    ) -> Result<TermRange<'a>, AllocError>
        ensures { IfOk result (λ range. range
            ≡ ahead (between start.now (option_map (λ key. key.now) end.entry) self.now)) }
    {
        let first = self.first_from(start);
        let last = self.end_from(end).max(first);
        let mut range = range_from(alloc, self.section, self.shape, self.starts, first)?;
        range.cut(last - first);
        Ok(range)
    }
}

/// Returns the terms of this shape from the one of a number on, by a walk from its block's first.
fn range_from<'a>(
    alloc: Global,
    section: &'a [u8],
    shape: TermsShape,
    starts: &[TermStart],
    number: u64,
) -> Result<TermRange<'a>, AllocError>
    requires { ∥ IsKeptTerms section.now shape starts.now ∥₁ }
    ensures { IfOk result (λ range. range.rest ≡ drop number (placed_terms section.now shape)) }
{
    let size = terms_in_block(shape.front_coded);
    let part = shape_from(shape, starts, (number / size) as usize);
    let mut range = TermRange::new(alloc, section, part)?;
    range.skip(number % size);
    Ok(range)
}

/// Returns the shape of the terms from the first on of a block; of no terms where there is no such block.
fn shape_from(shape: TermsShape, starts: &[TermStart], block: usize) -> TermsShape
    ensures { result ≡ shape_from shape starts.now block }
{
    match starts.get(block) {
        Some(start) => {
            let before = terms_in_block(shape.front_coded).saturating_mul(block as u64);
            with_terms(shape, shape.num_terms.saturating_sub(before), *start)
        }
        None => with_terms(shape, 0, shape.first),
    }
}

/// Returns a shape of another number of terms, which begin elsewhere.
fn with_terms(shape: TermsShape, num_terms: u64, first: TermStart) -> TermsShape
    ensures { result ≡ record shape { num_terms = num_terms; first = first } }
{
    TermsShape {
        front_coded: shape.front_coded,
        num_terms,
        longest: shape.longest,
        first,
    }
}

/// Returns how many terms a block has.
fn terms_left(shape: TermsShape, block: usize) -> u64
    requires { block < 2 ^ 59 }
    ensures { result
        ≡ min (shape.num_terms - block_size shape.front_coded * block) (block_size shape.front_coded) }
{
    let size = terms_in_block(shape.front_coded);
    shape
        .num_terms
        .saturating_sub(size * block as u64)
        .min(size)
}

/// Returns where the postings of a term are that was found.
pub(crate) fn info_of(found: &TermPlace) -> TermInfo
    requires { InfoFits (info_of_located (located_at found.now)) }
    ensures { result ≡ info_of_located (located_at found.now) }
{
    TermInfo {
        doc_freq: found.lengths.doc_freq as u32,
        postings_range: found.postings..found.postings + found.lengths.postings_len as usize,
        positions_range: found.positions..found.positions + found.lengths.positions_len as usize,
    }
}
