//! A cursor over terms of a field.

ghost use Rattle.std.specs.Prelude.{IfOk, IsSome, IsTrue, None, Some, drop, length, option_map, take, ◌+◌, ◌++◌, ◌<◌, ◌↔◌, ◌≡◌, ◌≤◌};
ghost use Rattle.segment_reader.specs.Dictionaries.{advanced, ahead};
ghost use Rattle.segment_reader.specs.KeptTerms.{AreShaped, placed_terms};

use crate::field_index::TermsShape;
use crate::term_dictionary::info_of;
use crate::term_info::TermInfo;
use front_coding::{TermPlace, take_parts};
use std::alloc::{AllocError, Global};
use std::marker::Model;

/// Terms by their value bytes, in ascending order, each with where its postings are. The range begins before the first
/// of them, and `advance` moves it to the next.
/// What memory it takes is taken when it is made, so no move is refused: its keys are put together in a buffer that holds
/// the longest of the field.
#[derive(Drop)]
pub struct TermRange<'a> {
    rest: &'a [u8],
    front_coded: bool,
    number: u64,
    left: u64,
    postings: usize,
    positions: usize,
    buffer: Vec<u8>,
    key_len: usize,
    here: Option<TermInfo>,
}

impl<'a> Model for TermRange<'a> {
    ghost use Rattle.std.specs.Prelude.{◌≤◌, length, take};
    ghost use Rattle.segment_reader.specs.Dictionaries.{Walked};
    ghost use Rattle.segment_reader.specs.KeptTerms.{IsWalk, walked};

    ghost Value = { Walked };

    ghost view = { λ r. walked r.front_coded r.number r.left r.postings r.positions (take r.key_len r.buffer.items) r.rest.now r.here };

    ghost invariant = { λ r. (r.key_len ≤ length r.buffer.items) × IsWalk r.front_coded r.number r.left r.postings r.positions (length r.buffer.items) (take r.key_len r.buffer.items) r.rest.now };
}

/// Puts bytes behind the first `shared_len` of a buffer.
fn put_rest(buffer: &mut [u8], shared_len: usize, rest: &[u8])
    requires { shared_len + length rest.now ≤ length buffer.old }
    ensures front { take (shared_len + length rest.now) buffer.new ≡ take shared_len buffer.old ++ rest.now }
    ensures len { length buffer.new ≡ length buffer.old }
{
    buffer[shared_len..shared_len + rest.len()].copy_from_slice(rest);
}

/// Returns the bytes from an offset on; none after the end.
fn rest_from(bytes: &[u8], offset: usize) -> &[u8]
    ensures { result.now ≡ drop offset bytes.now }
{
    bytes.get(offset..).unwrap_or(&[])
}

impl<'a> TermRange<'a> {
    /// Returns a range of the terms of this shape in the section of terms.
    pub(crate) fn new(
        alloc: Global,
        section: &'a [u8],
        shape: TermsShape,
    ) -> Result<TermRange<'a>, AllocError>
        requires { ∥ AreShaped section.now shape ∥₁ }
        ensures { IfOk result (λ range. range ≡ ahead (placed_terms section.now shape)) }
    {
        let buffer = vec![in alloc; 0; shape.longest]?;
        Ok(TermRange {
            rest: rest_from(section, shape.first.entry),
            front_coded: shape.front_coded,
            number: 0,
            left: shape.num_terms,
            postings: shape.first.postings,
            positions: shape.first.positions,
            buffer,
            key_len: 0,
            here: None,
        })
    }

    /// Moves on by `count` terms.
    pub(crate) fn skip(&mut self, count: u64)
        ensures { self.new.rest ≡ drop count self.old.rest }
    {
        for _ in 0..count {
            self.advance();
        }
    }

    /// Leaves at most `count` terms, before the first of which it then stands.
    pub(crate) fn cut(&mut self, count: u64)
        ensures { self.new ≡ record { here = None; rest = take count self.old.rest } }
    {
        self.left = count.min(self.left);
        self.here = None;
    }

    /// Moves to the next term, and returns whether there is one; after the last there is no current term.
    pub fn advance(&mut self) -> bool
        ensures next { self.new ≡ advanced self.old }
        ensures moved { IsTrue result ↔ IsSome self.new.here }
        ensures shorter { IsTrue result → length self.new.rest < length self.old.rest }
    {
        if self.left == 0 {
            self.here = None;
            return false;
        }
        let Ok((parts, after)) = take_parts(self.rest, self.front_coded, self.number) else {
            unreachable!()
        };
        let shared_len = (parts.shared_len as usize).min(self.key_len);
        put_rest(&mut self.buffer, shared_len, parts.left);
        self.key_len = shared_len + parts.left.len();
        let info = info_of(&TermPlace {
            lengths: parts.lengths,
            postings: self.postings,
            positions: self.positions,
        });
        self.here = Some(info);
        self.postings += parts.lengths.postings_len as usize;
        self.positions += parts.lengths.positions_len as usize;
        self.rest = after;
        self.number += 1;
        self.left -= 1;
        true
    }

    /// Returns the value bytes of the current term.
    pub fn key(&self) -> &[u8]
        requires { IsSome self.now.here }
        ensures { option_map (λ t. t.0) self.now.here ≡ Some result.now }
    {
        &self.buffer[..self.key_len]
    }

    /// Returns where the postings of the current term are.
    pub fn value(&self) -> &TermInfo
        requires { IsSome self.now.here }
        ensures { option_map (λ t. t.1) self.now.here ≡ Some result.now }
    {
        match &self.here {
            Some(info) => info,
            None => unreachable!(),
        }
    }
}
