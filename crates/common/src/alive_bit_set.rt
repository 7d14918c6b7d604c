//! Alive sets: which documents of a segment are alive.

ghost use Rattle.std.specs.Prelude.{◌<◌, ◌^◌, ◌≡◌, ◌⊎◌, Bool, IfErr, IfOk, IfSome, List, None, false, length, replicate, slice_index_or, slice_set, true};
ghost use Rattle.std.specs.Iterator.{YieldsFirstBy, item_count};
ghost use Rattle.common.specs.BitSets.{IsFirst, count_set, numbers_from};
ghost use Rattle.definitions.specs.declared.fault.Fault.TheVariants as faults;
ghost use Rattle.layouts.specs.AliveSets.{IsAliveSet, alive_bytes};

use crate::bit_set::BitSet;
use crate::bit_words::{num_words, put_words, words_in};
use crate::number::DocId;
use crate::number_codes::{put_u32, take_u32};
use definitions::Fault;
use std::alloc::{AllocError, Global};
use std::marker::Model;

/// An alive set: an alive flag for each document of a segment.
#[derive(Drop)]
pub struct AliveBitSet {
    alive: BitSet,
}

impl Model for AliveBitSet {
    ghost use Rattle.std.specs.Prelude.{Bool, List};

    ghost Value = { List Bool };

    ghost view = { λ a. a.alive };
}

impl AliveBitSet {
    /// Makes the alive set of `max_doc` documents, all alive.
    pub fn for_max_doc(alloc: Global, max_doc: DocId) -> Result<AliveBitSet, AllocError>
        ensures { IfOk result (λ alive. alive ≡ replicate max_doc true) }
    {
        Ok(AliveBitSet {
            alive: BitSet::with_max_value_and_full(alloc, max_doc)?,
        })
    }

    /// Copies the alive set.
    pub fn try_clone(&self, alloc: Global) -> Result<AliveBitSet, AllocError>
        ensures { IfOk result (λ alive. alive ≡ self.now) }
    {
        Ok(AliveBitSet {
            alive: self.alive.try_clone(alloc)?,
        })
    }

    /// Whether `doc` is alive.
    #[inline]
    pub fn is_alive(&self, doc: DocId) -> bool
        requires { doc < length self.now }
        ensures { result ≡ slice_index_or self.now doc false }
    {
        self.alive.has(doc)
    }

    /// Marks `doc` dead.
    pub fn kill(&mut self, doc: DocId)
        requires { doc < length self.old }
        ensures { self.new ≡ slice_set self.old doc false }
    {
        self.alive.remove(doc);
    }

    /// Returns the number of documents, dead or alive.
    pub fn len(&self) -> usize
        ensures len { result ≡ length self.now }
        ensures few { length self.now < 2 ^ 32 }
    {
        self.alive.max_value() as usize
    }

    /// Returns the number of documents that are alive.
    pub fn num_alive(&self) -> usize
        ensures { result ≡ count_set self.now }
    {
        self.alive.len()
    }

    /// Returns the first document >= `doc` that is alive.
    pub fn first_alive_from(&self, doc: DocId) -> Option<DocId>
        ensures first { IsFirst (λ i. slice_index_or self.now i false) doc result }
        ensures within { IfSome result (λ at. (at < length self.now) × (length self.now < 2 ^ 32)) }
    {
        self.alive.first_from(doc)
    }

    /// Encodes the alive set: the number of documents in four bytes, then words of 64 flags.
    pub fn to_bytes(&self, alloc: Global) -> Result<Vec<u8>, AllocError>
        ensures { IfOk result (λ bytes. bytes.items ≡ alive_bytes self.now) }
    {
        let words = self.alive.words();
        let mut bytes = Vec::with_capacity(alloc, 4 + 8 * words.len())?;
        put_u32(&mut bytes, self.alive.max_value())?;
        put_words(&mut bytes, words)?;
        Ok(bytes)
    }

    /// Decodes an alive set; `Damaged` if `bytes` represent none.
    pub fn from_bytes(alloc: Global, bytes: &[u8]) -> Result<AliveBitSet, Fault>
        ensures ok { IfOk result (λ alive. IsAliveSet alive bytes.now) }
        ensures err { IfErr result (λ fault. (fault ≡ faults.OutOfMemory)
            ⊎ ((fault ≡ faults.Damaged None) × ((flags : List Bool) → ¬ IsAliveSet flags bytes.now))) }
    {
        let (max_doc, rest) = take_u32(bytes)?;
        if rest.len() != 8 * num_words(max_doc) {
            return Err(Fault::Damaged(None));
        }
        let words = words_in(alloc, rest)?;
        match BitSet::from_words(words, max_doc) {
            Some(alive) => Ok(AliveBitSet { alive }),
            None => Err(Fault::Damaged(None)),
        }
    }
}
