//! The section of terms, written as bytes.

ghost use Rattle.std.specs.Prelude.{[], ◌++◌, ◌<◌, ◌≡◌, IfErr, OnOk, nat_eq};
ghost use Rattle.definitions.specs.NumberCodes.{u32_bytes, u64_bytes, vint_bytes};
ghost use Rattle.postings_writer.specs.FieldWriting.{inserted};
ghost use Rattle.postings_writer.specs.TermWriting.{IsRefusal};

use common::{put_u32, put_u64, put_vint};
use definitions::Fault;
use front_coding::put_key;
use std::alloc::{AllocError, Global};
use std::marker::Model;

/// The terms of fields: the fields that are closed, and the terms of the one that isn't, with the key of the last of these.
#[derive(Drop)]
pub(crate) struct TermDictionaryBuilder {
    output: Vec<u8>,
    entries: Vec<u8>,
    num_terms: u32,
    last: Vec<u8>,
}

impl Model for TermDictionaryBuilder {
    ghost use Rattle.postings_writer.specs.FieldWriting.{Terms};

    ghost Value = { Terms };

    ghost view = { λ b. record { closed = b.output.items; entries = b.entries.items; num_terms = b.num_terms; last = b.last.items } };
}

impl TermDictionaryBuilder {
    /// Returns a builder that appends to `output`.
    pub(crate) fn create(alloc: Global, output: Vec<u8>) -> TermDictionaryBuilder
        ensures { result ≡ record { closed = output.items; entries = []; num_terms = 0; last = [] } }
    {
        TermDictionaryBuilder {
            output,
            entries: Vec::new(alloc),
            num_terms: 0,
            last: Vec::new(alloc),
        }
    }

    /// Adds the term with the value bytes `key` to the field: how many documents it has, and how many bytes its
    /// postings and positions take. A field has at most 4294967295 terms.
    pub(crate) fn insert(
        &mut self,
        key: &[u8],
        doc_freq: u32,
        postings_len: u64,
        positions_len: u64,
    ) -> Result<(), Fault>
        ensures ok { OnOk result (self.new
            ≡ inserted key.now
            (record { doc_freq = doc_freq; postings_len = postings_len; positions_len = positions_len }) self.old) }
        ensures within { OnOk result (self.old.num_terms < 4294967295) }
        ensures err { IfErr result (λ fault. IsRefusal fault (nat_eq self.old.num_terms 4294967295)) }
    {
        if self.num_terms == u32::MAX {
            return Err(Fault::Limit);
        }
        let number = u64::from(self.num_terms);
        put_key(&mut self.entries, true, number, &self.last, key)?;
        put_vint(&mut self.entries, u64::from(doc_freq))?;
        put_vint(&mut self.entries, postings_len)?;
        put_vint(&mut self.entries, positions_len)?;
        self.last.clear();
        self.last.extend_from_slice(key)?;
        self.num_terms += 1;
        Ok(())
    }

    /// Closes `field` with its number of tokens.
    pub(crate) fn close_field(&mut self, field: u32, num_tokens: u64) -> Result<(), AllocError>
        ensures { OnOk result (self.new
            ≡ record {
              closed = self.old.closed ++ u32_bytes field ++ u64_bytes num_tokens ++ vint_bytes
                  self.old.num_terms ++ self.old.entries;
              entries = [];
              num_terms = 0;
              last = [];
            }) }
    {
        put_u32(&mut self.output, field)?;
        put_u64(&mut self.output, num_tokens)?;
        put_vint(&mut self.output, u64::from(self.num_terms))?;
        self.output.extend_from_slice(&self.entries)?;
        self.entries.clear();
        self.last.clear();
        self.num_terms = 0;
        Ok(())
    }

    /// Returns the bytes of the fields that are closed.
    pub(crate) fn finish(self) -> Vec<u8>
        ensures { result.items ≡ self.closed }
    {
        self.output
    }
}
