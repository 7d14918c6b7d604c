//! The recording of the terms of documents, field by field.

ghost use Rattle.std.specs.Prelude.{[], ◌++◌, ◌+◌, ◌<◌, ◌^◌, ◌≡◌, ◌≤◌, ◌∷◌, IfErr, IfOk, List, OnOk, length, replicate, ℕ};
ghost use Rattle.definitions.specs.Postings.{terminated};
ghost use Rattle.definitions.specs.Terms.{field_of, payload_of};
ghost use Rattle.postings_writer.specs.Occurrences.{Occurrence, places_of};
ghost use Rattle.postings_writer.specs.Recorders.{IsCountRefusal};
ghost use Rattle.postings_writer.specs.Writers.{HasFields, IsIndexedTerm, Stands};

use crate::field_postings::FieldPostings;
use definitions::Fault;
use schema::Schema;
use std::alloc::{AllocError, Global};
use std::marker::Model;
use terms::{Field, HEADER_LEN};

/// Returns the number of a term's field.
fn field_of(term: &[u8]) -> u32
    requires { HEADER_LEN ≤ length term.now }
    ensures { result ≡ field_of term.now }
{
    u32::from_be_bytes([term[0], term[1], term[2], term[3]])
}

/// Returns a term's value bytes.
fn payload_of(term: &[u8]) -> &[u8]
    requires { HEADER_LEN ≤ length term.now }
    ensures { result.now ≡ payload_of term.now }
{
    &term[HEADER_LEN..]
}

/// A writer that records the terms of documents, document by document, and writes their postings. Each call is given
/// the schema that the writer was made for. After a refused call what was recorded is of no use.
#[derive(Drop)]
pub struct PostingsWriter {
    pub(crate) alloc: Global,
    pub(crate) fields: Vec<FieldPostings>,
    // One more than the last document, or 0.
    num_docs: u32,
}

impl Model for PostingsWriter {
    ghost use Rattle.std.specs.Prelude.{◌≤◌};
    ghost use Rattle.definitions.specs.Postings.{terminated};
    ghost use Rattle.postings_writer.specs.Writers.{Writer};

    ghost Value = { Writer };

    ghost view = { λ w. record { fields = w.fields.items; num_docs = w.num_docs } };

    ghost invariant = { λ w. w.num_docs ≤ terminated };
}

impl PostingsWriter {
    /// Returns a writer for the fields of `schema`, with nothing recorded and 0 as its hash seed.
    pub fn for_schema(alloc: Global, schema: &Schema) -> Result<PostingsWriter, AllocError>
        ensures value { IfOk result (λ writer. writer
            ≡ record { fields = replicate (length schema.now) []; num_docs = 0 }) }
        ensures nothing { IfOk result (λ writer. Stands schema.now writer []) }
    {
        PostingsWriter::with_hash_seed(alloc, schema, 0)
    }

    /// Like `for_schema`, but with this hash seed: who doesn't know it can't choose terms that collide. Nothing that is
    /// written depends on it.
    pub fn with_hash_seed(
        alloc: Global,
        schema: &Schema,
        hash_seed: u128,
    ) -> Result<PostingsWriter, AllocError>
        ensures value { IfOk result (λ writer. writer
            ≡ record { fields = replicate (length schema.now) []; num_docs = 0 }) }
        ensures nothing { IfOk result (λ writer. Stands schema.now writer []) }
    {
        let num_fields = schema.num_fields();
        let mut fields = Vec::with_capacity(alloc, num_fields)?;
        for _ in 0..num_fields {
            fields.push(FieldPostings::new(alloc, hash_seed))?;
        }
        Ok(PostingsWriter {
            alloc,
            fields,
            num_docs: 0,
        })
    }

    /// Records an occurrence of `term` in `doc`, which isn't before the last one, at `position`. A count of the term in
    /// the document that would pass 4294967295 is refused.
    pub fn subscribe(
        &mut self,
        schema: &Schema,
        doc: u32,
        term: &[u8],
        position: u32,
    ) -> Result<(), Fault>
        requires made { HasFields schema.now self.old }
        requires known { IsIndexedTerm schema.now term.now }
        requires next { self.old.num_docs ≤ doc + 1 }
        requires fits { doc < terminated }
        requires placed { position < 2 ^ 31 }
        ensures ok { (os : List Occurrence) → Stands schema.now self.old os
            → OnOk result (Stands schema.now self.new (os ++ record { doc = doc; term = term.now; position = position }
            ∷ [])) }
        ensures same { OnOk result (HasFields schema.now self.new × (self.new.num_docs ≡ doc + 1)) }
        ensures err { (os : List Occurrence) → Stands schema.now self.old os
            → IfErr result (λ fault. IsCountRefusal fault (places_of term.now os ++ (doc, position) ∷ [])) }
    {
        self.record(schema, doc, field_of(term), payload_of(term), position)
    }

    /// Like `subscribe`, but for the term of a token's `text` after the first bytes in `term_buffer`. If these are no
    /// more than what precedes each value, the text is the value.
    pub(crate) fn subscribe_text(
        &mut self,
        schema: &Schema,
        doc: u32,
        term_buffer: &mut Vec<u8>,
        text: &[u8],
        position: u32,
    ) -> Result<(), Fault>
        requires made { HasFields schema.now self.old }
        requires known { IsIndexedTerm schema.now (term_buffer.old.items ++ text.now) }
        requires next { self.old.num_docs ≤ doc + 1 }
        requires fits { doc < terminated }
        requires placed { position < 2 ^ 31 }
        ensures ok { (os : List Occurrence) → Stands schema.now self.old os
            → OnOk result (Stands schema.now self.new (os ++ record
            { doc = doc; term = term_buffer.old.items ++ text.now; position = position } ∷ [])) }
        ensures same { OnOk result (HasFields schema.now self.new × (self.new.num_docs ≡ doc + 1)
            × (term_buffer.new.items ≡ term_buffer.old.items)) }
        ensures err { (os : List Occurrence) → Stands schema.now self.old os
            → IfErr result (λ fault. IsCountRefusal fault (places_of (term_buffer.old.items ++ text.now) os ++
            (doc, position) ∷ [])) }
    {
        let prefix_len = term_buffer.len();
        if prefix_len == HEADER_LEN {
            return self.record(schema, doc, field_of(term_buffer), text, position);
        }
        term_buffer.extend_from_slice(text)?;
        self.subscribe(schema, doc, term_buffer, position)?;
        term_buffer.truncate(prefix_len);
        Ok(())
    }

    /// Like `subscribe`, but for a term by the number of its field and its value bytes, `key`.
    fn record(
        &mut self,
        schema: &Schema,
        doc: u32,
        field: u32,
        key: &[u8],
        position: u32,
    ) -> Result<(), Fault>
        requires made { HasFields schema.now self.old }
        requires known { (term : List ℕ) × IsIndexedTerm schema.now term × (field ≡ field_of term)
            × (key.now ≡ payload_of term) }
        requires next { self.old.num_docs ≤ doc + 1 }
        requires fits { doc < terminated }
        requires placed { position < 2 ^ 31 }
        ensures ok { (term : List ℕ) (os : List Occurrence) → IsIndexedTerm schema.now term → field ≡ field_of term
            → key.now ≡ payload_of term → Stands schema.now self.old os
            → OnOk result (Stands schema.now self.new (os ++ record { doc = doc; term = term; position = position }
            ∷ [])) }
        ensures same { OnOk result (HasFields schema.now self.new × (self.new.num_docs ≡ doc + 1)) }
        ensures err { (term : List ℕ) (os : List Occurrence) → IsIndexedTerm schema.now term → field ≡ field_of term
            → key.now ≡ payload_of term → Stands schema.now self.old os
            → IfErr result (λ fault. IsCountRefusal fault (places_of term os ++ (doc, position) ∷ [])) }
    {
        let entry = schema.get_field_entry(Field::from_field_id(field));
        self.fields[field as usize].record(self.alloc, entry, key, doc, position)?;
        self.num_docs = doc + 1;
        Ok(())
    }
}
