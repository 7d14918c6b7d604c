//! The state of the indexing of a document: the terms of its values are written into one buffer, and recorded.

ghost use Rattle.std.specs.Prelude.{[], ◌++◌, ◌+◌, ◌<◌, ◌^◌, ◌∷◌, ◌≡◌, IfErr, IfOk, List, OnOk, length, map, ℕ};
ghost use Rattle.common.specs.Token.{token_of};
ghost use Rattle.definitions.specs.Analyzers.{kept};
ghost use Rattle.definitions.specs.Postings.{terminated};
ghost use Rattle.definitions.specs.Schema.{json_kind, text_kind};
ghost use Rattle.definitions.specs.Terms.{json_term, path_of_keys, term_bytes, type_code};
ghost use Rattle.postings_writer.specs.Writers.{HasFields, IsIndexedTerm, Stands};
ghost use Rattle.terms.specs.Kinds.{kind_of};
ghost use Rattle.document_indexer.specs.Contexts.{CanIndex, IsReady, Records, Refuses, context};
ghost use Rattle.document_indexer.specs.FieldLengths.{cut};
ghost use Rattle.document_indexer.specs.Steps.{path_step, term_step, text_step};

use crate::indexing_positions::{IndexingPositions, PATH_GAP};
use crate::json_field::JsonField;
use common::{Analyzer, BufferedStream, Token, TokenBuffer};
use definitions::Fault;
use postings_writer::PostingsWriter;
use schema::Schema;
use std::alloc::{AllocError, Global};
use std::marker::Model;
use terms::{Field, Type, push_json_path, push_term_header};

/// What is recorded, the starts of the next texts, and the number of the document that is being indexed. Each term is
/// written into one buffer, and the tokens of each text into another.
#[derive(Drop)]
pub(crate) struct IndexingContext {
    alloc: Global,
    postings_writer: PostingsWriter,
    positions: IndexingPositions,
    doc: u32,
    term_buffer: Vec<u8>,
    tokens: TokenBuffer,
}

impl Model for IndexingContext {
    ghost use Rattle.document_indexer.specs.Contexts.{Context};

    ghost Value = { Context };

    ghost view = { λ c. record { writer = c.postings_writer; positions = c.positions; doc = c.doc } };
}

impl IndexingContext {
    /// Returns a context with nothing recorded, before the first document. Terms are hashed by `hash_seed`.
    pub(crate) fn for_schema(
        alloc: Global,
        schema: &Schema,
        hash_seed: u128,
    ) -> Result<IndexingContext, AllocError>
        ensures stands { IfOk result (λ c. Stands schema.now c.writer []) }
        ensures docs { IfOk result (λ c. c.writer.num_docs ≡ 0) }
        ensures rest { IfOk result (λ c. (c.positions ≡ []) × (c.doc ≡ 0)) }
    {
        let postings_writer = PostingsWriter::with_hash_seed(alloc, schema, hash_seed)?;
        Ok(IndexingContext {
            alloc,
            postings_writer,
            positions: IndexingPositions::new(alloc, hash_seed),
            doc: 0,
            term_buffer: Vec::new(alloc),
            tokens: TokenBuffer::new(alloc),
        })
    }

    /// Returns the allocator.
    pub(crate) fn alloc(&self) -> Global {
        self.alloc
    }

    /// Returns the document that is being indexed.
    pub(crate) fn doc(&self) -> u32
        ensures { result ≡ self.now.doc }
    {
        self.doc
    }

    /// Returns what is recorded.
    pub(crate) fn postings_writer(&self) -> &PostingsWriter
        ensures { result.now ≡ self.now.writer }
    {
        &self.postings_writer
    }

    /// Moves on to the next document.
    pub(crate) fn end_document(&mut self)
        requires { self.old.doc < terminated }
        ensures { self.new ≡ record self.old { doc = self.old.doc + 1 } }
    {
        self.doc += 1;
    }

    /// Records the term of a value of type `kind`, by its bytes.
    pub(crate) fn index_term(
        &mut self,
        schema: &Schema,
        field: Field,
        kind: Type,
        value: &[u8],
    ) -> Result<(), Fault>
        requires { CanIndex schema.now self.old field (kind_of kind) }
        ensures ok { OnOk result (Records schema.now self.old self.new
            (term_step (term_bytes field (kind_of kind) value.now) ∷ [])) }
        ensures err { IfErr result (Refuses schema.now self.old (term_step (term_bytes field (kind_of kind) value.now)
            ∷ [])) }
    {
        self.term_buffer.clear();
        push_term_header(&mut self.term_buffer, field, kind)?;
        self.term_buffer.extend_from_slice(value)?;
        self.postings_writer
            .subscribe(schema, self.doc, &self.term_buffer, 0)
    }

    /// Records the tokens of a text of a text field, except those that are too long, and returns how many were
    /// recorded. `gap` positions are left out before the field's next text.
    pub(crate) fn index_text<A: Analyzer>(
        &mut self,
        schema: &Schema,
        analyzer: &A,
        field: Field,
        tokenizer: &str,
        gap: u32,
        text: &str,
    ) -> Result<u32, Fault>
        requires can { CanIndex schema.now self.old field text_kind }
        requires small { gap < 2 ^ 31 }
        ensures ok { OnOk result (Records schema.now self.old self.new
            (text_step (term_bytes field text_kind []) gap
            (kept (A.analyze analyzer.now tokenizer.now text.now)) ∷ [])) }
        ensures num_tokens { IfOk result (λ n. n
            ≡ cut (length (kept (A.analyze analyzer.now tokenizer.now text.now)))) }
        ensures err { IfErr result (Refuses schema.now self.old
            (text_step (term_bytes field text_kind []) gap
            (kept (A.analyze analyzer.now tokenizer.now text.now)) ∷ [])) }
    {
        analyzer.tokens_into(self.alloc, tokenizer, text, &mut self.tokens)?;
        self.term_buffer.clear();
        push_term_header(&mut self.term_buffer, field, Type::Str)?;
        record_text(
            self.alloc,
            schema,
            self.doc,
            &mut self.term_buffer,
            &self.tokens,
            &mut self.postings_writer,
            &mut self.positions,
            gap,
        )
    }

    /// Like `index_text`, but for a text that comes with its tokens.
    pub(crate) fn index_tokens(
        &mut self,
        schema: &Schema,
        field: Field,
        gap: u32,
        tokens: &[Token],
    ) -> Result<u32, Fault>
        requires can { CanIndex schema.now self.old field text_kind }
        requires small { gap < 2 ^ 31 }
        ensures ok { OnOk result (Records schema.now self.old self.new
            (text_step (term_bytes field text_kind []) gap (kept (map token_of tokens.now)) ∷ [])) }
        ensures num_tokens { IfOk result (λ n. n ≡ cut (length (kept (map token_of tokens.now)))) }
        ensures err { IfErr result (Refuses schema.now self.old
            (text_step (term_bytes field text_kind []) gap (kept (map token_of tokens.now)) ∷ [])) }
    {
        self.tokens.put_tokens(tokens)?;
        self.term_buffer.clear();
        push_term_header(&mut self.term_buffer, field, Type::Str)?;
        record_text(
            self.alloc,
            schema,
            self.doc,
            &mut self.term_buffer,
            &self.tokens,
            &mut self.postings_writer,
            &mut self.positions,
            gap,
        )
    }

    /// Records the term of a value at `keys` of a JSON field, by the value's type and bytes.
    pub(crate) fn index_leaf(
        &mut self,
        json_field: &JsonField<'_>,
        keys: &[&str],
        kind: Type,
        value: &[u8],
    ) -> Result<(), Fault>
        requires { CanIndex json_field.now.schema.now self.old json_field.now.field json_kind }
        ensures ok { OnOk result (Records json_field.now.schema.now self.old self.new
            (term_step (json_term json_field.now.field (path_of_keys json_field.now.expand_dots
            (map (λ k. k.now) keys.now)) (type_code (kind_of kind) ++ value.now)) ∷ [])) }
        ensures err { IfErr result (Refuses json_field.now.schema.now self.old
            (term_step (json_term json_field.now.field (path_of_keys json_field.now.expand_dots
            (map (λ k. k.now) keys.now)) (type_code (kind_of kind) ++ value.now)) ∷ [])) }
    {
        begin_leaf(&mut self.term_buffer, json_field, keys, kind)?;
        self.term_buffer.extend_from_slice(value)?;
        self.postings_writer
            .subscribe(json_field.schema, self.doc, &self.term_buffer, 0)
    }

    /// Records the tokens of a text at `keys` of a JSON field, except those that are too long.
    pub(crate) fn index_path_text<A: Analyzer>(
        &mut self,
        analyzer: &A,
        json_field: &JsonField<'_>,
        keys: &[&str],
        text: &str,
    ) -> Result<(), Fault>
        requires { CanIndex json_field.now.schema.now self.old json_field.now.field json_kind }
        ensures ok { OnOk result (Records json_field.now.schema.now self.old self.new
            (path_step json_field.now.field (path_of_keys json_field.now.expand_dots (map (λ k. k.now) keys.now))
            (kept (A.analyze analyzer.now json_field.now.tokenizer.now text.now)) ∷ [])) }
        ensures err { IfErr result (Refuses json_field.now.schema.now self.old
            (path_step json_field.now.field (path_of_keys json_field.now.expand_dots (map (λ k. k.now) keys.now))
            (kept (A.analyze analyzer.now json_field.now.tokenizer.now text.now)) ∷ [])) }
    {
        analyzer.tokens_into(self.alloc, json_field.tokenizer, text, &mut self.tokens)?;
        begin_leaf(&mut self.term_buffer, json_field, keys, Type::Str)?;
        record_text(
            self.alloc,
            json_field.schema,
            self.doc,
            &mut self.term_buffer,
            &self.tokens,
            &mut self.postings_writer,
            &mut self.positions,
            PATH_GAP,
        )?;
        Ok(())
    }
}

/// Sets `term_buffer` to the first bytes of the terms of values of type `kind` at `keys` of a JSON field.
fn begin_leaf(
    term_buffer: &mut Vec<u8>,
    json_field: &JsonField<'_>,
    keys: &[&str],
    kind: Type,
) -> Result<(), AllocError>
    ensures { OnOk result (term_buffer.new.items
        ≡ json_term json_field.now.field (path_of_keys json_field.now.expand_dots (map (λ k. k.now) keys.now))
        (type_code (kind_of kind))) }
{
    term_buffer.clear();
    push_json_path(term_buffer, json_field.field, keys, json_field.expand_dots)?;
    term_buffer.push(kind.to_code())?;
    Ok(())
}

/// Records the tokens after the first bytes in `term_buffer`, except too long ones; returns how many were recorded.
/// `gap` positions are left out before the next text with these first bytes.
fn record_text(
    alloc: Global,
    schema: &Schema,
    doc: u32,
    term_buffer: &mut Vec<u8>,
    tokens: &TokenBuffer,
    postings_writer: &mut PostingsWriter,
    positions: &mut IndexingPositions,
    gap: u32,
) -> Result<u32, Fault>
    requires ready { IsReady schema.now (context postings_writer.old positions.old doc) }
    requires small { gap < 2 ^ 31 }
    requires known { (text : List ℕ) → IsIndexedTerm schema.now (term_buffer.old.items ++ text) }
    ensures ok { OnOk result (Records schema.now (context postings_writer.old positions.old doc)
        (context postings_writer.new positions.new doc)
        (text_step term_buffer.old.items gap (kept tokens.now.1) ∷ [])) }
    ensures num_tokens { IfOk result (λ n. n ≡ cut (length (kept tokens.now.1))) }
    ensures err { IfErr result (Refuses schema.now (context postings_writer.old positions.old doc)
        (text_step term_buffer.old.items gap (kept tokens.now.1) ∷ [])) }
{
    let start = positions.start_of(doc, term_buffer);
    let mut stream = BufferedStream::new(tokens);
    let text = postings_writer.index_text(schema, doc, term_buffer, &mut stream, start, gap)?;
    positions.set_start(alloc, doc, term_buffer, text.next_start)?;
    Ok(text.num_tokens)
}
