//! The recording of the tokens of texts.

ghost use Rattle.std.specs.Prelude.{[], ◌++◌, ◌+◌, ◌<◌, ◌^◌, ◌≡◌, ◌≤◌, ◌∷◌, IfErr, IfOk, List, OnOk, length, min, ℕ};
ghost use Rattle.common.specs.Buffers.{token_of_ref};
ghost use Rattle.definitions.specs.Analyzers.{kept};
ghost use Rattle.definitions.specs.Places.{ends, greatest_from, next_start};
ghost use Rattle.definitions.specs.Postings.{terminated};
ghost use Rattle.postings_writer.specs.Occurrences.{Occurrence};
ghost use Rattle.postings_writer.specs.Texts.{AreWithin, EndsPast, IsTextRefusal, text_occurrences};
ghost use Rattle.postings_writer.specs.Writers.{HasFields, IsIndexedTerm, Stands};

use crate::postings_writer::PostingsWriter;
use crate::value_gaps::{position_of, start_after};
use common::{MAX_TOKEN_LEN, TokenRef, TokenStream};
use definitions::Fault;
use schema::Schema;

/// How a text was recorded.
#[derive(Clone, Copy, Debug)]
pub struct IndexedText {
    /// The number of its tokens that were kept, or 4294967295 if they are more.
    /// The cap changes no length id: from 2013265944 on each is 255.
    pub num_tokens: u32,
    /// The start of the next text, or 2147483648 if that is less.
    pub next_start: u32,
}

impl PostingsWriter {
    /// Records the tokens of a text that begins at `start`, each as the term of its own text after the first bytes in
    /// `term_buffer`. Tokens over `MAX_TOKEN_LEN` bytes are dropped. A token whose end plus `gap` isn't below
    /// 2147483648 is refused, so a start that was cut to 2147483648 refuses what the real one does.
    pub fn index_text<T: TokenStream>(
        &mut self,
        schema: &Schema,
        doc: u32,
        term_buffer: &mut Vec<u8>,
        stream: &mut T,
        start: u32,
        gap: u32,
    ) -> Result<IndexedText, Fault>
        requires made { HasFields schema.now self.old }
        requires known { (text : List ℕ) → IsIndexedTerm schema.now (term_buffer.old.items ++ text) }
        requires next { self.old.num_docs ≤ doc + 1 }
        requires fits { doc < terminated }
        requires small { gap < 2 ^ 31 }
        ensures ok { (os : List Occurrence) (real : ℕ) → Stands schema.now self.old os → start ≡ min (2 ^ 31) real
            → OnOk result (Stands schema.now self.new (os ++ text_occurrences doc term_buffer.old.items real
            (kept (T.rest stream.old)))) }
        ensures next { (real : ℕ) → start ≡ min (2 ^ 31) real
            → IfOk result (λ text. text.next_start ≡ min (2 ^ 31) (next_start gap real (kept (T.rest stream.old)))) }
        ensures num_tokens { IfOk result (λ text. text.num_tokens
            ≡ min 4294967295 (length (kept (T.rest stream.old)))) }
        ensures within { (real : ℕ) → start ≡ min (2 ^ 31) real
            → OnOk result (AreWithin gap real (kept (T.rest stream.old))) }
        ensures same { OnOk result (HasFields schema.now self.new × (self.new.num_docs ≤ doc + 1)
            × (term_buffer.new.items ≡ term_buffer.old.items)) }
        ensures err { (os : List Occurrence) (real : ℕ) → Stands schema.now self.old os → start ≡ min (2 ^ 31) real
            → IfErr result (λ fault. IsTextRefusal fault os doc term_buffer.old.items gap real
            (kept (T.rest stream.old))) }
    {
        let (end, num_tokens) = self.index_tokens(schema, doc, term_buffer, stream, start, gap)?;
        Ok(IndexedText {
            num_tokens,
            next_start: start_after(end, gap),
        })
    }

    /// Records the tokens of a text that begins at `start`; returns where they end, and how many were kept.
    fn index_tokens<T: TokenStream>(
        &mut self,
        schema: &Schema,
        doc: u32,
        term_buffer: &mut Vec<u8>,
        stream: &mut T,
        start: u32,
        gap: u32,
    ) -> Result<(u32, u32), Fault>
        requires made { HasFields schema.now self.old }
        requires known { (text : List ℕ) → IsIndexedTerm schema.now (term_buffer.old.items ++ text) }
        requires next { self.old.num_docs ≤ doc + 1 }
        requires fits { doc < terminated }
        ensures ok { (os : List Occurrence) → Stands schema.now self.old os
            → OnOk result (Stands schema.now self.new (os ++ text_occurrences doc term_buffer.old.items start
            (kept (T.rest stream.old)))) }
        ensures end { IfOk result (λ p. p.0 ≡ greatest_from start (ends start (kept (T.rest stream.old)))) }
        ensures num_tokens { IfOk result (λ p. p.1 ≡ min 4294967295 (length (kept (T.rest stream.old)))) }
        ensures within { OnOk result (AreWithin gap start (kept (T.rest stream.old))) }
        ensures same { OnOk result (HasFields schema.now self.new × (self.new.num_docs ≤ doc + 1)
            × (term_buffer.new.items ≡ term_buffer.old.items)) }
        ensures err { (os : List Occurrence) → Stands schema.now self.old os
            → IfErr result (λ fault. IsTextRefusal fault os doc term_buffer.old.items gap start
            (kept (T.rest stream.old))) }
    {
        let mut end = start;
        let mut num_tokens: u32 = 0;
        while stream.advance() {
            let (token_end, count) = self.index_token(
                schema,
                doc,
                term_buffer,
                stream.token(),
                start,
                gap,
            )?;
            end = end.max(token_end);
            num_tokens = num_tokens.saturating_add(count);
        }
        Ok((end, num_tokens))
    }

    /// Records a token, unless it is dropped; returns its end, or `start`, and how many tokens that is.
    fn index_token(
        &mut self,
        schema: &Schema,
        doc: u32,
        term_buffer: &mut Vec<u8>,
        token: TokenRef<'_>,
        start: u32,
        gap: u32,
    ) -> Result<(u32, u32), Fault>
        requires made { HasFields schema.now self.old }
        requires known { (text : List ℕ) → IsIndexedTerm schema.now (term_buffer.old.items ++ text) }
        requires next { self.old.num_docs ≤ doc + 1 }
        requires fits { doc < terminated }
        ensures ok { (os : List Occurrence) → Stands schema.now self.old os
            → OnOk result (Stands schema.now self.new (os ++ text_occurrences doc term_buffer.old.items start
            (kept (token_of_ref token.entry ∷ [])))) }
        ensures end { IfOk result (λ p. p.0 ≡ greatest_from start (ends start (kept (token_of_ref token.entry ∷ [])))) }
        ensures count { IfOk result (λ p. p.1 ≡ length (kept (token_of_ref token.entry ∷ []))) }
        ensures within { OnOk result (AreWithin gap start (kept (token_of_ref token.entry ∷ []))) }
        ensures same { OnOk result (HasFields schema.now self.new × (self.new.num_docs ≤ doc + 1)
            × (term_buffer.new.items ≡ term_buffer.old.items)) }
        ensures err { (os : List Occurrence) → Stands schema.now self.old os
            → IfErr result (λ fault. IsTextRefusal fault os doc term_buffer.old.items gap start
            (kept (token_of_ref token.entry ∷ []))) }
    {
        if token.text.len() > MAX_TOKEN_LEN {
            return Ok((start, 0));
        }
        let (position, end) = position_of(start, gap, token)?;
        self.subscribe_text(schema, doc, term_buffer, token.text.as_bytes(), position)?;
        Ok((end, 1))
    }
}
