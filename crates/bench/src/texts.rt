//! How long the documents of a text take to be indexed and written, one for each of its lines.

ghost use Rattle.std.specs.Prelude.{List, OnOk};
ghost use Rattle.definitions.specs.Values.{Document};
ghost use Rattle.document_indexer.specs.Indexers.{HasIndexed};

use crate::times::{nanos_since, now};
use common::{Analyzer, RawAndDefault, TokenBuffer};
use definitions::Fault;
use document::CompactDoc;
use document_indexer::DocumentIndexer;
use options::TEXT;
use schema::{Field, Schema};
use std::alloc::Global;

/// How many runs the best is taken of.
const RUNS: u32 = 5;

/// The name of the tokenizer.
const TOKENIZER: &str = "default";

/// What was measured of a text: how many tokens it has, and times in nanoseconds.
#[derive(Clone, Copy)]
struct Row {
    tokens: u64,
    analysis: u128,
    adding: u128,
    writing: u128,
    bytes: usize,
}

/// Measures a text, and prints the best of some runs.
pub(crate) fn measure(rt: &HostRuntime, alloc: Global, text: &str) -> Result<(), Fault> {
    let docs = documents(alloc, text)?;
    let mut best = run_of(rt, alloc, text, &docs)?;
    for _ in 1..RUNS {
        let next = run_of(rt, alloc, text, &docs)?;
        best.analysis = best.analysis.min(next.analysis);
        best.adding = best.adding.min(next.adding);
        best.writing = best.writing.min(next.writing);
    }
    let tokens = u128::from(best.tokens.max(1));
    let analysis = best.analysis / tokens;
    let adding = best.adding / tokens;
    let writing = best.writing / tokens;
    let _ = println!(rt;
        "| documents | tokens | analysis alone, ns a token | indexing with analysis, ns a token | writing, ns a token | bytes |"
    );
    let _ = println!(rt; "|---|---|---|---|---|---|");
    let _ = println!(rt;
        "| {} | {} | {analysis} | {adding} | {writing} | {} |",
        docs.len(),
        best.tokens,
        best.bytes
    );
    Ok(())
}

/// A document for each line.
fn documents(alloc: Global, text: &str) -> Result<Vec<CompactDoc>, Fault> {
    let mut docs = Vec::new(alloc);
    for line in text.lines() {
        let mut doc = CompactDoc::new(alloc);
        doc.add_text(Field::from_field_id(0), line)?;
        docs.push(doc)?;
    }
    Ok(docs)
}

/// One run.
fn run_of(rt: &HostRuntime, alloc: Global, text: &str, docs: &[CompactDoc]) -> Result<Row, Fault> {
    let mut builder = Schema::builder(alloc);
    builder.add_text_field("body", TEXT)?;
    let schema = builder.build();
    let begun = now(rt)?;
    let tokens = count_tokens(alloc, text)?;
    let analysis = nanos_since(rt, begun)?;
    let mut indexer = DocumentIndexer::for_schema(alloc, &schema)?;
    let begun = now(rt)?;
    index_all(&mut indexer, &schema, &RawAndDefault, docs)?;
    let adding = nanos_since(rt, begun)?;
    let begun = now(rt)?;
    let (terms, postings, positions, lengths) = indexer.serialize(alloc, &schema)?;
    let writing = nanos_since(rt, begun)?;
    let sizes = [terms.len(), postings.len(), positions.len(), lengths.len()];
    Ok(Row {
        tokens,
        analysis,
        adding,
        writing,
        bytes: sizes[0]
            .wrapping_add(sizes[1])
            .wrapping_add(sizes[2])
            .wrapping_add(sizes[3]),
    })
}

/// How many tokens the lines of a text have.
fn count_tokens(alloc: Global, text: &str) -> Result<u64, Fault> {
    let mut tokens = 0u64;
    let mut found = TokenBuffer::new(alloc);
    for line in text.lines() {
        RawAndDefault.tokens_into(alloc, TOKENIZER, line, &mut found)?;
        tokens = tokens.wrapping_add(found.len() as u64);
    }
    Ok(tokens)
}

/// Indexes documents behind those before.
pub(crate) fn index_all<A: Analyzer>(
    indexer: &mut DocumentIndexer,
    schema: &Schema,
    analyzer: &A,
    docs: &[CompactDoc],
) -> Result<(), Fault>
    requires { (before : List Document) × HasIndexed schema.now (A.analyze analyzer.now) indexer.old before }
    ensures { OnOk result ((all : List Document) × HasIndexed schema.now (A.analyze analyzer.now) indexer.new all) }
{
    for doc in docs {
        indexer.add(schema, analyzer, doc)?;
    }
    Ok(())
}
