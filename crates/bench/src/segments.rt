//! How long the steps take in which documents become a segment that is open: one document for each line of a text, JSON
//! with a title, a body, a section and a size.

use crate::segment_steps::{Steps, steps_of};
use common::{Analyzer, RawAndDefault, TokenBuffer};
use definitions::Fault;
use document::CompactDoc;
use options::{
    INDEXED, IndexRecordOption, NumericOptions, STORED, STRING, TEXT, TextFieldIndexing,
    TextOptions,
};
use schema::Schema;
use serde_json::Value;
use std::alloc::Global;
use std::time::Clock;

/// How many runs the best is taken of.
const RUNS: u32 = 5;

/// The name of the tokenizer.
const TOKENIZER: &str = "default";

/// Measures lines, and prints the best of some runs.
pub(crate) fn measure(rt: &HostRuntime, alloc: Global, text: &str) -> Result<(), Fault> {
    let lines = values(alloc, text)?;
    let schema = schema_with_lengths(alloc)?;
    let bare = schema_without_lengths(alloc)?;
    let docs = documents(alloc, &schema, &lines)?;
    let mut best = steps_of(rt, alloc, &schema, &bare, &lines, &docs)?;
    for _ in 1..RUNS {
        best = best.best_of(&steps_of(rt, alloc, &schema, &bare, &lines, &docs)?);
    }
    let _ = println!(rt;
        "| {} documents, {} bytes of lines, a segment of {} bytes | ms | MB a second |",
        docs.len(),
        text.len(),
        best.bytes
    );
    let _ = println!(rt; "|---|---|---|");
    print_step(
        rt,
        "analysis of titles and bodies alone",
        best.analysis,
        text.len(),
    );
    print_step(
        rt,
        "indexing, with analysis and without lengths",
        best.without_lengths,
        text.len(),
    );
    print_step(
        rt,
        "indexing, with analysis and lengths",
        best.indexing,
        text.len(),
    );
    print_step(rt, "storing", best.storing, text.len());
    print_step(
        rt,
        "adding: its tests, storing and indexing",
        best.adding,
        text.len(),
    );
    print_step(rt, "closing", best.closing, text.len());
    print_step(rt, "opening", best.opening, text.len());
    Ok(())
}

/// Prints the time of a step, and how many millions of bytes of lines it takes a second.
fn print_step(rt: &HostRuntime, name: &str, nanos: u128, len: usize) {
    let millis = nanos / 1000000;
    let speed = (len as u128).saturating_mul(1000) / nanos.max(1);
    let _ = println!(rt; "| {name} | {millis} | {speed} |");
}

/// A value for each line; lines that are no JSON are left out.
pub(crate) fn values(alloc: Global, text: &str) -> Result<Vec<Value>, Fault> {
    let mut values = Vec::new(alloc);
    for line in text.lines() {
        if let Ok(value) = Value::from_str(alloc, line) {
            values.push(value)?;
        }
    }
    Ok(values)
}

/// A document for each value.
pub(crate) fn documents(
    alloc: Global,
    schema: &Schema,
    lines: &[Value],
) -> Result<Vec<CompactDoc>, Fault> {
    let mut docs = Vec::with_capacity(alloc, lines.len())?;
    for line in lines {
        docs.push(CompactDoc::from_json_object(alloc, schema, line)?)?;
    }
    Ok(docs)
}

/// All fields are stored, and keep their lengths.
pub(crate) fn schema_with_lengths(alloc: Global) -> Result<Schema, Fault> {
    let mut fields = Schema::builder(alloc);
    fields.add_text_field("title", TEXT | STORED)?;
    fields.add_text_field("body", TEXT | STORED)?;
    fields.add_text_field("section", STRING | STORED)?;
    fields.add_u64_field("size", INDEXED | STORED)?;
    Ok(fields.build())
}

/// All fields are stored, and keep no lengths.
fn schema_without_lengths(alloc: Global) -> Result<Schema, Fault> {
    let mut fields = Schema::builder(alloc);
    let positions = IndexRecordOption::WithFreqsAndPositions;
    fields.add_text_field("title", text_options(alloc, TOKENIZER, positions)?)?;
    fields.add_text_field("body", text_options(alloc, TOKENIZER, positions)?)?;
    fields.add_text_field(
        "section",
        text_options(alloc, "raw", IndexRecordOption::Basic)?,
    )?;
    fields.add_u64_field("size", NumericOptions::default().set_indexed().set_stored())?;
    Ok(fields.build())
}

/// The options of a field of texts without lengths.
fn text_options(
    alloc: Global,
    tokenizer: &str,
    recorded: IndexRecordOption,
) -> Result<TextOptions, Fault> {
    let indexing = TextFieldIndexing::default()
        .set_tokenizer(alloc, tokenizer)?
        .set_index_option(recorded)
        .set_fieldnorms(false);
    Ok(
        TextOptions::default()
            .set_indexing_options(indexing)
            .set_stored(),
    )
}

/// How many tokens the titles and the bodies have.
pub(crate) fn count_tokens(alloc: Global, lines: &[Value]) -> Result<u64, Fault> {
    let mut tokens = 0u64;
    let mut found = TokenBuffer::new(alloc);
    for line in lines {
        for name in ["title", "body"] {
            if let Some(text) = line.get(name).and_then(Value::as_str) {
                RawAndDefault.tokens_into(alloc, TOKENIZER, text, &mut found)?;
                tokens = tokens.wrapping_add(found.len() as u64);
            }
        }
    }
    Ok(tokens)
}
