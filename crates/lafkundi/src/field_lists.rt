//! Fields by their names, as a command line lists them.

ghost use Rattle.std.specs.Prelude.{◌≡◌, IfOk};

use clap::ArgMatches;
use index::{
    FacetOptions, Fault, INDEXED, IndexRecordOption, JsonObjectOptions, STORED, STRING, Schema,
    SchemaBuilder, TextFieldIndexing, TextOptions,
};
use std::alloc::Global;

/// The kinds of fields, each with what it is.
pub(crate) const KINDS: [(&str, &str); 8] = [
    ("text", "Texts that are sought by words and phrases"),
    ("raw", "Texts that are sought whole, as identifiers"),
    (
        "facet",
        "Labels, as /sea/wind, that are sought with all below them",
    ),
    ("date", "Dates, as 2025-10-07T00:00:00Z"),
    ("u64", "Whole numbers from 0"),
    ("i64", "Whole numbers"),
    ("bool", "true or false"),
    ("json", "Objects, sought by a path and a word"),
];

/// Makes a schema of the fields that are listed, those of the first kind first.
pub(crate) fn schema_of_lists(alloc: Global, given: &ArgMatches<'_>) -> Result<Schema, Fault> {
    let analyzer = given.get_str("analyzer").unwrap_or("");
    let mut builder = Schema::builder(alloc);
    for (kind, _help) in KINDS {
        for name in given.get_strs(kind).unwrap_or(&[]) {
            add_field(alloc, &mut builder, kind, name, analyzer)?;
        }
    }
    Ok(builder.build())
}

/// Adds a field of a kind, which is indexed and stored.
fn add_field(
    alloc: Global,
    builder: &mut SchemaBuilder,
    kind: &str,
    name: &str,
    analyzer: &str,
) -> Result<(), Fault> {
    let _field = match kind {
        "text" => builder.add_text_field(name, text_options(alloc, analyzer)?)?,
        "raw" => builder.add_text_field(name, STRING | STORED)?,
        "facet" => builder.add_facet_field(name, FacetOptions::default().set_stored())?,
        "date" => builder.add_date_field(name, INDEXED | STORED)?,
        "u64" => builder.add_u64_field(name, INDEXED | STORED)?,
        "i64" => builder.add_i64_field(name, INDEXED | STORED)?,
        "bool" => builder.add_bool_field(name, INDEXED | STORED)?,
        _ => builder.add_json_field(name, json_options(alloc, analyzer)?)?,
    };
    Ok(())
}

/// Returns the options of a text of words with positions.
fn text_options(alloc: Global, analyzer: &str) -> Result<TextOptions, Fault> {
    let indexing = words(alloc, analyzer)?;
    Ok(
        TextOptions::default()
            .set_indexing_options(indexing)
            .set_stored(),
    )
}

/// Returns the options of objects, whose texts are cut into words with positions.
fn json_options(alloc: Global, analyzer: &str) -> Result<JsonObjectOptions, Fault> {
    let indexing = words(alloc, analyzer)?;
    Ok(
        JsonObjectOptions::default()
            .set_indexing_options(indexing)
            .set_stored(),
    )
}

/// Returns how texts are cut, with their words' counts and positions.
fn words(alloc: Global, analyzer: &str) -> Result<TextFieldIndexing, Fault>
    ensures { IfOk result (λ indexing. indexing.gap ≡ 1) }
{
    let indexing = TextFieldIndexing::default()
        .set_index_option(IndexRecordOption::WithFreqsAndPositions)
        .set_tokenizer(alloc, analyzer)?;
    Ok(indexing)
}
