//! Hits on lines.

use crate::failure::Failure;
use crate::names::push_name;
use crate::passages::write_texts;
use crate::search::Search;
use document_values::{OwnedValue, values_to_json};
use index::{AnyQuery, Hit, Schema};
use serde_json::{Map, Value as Json};
use std::alloc::Global;
use std::io::Write;

/// Writes how many documents match.
pub(crate) fn print_count<W: Write>(out: &mut W, found: u64) -> Result<(), Failure> {
    writeln!(out, "{found}")?;
    Ok(())
}

/// Writes the hits of `query` from the first that `search` asks for on, each on a line; without JSON there is a line
/// before them.
pub(crate) fn print_hits<W: Write>(
    alloc: Global,
    out: &mut W,
    search: &Search<'_>,
    schema: &Schema,
    query: &AnyQuery,
    found: u64,
    hits: &[&Hit],
) -> Result<(), Failure> {
    let shown = hits.len().saturating_sub(search.start).min(search.count);
    if !search.json {
        writeln!(out, "{found} found, {shown} shown")?;
    }
    for hit in hits.iter().skip(search.start).take(shown) {
        if search.json {
            print_json(alloc, out, search, hit)?;
        } else {
            print_hit(alloc, out, search, schema, query, hit)?;
        }
    }
    Ok(())
}

/// Writes a hit as a JSON object.
fn print_json<W: Write>(
    alloc: Global,
    out: &mut W,
    search: &Search<'_>,
    hit: &Hit,
) -> Result<(), Failure> {
    let mut members = Map::new(alloc);
    for (name, values) in hit.doc.fields() {
        if search.shows(name.as_str()) {
            let list = values_to_json(alloc, values.as_slice())?;
            drop(members.insert(name.clone()?, Json::Array(list))?);
        }
    }
    writeln!(
        out,
        "{{\"score\":{},\"doc\":{}}}",
        hit.score,
        Json::Object(members)
    )?;
    Ok(())
}

/// Writes of each value of the field `name` how many documents have it, each on a line; without JSON there is a line
/// before them.
pub(crate) fn print_counts<W: Write>(
    alloc: Global,
    out: &mut W,
    search: &Search<'_>,
    name: &str,
    counts: &[(String, u64)],
) -> Result<(), Failure> {
    if !search.json {
        writeln!(out, "{name}, {} values", counts.len())?;
    }
    for (value, count) in counts {
        if search.json {
            let json = Json::try_from_str(alloc, value.as_str())?;
            writeln!(out, "{{\"count\":{count},\"value\":{json}}}")?;
        } else {
            let mut shown = String::new(alloc);
            push_name(&mut shown, alloc, value.as_str())?;
            writeln!(out, "{count:6}  {shown}")?;
        }
    }
    Ok(())
}

/// Writes a hit with its score and its stored values; of a text the passage that shows most of the words of `query`.
fn print_hit<W: Write>(
    alloc: Global,
    out: &mut W,
    search: &Search<'_>,
    schema: &Schema,
    query: &AnyQuery,
    hit: &Hit,
) -> Result<(), Failure> {
    write!(out, "{:6}", hit.score)?;
    for (name, values) in hit.doc.fields() {
        if search.shows(name.as_str()) {
            let mut shown = String::new(alloc);
            push_name(&mut shown, alloc, name.as_str())?;
            write!(out, "  {shown}:")?;
            if !write_texts(alloc, out, schema, query, name.as_str(), values.as_slice())? {
                write_values(alloc, out, values.as_slice())?;
            }
        }
    }
    writeln!(out)?;
    Ok(())
}

/// Writes values as JSON, with a space before each.
fn write_values<W: Write>(
    alloc: Global,
    out: &mut W,
    values: &[OwnedValue],
) -> Result<(), Failure> {
    for value in &values_to_json(alloc, values)? {
        write!(out, " {value}")?;
    }
    Ok(())
}
