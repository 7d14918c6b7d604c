//! The run of a search.

ghost use Rattle.std.specs.Prelude.{◌≤◌};

use crate::explanation::{explain, tell_left_out, tell_small_operators};
use crate::failure::{Failure, MOST_ORDERED};
use crate::hit_order::{HitOrder, by_field};
use crate::hits::{print_count, print_counts, print_hits};
use crate::question::{left_out, query_of};
use crate::search::Search;
use crate::stored_fields::{check_fields, date_field, stored_names, unstored_name};
use crate::value_counts::value_counts;
use index::{Analyzer, AnyQuery, Device, Hit, Index, Schema};
use query_text::has_small_operator;
use std::alloc::Global;
use std::io::{self, BufWriter, Write};

/// The status where a document matches.
const FOUND: u8 = 0;

/// The status where none does.
const NOT_FOUND: u8 = 1;

/// The status where the text isn't read, or the index can't be searched.
const FAILED: u8 = 2;

/// Prints what `search` asks of `index`, and tells on standard error why it can't be had.
///
/// The status is that of `grep`: 0 where a document matches, 1 where none does, 2 where the text isn't read or the index
/// can't be searched.
pub fn run<D: Device + Drop, A: Analyzer + Drop>(
    rt: &HostRuntime,
    index: &mut Index<D, A>,
    search: &Search<'_>,
) -> u8
    ensures { result ≤ 2 }
{
    match answer(rt, index, search) {
        Ok(true) => FOUND,
        Ok(false) => NOT_FOUND,
        Err(failure) => {
            tell(rt, index.schema(), search, &failure);
            FAILED
        }
    }
}

/// Tells on standard error why a search isn't answered, unless nobody reads what is printed any more.
fn tell(rt: &HostRuntime, schema: &Schema, search: &Search<'_>, failure: &Failure) {
    match failure {
        Failure::NotRead(refusal) => {
            if let Ok(why) = explain(rt.alloc(), search.question.text, schema, *refusal) {
                let _ = eprintln!(rt; "lafkundi ask: {}: {why}", search.path);
            }
        }
        Failure::NotStored => tell_unstored(rt, schema, search),
        Failure::Unread => {}
        failure => {
            let _ = eprintln!(rt; "lafkundi ask: {}: {failure}", search.path);
        }
    }
}

/// Tells on standard error that no stored field has a name that is given, and which there are.
fn tell_unstored(rt: &HostRuntime, schema: &Schema, search: &Search<'_>) {
    let name = unstored_name(schema, search).unwrap_or("");
    if let Ok(names) = stored_names(rt.alloc(), schema) {
        let _ = eprintln!(rt;
            "lafkundi ask: {}: no stored field has the name `{name}`; there are: {names}",
            search.path
        );
    }
}

/// Answers `search` over `index` on standard output; returns whether a document matches.
fn answer<D: Device + Drop, A: Analyzer + Drop>(
    rt: &HostRuntime,
    index: &mut Index<D, A>,
    search: &Search<'_>,
) -> Result<bool, Failure> {
    let alloc = rt.alloc();
    let question = &search.question;
    check_fields(index.schema(), search)?;
    let query = query_of(alloc, index, question)?;
    if let Some(refusal) = left_out(alloc, index, question) {
        tell_left_out(rt, search.path, index.schema(), refusal)?;
    }
    let found = index.count(&query)?;
    let mut out = BufWriter::new(alloc, io::writer(rt))?;
    if search.counts {
        print_count(&mut out, found)?;
    } else {
        print_found(alloc, &mut out, index, search, &query, found)?;
    }
    out.flush()?;
    if found == 0 && has_small_operator(alloc, question.text.as_bytes())? {
        tell_small_operators(rt, search.path)?;
    }
    Ok(found > 0)
}

/// Prints the hits that `search` asks for of the documents that match `query`, and how many have each value of a field.
fn print_found<W: Write, D: Device + Drop, A: Analyzer + Drop>(
    alloc: Global,
    out: &mut W,
    index: &mut Index<D, A>,
    search: &Search<'_>,
    query: &AnyQuery,
    found: u64,
) -> Result<(), Failure> {
    let needed = needed_hits(search, found)?;
    let hits = index.search(query, needed)?;
    let schema = index.schema();
    let ordered = in_order(alloc, schema, search.order, &hits)?;
    print_hits(alloc, out, search, schema, query, found, &ordered)?;
    if let Some(name) = search.facets {
        let counts = value_counts(alloc, &hits, name)?;
        print_counts(alloc, out, search, name, &counts)?;
    }
    Ok(())
}

/// Returns how many hits are needed: all where they are ordered or counted by a field, which has a limit.
fn needed_hits(search: &Search<'_>, found: u64) -> Result<usize, Failure> {
    if matches!(search.order, HitOrder::Score) && search.facets.is_none() {
        return Ok(search.start.saturating_add(search.count));
    }
    if found > MOST_ORDERED {
        return Err(Failure::TooMany(found));
    }
    Ok(found as usize)
}

/// Returns the hits in the order that is asked for.
fn in_order<'h>(
    alloc: Global,
    schema: &Schema,
    order: HitOrder<'_>,
    hits: &'h [Hit],
) -> Result<Vec<&'h Hit>, Failure> {
    match order {
        HitOrder::Score => Ok(hits.iter().collect(alloc)?),
        HitOrder::Field { name, falls } => Ok(by_field(alloc, hits, name, falls)?),
        HitOrder::Newest => {
            let name = date_field(schema).ok_or(Failure::NoDate)?;
            Ok(by_field(alloc, hits, name, true)?)
        }
    }
}
