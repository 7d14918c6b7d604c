//! Borrowed values, written as JSON.

ghost use Rattle.std.specs.Prelude.{◌++◌, ◌≡◌, IfOk, OnOk, string_bytes};
ghost use Rattle.definitions.specs.Facets.{path_of};
ghost use Rattle.definitions.specs.Printed.{printed, printed_onto, printed_values};
ghost use Rattle.document_values.specs.Shown.{value_of};
ghost use Rattle.document_values.specs.WrittenJson.{lent_members};
ghost use Rattle.json.specs.Tree.{json_tokens};
ghost use Rattle.layouts.specs.DocumentReading.{steps_in, to_members, to_values};
ghost use Rattle.serde_json.specs.Data.{array, no_members, object};
ghost use Rattle.serde_json.specs.Written.{outline};

use crate::compact_value::CompactDocValue;
use crate::iterators::{CompactDocArrayIter, CompactDocObjectIter};
use json::Writer;
use std::alloc::{AllocError, Global};
use std::collections::BTreeMap;
use terms::Facet;
use values_json::{address_text, bytes_text, date_text};

/// Writes a value: dates, facets, byte strings and IP addresses as texts, a pre-tokenised text as its text.
#[cycle(write_json)]
pub fn write_value(
    alloc: Global,
    value: CompactDocValue<'_>,
    out: &mut Writer,
) -> Result<(), AllocError>
    ensures ok { OnOk result (out.new.tokens
        ≡ out.old.tokens ++ json_tokens (outline (printed (value_of value.entry)))) }
    ensures before { out.new.before ≡ out.old.before }
{
    match value {
        CompactDocValue::Null => out.null(),
        CompactDocValue::Str(text) => out.string(text),
        CompactDocValue::PreTokStr(text) => out.string(text.text()),
        CompactDocValue::U64(n) => out.u64(n),
        CompactDocValue::I64(n) => out.i64(n),
        CompactDocValue::Bool(b) => out.boolean(b),
        CompactDocValue::Date(time) => out.string(date_text(alloc, time)?.as_str()),
        CompactDocValue::Facet(steps) => out.string(path_text(alloc, steps)?.as_str()),
        CompactDocValue::Bytes(bytes) => out.string(bytes_text(alloc, bytes)?.as_str()),
        CompactDocValue::IpAddr(address) => out.string(address_text(alloc, address)?.as_str()),
        CompactDocValue::Array(values) => write_array(alloc, values, out),
        CompactDocValue::Object(members) => write_object(alloc, by_key(alloc, members)?, out),
    }
}

/// Writes the values as one list.
#[cycle(write_json)]
fn write_array(
    alloc: Global,
    values: CompactDocArrayIter<'_>,
    out: &mut Writer,
) -> Result<(), AllocError>
    ensures ok { OnOk result (out.new.tokens
        ≡ out.old.tokens ++ json_tokens (outline (array (printed_values (to_values values.entry))))) }
    ensures before { out.new.before ≡ out.old.before }
{
    out.begin_array()?;
    for value in values {
        write_value(alloc, value, out)?;
    }
    out.end_array()?;
    Ok(())
}

/// Writes the members as one object.
#[cycle(write_json)]
fn write_object(
    alloc: Global,
    members: BTreeMap<&str, CompactDocValue<'_>>,
    out: &mut Writer,
) -> Result<(), AllocError>
    ensures ok { OnOk result (out.new.tokens
        ≡ out.old.tokens ++ json_tokens (outline (object (lent_members members.entry.entries)))) }
    ensures before { out.new.before ≡ out.old.before }
{
    out.begin_object()?;
    for (key, value) in members {
        out.key(key)?;
        write_value(alloc, value, out)?;
    }
    out.end_object()?;
    Ok(())
}

/// Sorts the members by the bytes of their keys. Of the members with one key the last is kept.
fn by_key<'a>(
    alloc: Global,
    members: CompactDocObjectIter<'a>,
) -> Result<BTreeMap<&'a str, CompactDocValue<'a>>, AllocError>
    ensures { IfOk result (λ sorted. lent_members sorted.entries ≡ printed_onto no_members (to_members members.entry)) }
{
    let mut sorted = BTreeMap::new(alloc);
    for (key, value) in members {
        drop(sorted.insert(key, value)?);
    }
    Ok(sorted)
}

/// Returns the path of the facet whose steps are separated by U+0000 in `steps`.
fn path_text(alloc: Global, steps: &str) -> Result<String, AllocError>
    ensures { IfOk result (λ path. string_bytes path ≡ path_of (steps_in steps.now)) }
{
    Facet::from_separated(alloc, steps)?.to_path_string(alloc)
}
