//! How many documents have each value of a field.

use definitions::Fault;
use document_values::{OwnedValue, values_to_json};
use index::Hit;
use serde_json::Value as Json;
use std::alloc::{AllocError, Global};
use std::collections::{BTreeMap, BTreeSet};
use terms::Facet;

/// Returns each value that `hits` have in the field `name` with how many of them have it, the most common first. Of a
/// facet each of its steps is a value.
pub(crate) fn value_counts(
    alloc: Global,
    hits: &[Hit],
    name: &str,
) -> Result<Vec<(String, u64)>, Fault> {
    let mut counts = BTreeMap::new(alloc);
    for hit in hits {
        for value in shown_values(alloc, hit.doc.get(name).unwrap_or(&[]))? {
            count_one(&mut counts, value)?;
        }
    }
    let mut listed = Vec::new(alloc);
    for (value, count) in counts {
        listed.push((value, count))?;
    }
    listed.sort_by(|a, b| b.1.cmp(&a.1))?;
    Ok(listed)
}

/// Counts a value once more.
fn count_one(counts: &mut BTreeMap<String, u64>, value: String) -> Result<(), AllocError> {
    if let Some(count) = counts.get_mut(value.as_str()) {
        *count = count.saturating_add(1);
        return Ok(());
    }
    drop(counts.insert(value, 1)?);
    Ok(())
}

/// Returns the values of a document as texts, each once.
fn shown_values(alloc: Global, values: &[OwnedValue]) -> Result<BTreeSet<String>, Fault> {
    let mut shown = BTreeSet::new(alloc);
    for (value, json) in values.iter().zip(&values_to_json(alloc, values)?) {
        match value {
            OwnedValue::Facet(facet) => push_steps(alloc, &mut shown, facet)?,
            _ => {
                let _is_new = shown.insert(shown_text(alloc, json)?)?;
            }
        }
    }
    Ok(shown)
}

/// Returns a text as it is, and another value as JSON.
fn shown_text(alloc: Global, json: &Json) -> Result<String, AllocError> {
    match json {
        Json::String(text) => String::from_str(alloc, text.as_str()),
        json => json.to_string(alloc),
    }
}

/// Adds the path to each step of a facet.
fn push_steps(alloc: Global, shown: &mut BTreeSet<String>, facet: &Facet) -> Result<(), Fault> {
    let steps = facet.to_path(alloc)?;
    for count in 1..=steps.len() {
        let path = Facet::from_path(alloc, steps.get(..count).unwrap_or(&[]))?;
        let _is_new = shown.insert(path.to_path_string(alloc)?)?;
    }
    Ok(())
}
