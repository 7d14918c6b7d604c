//! Fields that hits are ordered by, counted by, or printed with.

use crate::failure::Failure;
use crate::hit_order::HitOrder;
use crate::names::push_name;
use crate::search::Search;
use index::Schema;
use std::alloc::{AllocError, Global};
use terms::Type;

/// Checks that the fields that `search` names are stored, and have values that are ordered or counted where it asks so.
pub(crate) fn check_fields(schema: &Schema, search: &Search<'_>) -> Result<(), Failure> {
    if unstored_name(schema, search).is_some() {
        return Err(Failure::NotStored);
    }
    if matches!(search.order, HitOrder::Newest) && date_field(schema).is_none() {
        return Err(Failure::NoDate);
    }
    for name in [search.order.field(), search.facets].into_iter().flatten() {
        if matches!(kind_of(schema, name), Some(Type::Json)) {
            return Err(Failure::Objects);
        }
    }
    Ok(())
}

/// Returns the first name that `search` gives a field and that no stored field has.
pub(crate) fn unstored_name<'a>(schema: &Schema, search: &Search<'a>) -> Option<&'a str> {
    for name in search.fields {
        if kind_of(schema, name).is_none() {
            return Some(*name);
        }
    }
    for name in [search.order.field(), search.facets].into_iter().flatten() {
        if kind_of(schema, name).is_none() {
            return Some(name);
        }
    }
    None
}

/// Returns what kind of values the stored field `name` has.
fn kind_of(schema: &Schema, name: &str) -> Option<Type> {
    for (_field, entry) in schema.fields() {
        if entry.is_stored() && entry.name() == name {
            return Some(entry.field_type().value_type());
        }
    }
    None
}

/// Returns the name of the stored field of dates, where there is one alone.
pub(crate) fn date_field(schema: &Schema) -> Option<&str> {
    let mut found = None;
    for (_field, entry) in schema.fields() {
        if entry.is_stored() && matches!(entry.field_type().value_type(), Type::Date) {
            if found.is_some() {
                return None;
            }
            found = Some(entry.name());
        }
    }
    found
}

/// Lists the names of the stored fields.
pub(crate) fn stored_names(alloc: Global, schema: &Schema) -> Result<String, AllocError> {
    let mut names = String::new(alloc);
    let mut is_first = true;
    for (_field, entry) in schema.fields() {
        if entry.is_stored() {
            names.push_str(if is_first { "" } else { ", " })?;
            push_name(&mut names, alloc, entry.name())?;
            is_first = false;
        }
    }
    Ok(names)
}
