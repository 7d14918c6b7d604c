//! How values are let go: value by value, by calls that don't nest, however deep they are, and without asking for
//! memory.
//!
//! On the way down the first value of each list is taken out, and what is above the list is put in its place. On the
//! way up the last value of the list above is next; the first one of a list leads up to the list before.

ghost use Rattle.std.specs.Prelude.{◌+◌, ◌<◌, IfSome};
ghost use Rattle.document_values.specs.Owned.{owned_members, owned_value, owned_values};
ghost use Rattle.document_values.specs.OwnedNodes.{members_above, members_nodes, nodes, nodes_above};
ghost use Rattle.document_values.specs.OwnedNodes.{values_above, values_nodes};
ghost use Rattle.layouts.specs.DocumentReading.{to_members, to_values};

use crate::owned_value::OwnedValue;
use std::mem;

/// The values that a value holds.
pub(crate) enum Held {
    None,
    Values(Vec<OwnedValue>),
    Members(Vec<(String, OwnedValue)>),
}

/// Lets `value` go, with all values in it.
pub(crate) fn let_go(value: OwnedValue) {
    let mut here = value;
    let mut above = OwnedValue::Null;
    loop {
        match next_value(here, above) {
            Some((next, rest)) => {
                here = next;
                above = rest;
            }
            None => return,
        }
    }
}

/// Lets `value` go, and takes out the value that is next: its first one, or else the last one of those `above`.
fn next_value(value: OwnedValue, above: OwnedValue) -> Option<(OwnedValue, OwnedValue)>
    ensures { IfSome result (λ next. nodes (owned_value next.0) + nodes_above (owned_value next.1)
        < nodes (owned_value value) + nodes_above (owned_value above)) }
{
    match value.into_held() {
        Held::Values(values) => first_value(values, above),
        Held::Members(members) => first_member(members, above),
        Held::None => last_above(above),
    }
}

/// Takes out the first of `values`, and puts what is `above` in its place.
fn first_value(values: Vec<OwnedValue>, above: OwnedValue) -> Option<(OwnedValue, OwnedValue)>
    ensures { IfSome result (λ next. nodes (owned_value next.0) + nodes_above (owned_value next.1)
        < 2 + values_nodes (to_values (owned_values values.items)) + nodes_above (owned_value above)) }
{
    let mut values = values;
    if values.is_empty() {
        values.destroy_empty();
        return last_above(above);
    }
    let first = mem::replace(&mut values[0], above);
    Some((first, OwnedValue::Array(values)))
}

/// Takes out the value of the first of `members`, and puts what is `above` in its place.
fn first_member(
    members: Vec<(String, OwnedValue)>,
    above: OwnedValue,
) -> Option<(OwnedValue, OwnedValue)>
    ensures { IfSome result (λ next. nodes (owned_value next.0) + nodes_above (owned_value next.1)
        < 2 + members_nodes (to_members (owned_members members.items)) + nodes_above (owned_value above)) }
{
    let mut members = members;
    if members.is_empty() {
        members.destroy_empty();
        return last_above(above);
    }
    let first = mem::replace(&mut members[0].1, above);
    Some((first, OwnedValue::Object(members)))
}

/// Takes out the last value of those `above`.
fn last_above(above: OwnedValue) -> Option<(OwnedValue, OwnedValue)>
    ensures { IfSome result (λ next. nodes (owned_value next.0) + nodes_above (owned_value next.1)
        < 1 + nodes_above (owned_value above)) }
{
    match above.into_held() {
        Held::Values(values) => last_value(values),
        Held::Members(members) => last_member(members),
        Held::None => None,
    }
}

/// Takes out the last of `values`. The first of them is what is above the others.
fn last_value(values: Vec<OwnedValue>) -> Option<(OwnedValue, OwnedValue)>
    ensures { IfSome result (λ next. nodes (owned_value next.0) + nodes_above (owned_value next.1)
        < 1 + values_above (to_values (owned_values values.items))) }
{
    let mut values = values;
    let Some(last) = values.pop() else {
        values.destroy_empty();
        return None;
    };
    if values.is_empty() {
        values.destroy_empty();
        return Some((OwnedValue::Null, last));
    }
    Some((last, OwnedValue::Array(values)))
}

/// Takes out the value of the last of `members`. The first of them is what is above the others.
fn last_member(members: Vec<(String, OwnedValue)>) -> Option<(OwnedValue, OwnedValue)>
    ensures { IfSome result (λ next. nodes (owned_value next.0) + nodes_above (owned_value next.1)
        < 1 + members_above (to_members (owned_members members.items))) }
{
    let mut members = members;
    let Some((_key, last)) = members.pop() else {
        members.destroy_empty();
        return None;
    };
    if members.is_empty() {
        members.destroy_empty();
        return Some((OwnedValue::Null, last));
    }
    Some((last, OwnedValue::Object(members)))
}
