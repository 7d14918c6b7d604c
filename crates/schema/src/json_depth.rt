//! How deep JSON nests that a caller hands over.

ghost use Rattle.std.specs.Prelude.{◌≡◌, nat_lt};
ghost use Rattle.definitions.specs.GivenDepths as definitions;
ghost use Rattle.serde_json.specs.Data.{depth, items_depth, members_depth};
ghost use Rattle.serde_json.specs.View.{items_view, members_view, view};

use definitions::MAX_GIVEN_DEPTH;
use serde_json::{Map, Value};

/// Whether `value` nests deeper than any text that `serde_json` reads, and than what is looked into.
pub fn is_too_deep(value: &Value) -> bool
    ensures { result ≡ definitions.is_too_deep (view value.now) }
{
    is_deeper(value, MAX_GIVEN_DEPTH)
}

/// Whether arrays and objects nest more than `levels` deep. Doesn't visit what is further down.
#[cycle(is_deeper)]
fn is_deeper(value: &Value, levels: usize) -> bool
    ensures { result ≡ nat_lt levels (depth (view value.now)) }
{
    match value {
        Value::Array(items) => match levels.checked_sub(1) {
            Some(inside) => any_item_is_deeper(items.as_slice(), inside),
            None => true,
        },
        Value::Object(members) => match levels.checked_sub(1) {
            Some(inside) => any_member_is_deeper(members, inside),
            None => true,
        },
        _ => false,
    }
}

/// Whether one of `items` nests more than `levels` deep.
#[cycle(is_deeper)]
fn any_item_is_deeper(items: &[Value], levels: usize) -> bool
    ensures { result ≡ nat_lt levels (items_depth (items_view items.now)) }
{
    for item in items {
        if is_deeper(item, levels) {
            return true;
        }
    }
    false
}

/// Whether a value of `members` nests more than `levels` deep.
#[cycle(is_deeper)]
fn any_member_is_deeper(members: &Map<String, Value>, levels: usize) -> bool
    ensures { result ≡ nat_lt levels (members_depth (members_view members.now.entries)) }
{
    for (_key, member) in members.iter() {
        if is_deeper(member, levels) {
            return true;
        }
    }
    false
}
