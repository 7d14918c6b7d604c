//! Floats inside JSON values.

ghost use Rattle.std.specs.Prelude.{◌≡◌};
ghost use Rattle.serde_json.specs.View.{items_view, members_view, view};
ghost use Rattle.serde_json.specs.Written as json;

use serde_json::{Map, Value as Json};

/// Whether `value` contains a float, at any depth.
#[cycle(floats)]
pub fn has_float(value: &Json) -> bool
    ensures { result ≡ json.has_float (view value.now) }
{
    match value {
        Json::Number(number) => number.is_f64(),
        Json::Array(items) => items_have_float(items),
        Json::Object(members) => members_have_float(members),
        _ => false,
    }
}

/// Whether one of `items` contains a float.
#[cycle(floats)]
fn items_have_float(items: &Vec<Json>) -> bool
    ensures { result ≡ json.items_have_float (items_view items.now.items) }
{
    for item in items {
        if has_float(item) {
            return true;
        }
    }
    false
}

/// Whether one of `members` contains a float.
#[cycle(floats)]
fn members_have_float(members: &Map<String, Json>) -> bool
    ensures { result ≡ json.members_have_float (members_view members.now.entries) }
{
    for (_key, member) in members.iter() {
        if has_float(member) {
            return true;
        }
    }
    false
}
