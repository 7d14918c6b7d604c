//! Values at the keys of JSON objects.
ghost use Rattle.std.specs.Prelude.{◌++◌, ◌≡◌, bytes_eq, map, option_map};
ghost use Rattle.std.specs.List.{list_any};
ghost use Rattle.definitions.specs.Json as definitions;
ghost use Rattle.definitions.specs.SchemaGrammar.{flag_or, object_at};
ghost use Rattle.serde_json.specs.View.{members_view, view};

use serde_json::{Map, Value};

/// Whether `value` is an object without keys other than `keys`.
pub fn has_only(value: &Value, keys: &[&str]) -> bool
    ensures { result ≡ definitions.has_only (map (λ k. k.now) keys.now) (view value.now) }
{
    has_only_beside(value, keys, &[])
}

/// Whether `value` is an object without keys other than `keys` and `further`.
pub fn has_only_beside(value: &Value, keys: &[&str], further: &[&str]) -> bool
    ensures { result ≡ definitions.has_only (map (λ k. k.now) keys.now ++ map (λ k. k.now) further.now)
        (view value.now) }
{
    match value.as_object() {
        Some(members) => members_have_only(members, keys, further),
        None => false,
    }
}

/// Returns the text at `key`.
pub fn text_at<'a>(value: &'a Value, key: &str) -> Option<&'a str>
    ensures { option_map (λ s. s.now) result ≡ definitions.text_at key.now (view value.now) }
{
    value.get(key).and_then(Value::as_str)
}

/// Returns the object at `key`.
pub fn object_at<'a>(value: &'a Value, key: &str) -> Option<&'a Value>
    ensures { option_map (λ o. view o.now) result ≡ object_at key.now (view value.now) }
{
    let object = value.get(key)?;
    if object.is_object() {
        Some(object)
    } else {
        None
    }
}

/// Returns the bool at `key`; `absent` if the key is absent.
pub fn flag_or(options: &Value, key: &str, absent: bool) -> Option<bool>
    ensures { result ≡ flag_or absent key.now (view options.now) }
{
    match options.get(key) {
        Some(flag) => flag.as_bool(),
        None => Some(absent),
    }
}

/// Returns the whole number from 0 to 2^63 - 1 at `key`.
pub fn number_at(value: &Value, key: &str) -> Option<u64>
    ensures { result ≡ definitions.number_at key.now (view value.now) }
{
    number_in(value.get(key)?)
}

/// Returns the number if it is a whole one from 0 to 2^63 - 1.
pub fn number_in(value: &Value) -> Option<u64>
    ensures { result ≡ definitions.number_in (view value.now) }
{
    let number = value.as_u64()?;
    if number < 1 << 63 { Some(number) } else { None }
}

/// Whether each key of `members` is one of `keys` and `further`.
fn members_have_only(members: &Map<String, Value>, keys: &[&str], further: &[&str]) -> bool
    ensures { result ≡ definitions.members_have_only (map (λ k. k.now) keys.now ++ map (λ k. k.now) further.now)
        (members_view members.now.entries) }
{
    for (key, _member) in members.iter() {
        if !is_one_of(key.as_str(), keys) && !is_one_of(key.as_str(), further) {
            return false;
        }
    }
    true
}

/// Whether `key` is one of `keys`.
fn is_one_of(key: &str, keys: &[&str]) -> bool
    ensures { result ≡ list_any (bytes_eq key.now) (map (λ k. k.now) keys.now) }
{
    for other in keys {
        if key == *other {
            return true;
        }
    }
    false
}
