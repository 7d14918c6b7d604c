//! How deep values nest that a caller hands over.

ghost use Rattle.std.specs.Prelude.{◌≡◌, nat_lt};
ghost use Rattle.definitions.specs.GivenDepths.{is_too_deep_value};
ghost use Rattle.definitions.specs.Values.{members_nesting, nesting, object, values_nesting};
ghost use Rattle.document_values.specs.Owned.{owned_members, owned_value, owned_values};
ghost use Rattle.layouts.specs.DocumentReading.{to_members, to_values};

use crate::owned_value::OwnedValue;
use definitions::MAX_GIVEN_DEPTH;

/// Whether `value` nests deeper than what a document takes.
pub fn is_too_deep(value: &OwnedValue) -> bool
    ensures { result ≡ is_too_deep_value (owned_value value.now) }
{
    is_deeper(value, MAX_GIVEN_DEPTH)
}

/// Whether an object of `members` nests deeper than what a document takes.
pub fn is_too_deep_object(members: &[(String, OwnedValue)]) -> bool
    ensures { result ≡ is_too_deep_value (object (to_members (owned_members members.now))) }
{
    any_member_is_deeper(members, MAX_GIVEN_DEPTH - 1)
}

/// Whether arrays and objects nest more than `levels` deep. Doesn't visit what is further down.
#[cycle(is_deeper)]
fn is_deeper(value: &OwnedValue, levels: usize) -> bool
    ensures { result ≡ nat_lt levels (nesting (owned_value value.now)) }
{
    match value {
        OwnedValue::Array(values) => match levels.checked_sub(1) {
            Some(inside) => any_value_is_deeper(values.as_slice(), inside),
            None => true,
        },
        OwnedValue::Object(members) => match levels.checked_sub(1) {
            Some(inside) => any_member_is_deeper(members.as_slice(), inside),
            None => true,
        },
        OwnedValue::Null
        | OwnedValue::Str(_)
        | OwnedValue::PreTokStr(_)
        | OwnedValue::U64(_)
        | OwnedValue::I64(_)
        | OwnedValue::Bool(_)
        | OwnedValue::Date(_)
        | OwnedValue::Facet(_)
        | OwnedValue::Bytes(_)
        | OwnedValue::IpAddr(_) => false,
    }
}

/// Whether one of `values` nests more than `levels` deep.
#[cycle(is_deeper)]
fn any_value_is_deeper(values: &[OwnedValue], levels: usize) -> bool
    ensures { result ≡ nat_lt levels (values_nesting (to_values (owned_values values.now))) }
{
    for value in values {
        if is_deeper(value, levels) {
            return true;
        }
    }
    false
}

/// Whether a value of `members` nests more than `levels` deep.
#[cycle(is_deeper)]
fn any_member_is_deeper(members: &[(String, OwnedValue)], levels: usize) -> bool
    ensures { result ≡ nat_lt levels (members_nesting (to_members (owned_members members.now))) }
{
    for (_key, value) in members {
        if is_deeper(value, levels) {
            return true;
        }
    }
    false
}
