//! Values that own what they hold.

ghost use Rattle.std.specs.Prelude.{◌≡◌};
ghost use Rattle.document_values.specs.Owned.{owned_value};
ghost use Rattle.document_values.specs.OwnedNodes.{held_above, held_nodes, nodes, nodes_above};

use crate::disposal::{Held, let_go};
use common::PreTokenizedString;
use terms::{DateTime, Facet};

/// A value that owns its texts, bytes and the values in it. It is let go value by value, by calls that don't nest, so
/// it isn't taken apart by a pattern; it is matched behind a reference.
pub enum OwnedValue {
    /// No value.
    Null,
    /// A text.
    Str(String),
    /// A text with its tokens.
    PreTokStr(PreTokenizedString),
    /// A number from 0 below 2^64.
    U64(u64),
    /// A number from -2^63 below 2^63.
    I64(i64),
    /// True or false.
    Bool(bool),
    /// A point of time.
    Date(DateTime),
    /// A facet.
    Facet(Facet),
    /// A byte string.
    Bytes(Vec<u8>),
    /// An IP address by its 128 bits; one of IPv4 is mapped into IPv6.
    IpAddr(u128),
    /// Values, in order.
    Array(Vec<OwnedValue>),
    /// Values with keys, in order. A key may occur more than once.
    Object(Vec<(String, OwnedValue)>),
}

impl Drop for OwnedValue {
    fn drop(self) {
        let_go(self);
    }
}

impl OwnedValue {
    /// Returns the values in it, and lets go what else it holds.
    pub(crate) fn into_held(self) -> Held
        ensures nodes { held_nodes result ≡ nodes (owned_value self) }
        ensures above { held_above result ≡ nodes_above (owned_value self) }
    {
        match self {
            OwnedValue::Array(values) => Held::Values(values),
            OwnedValue::Object(members) => Held::Members(members),
            OwnedValue::Null
            | OwnedValue::Str(_)
            | OwnedValue::PreTokStr(_)
            | OwnedValue::U64(_)
            | OwnedValue::I64(_)
            | OwnedValue::Bool(_)
            | OwnedValue::Date(_)
            | OwnedValue::Facet(_)
            | OwnedValue::Bytes(_)
            | OwnedValue::IpAddr(_) => Held::None,
        }
    }
}
