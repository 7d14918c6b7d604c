//! Values of fields, but for JSON objects.

use terms::{DateTime, Facet};

/// A value of a field of any type but JSON objects.
#[derive(Drop)]
pub enum Leaf {
    /// A text.
    Str(String),
    /// A number from 0 below 2^64.
    U64(u64),
    /// A number from -2^63 below 2^63.
    I64(i64),
    /// True or false.
    Bool(bool),
    /// A point of time.
    Date(DateTime),
    /// A path of steps.
    Facet(Facet),
    /// A byte string.
    Bytes(Vec<u8>),
    /// An IP address by its 128 bits; IPv4 is mapped into IPv6.
    IpAddr(u128),
}
