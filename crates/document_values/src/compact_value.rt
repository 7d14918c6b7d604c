//! A value of a document, borrowed from the document's bytes.

use crate::compact_tokens::CompactDocTokens;
use crate::iterators::{CompactDocArrayIter, CompactDocObjectIter};
use terms::DateTime;

/// A value of a document. Texts and bytes are borrowed, and arrays and objects are decoded item by item.
#[derive(Drop)]
pub enum CompactDocValue<'a> {
    /// No value.
    Null,
    /// A text.
    Str(&'a str),
    /// A text with its tokens.
    PreTokStr(CompactDocTokens<'a>),
    /// A number from 0 below 2^64.
    U64(u64),
    /// A number from -2^63 below 2^63.
    I64(i64),
    /// True or false.
    Bool(bool),
    /// A point of time.
    Date(DateTime),
    /// A facet, its steps joined by U+0000.
    Facet(&'a str),
    /// A byte string.
    Bytes(&'a [u8]),
    /// An IP address by its 128 bits; one of IPv4 is mapped into IPv6.
    IpAddr(u128),
    /// Values, in order.
    Array(CompactDocArrayIter<'a>),
    /// Values with keys, in order. A key may occur more than once.
    Object(CompactDocObjectIter<'a>),
}
