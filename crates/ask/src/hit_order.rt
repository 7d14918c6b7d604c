//! The order of hits.

use document_values::OwnedValue;
use index::Hit;
use std::alloc::{AllocError, Global};
use std::cmp::Ordering;

/// The order in which the documents that match are printed.
#[derive(Clone, Copy, Debug)]
pub enum HitOrder<'a> {
    /// By score, the best first.
    Score,
    /// By the time in the one stored field of dates, the newest first.
    Newest,
    /// By the first value in a stored field; a document without one stands behind those that have one.
    Field {
        /// The name of the field.
        name: &'a str,
        /// Whether the greatest value stands first.
        falls: bool,
    },
}

impl<'a> HitOrder<'a> {
    /// Returns the name of the field that is named.
    pub(crate) fn field(self) -> Option<&'a str> {
        match self {
            HitOrder::Field { name, .. } => Some(name),
            HitOrder::Score | HitOrder::Newest => None,
        }
    }
}

/// A hit with the value by which it is ordered.
#[derive(Clone, Copy)]
struct Keyed<'h> {
    key: Option<&'h OwnedValue>,
    hit: &'h Hit,
}

/// Returns the hits by their first values in the field `name`; those of one value stay as they stand.
pub(crate) fn by_field<'h>(
    alloc: Global,
    hits: &'h [Hit],
    name: &str,
    falls: bool,
) -> Result<Vec<&'h Hit>, AllocError> {
    let mut keyed = Vec::new(alloc);
    for hit in hits {
        let key = hit.doc.get(name).and_then(<[OwnedValue]>::first);
        keyed.push(Keyed { key, hit })?;
    }
    if falls {
        keyed.sort_by(|a, b| falling(a.key, b.key))?;
    } else {
        keyed.sort_by(|a, b| rising(a.key, b.key))?;
    }
    keyed.iter().map(|keyed| keyed.hit).collect(alloc)
}

/// Compares two keys, the least first; what has none stands last.
fn rising(a: Option<&OwnedValue>, b: Option<&OwnedValue>) -> Ordering {
    match (a, b) {
        (Some(a), Some(b)) => compare(a, b),
        _ => a.is_none().cmp(&b.is_none()),
    }
}

/// Compares two keys, the greatest first; what has none stands last.
fn falling(a: Option<&OwnedValue>, b: Option<&OwnedValue>) -> Ordering {
    match (a, b) {
        (Some(a), Some(b)) => compare(b, a),
        _ => a.is_none().cmp(&b.is_none()),
    }
}

/// Compares two values of one field, which are of one kind.
fn compare(a: &OwnedValue, b: &OwnedValue) -> Ordering {
    match (a, b) {
        (OwnedValue::Str(a), OwnedValue::Str(b)) => a.as_str().cmp(b.as_str()),
        (OwnedValue::U64(a), OwnedValue::U64(b)) => a.cmp(b),
        (OwnedValue::I64(a), OwnedValue::I64(b)) => a.cmp(b),
        (OwnedValue::Bool(a), OwnedValue::Bool(b)) => a.cmp(b),
        (OwnedValue::Date(a), OwnedValue::Date(b)) => {
            a.into_timestamp_nanos().cmp(&b.into_timestamp_nanos())
        }
        (OwnedValue::Facet(a), OwnedValue::Facet(b)) => a.encoded_str().cmp(b.encoded_str()),
        (OwnedValue::Bytes(a), OwnedValue::Bytes(b)) => a.as_slice().cmp(b.as_slice()),
        (OwnedValue::IpAddr(a), OwnedValue::IpAddr(b)) => a.cmp(b),
        _ => Ordering::Equal,
    }
}
