//! What is wrong with a file.

use std::fmt::{self, Display, Formatter};

/// What is wrong with a file: with which record, and why.
#[derive(Clone, Copy, Debug)]
pub(crate) struct Damage {
    /// How many records stand before this one.
    pub(crate) number: usize,
    /// The offset of its gate.
    pub(crate) gate: usize,
    pub(crate) reason: Reason,
}

/// Why a record is damaged.
#[derive(Clone, Copy, Debug)]
pub(crate) enum Reason {
    /// The file ends before the record does.
    CutOff,
    /// It is the first one, and has no schema and settings.
    NoMaking,
    /// It isn't the first one, and its body lists no segments.
    NoList,
    /// It keeps segments that the list before doesn't have, or not in their order.
    KeptSegments,
    /// The new segment at this index of its list isn't one.
    NewSegment(usize),
    /// An alive set is one of another number of documents than its segment has.
    AliveSets,
    /// A document of a segment that is new in it can't be read.
    Document {
        /// The index of the segment in the last list.
        segment: usize,
        doc: u32,
        unread: Unread,
    },
}

/// Why a document can't be read.
#[derive(Clone, Copy, Debug)]
pub(crate) enum Unread {
    /// The block of the store in which it stands isn't one.
    Block,
    /// Its slot isn't a document of the schema's fields.
    Slot,
}

impl Display for Damage {
    fn fmt<W: fmt::Write>(&self, f: &mut Formatter<W>) -> fmt::Result {
        write!(
            f,
            "record {} at {}: {}",
            self.number, self.gate, self.reason
        )
    }
}

impl Display for Reason {
    fn fmt<W: fmt::Write>(&self, f: &mut Formatter<W>) -> fmt::Result {
        match self {
            Reason::CutOff => f.write_str("the file ends before the record does"),
            Reason::NoMaking => f.write_str("its body has no schema and settings"),
            Reason::NoList => f.write_str("its body isn't a list of segments"),
            Reason::KeptSegments => {
                f.write_str(
                    "it keeps segments that aren't in the list before, or not in their order",
                )
            }
            Reason::NewSegment(number) => {
                write!(f, "the new segment at index {number} of its list isn't one")
            }
            Reason::AliveSets => {
                f.write_str("an alive set has another number of documents than its segment")
            }
            Reason::Document {
                segment,
                doc,
                unread,
            } => write!(
                f,
                "document {doc} of segment {segment} can't be read: {unread}"
            ),
        }
    }
}

impl Display for Unread {
    fn fmt<W: fmt::Write>(&self, f: &mut Formatter<W>) -> fmt::Result {
        match self {
            Unread::Block => f.write_str("its block of the store isn't one"),
            Unread::Slot => f.write_str("its slot isn't a document of the schema's fields"),
        }
    }
}
