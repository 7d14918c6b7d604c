//! Why a line isn't taken.

use crate::cures::cure;
use index::Fault;
use std::alloc::{AllocError, AllocFailed};
use std::fmt::{self, Display, Formatter};

/// Why a line isn't taken.
#[derive(Clone, Copy, Debug)]
pub(crate) enum LineRefusal {
    /// It isn't UTF-8.
    NotUtf8,
    /// It is no JSON.
    NotJson,
    /// No member of it is a field.
    NoField,
    /// It doesn't have one value in the field by which documents take the place of others.
    NoIdentifier,
    /// The index refuses what it says.
    Refused(Fault),
    /// The index refuses the document, when the one that has its identifier is deleted by now.
    Lost(Fault),
}

impl From<Fault> for LineRefusal {
    fn from(fault: Fault) -> LineRefusal {
        LineRefusal::Refused(fault)
    }
}

impl From<AllocError> for LineRefusal {
    fn from(_refused: AllocError) -> LineRefusal {
        LineRefusal::Refused(Fault::OutOfMemory)
    }
}

impl<T: Drop> From<AllocFailed<T>> for LineRefusal {
    fn from(_refused: AllocFailed<T>) -> LineRefusal {
        LineRefusal::Refused(Fault::OutOfMemory)
    }
}

impl Display for LineRefusal {
    fn fmt<W: fmt::Write>(&self, f: &mut Formatter<W>) -> fmt::Result {
        match self {
            LineRefusal::NotUtf8 => f.write_str("it isn't UTF-8"),
            LineRefusal::NotJson => f.write_str(
                "it is no JSON; write a document as an object on one line",
            ),
            LineRefusal::NoField => f.write_str("no member of it is a field of the index"),
            LineRefusal::NoIdentifier => f.write_str(
                "it doesn't have one value in the field of --id",
            ),
            LineRefusal::Refused(fault) => write!(f, "{fault}: {}", cure(*fault)),
            LineRefusal::Lost(fault) => write!(
                f,
                "{fault}: {}; nothing of the last commit on is kept",
                cure(*fault)
            ),
        }
    }
}
