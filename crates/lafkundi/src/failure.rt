//! Why a command ends before its end.

use crate::cures::cure;
use index::Fault;
use std::alloc::{AllocError, AllocFailed};
use std::fmt::{self, Display, Formatter};
use std::io;

/// Why a command ends before its end.
#[derive(Debug, Drop)]
pub(crate) enum Failure {
    /// There is no such file, or it can't be read.
    Unreadable,
    /// The index refuses what is asked.
    Refused(Fault),
    /// The file of the schema isn't there, or it can't be read.
    NoSchema,
    /// No field is named.
    NoFields,
    /// What is told can't be written.
    Unwritten,
    /// A file of lines isn't there, or it can't be read, which is told.
    NoLines,
    /// Lines can't be read.
    Unread,
    /// The field of `--id` doesn't tell documents apart.
    NoIdentifier,
}

impl From<Fault> for Failure {
    fn from(fault: Fault) -> Failure {
        Failure::Refused(fault)
    }
}

impl From<AllocError> for Failure {
    fn from(_refused: AllocError) -> Failure {
        Failure::Refused(Fault::OutOfMemory)
    }
}

impl<T: Drop> From<AllocFailed<T>> for Failure {
    fn from(_refused: AllocFailed<T>) -> Failure {
        Failure::Refused(Fault::OutOfMemory)
    }
}

impl From<io::Error> for Failure {
    fn from(_error: io::Error) -> Failure {
        Failure::Unwritten
    }
}

impl Display for Failure {
    fn fmt<W: fmt::Write>(&self, f: &mut Formatter<W>) -> fmt::Result {
        match self {
            Failure::Unreadable => f.write_str("there is no such file, or it can't be read"),
            Failure::Refused(fault) => write!(f, "{fault}: {}", cure(*fault)),
            Failure::NoSchema => f.write_str("the file of --schema isn't there, or can't be read"),
            Failure::NoFields => f.write_str(
                "name a field; `lafkundi create --help` has an example",
            ),
            Failure::NoLines => f.write_str("nothing is added"),
            Failure::Unread => f.write_str("not all lines can be read; those before are added"),
            Failure::NoIdentifier => f.write_str(
                "--id wants a field that is indexed, of `raw` texts, numbers or dates",
            ),
            Failure::Unwritten => f.write_str("what is told can't be written"),
        }
    }
}
