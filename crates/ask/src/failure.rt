//! Why a search isn't answered.

use crate::question::Unanswered;
use definitions::Fault;
use query_text::Refusal;
use std::alloc::{AllocError, AllocFailed};
use std::fmt::{self, Display, Formatter};
use std::io;

/// How many documents at most are ordered by a field or counted by its values.
pub(crate) const MOST_ORDERED: u64 = 100_000;

/// Why a search isn't answered.
#[derive(Debug, Drop)]
pub(crate) enum Failure {
    /// The index refuses the search.
    Refused(Fault),
    /// The text isn't read as a query.
    NotRead(Refusal),
    /// More documents match than are ordered by a field or counted by its values.
    TooMany(u64),
    /// A field that is named isn't there, or isn't stored.
    NotStored,
    /// A field of objects is to be ordered by or counted by.
    Objects,
    /// The newest are asked for, and there isn't one stored field of dates alone.
    NoDate,
    /// Nobody reads what is printed any more.
    Unread,
    /// What was found can't be written.
    Unwritten,
}

impl From<Unanswered> for Failure {
    fn from(unanswered: Unanswered) -> Failure {
        match unanswered {
            Unanswered::NotRead(refusal) => Failure::NotRead(refusal),
            Unanswered::Refused(fault) => Failure::Refused(fault),
        }
    }
}

impl From<Fault> for Failure {
    fn from(fault: Fault) -> Failure {
        Failure::Refused(fault)
    }
}

impl From<AllocError> for Failure {
    fn from(_refused: AllocError) -> Failure {
        Failure::Refused(Fault::OutOfMemory)
    }
}

impl<T: Drop> From<AllocFailed<T>> for Failure {
    fn from(_refused: AllocFailed<T>) -> Failure {
        Failure::Refused(Fault::OutOfMemory)
    }
}

impl From<io::Error> for Failure {
    fn from(error: io::Error) -> Failure {
        if error.kind() == io::ErrorKind::BrokenPipe {
            Failure::Unread
        } else {
            Failure::Unwritten
        }
    }
}

impl Display for Failure {
    fn fmt<W: fmt::Write>(&self, f: &mut Formatter<W>) -> fmt::Result {
        match self {
            Failure::Refused(Fault::NotIndexed) => f.write_str("that field isn't indexed"),
            Failure::Refused(Fault::ScoreTooLarge) => {
                f.write_str("a document could score above 10^15; write a smaller number behind `^`")
            }
            Failure::Refused(fault) => fault.fmt(f),
            Failure::NotRead(_) => f.write_str("the text isn't read"),
            Failure::TooMany(found) => write!(
                f,
                "{found} documents match, and {MOST_ORDERED} at most are ordered or counted by a field; add a word"
            ),
            Failure::NotStored => f.write_str("no stored field has that name"),
            Failure::Objects => f.write_str(
                "objects aren't ordered or counted; name another field",
            ),
            Failure::NoDate => f.write_str(
                "--newest wants one stored field of dates; write --sort -FIELD",
            ),
            Failure::Unread => f.write_str("nobody reads what is printed any more"),
            Failure::Unwritten => f.write_str("what was found can't be written"),
        }
    }
}
