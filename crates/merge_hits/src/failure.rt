//! Why replies aren't merged.

use shards::MergeError;
use std::alloc::{AllocError, AllocFailed};
use std::fmt::{self, Display, Formatter};
use std::io;

/// Why replies aren't merged.
#[derive(Debug, Drop)]
pub(crate) enum Failure {
    /// A file can't be read, or the output can't be written.
    Files,
    /// No memory is found.
    OutOfMemory,
    /// A file has no reply to the request of this line.
    NoReply(u64),
    /// A file has more replies than there are requests.
    MoreReplies,
    /// The replies to the request of this line can't be merged.
    Unmerged(u64, MergeError),
}

impl From<AllocError> for Failure {
    fn from(_refused: AllocError) -> Failure {
        Failure::OutOfMemory
    }
}

impl<T: Drop> From<AllocFailed<T>> for Failure {
    fn from(_refused: AllocFailed<T>) -> Failure {
        Failure::OutOfMemory
    }
}

impl From<io::Error> for Failure {
    fn from(_error: io::Error) -> Failure {
        Failure::Files
    }
}

impl Display for Failure {
    fn fmt<W: fmt::Write>(&self, f: &mut Formatter<W>) -> fmt::Result {
        match self {
            Failure::Files => f.write_str("a file can't be read, or the output can't be written"),
            Failure::OutOfMemory => f.write_str("no memory is found"),
            Failure::NoReply(number) => write!(f, "line {number}: a file has no reply"),
            Failure::MoreReplies => f.write_str("a file has more replies than there are requests"),
            Failure::Unmerged(number, error) => write!(f, "line {number}: {error}"),
        }
    }
}
