//! Why replies aren't merged.

ghost use Rattle.std.specs.Prelude.{◌≡◌};
ghost use Rattle.shards.specs.declared.merge_error.MergeError.TheVariants.{OutOfMemory};

use std::alloc::{AllocError, AllocFailed};
use std::fmt::{self, Display, Formatter};

/// Why replies aren't merged.
#[derive(Clone, Copy, Debug, PartialEq, Eq, Drop)]
pub enum MergeError {
    /// No memory is found.
    OutOfMemory,
    /// A reply isn't JSON, or nests deeper than is read.
    NotJson,
    /// The replies are neither all to a count nor all to a search.
    Unlike,
}

impl Display for MergeError {
    fn fmt<W: fmt::Write>(&self, f: &mut Formatter<W>) -> fmt::Result {
        f.write_str(match self {
            MergeError::OutOfMemory => "no memory is found",
            MergeError::NotJson => "a reply isn't JSON, or nests deeper than is read",
            MergeError::Unlike => "the replies are neither all to a count nor all to a search",
        })
    }
}

impl From<AllocError> for MergeError {
    ghost from_gives = { λ _ e. e ≡ OutOfMemory };

    fn from(_: AllocError) -> MergeError {
        MergeError::OutOfMemory
    }
}

impl<T: Drop> From<AllocFailed<T>> for MergeError {
    ghost from_gives = { λ _ e. e ≡ OutOfMemory };

    fn from(_: AllocFailed<T>) -> MergeError {
        MergeError::OutOfMemory
    }
}
