//! Errors that end a run of requests before its input ends.

use thiserror::Error;

/// Why a run ended before its input did.
#[derive(Clone, Copy, Debug, PartialEq, Eq, Error)]
pub enum RunFault {
    /// The input can't be read.
    #[error("read fault")]
    ReadFault,
    /// The output can't be written.
    #[error("write fault")]
    WriteFault,
}
