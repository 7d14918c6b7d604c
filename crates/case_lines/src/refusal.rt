//! Why a case has no value as its answer.

use definitions::Fault;
use std::alloc::{AllocError, AllocFailed};

/// Why a case has no value as its answer.
#[derive(Clone, Copy, Debug, PartialEq, Eq)]
pub enum Refusal {
    /// The index refused what the case asks for: the answer is the fault's name.
    Fault(Fault),
    /// The operation isn't known, or its arguments are others than it takes.
    NotAsked,
}

impl From<Fault> for Refusal {
    fn from(fault: Fault) -> Self {
        Refusal::Fault(fault)
    }
}

impl From<AllocError> for Refusal {
    fn from(_: AllocError) -> Self {
        Refusal::Fault(Fault::OutOfMemory)
    }
}

impl<T: Drop> From<AllocFailed<T>> for Refusal {
    fn from(_: AllocFailed<T>) -> Self {
        Refusal::Fault(Fault::OutOfMemory)
    }
}
