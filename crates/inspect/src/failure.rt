//! Why a request isn't answered.

use crate::damage::Damage;
use definitions::Fault;
use std::alloc::AllocError;
use std::fmt::{self, Display, Formatter};
use std::io;

/// Why a request isn't answered.
#[derive(Debug, Drop)]
pub(crate) enum Failure {
    /// The file can't be read, or is none that opens.
    Unsound(Fault),
    /// The file is damaged, which was told.
    Damaged,
    /// The file is damaged.
    Damage(Damage),
    /// What is asked for can't be written.
    Unwritten,
}

impl Failure {
    /// Whether it lies in what the file has, and not in how it is read or what is written.
    pub(crate) fn is_of_contents(&self) -> bool {
        match self {
            Failure::Unsound(fault) => !matches!(fault, Fault::Device | Fault::OutOfMemory),
            Failure::Damaged | Failure::Damage(_) => true,
            Failure::Unwritten => false,
        }
    }
}

impl From<Fault> for Failure {
    fn from(fault: Fault) -> Failure {
        Failure::Unsound(fault)
    }
}

impl From<AllocError> for Failure {
    fn from(_refused: AllocError) -> Failure {
        Failure::Unsound(Fault::OutOfMemory)
    }
}

impl From<io::Error> for Failure {
    fn from(_error: io::Error) -> Failure {
        Failure::Unwritten
    }
}

impl Display for Failure {
    fn fmt<W: fmt::Write>(&self, f: &mut Formatter<W>) -> fmt::Result {
        match self {
            Failure::Unsound(Fault::Device) => f.write_str(
                "the file can't be read, or another program has it",
            ),
            Failure::Unsound(Fault::NoIndex) => f.write_str(
                "the file is no index: it is too short for a record, or begins with no open gate",
            ),
            Failure::Unsound(Fault::Damaged(Some(gate))) => {
                write!(f, "the file is damaged in the record at byte {gate}")
            }
            Failure::Unsound(fault) => fault.fmt(f),
            Failure::Damaged => f.write_str("the file isn't sound"),
            Failure::Damage(damage) => write!(f, "the file is damaged: {damage}"),
            Failure::Unwritten => f.write_str("what is asked for can't be written"),
        }
    }
}
