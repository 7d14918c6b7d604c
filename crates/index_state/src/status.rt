//! The calls that an index still accepts.

ghost use Rattle.std.specs.Prelude.{◌≡◌, ◌⊎◌, IfErr, false, true};
ghost use Rattle.std.specs.Result.{result_err};
ghost use Rattle.definitions.specs.Calls as calls;
ghost use Rattle.definitions.specs.declared.fault.Fault.TheVariants as faults;
ghost use Rattle.index_state.specs.Statuses.{status_of};

use definitions::Fault;

/// The calls that an index still accepts.
#[derive(Clone, Copy, Debug, PartialEq, Eq)]
pub enum Status {
    /// All calls.
    Ready,
    /// Searches of what was committed, after an add or a commit ran out of memory or met a limit half way.
    WriterClosed,
    /// No calls, since the device failed.
    Closed,
}

impl Status {
    /// Checks that searches are answered.
    pub fn check_open(self) -> Result<(), Fault>
        ensures value { result_err result ≡ calls.status_fault (status_of self) true }
        ensures fault { IfErr result (λ fault. fault ≡ faults.Closed) }
    {
        match self {
            Status::Ready | Status::WriterClosed => Ok(()),
            Status::Closed => Err(Fault::Closed),
        }
    }

    /// Checks that changes are accepted.
    pub fn check_writer(self) -> Result<(), Fault>
        ensures value { result_err result ≡ calls.status_fault (status_of self) false }
        ensures fault { IfErr result (λ fault. (fault ≡ faults.WriterClosed) ⊎ (fault ≡ faults.Closed)) }
    {
        match self {
            Status::Ready => Ok(()),
            Status::WriterClosed => Err(Fault::WriterClosed),
            Status::Closed => Err(Fault::Closed),
        }
    }
}
