//! The stage of a session: a device without an index, or with one. An index is created or opened in place of the other.

ghost use Rattle.std.specs.Prelude.{◌≡◌, ◌≢◌, IfErr, IsErrOf, IsTrue, Some, false};
ghost use Rattle.definitions.specs.Disk.{HasCause};
ghost use Rattle.definitions.specs.Step as steps;
ghost use Rattle.definitions.specs.declared.fault.Fault.TheVariants as faults;
ghost use Rattle.index_file.specs.Kept.{IsKept};
ghost use Rattle.engine.specs.HandedOn.{status_of};
ghost use Rattle.index.specs.Asking.{Creates, Opens};
ghost use Rattle.index.specs.Outcomes.{IsMade, IsRead, takes_on};
ghost use Rattle.index.specs.Sessions.{IsSpare, IsStage, LeavesStage, analyzer_on, device_on, left_by};

use common::{Analyzer, Device};
use definitions::Fault;
use engine::{Index, Refused, Status};
use schema::Schema;
use settings::Settings;
use std::alloc::Global;

/// The stage of a session: a device without an index, or with one.
#[derive(Drop)]
pub(crate) enum Stage<D: Device, A: Analyzer> {
    /// No index: the device and the analyzer for one.
    Spare(D, A),
    /// An index.
    Standing(Index<D, A>),
}

impl<D: Device + Drop, A: Analyzer + Drop> Stage<D, A> {
    /// Returns whether there is an index that accepts every call.
    pub(crate) fn is_ready(&self) -> bool
        ensures stands { (a : steps.Analysis) (s : steps.Stage) → IsStage A.knows_name A.analyze a self.now s
            → result ≡ steps.is_ready s }
        ensures any { result ≡ takes_on self.now }
    {
        match self {
            Stage::Spare(_, _) => false,
            Stage::Standing(index) => takes_calls(index.state()),
        }
    }

    /// Creates an index of `schema` and `settings`, in place of the stage's index, if any.
    pub(crate) fn create(
        self,
        alloc: Global,
        schema: Schema,
        settings: Settings,
    ) -> (Stage<D, A>, Result<(), Fault>)
        ensures left { (a : steps.Analysis) (s : steps.Stage) → IsStage A.knows_name A.analyze a self s
            → steps.is_ready s ≡ false
            → LeavesStage A.knows_name A.analyze a (steps.held_by s) (Some result.0) result.1
            (steps.created a.knows schema settings (steps.held_by s)) }
        ensures honest { D.honest (device_on result.0) ≡ D.honest (device_on self) }
        ensures failures { HasCause (D.failed (device_on self)) (D.failed (device_on result.0)) result.1 }
        ensures limit { ¬ IsErrOf result.1 faults.Limit }
        ensures kept { IsTrue (D.honest (device_on self)) → IfErr result.1 (λ fault. fault ≢ faults.Device
            → IsKept D.moment D.left_since D.content D.unsynced (device_on self) (device_on result.0)) }
        ensures creates { Creates self result.0 }
        ensures made { IsMade A.knows_name A.analyze (device_on self) (analyzer_on self) schema settings result }
    {
        let (device, analyzer) = self.into_device();
        leave(Index::create(alloc, device, analyzer, schema, settings))
    }

    /// Opens the index of the device's file, in place of the stage's index, if any.
    pub(crate) fn open(self, alloc: Global) -> (Stage<D, A>, Result<(), Fault>)
        ensures left { (a : steps.Analysis) (s : steps.Stage) → IsStage A.knows_name A.analyze a self s
            → steps.is_ready s ≡ false
            → LeavesStage A.knows_name A.analyze a (steps.held_by s) (Some result.0) result.1
            (steps.opened a.knows (steps.held_by s)) }
        ensures honest { D.honest (device_on result.0) ≡ D.honest (device_on self) }
        ensures failures { HasCause (D.failed (device_on self)) (D.failed (device_on result.0)) result.1 }
        ensures limit { (a : steps.Analysis) (s : steps.Stage) → IsStage A.knows_name A.analyze a self s
            → steps.is_ready s ≡ false → ¬ IsErrOf result.1 faults.Limit }
        ensures kept { IsTrue (D.honest (device_on self)) → IfErr result.1 (λ fault. fault ≢ faults.Device
            → IsKept D.moment D.left_since D.content D.unsynced (device_on self) (device_on result.0)) }
        ensures opens { Opens self result.0 }
        ensures read { IsRead A.knows_name A.analyze (device_on self) (analyzer_on self) result }
    {
        let (device, analyzer) = self.into_device();
        leave(Index::open(alloc, device, analyzer))
    }

    /// Returns the device and the analyzer. An index is dropped, and what is pending in it is lost.
    pub(crate) fn into_device(self) -> (D, A)
        ensures device { result.0 ≡ device_on self }
        ensures analyzer { result.1 ≡ analyzer_on self }
        ensures held { (a : steps.Analysis) (s : steps.Stage) → IsStage A.knows_name A.analyze a self s
            → IsTrue (D.honest result.0)
            → IsSpare D.honest D.content A.knows_name A.analyze a result.0 result.1 (steps.held_by s) }
        ensures spare { (a : steps.Analysis) (s : steps.Stage) → IsStage A.knows_name A.analyze a self s
            → steps.is_ready s ≡ false
            → IsSpare D.honest D.content A.knows_name A.analyze a result.0 result.1 (steps.held_by s) }
    {
        match self {
            Stage::Spare(device, analyzer) => (device, analyzer),
            Stage::Standing(index) => index.into_device(),
        }
    }
}

/// Returns whether every call is accepted in `status`.
fn takes_calls(status: Status) -> bool
    ensures { result ≡ steps.takes_calls (status_of status) }
{
    match status {
        Status::Ready => true,
        Status::WriterClosed | Status::Closed => false,
    }
}

/// Returns the stage after an index was to be created or opened, and whether it was.
fn leave<D: Device + Drop, A: Analyzer + Drop>(
    outcome: Result<Index<D, A>, Refused<D, A>>,
) -> (Stage<D, A>, Result<(), Fault>)
    ensures { result ≡ left_by outcome }
{
    match outcome {
        Ok(index) => (Stage::Standing(index), Ok(())),
        Err(refused) => {
            let Refused {
                fault,
                device,
                analyzer,
            } = refused;
            (Stage::Spare(device, analyzer), Err(fault))
        }
    }
}
