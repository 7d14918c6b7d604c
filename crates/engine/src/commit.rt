//! The commit of an index.

ghost use Rattle.std.specs.Prelude.{◌<◌, ◌^◌, ◌≡◌, ◌≢◌, ◌⊎◌, IfErr, IsErrOf, None, Ok, OnOk, Some};
ghost use Rattle.definitions.specs.Calls as calls;
ghost use Rattle.definitions.specs.Disk.{HasCause};
ghost use Rattle.definitions.specs.declared.fault.Fault.TheVariants as faults;
ghost use Rattle.index_file.specs.Outcomes.{CountsNoOther};
ghost use Rattle.index_state.specs.Standing.{status_of};
ghost use Rattle.engine.specs.Indexes.{CommitPasses, IndexStands, IsIdle, IsSame, IsShadow, IsStopped, KeepsFile, KeepsMaking, device_of, gate_of};
ghost use Rattle.engine.specs.Writes.{Writes, WritesSegments};

use crate::index::Index;
use common::{Analyzer, Device};
use definitions::Fault;
use index_state::Status;

impl<D: Device + Drop, A: Analyzer + Drop> Index<D, A> {
    /// Commits what is pending: writes a record of it, also if nothing is, and makes searches see it. The record holds
    /// new segments whole, and of each committed one its index in the list before; and which documents of each are
    /// alive. `Limit`, like out of memory, closes the writer; after `Device` the index is closed, and the file may have
    /// either list.
    pub fn commit(&mut self) -> Result<(), Fault>
        ensures writes { (c : calls.Configuration) (x : calls.Index) → IndexStands A.analyze self.old c x
            → Writes A.analyze c x calls.commit_pending self.old self.new result }
        ensures made { KeepsMaking self.old self.new }

        ensures honest { D.honest (device_of self.new) ≡ D.honest (device_of self.old) }
        ensures cause { HasCause (D.failed (device_of self.old)) (D.failed (device_of self.new)) result }
        ensures counted { CountsNoOther (D.failed (device_of self.old)) (D.failed (device_of self.new)) result }
        ensures limit { (c : calls.Configuration) (x : calls.Index) → IndexStands A.analyze self.old c x
            → IsErrOf result faults.Limit → CommitPasses c x.state self.old }
        ensures short { OnOk result (gate_of self.new < 2 ^ 63) }
        ensures kept { IfErr result (λ fault. fault ≢ faults.Device → KeepsFile self.old self.new) }

        // Of any index, whatever documents its segments are of.
        ensures segments { WritesSegments calls.commit_pending self.old self.new result }
        ensures refused { (c : calls.Configuration) (x : calls.Index) → IsShadow A.analyze self.old c x
            → IfErr result (λ fault. fault ≢ faults.OutOfMemory → fault ≢ faults.Device → fault ≢ faults.Limit
            → calls.call_fault c x calls.commit_pending ≡ Some fault) }
        ensures admitted { (c : calls.Configuration) (x : calls.Index) → IsShadow A.analyze self.old c x
            → OnOk result (calls.call_fault c x calls.commit_pending ≡ None) }
        ensures same { IfErr result (λ fault. fault ≢ faults.OutOfMemory → fault ≢ faults.Device → fault ≢ faults.Limit
            → IsSame self.old self.new) }
        ensures half_way { IfErr result (λ fault. (fault ≡ faults.OutOfMemory) ⊎ (fault ≡ faults.Limit)
            → IsStopped calls.writer_closed self.old self.new) }
        ensures failed { IfErr result (λ fault. fault ≡ faults.Device → IsStopped calls.closed self.old self.new) }
        ensures idle { OnOk result (IsIdle self.new) }
    {
        let prepared = self.index_state.prepare()?;
        match self.file.append(prepared.frame()) {
            Ok(()) => {
                self.index_state.install(prepared);
                Ok(())
            }
            Err(fault) => {
                self.index_state.stop(status_after(fault));
                Err(fault)
            }
        }
    }
}

/// Returns what may still be done after a commit failed with `fault`.
fn status_after(fault: Fault) -> Status
    ensures { status_of result ≡ (elim fault [ faults.Device ↦ calls.closed | _ ↦ calls.writer_closed ]) }
{
    match fault {
        Fault::Device => Status::Closed,
        _ => Status::WriterClosed,
    }
}
