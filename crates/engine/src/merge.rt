//! Merges of an index.

ghost use Rattle.std.specs.Prelude.{◌<◌, ◌^◌, ◌≡◌, ◌≢◌, ◌⊎◌, IfErr, IsErrOf, None, OnOk, Some};
ghost use Rattle.definitions.specs.Calls as calls;
ghost use Rattle.definitions.specs.Disk.{HasCause};
ghost use Rattle.definitions.specs.declared.fault.Fault.TheVariants as faults;
ghost use Rattle.index_file.specs.Outcomes.{CountsNoOther};
ghost use Rattle.engine.specs.Indexes.{IndexStands, IsSame, IsShadow, IsStopped, KeepsFile, KeepsMaking, KeepsWaiting, device_of, gate_of};
ghost use Rattle.engine.specs.Merges.{MergePasses};
ghost use Rattle.engine.specs.Writes.{Writes, WritesSegments};

use crate::index::Index;
use common::{Analyzer, Device};
use definitions::Fault;
use index_state::Status;
use std::ops::Range;

impl<D: Device + Drop, A: Analyzer + Drop> Index<D, A> {
    /// Merges the committed segments of `range`: one segment of their living documents takes their place, or none if
    /// there are no such documents, and a record of it is written. Searches answer as before; what is pending stays,
    /// and pending deletions cover the merged documents. `BadRange` if the range names no segment, or more than there
    /// are. After `Device` the index is closed, and the file may have either list; other errors change nothing.
    pub fn merge(&mut self, range: Range<usize>) -> Result<(), Fault>
        ensures writes { (c : calls.Configuration) (x : calls.Index) → IndexStands A.analyze self.old c x
            → Writes A.analyze c x (calls.merge_range range.start range.end) self.old self.new result }
        ensures made { KeepsMaking self.old self.new }

        ensures honest { D.honest (device_of self.new) ≡ D.honest (device_of self.old) }
        ensures cause { HasCause (D.failed (device_of self.old)) (D.failed (device_of self.new)) result }
        ensures counted { CountsNoOther (D.failed (device_of self.old)) (D.failed (device_of self.new)) result }
        ensures limit { (c : calls.Configuration) (x : calls.Index) → IndexStands A.analyze self.old c x
            → IsErrOf result faults.Limit
            → MergePasses A.analyze c x.state range.start range.end self.old }
        ensures short { OnOk result (gate_of self.new < 2 ^ 63) }
        ensures kept { IfErr result (λ fault. fault ≢ faults.Device → KeepsFile self.old self.new) }

        // Of any index, whatever documents its segments are of.
        ensures segments { WritesSegments (calls.merge_range range.start range.end) self.old self.new result }
        ensures refused { (c : calls.Configuration) (x : calls.Index) → IsShadow A.analyze self.old c x
            → IfErr result (λ fault. fault ≢ faults.OutOfMemory → fault ≢ faults.Device → fault ≢ faults.Limit
            → (fault ≡ faults.Damaged None)
            ⊎ (calls.call_fault c x (calls.merge_range range.start range.end) ≡ Some fault)) }
        ensures admitted { (c : calls.Configuration) (x : calls.Index) → IsShadow A.analyze self.old c x
            → OnOk result (calls.call_fault c x (calls.merge_range range.start range.end) ≡ None) }
        ensures same { IfErr result (λ fault. fault ≢ faults.Device → IsSame self.old self.new) }
        ensures failed { IfErr result (λ fault. fault ≡ faults.Device → IsStopped calls.closed self.old self.new) }
        ensures waits { OnOk result (KeepsWaiting self.old self.new) }
    {
        let prepared = self.index_state.prepare_merge(range.start, range.end)?;
        match self.file.append(prepared.frame()) {
            Ok(()) => {
                self.index_state.install_merge(prepared);
                Ok(())
            }
            Err(fault) => match fault {
                Fault::Device => {
                    self.index_state.stop(Status::Closed);
                    Err(fault)
                }
                _ => Err(fault),
            },
        }
    }
}
