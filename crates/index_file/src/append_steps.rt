//! The steps that create, settle and append to a file of records, on a borrowed device.

ghost use Rattle.std.specs.Prelude.{[], ◌++◌, ◌+◌, ◌<◌, ◌^◌, ◌∷◌, ◌≡◌, ◌≢◌, ◌≤◌, ◌⊎◌, IfErr, IsErrOf, IsTrue, List, OnOk, length, ℕ};
ghost use Rattle.definitions.specs.Disk.{HasCause, settled};
ghost use Rattle.definitions.specs.Moments.{LeavesOnly};
ghost use Rattle.definitions.specs.declared.fault.Fault.TheVariants as faults;
ghost use Rattle.layouts.specs.RecordFiles.{EndsAt, IsAtRest, IsOneOf};
ghost use Rattle.index_file.specs.Frames.{frame_bytes};
ghost use Rattle.index_file.specs.Kept.{IsKept, IsOldOrFirst, IsOldOrNone, IsOldOrOf};
ghost use Rattle.index_file.specs.Outcomes.{CountsNoOther};

use crate::frame::OPEN;
use common::{Device, cut_synced, write_synced};
use definitions::Fault;
use std::alloc::Global;

/// Settles a file with its closed gate at offset `gate`: syncs, cuts what follows the gate, syncs.
pub(crate) fn settle_file<D: Device>(device: &mut D, gate: usize) -> Result<(), Fault>
    requires inside { IsTrue (D.honest device.old) → gate < length (D.content device.old) }
    requires short { gate < 2 ^ 63 }
    ensures honest { D.honest device.new ≡ D.honest device.old }
    ensures cause { HasCause (D.failed device.old) (D.failed device.new) result }
    ensures counted { CountsNoOther (D.failed device.old) (D.failed device.new) result }
    ensures fault { IfErr result (λ fault. fault ≡ faults.Device) }
    ensures inside { IsTrue (D.honest device.old) → gate < length (D.content device.new) }
    ensures at_rest { (bodies : List (List ℕ)) → IsTrue (D.honest device.old)
        → EndsAt (D.content device.old) gate bodies
        → OnOk result (IsAtRest (D.content device.new) gate bodies) }
    ensures unsynced { IsTrue (D.honest device.old)
        → OnOk result (D.unsynced device.new ≡ settled (length (D.content device.new))) }
    ensures any_moment { (bodies : List (List ℕ)) → IsTrue (D.honest device.old)
        → EndsAt (D.content device.old) gate bodies
        → LeavesOnly D.moment D.left_since device.old device.new
        (IsOldOrOf D.content D.unsynced device.old bodies) }
{
    device.sync()?;
    cut_synced(device, gate + 1)
}

/// Appends the record of `frame` at the closed gate at offset `gate`.
pub(crate) fn append_record<D: Device>(
    device: &mut D,
    gate: usize,
    frame: &[u8],
) -> Result<(), Fault>
    requires inside { IsTrue (D.honest device.old) → gate < length (D.content device.old) }
    requires room { gate + 1 + length frame.now ≤ 2 ^ 63 }
    ensures honest { D.honest device.new ≡ D.honest device.old }
    ensures cause { HasCause (D.failed device.old) (D.failed device.new) result }
    ensures counted { CountsNoOther (D.failed device.old) (D.failed device.new) result }
    ensures fault { IfErr result (λ fault. fault ≡ faults.Device) }
    ensures no_shorter { IsTrue (D.honest device.old)
        → length (D.content device.old) ≤ length (D.content device.new) }
    ensures long { IsTrue (D.honest device.old)
        → OnOk result (gate + length frame.now < length (D.content device.new)) }
    ensures appended { (bodies : List (List ℕ)) (body : List ℕ) → IsTrue (D.honest device.old)
        → frame.now ≡ frame_bytes body → IsAtRest (D.content device.old) gate bodies
        → OnOk result (IsAtRest (D.content device.new) (gate + length frame.now) (bodies ++ body ∷ [])) }
    ensures unsynced { IsTrue (D.honest device.old)
        → OnOk result (D.unsynced device.new ≡ settled (length (D.content device.new))) }
    ensures any_moment { (bodies : List (List ℕ)) (body : List ℕ) → IsTrue (D.honest device.old)
        → frame.now ≡ frame_bytes body → IsAtRest (D.content device.old) gate bodies
        → D.unsynced device.old ≡ settled (length (D.content device.old))
        → LeavesOnly D.moment D.left_since device.old device.new (IsOneOf bodies (bodies ++ body ∷ [])) }
{
    write_synced(device, gate + 1, frame)?;
    write_synced(device, gate, &[OPEN])
}

/// Creates a file of one record on an empty device.
pub(crate) fn create_file<D: Device>(
    alloc: Global,
    device: &mut D,
    frame: &[u8],
) -> Result<(), Fault>
    ensures honest { D.honest device.new ≡ D.honest device.old }
    ensures cause { HasCause (D.failed device.old) (D.failed device.new) result }
    ensures counted { CountsNoOther (D.failed device.old) (D.failed device.new) result }
    ensures fault { IfErr result (λ fault.
        (fault ≡ faults.Device) ⊎ (fault ≡ faults.OutOfMemory) ⊎ (fault ≡ faults.NotEmpty)) }
    ensures not_empty { IsTrue (D.honest device.old) → IsErrOf result faults.NotEmpty → D.content device.old ≢ [] }
    ensures empty { IsTrue (D.honest device.old) → OnOk result (D.content device.old ≡ []) }
    ensures long { IsTrue (D.honest device.old) → OnOk result (length frame.now < length (D.content device.new)) }
    ensures at_rest { (body : List ℕ) → IsTrue (D.honest device.old) → frame.now ≡ frame_bytes body
        → OnOk result (IsAtRest (D.content device.new) (length frame.now) (body ∷ [])) }
    ensures unsynced { IsTrue (D.honest device.old)
        → OnOk result (D.unsynced device.new ≡ settled (length (D.content device.new))) }
    ensures any_moment { (body : List ℕ) → IsTrue (D.honest device.old) → frame.now ≡ frame_bytes body
        → LeavesOnly D.moment D.left_since device.old device.new
        (IsOldOrFirst D.content D.unsynced device.old body) }
    ensures kept { IsTrue (D.honest device.old)
        → (D.content device.old ≢ []) ⊎ IsErrOf result faults.OutOfMemory
        → IsKept D.moment D.left_since D.content D.unsynced device.old device.new }
{
    lay_gate(alloc, device)?;
    append_record(device, 0, frame)
}

/// Writes a closed gate to an empty device.
pub(crate) fn lay_gate<D: Device>(alloc: Global, device: &mut D) -> Result<(), Fault>
    ensures honest { D.honest device.new ≡ D.honest device.old }
    ensures cause { HasCause (D.failed device.old) (D.failed device.new) result }
    ensures counted { CountsNoOther (D.failed device.old) (D.failed device.new) result }
    ensures fault { IfErr result (λ fault.
        (fault ≡ faults.Device) ⊎ (fault ≡ faults.OutOfMemory) ⊎ (fault ≡ faults.NotEmpty)) }
    ensures not_empty { IsTrue (D.honest device.old) → IsErrOf result faults.NotEmpty → D.content device.old ≢ [] }
    ensures empty { IsTrue (D.honest device.old) → OnOk result (D.content device.old ≡ []) }
    ensures content { IsTrue (D.honest device.old) → OnOk result (D.content device.new ≡ 0 ∷ []) }
    ensures unsynced { IsTrue (D.honest device.old) → OnOk result (D.unsynced device.new ≡ settled 1) }
    ensures any_moment { IsTrue (D.honest device.old)
        → LeavesOnly D.moment D.left_since device.old device.new (IsOldOrNone D.content D.unsynced device.old) }
    ensures kept { IsTrue (D.honest device.old)
        → (D.content device.old ≢ []) ⊎ IsErrOf result faults.OutOfMemory
        → IsKept D.moment D.left_since D.content D.unsynced device.old device.new }
{
    if !device.read(alloc)?.is_empty() {
        return Err(Fault::NotEmpty);
    }
    write_synced(device, 0, &[0])
}
