//! An open file of records: its device and the offset of its closed gate.

ghost use Rattle.std.specs.Prelude.{[], ◌++◌, ◌+◌, ◌<◌, ◌^◌, ◌∷◌, ◌≡◌, ◌≢◌, ◌↔◌, ◌⊎◌, IfErr, IfOk, IsErrOf, IsTrue, List, OnOk, length, ℕ};
ghost use Rattle.definitions.specs.Disk.{HasCause, settled};
ghost use Rattle.definitions.specs.Moments.{LeavesOnly};
ghost use Rattle.definitions.specs.declared.fault.Fault.TheVariants as faults;
ghost use Rattle.layouts.specs.RecordFiles.{EndsAt, IsAtRest, IsOneOf};
ghost use Rattle.index_file.specs.Frames.{frame_bytes};
ghost use Rattle.index_file.specs.Kept.{IsKept, IsOldOrFirst, IsOldOrOf};
ghost use Rattle.index_file.specs.Outcomes.{CountsNoOther};

use crate::append_steps::{append_record, create_file, settle_file};
use common::Device;
use definitions::Fault;
use std::alloc::Global;

/// The most bytes that a file may have.
const MOST_BYTES: usize = 1 << 63;

/// An open file of records: its device, and the offset of its closed gate.
#[derive(Drop)]
pub struct RecordFile<D: Device> {
    pub device: D,
    pub gate: usize,
    ghost within: { IsTrue (D.honest device) → gate < length (D.content device) },
}

impl<D: Device> RecordFile<D> {
    ghost use Rattle.index_file.specs.HandedBack.{device_after, ending_of};

    /// Creates a file of one record, given as its `frame`, on an empty device. The memory that this takes is the
    /// device's, to read.
    pub fn create(alloc: Global, device: D, frame: &[u8]) -> Result<RecordFile<D>, (Fault, D)>
        ensures fault { IfErr result (λ refusal.
            (refusal.0 ≡ faults.Device) ⊎ (refusal.0 ≡ faults.OutOfMemory) ⊎ (refusal.0 ≡ faults.NotEmpty)) }
        ensures not_empty { IsTrue (D.honest device)
            → IfErr result (λ refusal. refusal.0 ≡ faults.NotEmpty → D.content device ≢ []) }
        ensures empty { IsTrue (D.honest device) → OnOk result (D.content device ≡ []) }

        ensures honest { D.honest (device_after result) ≡ D.honest device }
        ensures cause { HasCause (D.failed device) (D.failed (device_after result)) (ending_of result) }
        ensures counted { CountsNoOther (D.failed device) (D.failed (device_after result)) (ending_of result) }
        // A device that holds a byte, or that is read without memory, stays as it is.
        ensures kept { IsTrue (D.honest device)
            → IfErr result (λ refusal. (D.content device ≢ []) ⊎ (refusal.0 ≡ faults.OutOfMemory)
            → IsKept D.moment D.left_since D.content D.unsynced device refusal.1) }

        ensures at_rest { (body : List ℕ) → IsTrue (D.honest device) → frame.now ≡ frame_bytes body
            → IfOk result (λ file. IsAtRest (D.content file.device) file.gate (body ∷ [])) }
        ensures unsynced { IsTrue (D.honest device)
            → IfOk result (λ file. D.unsynced file.device ≡ settled (length (D.content file.device))) }

        // At every moment a crash leaves what it might have left before, no index, or a file of this one body.
        ensures any_moment { (body : List ℕ) → IsTrue (D.honest device) → frame.now ≡ frame_bytes body
            → LeavesOnly D.moment D.left_since device (device_after result)
            (IsOldOrFirst D.content D.unsynced device body) }
    {
        let mut device = device;
        match create_file(alloc, &mut device, frame) {
            Ok(()) => Ok(RecordFile {
                device,
                gate: frame.len(),
            }),
            Err(fault) => Err((fault, device)),
        }
    }

    /// Settles a file that was read, with its closed gate at offset `gate`: syncs, cuts after the gate, syncs.
    pub fn settle(device: D, gate: usize) -> Result<RecordFile<D>, (Fault, D)>
        requires inside { IsTrue (D.honest device) → gate < length (D.content device) }
        requires short { gate < 2 ^ 63 }
        ensures fault { IfErr result (λ refusal. refusal.0 ≡ faults.Device) }

        ensures honest { D.honest (device_after result) ≡ D.honest device }
        ensures cause { HasCause (D.failed device) (D.failed (device_after result)) (ending_of result) }
        ensures counted { CountsNoOther (D.failed device) (D.failed (device_after result)) (ending_of result) }

        ensures at_rest { (bodies : List (List ℕ)) → IsTrue (D.honest device)
            → EndsAt (D.content device) gate bodies
            → IfOk result (λ file. IsAtRest (D.content file.device) file.gate bodies) }
        ensures unsynced { IsTrue (D.honest device)
            → IfOk result (λ file. D.unsynced file.device ≡ settled (length (D.content file.device))) }

        // At every moment a crash leaves what it might have left before, or a file of the bodies that were read.
        ensures any_moment { (bodies : List (List ℕ)) → IsTrue (D.honest device)
            → EndsAt (D.content device) gate bodies
            → LeavesOnly D.moment D.left_since device (device_after result)
            (IsOldOrOf D.content D.unsynced device bodies) }
    {
        let mut device = device;
        match settle_file(&mut device, gate) {
            Ok(()) => Ok(RecordFile { device, gate }),
            Err(fault) => Err((fault, device)),
        }
    }

    /// Appends a record, given as its `frame`: writes it in one call, syncs, opens its gate, syncs. It takes no memory.
    ///
    /// After `Device` nothing is known of the closed gate: the file must be read again.
    pub fn append(&mut self, frame: &[u8]) -> Result<(), Fault>
        ensures fault { IfErr result (λ fault. (fault ≡ faults.Device) ⊎ (fault ≡ faults.Limit)) }
        ensures limit { IsErrOf result faults.Limit ↔ (2 ^ 63 < self.old.gate + 1 + length frame.now) }
        ensures unchanged { IsErrOf result faults.Limit
            → (self.new.device ≡ self.old.device) × (self.new.gate ≡ self.old.gate) }

        ensures honest { D.honest self.new.device ≡ D.honest self.old.device }
        ensures cause { HasCause (D.failed self.old.device) (D.failed self.new.device) result }
        ensures counted { CountsNoOther (D.failed self.old.device) (D.failed self.new.device) result }

        ensures gate { OnOk result (self.new.gate ≡ self.old.gate + length frame.now) }
        ensures appended { (bodies : List (List ℕ)) (body : List ℕ) → IsTrue (D.honest self.old.device)
            → frame.now ≡ frame_bytes body
            → IsAtRest (D.content self.old.device) self.old.gate bodies
            → OnOk result (IsAtRest (D.content self.new.device) self.new.gate (bodies ++ body ∷ [])) }
        ensures unsynced { IsTrue (D.honest self.old.device)
            → OnOk result (D.unsynced self.new.device ≡ settled (length (D.content self.new.device))) }

        ensures any_moment { (bodies : List (List ℕ)) (body : List ℕ) → IsTrue (D.honest self.old.device)
            → frame.now ≡ frame_bytes body
            → IsAtRest (D.content self.old.device) self.old.gate bodies
            → D.unsynced self.old.device ≡ settled (length (D.content self.old.device))
            → LeavesOnly D.moment D.left_since self.old.device self.new.device (IsOneOf bodies (bodies ++ body ∷ [])) }
    {
        if MOST_BYTES.saturating_sub(self.gate) <= frame.len() {
            return Err(Fault::Limit);
        }
        append_record(&mut self.device, self.gate, frame)?;
        self.gate += frame.len();
        Ok(())
    }

    /// Returns the device, as it is.
    pub fn into_device(self) -> D
        ensures { result ≡ self.device }
    {
        let RecordFile { device, .. } = self;
        device
    }
}
