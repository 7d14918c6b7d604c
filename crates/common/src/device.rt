//! Devices, which hold a file's bytes, and may fail or crash.

ghost use Rattle.std.specs.Prelude.{◌++◌, ◌≡◌, ◌≢◌, ◌≤◌, ◌⊎◌, Bool, IfErr, IfOk, IsErrOf, IsTrue, List, OnErr, OnOk, length, take, ℕ};
ghost use Rattle.definitions.specs.declared.fault.Fault.TheVariants as faults;
ghost use Rattle.definitions.specs.Disk.{HasCause, IsEither, IsImage, IsPartly, Unsynced, overwritten, settled, shortened, written};
ghost use Rattle.definitions.specs.Moments.{Elapses};

use definitions::Fault;
use std::alloc::Global;

/// A device: the bytes of a file, with a count of its failures.
///
/// The contracts say what an honest device reads, and what a crash of it may leave. They say nothing about the bytes of
/// other devices. A call that failed may have been done or not, and the contracts allow both: whichever a read then
/// returns, a crash may leave it.
pub trait Device {
    // Whether the other members hold of the device. No call changes this.
    ghost honest: { Self → Bool };

    // What a read returns.
    ghost content: { Self → List ℕ };

    // The number of failures.
    ghost failed: { Self → ℕ };

    // What may not be on the disk.
    ghost unsynced: { Self → Unsynced };

    // The time, as a number that doesn't fall.
    ghost moment: { Self → ℕ };

    // What a crash at some moment from this one on may have left.
    ghost left_since: { Self → ℕ → List ℕ → Type 0 };

    /// Reads the whole content.
    fn read(&mut self, alloc: Global) -> Result<Vec<u8>, Fault>
        ensures honest { honest self.new ≡ honest self.old }
        ensures cause { HasCause (failed self.old) (failed self.new) result }
        ensures counted { ¬ IsErrOf result faults.Device → failed self.new ≡ failed self.old }
        ensures fault { IfErr result (λ fault. (fault ≡ faults.Device) ⊎ (fault ≡ faults.OutOfMemory)) }
        ensures bytes { IsTrue (honest self.old) → IfOk result (λ bytes. bytes.items ≡ content self.old) }
        ensures content { IsTrue (honest self.old) → content self.new ≡ content self.old }
        ensures unsynced { IsTrue (honest self.old) → unsynced self.new ≡ unsynced self.old }
        ensures time { IsTrue (honest self.old)
            → Elapses (moment self.old) (moment self.new) (left_since self.old) (left_since self.new)
            (IsImage (content self.new) (unsynced self.new)) };

    /// Writes `bytes` at offset `at`, over what is there and past the end.
    fn write_at(&mut self, at: usize, bytes: &[u8]) -> Result<(), Fault>
        requires { IsTrue (honest self.old) → at ≤ length (content self.old) }
        ensures honest { honest self.new ≡ honest self.old }
        ensures cause { HasCause (failed self.old) (failed self.new) result }
        ensures counted { ¬ IsErrOf result faults.Device → failed self.new ≡ failed self.old }
        ensures fault { IfErr result (λ fault. fault ≡ faults.Device) }
        ensures content { IsTrue (honest self.old)
            → OnOk result (content self.new ≡ overwritten at bytes.now (content self.old)) }
        ensures partly { IsTrue (honest self.old)
            → OnErr result (IsPartly (content self.old) (overwritten at bytes.now (content self.old))
            (content self.new)) }
        ensures unsynced { IsTrue (honest self.old)
            → OnOk result (unsynced self.new ≡ written at (length bytes.now) (unsynced self.old)) }
        ensures unsynced_err { IsTrue (honest self.old)
            → OnErr result (IsEither (unsynced self.old) (written at (length bytes.now) (unsynced self.old))
            (unsynced self.new)) }
        ensures time { IsTrue (honest self.old)
            → Elapses (moment self.old) (moment self.new) (left_since self.old) (left_since self.new)
            (IsImage (content self.new) (unsynced self.new)) };

    /// Cuts the content to `len` bytes.
    fn cut(&mut self, len: usize) -> Result<(), Fault>
        requires { IsTrue (honest self.old) → len ≤ length (content self.old) }
        ensures honest { honest self.new ≡ honest self.old }
        ensures cause { HasCause (failed self.old) (failed self.new) result }
        ensures counted { ¬ IsErrOf result faults.Device → failed self.new ≡ failed self.old }
        ensures fault { IfErr result (λ fault. fault ≡ faults.Device) }
        ensures content { IsTrue (honest self.old) → OnOk result (content self.new ≡ take len (content self.old)) }
        ensures partly { IsTrue (honest self.old)
            → OnErr result (IsPartly (content self.old) (take len (content self.old)) (content self.new)) }
        ensures unsynced { IsTrue (honest self.old)
            → OnOk result (unsynced self.new ≡ shortened len (unsynced self.old)) }
        ensures unsynced_err { IsTrue (honest self.old)
            → OnErr result (IsEither (unsynced self.old) (shortened len (unsynced self.old)) (unsynced self.new)) }
        ensures time { IsTrue (honest self.old)
            → Elapses (moment self.old) (moment self.new) (left_since self.old) (left_since self.new)
            (IsImage (content self.new) (unsynced self.new)) };

    /// Syncs: from then on, a crash leaves what a read returns.
    fn sync(&mut self) -> Result<(), Fault>
        ensures honest { honest self.new ≡ honest self.old }
        ensures cause { HasCause (failed self.old) (failed self.new) result }
        ensures counted { ¬ IsErrOf result faults.Device → failed self.new ≡ failed self.old }
        ensures fault { IfErr result (λ fault. fault ≡ faults.Device) }
        ensures content { IsTrue (honest self.old) → content self.new ≡ content self.old }
        ensures unsynced { IsTrue (honest self.old)
            → OnOk result (unsynced self.new ≡ settled (length (content self.old))) }
        ensures unsynced_err { IsTrue (honest self.old) → OnErr result (unsynced self.new ≡ unsynced self.old) }
        ensures time { IsTrue (honest self.old)
            → Elapses (moment self.old) (moment self.new) (left_since self.old) (left_since self.new)
            (IsImage (content self.new) (unsynced self.new)) };

    /// Returns the number of failures, saturating.
    fn failures(&self) -> u64
        ensures { result ≡ failed self.now };

    // A crash may leave what a read returns.
    ghost remains: { (device : Self) → IsTrue (honest device) → IsImage (content device) (unsynced device) (content device) };

    // This moment is one of those since an earlier one.
    ghost counts_now: { (device : Self) (t : ℕ) (image : List ℕ) → IsTrue (honest device) → t ≤ moment device → IsImage (content device) (unsynced device) image → left_since device t image };

    // Since this moment there is no other.
    ghost only_now: { (device : Self) (image : List ℕ) → IsTrue (honest device) → left_since device (moment device) image → IsImage (content device) (unsynced device) image };
}
