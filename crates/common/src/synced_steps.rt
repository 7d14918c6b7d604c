//! Writes and cuts that end with a sync; one clause of each says what a crash may leave while it runs.

ghost use Rattle.std.specs.Prelude.{◌≡◌, ◌≤◌, IfErr, IsErrOf, IsTrue, OnErr, OnOk, length, take};
ghost use Rattle.definitions.specs.declared.fault.Fault.TheVariants as faults;
ghost use Rattle.definitions.specs.Disk.{HasCause, IsEither, IsImage, IsPartly, overwritten, settled, shortened, written};
ghost use Rattle.definitions.specs.Moments.{LeavesOnly};

use crate::device::Device;
use definitions::Fault;

/// Writes `bytes` at offset `at`, then syncs.
pub fn write_synced<D: Device>(device: &mut D, at: usize, bytes: &[u8]) -> Result<(), Fault>
    requires { IsTrue (D.honest device.old) → at ≤ length (D.content device.old) }
    ensures honest { D.honest device.new ≡ D.honest device.old }
    ensures cause { HasCause (D.failed device.old) (D.failed device.new) result }
    ensures counted { ¬ IsErrOf result faults.Device → D.failed device.new ≡ D.failed device.old }
    ensures fault { IfErr result (λ fault. fault ≡ faults.Device) }
    ensures content { IsTrue (D.honest device.old)
        → OnOk result (D.content device.new ≡ overwritten at bytes.now (D.content device.old)) }
    ensures partly { IsTrue (D.honest device.old)
        → OnErr result (IsPartly (D.content device.old) (overwritten at bytes.now (D.content device.old))
        (D.content device.new)) }
    ensures no_shorter { IsTrue (D.honest device.old) → length (D.content device.old) ≤ length (D.content device.new) }
    ensures unsynced { IsTrue (D.honest device.old)
        → OnOk result (D.unsynced device.new ≡ settled (length (D.content device.new))) }
    ensures unsynced_err { IsTrue (D.honest device.old)
        → OnErr result (IsEither (D.unsynced device.old) (written at (length bytes.now) (D.unsynced device.old))
        (D.unsynced device.new)) }
    // A crash at any moment of the call leaves what it may leave after the write.
    ensures any_moment { IsTrue (D.honest device.old) → LeavesOnly D.moment D.left_since device.old device.new
        (IsImage (overwritten at bytes.now (D.content device.old))
        (written at (length bytes.now) (D.unsynced device.old))) }
{
    device.write_at(at, bytes)?;
    device.sync()
}

/// Cuts the content to `len` bytes, then syncs.
pub fn cut_synced<D: Device>(device: &mut D, len: usize) -> Result<(), Fault>
    requires { IsTrue (D.honest device.old) → len ≤ length (D.content device.old) }
    ensures honest { D.honest device.new ≡ D.honest device.old }
    ensures cause { HasCause (D.failed device.old) (D.failed device.new) result }
    ensures counted { ¬ IsErrOf result faults.Device → D.failed device.new ≡ D.failed device.old }
    ensures fault { IfErr result (λ fault. fault ≡ faults.Device) }
    ensures content { IsTrue (D.honest device.old)
        → OnOk result (D.content device.new ≡ take len (D.content device.old)) }
    ensures partly { IsTrue (D.honest device.old)
        → OnErr result (IsPartly (D.content device.old) (take len (D.content device.old)) (D.content device.new)) }
    ensures unsynced { IsTrue (D.honest device.old)
        → OnOk result (D.unsynced device.new ≡ settled (length (D.content device.new))) }
    ensures unsynced_err { IsTrue (D.honest device.old)
        → OnErr result (IsEither (D.unsynced device.old) (shortened len (D.unsynced device.old))
        (D.unsynced device.new)) }
    // A crash at any moment of the call leaves what it may leave after the cut.
    ensures any_moment { IsTrue (D.honest device.old) → LeavesOnly D.moment D.left_since device.old device.new
        (IsImage (take len (D.content device.old)) (shortened len (D.unsynced device.old))) }
{
    device.cut(len)?;
    device.sync()
}
