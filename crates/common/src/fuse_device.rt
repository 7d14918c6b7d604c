//! Devices that fail from a chosen call on.

ghost use Rattle.std.specs.Prelude.{◌+◌, ◌-◌, ◌^◌, ◌≡◌, ◌≤◌, ◌⊎◌, IfErr, IfOk, IsErr, IsErrOf, IsOk, IsTrue, OnErr, OnOk, length, min, take};
ghost use Rattle.definitions.specs.declared.fault.Fault.TheVariants as faults;
ghost use Rattle.definitions.specs.Disk.{HasCause, IsEither, IsImage, IsPartly, overwritten, settled, shortened, written};
ghost use Rattle.definitions.specs.Moments.{Elapses};
ghost use Rattle.common.specs.Fuses.{CountsCall, FailsNext, IsFused, calls_of, failures_with, first_failing, inner_of};

use crate::device::Device;
use definitions::Fault;
use std::alloc::Global;

/// A device with a fuse: its k-th call and all later ones fail and do nothing.
///
/// A call before these is one of the device inside. `failures` is no call.
#[derive(Drop)]
pub struct FuseDevice<D> {
    device: D,
    first: u64,
    calls: u64,
    failed: u64,
}

impl<D: Device> FuseDevice<D> {
    /// Makes a fuse over `device` that blows at the `k`-th call from now on. At 0 and at 1 that is the first one.
    pub fn new(device: D, k: u64) -> Self
        ensures device { inner_of result ≡ device }
        ensures first { first_failing result ≡ k }
        ensures calls { calls_of result ≡ 0 }
        ensures failed { ⟦<FuseDevice<D> as Device>⟧.failed result ≡ min (D.failed device) (2 ^ 64 - 1) }
    {
        FuseDevice {
            device,
            first: k,
            calls: 0,
            failed: 0,
        }
    }

    /// Returns the device inside, as the calls before the blown fuse left it.
    pub fn into_inner(self) -> D
        ensures { result ≡ inner_of self }
    {
        self.device
    }

    /// Returns the number of calls that were made, failed ones too, saturating.
    pub fn calls(&self) -> u64
        ensures { result ≡ calls_of self.now }
    {
        self.calls
    }

    // Counts a call, which fails if the fuse is blown.
    fn count_call(&mut self) -> Result<(), Fault>
        ensures inner { inner_of self.new ≡ inner_of self.old }
        ensures counts { CountsCall self.old self.new }
        ensures ok { IsOk result → ¬ FailsNext self.old × (self.new.failed ≡ self.old.failed) }
        ensures err { IsErr result → FailsNext self.old × (self.new.failed ≡ min (self.old.failed + 1) (2 ^ 64 - 1)) }
        ensures fault { IfErr result (λ fault. fault ≡ faults.Device) }
    {
        self.calls = self.calls.saturating_add(1);
        if self.calls >= self.first {
            self.failed = self.failed.saturating_add(1);
            return Err(Fault::Device);
        }
        Ok(())
    }
}

impl<D: Device> Device for FuseDevice<D> {
    ghost honest = { λ fused. D.honest (inner_of fused) };

    ghost content = { λ fused. D.content (inner_of fused) };

    ghost failed = { failures_with D.failed };

    ghost unsynced = { λ fused. D.unsynced (inner_of fused) };

    ghost moment = { λ fused. D.moment (inner_of fused) };

    ghost left_since = { λ fused. D.left_since (inner_of fused) };

    ghost remains = { λ fused honest. D.remains (inner_of fused) honest };

    ghost counts_now = { λ fused t image honest le is. D.counts_now (inner_of fused) t image honest le is };

    ghost only_now = { λ fused image honest left. D.only_now (inner_of fused) image honest left };

    /// Reads the whole content, as the device inside does.
    fn read(&mut self, alloc: Global) -> Result<Vec<u8>, Fault>
        ensures fused { IsFused D.failed self.old self.new result }
        ensures honest { D.honest (inner_of self.new) ≡ D.honest (inner_of self.old) }
        ensures cause { HasCause (failures_with D.failed self.old) (failures_with D.failed self.new) result }
        ensures counted { ¬ IsErrOf result faults.Device
            → failures_with D.failed self.new ≡ failures_with D.failed self.old }
        ensures fault { IfErr result (λ fault. (fault ≡ faults.Device) ⊎ (fault ≡ faults.OutOfMemory)) }
        ensures bytes { IsTrue (D.honest (inner_of self.old))
            → IfOk result (λ bytes. bytes.items ≡ D.content (inner_of self.old)) }
        ensures content { IsTrue (D.honest (inner_of self.old))
            → D.content (inner_of self.new) ≡ D.content (inner_of self.old) }
        ensures unsynced { IsTrue (D.honest (inner_of self.old))
            → D.unsynced (inner_of self.new) ≡ D.unsynced (inner_of self.old) }
        ensures time { IsTrue (D.honest (inner_of self.old))
            → Elapses (D.moment (inner_of self.old)) (D.moment (inner_of self.new))
            (D.left_since (inner_of self.old)) (D.left_since (inner_of self.new))
            (IsImage (D.content (inner_of self.new)) (D.unsynced (inner_of self.new))) }
    {
        self.count_call()?;
        self.device.read(alloc)
    }

    /// Writes `bytes` at offset `at`, as the device inside does.
    fn write_at(&mut self, at: usize, bytes: &[u8]) -> Result<(), Fault>
        requires { IsTrue (D.honest (inner_of self.old)) → at ≤ length (D.content (inner_of self.old)) }
        ensures fused { IsFused D.failed self.old self.new result }
        ensures honest { D.honest (inner_of self.new) ≡ D.honest (inner_of self.old) }
        ensures cause { HasCause (failures_with D.failed self.old) (failures_with D.failed self.new) result }
        ensures counted { ¬ IsErrOf result faults.Device
            → failures_with D.failed self.new ≡ failures_with D.failed self.old }
        ensures fault { IfErr result (λ fault. fault ≡ faults.Device) }
        ensures content { IsTrue (D.honest (inner_of self.old))
            → OnOk result (D.content (inner_of self.new) ≡ overwritten at bytes.now (D.content (inner_of self.old))) }
        ensures partly { IsTrue (D.honest (inner_of self.old))
            → OnErr result (IsPartly (D.content (inner_of self.old))
            (overwritten at bytes.now (D.content (inner_of self.old))) (D.content (inner_of self.new))) }
        ensures unsynced { IsTrue (D.honest (inner_of self.old))
            → OnOk result (D.unsynced (inner_of self.new)
            ≡ written at (length bytes.now) (D.unsynced (inner_of self.old))) }
        ensures unsynced_err { IsTrue (D.honest (inner_of self.old))
            → OnErr result (IsEither (D.unsynced (inner_of self.old))
            (written at (length bytes.now) (D.unsynced (inner_of self.old))) (D.unsynced (inner_of self.new))) }
        ensures time { IsTrue (D.honest (inner_of self.old))
            → Elapses (D.moment (inner_of self.old)) (D.moment (inner_of self.new))
            (D.left_since (inner_of self.old)) (D.left_since (inner_of self.new))
            (IsImage (D.content (inner_of self.new)) (D.unsynced (inner_of self.new))) }
    {
        self.count_call()?;
        self.device.write_at(at, bytes)
    }

    /// Cuts the content to `len` bytes, as the device inside does.
    fn cut(&mut self, len: usize) -> Result<(), Fault>
        requires { IsTrue (D.honest (inner_of self.old)) → len ≤ length (D.content (inner_of self.old)) }
        ensures fused { IsFused D.failed self.old self.new result }
        ensures honest { D.honest (inner_of self.new) ≡ D.honest (inner_of self.old) }
        ensures cause { HasCause (failures_with D.failed self.old) (failures_with D.failed self.new) result }
        ensures counted { ¬ IsErrOf result faults.Device
            → failures_with D.failed self.new ≡ failures_with D.failed self.old }
        ensures fault { IfErr result (λ fault. fault ≡ faults.Device) }
        ensures content { IsTrue (D.honest (inner_of self.old))
            → OnOk result (D.content (inner_of self.new) ≡ take len (D.content (inner_of self.old))) }
        ensures partly { IsTrue (D.honest (inner_of self.old))
            → OnErr result (IsPartly (D.content (inner_of self.old)) (take len (D.content (inner_of self.old)))
            (D.content (inner_of self.new))) }
        ensures unsynced { IsTrue (D.honest (inner_of self.old))
            → OnOk result (D.unsynced (inner_of self.new) ≡ shortened len (D.unsynced (inner_of self.old))) }
        ensures unsynced_err { IsTrue (D.honest (inner_of self.old))
            → OnErr result (IsEither (D.unsynced (inner_of self.old))
            (shortened len (D.unsynced (inner_of self.old))) (D.unsynced (inner_of self.new))) }
        ensures time { IsTrue (D.honest (inner_of self.old))
            → Elapses (D.moment (inner_of self.old)) (D.moment (inner_of self.new))
            (D.left_since (inner_of self.old)) (D.left_since (inner_of self.new))
            (IsImage (D.content (inner_of self.new)) (D.unsynced (inner_of self.new))) }
    {
        self.count_call()?;
        self.device.cut(len)
    }

    /// Syncs, as the device inside does.
    fn sync(&mut self) -> Result<(), Fault>
        ensures fused { IsFused D.failed self.old self.new result }
        ensures honest { D.honest (inner_of self.new) ≡ D.honest (inner_of self.old) }
        ensures cause { HasCause (failures_with D.failed self.old) (failures_with D.failed self.new) result }
        ensures counted { ¬ IsErrOf result faults.Device
            → failures_with D.failed self.new ≡ failures_with D.failed self.old }
        ensures fault { IfErr result (λ fault. fault ≡ faults.Device) }
        ensures content { IsTrue (D.honest (inner_of self.old))
            → D.content (inner_of self.new) ≡ D.content (inner_of self.old) }
        ensures unsynced { IsTrue (D.honest (inner_of self.old))
            → OnOk result (D.unsynced (inner_of self.new) ≡ settled (length (D.content (inner_of self.old)))) }
        ensures unsynced_err { IsTrue (D.honest (inner_of self.old))
            → OnErr result (D.unsynced (inner_of self.new) ≡ D.unsynced (inner_of self.old)) }
        ensures time { IsTrue (D.honest (inner_of self.old))
            → Elapses (D.moment (inner_of self.old)) (D.moment (inner_of self.new))
            (D.left_since (inner_of self.old)) (D.left_since (inner_of self.new))
            (IsImage (D.content (inner_of self.new)) (D.unsynced (inner_of self.new))) }
    {
        self.count_call()?;
        self.device.sync()
    }

    fn failures(&self) -> u64 {
        self.device.failures().saturating_add(self.failed)
    }
}
