//! Devices in memory.

ghost use Rattle.std.specs.Prelude.{[], ◌++◌, ◌<◌, ◌∷◌, ◌≡◌, ◌≤◌, ◌↔◌, IfErr, IfOk, IsErrOf, IsTrue, OnErr, OnOk, length, slice_index, take, true, ℕ};
ghost use Rattle.definitions.specs.declared.fault.Fault.TheVariants as faults;
ghost use Rattle.definitions.specs.Disk.{HasCause, IsImage, IsInRange, overwritten, settled, shortened, written};
ghost use Rattle.definitions.specs.Moments.{Elapses};
ghost use Rattle.common.specs.Calls.{Disk, IsFilled, IsWithin, LeftSince, MayHoldAny, after_call, content_after, disk_after, unsynced_after};

use crate::device::Device;
use definitions::Fault;
use std::alloc::{AllocError, Global};

/// An honest device in memory. It records its calls. A call that runs out of memory is a failure, and changes nothing.
#[derive(Drop)]
pub struct MemoryDevice {
    alloc: Global,
    bytes: Vec<u8>,
    calls: Vec<Call>,
    least: usize,
    greatest: usize,
    failed: u64,
    ghost least_is: { least ≡ (unsynced_after calls.items).least },
    ghost greatest_is: { greatest ≡ (unsynced_after calls.items).greatest },
    ghost same: { content_after calls.items ≡ bytes.items },
    ghost remains: { IsImage bytes.items (unsynced_after calls.items) bytes.items },
}

/// A call that was made.
#[derive(Drop)]
pub(crate) enum Call {
    Write { at: usize, bytes: Vec<u8> },
    Cut { len: usize },
    Sync,
}

impl MemoryDevice {
    ghost use Rattle.common.specs.MemoryDevices.{content_of, unsynced_of};

    /// Makes a device without bytes.
    pub fn new(alloc: Global) -> Self
        ensures honest { ⟦<MemoryDevice as Device>⟧.honest result ≡ true }
        ensures content { ⟦<MemoryDevice as Device>⟧.content result ≡ [] }
        ensures unsynced { ⟦<MemoryDevice as Device>⟧.unsynced result ≡ settled 0 }
        ensures failed { ⟦<MemoryDevice as Device>⟧.failed result ≡ 0 }
    {
        MemoryDevice {
            alloc,
            bytes: Vec::new(alloc),
            calls: Vec::new(alloc),
            least: 0,
            greatest: 0,
            failed: 0,
        }
    }

    /// Returns the least and the greatest length that a crash may leave.
    pub fn crash_lens(&self) -> (usize, usize)
        ensures least { result.0 ≡ (unsynced_of self.now).least }
        ensures greatest { result.1 ≡ (unsynced_of self.now).greatest }
        ensures ordered { result.0 ≤ result.1 }
    {
        (self.least, self.greatest)
    }

    /// Returns what a crash may leave: an image of `len` bytes, in which each byte that may hold anything is `fill`.
    ///
    /// Those are the bytes that were written since the last successful sync, and all past the least length since then.
    /// A call that failed changes nothing here; where a device may have done it, these are among its images too.
    pub fn crash(&self, alloc: Global, len: usize, fill: u8) -> Result<Vec<u8>, AllocError>
        requires no_shorter { (unsynced_of self.now).least ≤ len }
        requires no_longer { len ≤ (unsynced_of self.now).greatest }
        ensures filled { IfOk result (λ image.
            IsFilled (content_of self.now) (unsynced_of self.now) fill len image.items) }
        ensures image { IfOk result (λ image.
            IsImage (content_of self.now) (unsynced_of self.now) image.items) }
    {
        let mut image = Vec::with_capacity(alloc, len)?;
        for i in 0..len {
            image.push(self.crashed_byte(i, fill))?;
        }
        Ok(image)
    }

    // Returns the byte that a crash leaves at index `i`: `fill` where any may stand.
    fn crashed_byte(&self, i: usize, fill: u8) -> u8
        ensures filled { MayHoldAny (unsynced_of self.now) i → result ≡ fill }
        ensures kept { ¬ MayHoldAny (unsynced_of self.now) i → result ≡ slice_index (content_of self.now) i }
    {
        if i >= self.least || is_written(&self.calls, i) {
            return fill;
        }
        self.bytes[i]
    }

    // Makes and records a call, or counts a failure.
    fn make(&mut self, call: Call) -> Result<(), Fault>
        requires { IsWithin (length self.old.bytes.items) call }
        ensures ok { OnOk result (disk_after self.new.calls.items ≡ after_call (disk_after self.old.calls.items) call) }
        ensures err { OnErr result (disk_after self.new.calls.items ≡ disk_after self.old.calls.items) }
        ensures cause { HasCause self.old.failed self.new.failed result }
        ensures counted { OnOk result (self.new.failed ≡ self.old.failed) }
        ensures fault { IfErr result (λ fault. fault ≡ faults.Device) }
        ensures time { Elapses (length self.old.calls.items) (length self.new.calls.items)
            (LeftSince self.old.calls.items) (LeftSince self.new.calls.items)
            (IsImage self.new.bytes.items (unsynced_after self.new.calls.items)) }
    {
        let (least, greatest) = (&mut self.least, &mut self.greatest);
        match record_call(&mut self.bytes, &mut self.calls, least, greatest, call) {
            Ok(()) => Ok(()),
            Err(_) => fail(&mut self.failed),
        }
    }
}

// Whether a call since the last sync wrote a byte at index `i`.
fn is_written(calls: &[Call], i: usize) -> bool
    ensures { IsTrue result ↔ IsInRange (unsynced_after calls.now).ranges i }
{
    let mut written = false;
    for call in calls {
        written = is_written_after(written, call, i);
    }
    written
}

// Whether that is so after a call, if it `was` before.
fn is_written_after(was: bool, call: &Call, i: usize) -> bool
    ensures { (disk : Disk) → IsTrue was ↔ IsInRange disk.unsynced.ranges i
        → IsTrue result ↔ IsInRange (after_call disk call.now).unsynced.ranges i }
{
    match call {
        Call::Write { at, bytes } => was || (*at <= i && i - *at < bytes.len()),
        Call::Cut { .. } => was,
        Call::Sync => false,
    }
}

// Counts a failure, and returns it.
fn fail(failed: &mut u64) -> Result<(), Fault>
    ensures cause { HasCause failed.old failed.new result }
    ensures fault { IsErrOf result faults.Device }
{
    *failed = failed.saturating_add(1);
    Err(Fault::Device)
}

// Makes and records a call, or changes nothing.
fn record_call(
    bytes: &mut Vec<u8>,
    calls: &mut Vec<Call>,
    least: &mut usize,
    greatest: &mut usize,
    call: Call,
) -> Result<(), AllocError>
    requires { IsWithin (length bytes.old.items) call }
    ensures bytes { content_after calls.old.items ≡ bytes.old.items
        → OnOk result (bytes.new.items ≡ (after_call (disk_after calls.old.items) call).content) }
    ensures calls { OnOk result (calls.new.items ≡ calls.old.items ++ call ∷ []) }
    ensures least { content_after calls.old.items ≡ bytes.old.items
        → least.old ≡ (unsynced_after calls.old.items).least
        → OnOk result (least.new ≡ (after_call (disk_after calls.old.items) call).unsynced.least) }
    ensures greatest { content_after calls.old.items ≡ bytes.old.items
        → greatest.old ≡ (unsynced_after calls.old.items).greatest → length bytes.old.items ≤ greatest.old
        → OnOk result (greatest.new ≡ (after_call (disk_after calls.old.items) call).unsynced.greatest) }
    ensures bytes_err { OnErr result (bytes.new.items ≡ bytes.old.items) }
    ensures calls_err { OnErr result (calls.new.items ≡ calls.old.items) }
    ensures least_err { OnErr result (least.new ≡ least.old) }
    ensures greatest_err { OnErr result (greatest.new ≡ greatest.old) }
    ensures fits { OnOk result ((i : ℕ) → slice_index bytes.new.items i < 256) }
{
    calls.reserve(1)?;
    match &call {
        Call::Write { at, bytes: written } => {
            overwrite(bytes, *at, written)?;
            *greatest = (*greatest).max(bytes.len());
        }
        Call::Cut { len } => {
            bytes.truncate(*len);
            *least = (*least).min(*len);
        }
        Call::Sync => {
            *least = bytes.len();
            *greatest = bytes.len();
        }
    }
    // There is room for it.
    calls.push(call)?;
    Ok(())
}

// Writes `bytes` at offset `at`, over what is there and past the end, or changes nothing.
fn overwrite(content: &mut Vec<u8>, at: usize, bytes: &[u8]) -> Result<(), AllocError>
    requires { at ≤ length content.old.items }
    ensures ok { OnOk result (content.new.items ≡ overwritten at bytes.now content.old.items) }
    ensures err { OnErr result (content.new.items ≡ content.old.items) }
{
    let inside = bytes.len().min(content.len() - at);
    content.extend_from_slice(&bytes[inside..])?;
    content[at..at + inside].copy_from_slice(&bytes[..inside]);
    Ok(())
}

impl Device for MemoryDevice {
    ghost use Rattle.std.specs.Prelude.{true};
    ghost use Rattle.definitions.proofs.KeptCalls.{only_now, since_now};
    ghost use Rattle.common.specs.Calls.{content_after, unsynced_after};
    ghost use Rattle.common.specs.MemoryDevices.{content_of, failures_of, left_since_of, moment_of, unsynced_of};

    ghost honest = { λ _. true };

    ghost content = { content_of };

    ghost failed = { failures_of };

    ghost unsynced = { unsynced_of };

    ghost moment = { moment_of };

    ghost left_since = { left_since_of };

    ghost remains = { λ device _. device.remains };

    ghost counts_now = { λ device t image _ le is. since_now content_after unsynced_after device.calls.items t device.bytes.items image device.same le is };

    ghost only_now = { λ device image _ left. only_now content_after unsynced_after device.calls.items device.bytes.items image device.same left };

    fn read(&mut self, alloc: Global) -> Result<Vec<u8>, Fault> {
        Ok(self.bytes.to_vec(alloc)?)
    }

    /// Writes nothing if it runs out of memory.
    fn write_at(&mut self, at: usize, bytes: &[u8]) -> Result<(), Fault>
        requires { at ≤ length (content_of self.old) }
        ensures cause { HasCause (failures_of self.old) (failures_of self.new) result }
        ensures counted { OnOk result (failures_of self.new ≡ failures_of self.old) }
        ensures fault { IfErr result (λ fault. fault ≡ faults.Device) }
        ensures content { OnOk result (content_of self.new ≡ overwritten at bytes.now (content_of self.old)) }
        ensures unsynced { OnOk result (unsynced_of self.new ≡ written at (length bytes.now) (unsynced_of self.old)) }
        ensures unchanged { OnErr result (content_of self.new ≡ content_of self.old) }
        ensures unsynced_err { OnErr result (unsynced_of self.new ≡ unsynced_of self.old) }
        ensures time { Elapses (moment_of self.old) (moment_of self.new) (left_since_of self.old)
            (left_since_of self.new)
            (IsImage (content_of self.new) (unsynced_of self.new)) }
    {
        match bytes.to_vec(self.alloc) {
            Ok(bytes) => self.make(Call::Write { at, bytes }),
            Err(_) => fail(&mut self.failed),
        }
    }

    /// Cuts nothing if it runs out of memory.
    fn cut(&mut self, len: usize) -> Result<(), Fault>
        requires { len ≤ length (content_of self.old) }
        ensures cause { HasCause (failures_of self.old) (failures_of self.new) result }
        ensures counted { OnOk result (failures_of self.new ≡ failures_of self.old) }
        ensures fault { IfErr result (λ fault. fault ≡ faults.Device) }
        ensures content { OnOk result (content_of self.new ≡ take len (content_of self.old)) }
        ensures unsynced { OnOk result (unsynced_of self.new ≡ shortened len (unsynced_of self.old)) }
        ensures unchanged { OnErr result (content_of self.new ≡ content_of self.old) }
        ensures unsynced_err { OnErr result (unsynced_of self.new ≡ unsynced_of self.old) }
        ensures time { Elapses (moment_of self.old) (moment_of self.new) (left_since_of self.old)
            (left_since_of self.new)
            (IsImage (content_of self.new) (unsynced_of self.new)) }
    {
        self.make(Call::Cut { len })
    }

    fn sync(&mut self) -> Result<(), Fault> {
        self.make(Call::Sync)
    }

    fn failures(&self) -> u64 {
        self.failed
    }
}
