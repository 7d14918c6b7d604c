//! Devices over files of the system.

ghost use Rattle.std.specs.Prelude.{◌≡◌, ◌⊎◌, ◌↔◌, IfErr, IfOk, IsErrOf, IsOk, false, true};
ghost use Rattle.definitions.specs.declared.fault.Fault.TheVariants as faults;
ghost use Rattle.definitions.specs.Disk.{HasCause};

use crate::Device;
use definitions::Fault;
use std::alloc::Global;
use std::fs::{self, File, OpenOptions};
use std::io;
use std::io::ErrorKind;
use std::os::fd::AsRawFd;
use std::os::unix::fs::{FileExt, MetadataExt};

/// The number of bytes of one read.
const BUFFER_LEN: usize = 65536;

/// The most times that a path is opened anew because another file has come to its name meanwhile.
const MOST_OPENINGS: u64 = 16;

/// The most `read_at` calls of one read of a whole file.
const MAX_LOOKS: u64 = 1 << 48;

/// The descriptor of standard error, the last of the standard streams.
const LAST_STREAM: i32 = 2;

/// A device over a file. It isn't honest, since no contract can say what a disk does.
///
/// After a sync that failed each call answers `Device`, reads too: the system may show bytes that never came to the
/// disk, and call a later sync done without writing them. A write to a file that is shorter than its offset, or that no
/// longer has a name, answers `Device`: another program has cut or removed it.
#[derive(Drop)]
pub struct FileDevice {
    file: File,
    failed: u64,
    sync_failed: bool,
}

impl FileDevice {
    /// Opens the file at `path` for reading and writing, creates it if it is absent, and locks it for this device
    /// alone.
    ///
    /// A file that another program put into the place of the opened one before it was locked is opened in its turn.
    /// Where the file holds no byte its folder is synced, so that a file which was just made keeps its name over a loss
    /// of power. A folder that can't be read or synced is passed over, since the file can be used all the same.
    pub fn open(rt: &HostRuntime, path: &str) -> Result<Self, Fault>
        ensures failed { IfOk result (λ device. ⟦<FileDevice as Device>⟧.failed device ≡ 0) }
        ensures fault { IfErr result (λ fault. fault ≡ faults.Device) }
    {
        for _ in 0..MOST_OPENINGS {
            let device = FileDevice::new(open_file(rt, path)?)?;
            if is_at(rt, path, &device.file) {
                keep_name(rt, path, &device.file);
                return Ok(device);
            }
        }
        Err(Fault::Device)
    }

    /// Locks the open `file` for this device alone; `Device` if it is no regular file.
    ///
    /// The lock is the advisory one on the whole file (`flock`); it is freed when the device is dropped or the process
    /// ends. A file that another device holds is an error, and its bytes stay as they are.
    pub fn new(file: File) -> Result<Self, Fault>
        ensures failed { IfOk result (λ device. ⟦<FileDevice as Device>⟧.failed device ≡ 0) }
        ensures fault { IfErr result (λ fault. fault ≡ faults.Device) }
    {
        match regular(file).and_then(beyond_streams).and_then(held_alone) {
            Ok(file) => Ok(FileDevice {
                file,
                failed: 0,
                sync_failed: false,
            }),
            Err(_) => Err(Fault::Device),
        }
    }

    // Refuses every call after a sync that failed.
    fn check_syncs(&self) -> io::Result<()>
        ensures { IsOk result ↔ self.now.sync_failed ≡ false }
    {
        if self.sync_failed {
            return Err(io::Error::from(ErrorKind::Other));
        }
        Ok(())
    }

    // Refuses a change behind the first `len` bytes also where the file has fewer, or no name any more.
    fn check_bytes(&self, len: u64) -> io::Result<()>
        ensures { self.now.sync_failed ≡ true → ¬ IsOk result }
    {
        self.check_syncs()?;
        let metadata = self.file.metadata()?;
        if metadata.nlink() == 0 || metadata.len() < len {
            return Err(io::Error::from(ErrorKind::Other));
        }
        Ok(())
    }

    // Writes `bytes` at `at`.
    fn write_bytes(&self, at: u64, bytes: &[u8]) -> io::Result<()>
        ensures { self.now.sync_failed ≡ true → ¬ IsOk result }
    {
        self.check_bytes(at)?;
        self.file.write_all_at(bytes, at)
    }

    // Cuts the file to its first `len` bytes.
    fn cut_bytes(&self, len: u64) -> io::Result<()>
        ensures { self.now.sync_failed ≡ true → ¬ IsOk result }
    {
        self.check_bytes(len)?;
        self.file.set_len(len)
    }

    // Syncs the file; a failure is kept for all later calls.
    fn sync_bytes(&mut self) -> io::Result<()>
        ensures kept { IsOk result ↔ self.new.sync_failed ≡ false }
        ensures refused { self.old.sync_failed ≡ true → self.new.sync_failed ≡ true }
        ensures failed { self.new.failed ≡ self.old.failed }
    {
        self.check_syncs()?;
        let outcome = self.file.sync_all();
        self.sync_failed = outcome.is_err();
        outcome
    }
}

// Opens the file at `path`, and creates it if it is absent.
fn open_file(rt: &HostRuntime, path: &str) -> Result<File, Fault>
    ensures { IfErr result (λ fault. fault ≡ faults.Device) }
{
    let mut options = OpenOptions::new();
    options.read(true).write(true).create(true);
    options.open(rt, path).map_err(|_| Fault::Device)
}

// Whether `file` is the one that `path` names.
fn is_at(rt: &HostRuntime, path: &str, file: &File) -> bool {
    match (fs::metadata(rt, path), file.metadata()) {
        (Ok(named), Ok(opened)) => named.dev() == opened.dev() && named.ino() == opened.ino(),
        _ => false,
    }
}

// Syncs the folder of an empty file. What refuses that is passed over.
fn keep_name(rt: &HostRuntime, path: &str, file: &File) {
    if let Ok(metadata) = file.metadata()
        && metadata.len() == 0
    {
        let _ = sync_folder(rt, path);
    }
}

// Syncs the folder that `path` names a file of.
fn sync_folder(rt: &HostRuntime, path: &str) -> io::Result<()> {
    let folder = match path.rsplit_once('/') {
        Some(("", _)) => "/",
        Some((folder, _)) => folder,
        None => ".",
    };
    File::open(rt, folder)?.sync_all()
}

// Refuses what isn't a regular file: `/dev/zero` has no end, and a pipe no bytes at an offset.
fn regular(file: File) -> io::Result<File> {
    if file.metadata()?.is_file() {
        return Ok(file);
    }
    Err(io::Error::from(ErrorKind::InvalidInput))
}

// Moves the file to a descriptor above the standard streams': output for a stream that was closed must not go into it.
fn beyond_streams(file: File) -> io::Result<File> {
    if file.as_raw_fd() <= LAST_STREAM {
        return file.try_clone();
    }
    Ok(file)
}

// Locks the file: opening an index cuts what follows its last commit, maybe a record that another program writes.
fn held_alone(file: File) -> io::Result<File> {
    file.try_lock()?;
    Ok(file)
}

// Reads the bytes of the file, from its start to its end.
fn read_whole(file: &File, alloc: Global) -> Result<Vec<u8>, Fault>
    ensures fault { IfErr result (λ fault. (fault ≡ faults.Device) ⊎ (fault ≡ faults.OutOfMemory)) }
{
    let mut bytes = Vec::new(alloc);
    let mut buffer = [0; BUFFER_LEN];
    for _ in 0..MAX_LOOKS {
        match file.read_at(&mut buffer, bytes.len() as u64) {
            Ok(0) => return Ok(bytes),
            Ok(len) => bytes.extend_from_slice(&buffer[..len])?,
            Err(error) if error.kind() == ErrorKind::Interrupted => {}
            Err(_) => return Err(Fault::Device),
        }
    }
    Err(Fault::Device)
}

// Counts a failure if `answer` is `Device`.
fn count_failure<T>(failed: &mut u64, answer: Result<T, Fault>) -> Result<T, Fault>
    ensures answer { result ≡ answer }
    ensures cause { HasCause failed.old failed.new answer }
    ensures counted { ¬ IsErrOf answer faults.Device → failed.new ≡ failed.old }
{
    if let Err(Fault::Device) = &answer {
        *failed = failed.saturating_add(1);
    }
    answer
}

// Converts the outcome of a system call.
fn answer(outcome: io::Result<()>) -> Result<(), Fault>
    ensures ok { IsOk result ↔ IsOk outcome }
    ensures fault { IfErr result (λ fault. fault ≡ faults.Device) }
{
    if outcome.is_err() {
        return Err(Fault::Device);
    }
    Ok(())
}

impl Device for FileDevice {
    ghost use Rattle.std.specs.Prelude.{[], false};
    ghost use Rattle.std.proofs.lemmas.Bool.{false≢true};
    ghost use Rattle.definitions.specs.Disk.{settled};

    ghost honest = { λ _. false };

    ghost content = { λ _. [] };

    ghost failed = { λ device. device.failed };

    ghost unsynced = { λ _. settled 0 };

    ghost moment = { λ _. 0 };

    ghost left_since = { λ _ _ _. ⊥ };

    ghost remains = { λ _ no. absurd (false≢true no) };

    ghost counts_now = { λ _ _ _ no _ _. absurd (false≢true no) };

    ghost only_now = { λ _ _ no _. absurd (false≢true no) };

    fn read(&mut self, alloc: Global) -> Result<Vec<u8>, Fault> {
        let read = match self.check_syncs() {
            Ok(()) => read_whole(&self.file, alloc),
            Err(_) => Err(Fault::Device),
        };
        count_failure(&mut self.failed, read)
    }

    fn write_at(&mut self, at: usize, bytes: &[u8]) -> Result<(), Fault> {
        let outcome = self.write_bytes(at as u64, bytes);
        count_failure(&mut self.failed, answer(outcome))
    }

    fn cut(&mut self, len: usize) -> Result<(), Fault> {
        let outcome = self.cut_bytes(len as u64);
        count_failure(&mut self.failed, answer(outcome))
    }

    fn sync(&mut self) -> Result<(), Fault> {
        let outcome = self.sync_bytes();
        count_failure(&mut self.failed, answer(outcome))
    }

    fn failures(&self) -> u64 {
        self.failed
    }
}
