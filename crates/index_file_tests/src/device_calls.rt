//! Which calls of its device an index makes, and in which order.

ghost use Rattle.std.specs.Prelude.{◌≡◌};

use crate::books::book_schema;
use common::{Device, MemoryDevice, RawAndDefault};
use definitions::Fault;
use index::{Index, Settings};
use std::alloc::Global;
use std::test::Fail;

// A device that keeps a letter of each call, of its first sixteen: `r` of a read, `w` of a write, `c` of a cut, `s` of a
// sync. The device inside does them.
#[derive(Drop)]
struct LetteredDevice<D: Device> {
    device: D,
    letters: [u8; 16],
    calls: usize,
}

impl<D: Device> LetteredDevice<D> {
    // Keeps the letter of a call.
    fn keep(&mut self, letter: u8)
        ensures { self.new.device ≡ self.old.device }
    {
        if let Some(slot) = self.letters.get_mut(self.calls) {
            *slot = letter;
        }
        self.calls = self.calls.saturating_add(1);
    }

    // The letters of all calls, if there were at most sixteen.
    fn letters(&self) -> Option<&[u8]> {
        self.letters.get(..self.calls)
    }
}

impl<D: Device> Device for LetteredDevice<D> {
    ghost honest = { λ lettered. D.honest lettered.device };

    ghost content = { λ lettered. D.content lettered.device };

    ghost failed = { λ lettered. D.failed lettered.device };

    ghost unsynced = { λ lettered. D.unsynced lettered.device };

    ghost moment = { λ lettered. D.moment lettered.device };

    ghost left_since = { λ lettered. D.left_since lettered.device };

    ghost remains = { λ lettered honest. D.remains lettered.device honest };

    ghost counts_now = { λ lettered t image honest le is. D.counts_now lettered.device t image honest le is };

    ghost only_now = { λ lettered image honest left. D.only_now lettered.device image honest left };

    fn read(&mut self, alloc: Global) -> Result<Vec<u8>, Fault> {
        self.keep(b'r');
        self.device.read(alloc)
    }

    fn write_at(&mut self, at: usize, bytes: &[u8]) -> Result<(), Fault> {
        self.keep(b'w');
        self.device.write_at(at, bytes)
    }

    fn cut(&mut self, len: usize) -> Result<(), Fault> {
        self.keep(b'c');
        self.device.cut(len)
    }

    fn sync(&mut self) -> Result<(), Fault> {
        self.keep(b's');
        self.device.sync()
    }

    fn failures(&self) -> u64 {
        self.device.failures()
    }
}

// An index whose device keeps the letters of its calls.
type LetteredIndex = Index<LetteredDevice<MemoryDevice>, RawAndDefault>;

// A device without bytes and calls.
fn new_device(alloc: Global) -> LetteredDevice<MemoryDevice> {
    LetteredDevice {
        device: MemoryDevice::new(alloc),
        letters: [b' '; 16],
        calls: 0,
    }
}

// An index of a new file, in which each document is a segment of its own.
fn new_index(alloc: Global) -> Result<LetteredIndex, Fault> {
    let norms = vec![in alloc; 1; 256]?;
    let settings = Settings::new(alloc, 1, 16384, 1, 60, Vec::new(alloc), norms)?;
    let schema = book_schema(alloc)?;
    Ok(Index::create(alloc, new_device(alloc), RawAndDefault, schema, settings)?)
}

// Whether these are the letters of all calls that an index has made.
fn made_calls(index: LetteredIndex, letters: &[u8]) -> bool {
    let (device, _analyzer) = index.into_device();
    device.letters() == Some(letters)
}

// Whether an index reads its device to see that it is empty, writes and syncs a closed gate, writes and syncs its first
// record behind it, and opens that gate and syncs it.
fn is_creation_one_record(alloc: Global) -> Result<bool, Fault> {
    Ok(made_calls(new_index(alloc)?, b"rwswsws"))
}

// Whether a commit of `segments` new segments writes and syncs one record, and opens and syncs its gate.
fn is_commit_one_record(alloc: Global, segments: usize) -> Result<bool, Fault> {
    let mut index = new_index(alloc)?;
    for _segment in 0..segments {
        index.add_json(r#"{"title":"sea"}"#)?;
    }
    index.commit()?;
    Ok(index.num_segments() == segments && made_calls(index, b"rwswswswsws"))
}

// Whether a merge of five segments, after their commit, is one record too.
fn is_merge_one_record(alloc: Global) -> Result<bool, Fault> {
    let mut index = new_index(alloc)?;
    for _segment in 0..5 {
        index.add_json(r#"{"title":"sea"}"#)?;
    }
    index.commit()?;
    index.merge(0..5)?;
    Ok(index.num_segments() == 1 && made_calls(index, b"rwswswswswswsws"))
}

// Whether an opening reads the file, syncs it, cuts what is behind its gate and syncs that.
fn is_opening_settled(alloc: Global) -> Result<bool, Fault> {
    let (device, analyzer) = new_index(alloc)?.into_device();
    let index = Index::open(alloc, device, analyzer)?;
    Ok(made_calls(index, b"rwswswsrscs"))
}

#[test]
fn calls_of_a_creation(rt: HostRuntime) -> Result<(), Fail> {
    assert!(rt; is_creation_one_record(rt.alloc())?);
    Ok(())
}

#[test]
fn calls_of_commits(rt: HostRuntime) -> Result<(), Fail> {
    let alloc = rt.alloc();
    let of_none = is_commit_one_record(alloc, 0)?;
    let of_one = is_commit_one_record(alloc, 1)?;
    let of_five = is_commit_one_record(alloc, 5)?;
    assert!(rt; of_none && of_one && of_five);
    Ok(())
}

#[test]
fn calls_of_a_merge(rt: HostRuntime) -> Result<(), Fail> {
    assert!(rt; is_merge_one_record(rt.alloc())?);
    Ok(())
}

#[test]
fn calls_of_an_opening(rt: HostRuntime) -> Result<(), Fail> {
    assert!(rt; is_opening_settled(rt.alloc())?);
    Ok(())
}
