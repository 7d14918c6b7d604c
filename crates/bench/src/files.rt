//! How long a commit and an opening take, and how many bytes a document takes in its file.

use crate::times::{nanos_since, now};
use common::{Device, MemoryDevice, RawAndDefault};
use definitions::Fault;
use index::{Index, Settings};
use options::{INDEXED, STORED, TEXT};
use schema::Schema;
use std::alloc::{AllocError, Global};

/// The words of the documents.
const WORDS: [&str; 16] = [
    "the", "old", "sea", "wind", "rain", "stone", "river", "light", "night", "day", "salt", "gull",
    "harbour", "north", "south", "ship",
];

/// How many words a document has.
const WORDS_PER_DOC: u32 = 8;

/// An index whose file is in memory.
type MemoryIndex = Index<MemoryDevice, RawAndDefault>;

/// What was measured of an index with a given number of documents: the times in nanoseconds.
#[derive(Clone, Copy)]
struct Row {
    docs: u32,
    commit: u128,
    open: u128,
    bytes: usize,
}

/// Prints a row for each number of documents.
pub(crate) fn measure_all(rt: &HostRuntime) -> Result<(), Fault> {
    let _ = println!(rt; "| documents | commit, ms | opening, ms | bytes of file |");
    let _ = println!(rt; "|---|---|---|---|");
    for docs in [1000, 10000, 100000] {
        let row = measure(rt, docs)?;
        let (commit, open) = (row.commit / 1000000, row.open / 1000000);
        let _ = println!(rt; "| {} | {commit} | {open} | {} |", row.docs, row.bytes);
    }
    Ok(())
}

/// Fills an index, commits it, and opens its file again.
fn measure(rt: &HostRuntime, docs: u32) -> Result<Row, Fault> {
    let alloc = rt.alloc();
    let mut index = filled(alloc, docs)?;
    let begun = now(rt)?;
    index.commit()?;
    let commit = nanos_since(rt, begun)?;
    let (mut device, analyzer) = index.into_device();
    let bytes = device.read(alloc)?.len();
    let begun = now(rt)?;
    let _opened = Index::open(alloc, device, analyzer)?;
    let open = nanos_since(rt, begun)?;
    Ok(Row {
        docs,
        commit,
        open,
        bytes,
    })
}

/// An index in which a given number of documents waits.
fn filled(alloc: Global, docs: u32) -> Result<MemoryIndex, Fault> {
    let mut fields = Schema::builder(alloc);
    fields.add_text_field("title", TEXT | STORED)?;
    fields.add_u64_field("year", INDEXED | STORED)?;
    let settings = Settings::default(alloc)?;
    let device = MemoryDevice::new(alloc);
    let mut index = Index::create(alloc, device, RawAndDefault, fields.build(), settings)?;
    let mut state = 7u32;
    for _ in 0..docs {
        let doc = document(alloc, &mut state)?;
        index.add_json(&doc)?;
    }
    Ok(index)
}

/// A document of words without order.
fn document(alloc: Global, state: &mut u32) -> Result<String, AllocError> {
    let mut doc = String::from_str(alloc, "{\"title\":\"")?;
    for _ in 0..WORDS_PER_DOC {
        *state = state.wrapping_mul(1664525).wrapping_add(1013904223);
        doc.push_str(WORDS[(*state >> 28) as usize])?;
        doc.push_str(" ")?;
    }
    doc.push_str("\",\"year\":1952}")?;
    Ok(doc)
}
