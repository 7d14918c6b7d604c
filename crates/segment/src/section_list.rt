//! The sections of a segment, written one after another.

ghost use Rattle.std.specs.Prelude.{◌++◌, ◌<◌, ◌^◌, ◌≡◌, ◌≤◌, IfOk, OnOk, drop, length};
ghost use Rattle.segment_definitions.specs.Segments.{Sections, section_bytes, segment_bytes};
ghost use Rattle.segment.specs.Written.{sections_of};

use common::{put_u32, put_u64};
use std::alloc::AllocError;

/// The five sections of a segment.
#[derive(Drop)]
pub struct Sections {
    pub terms: Vec<u8>,
    pub postings: Vec<u8>,
    pub positions: Vec<u8>,
    pub norms: Vec<u8>,
    pub store: Vec<u8>,
}

impl Sections {
    /// Encodes the segment of `num_docs` documents with these sections behind `prefix`. Each section but the store is
    /// freed once it is copied; the store, or what stands before it, whichever is longer, isn't copied: at no time are
    /// the segment's bytes held twice.
    pub fn put_behind(self, prefix: Vec<u8>, num_docs: u32) -> Result<Vec<u8>, AllocError>
        ensures whole { IfOk result (λ bytes. bytes.items ≡ prefix.items ++ segment_bytes num_docs (sections_of self)) }
        ensures short { IfOk result (λ bytes. length bytes.items < 2 ^ 64) }
    {
        let Sections {
            terms,
            postings,
            positions,
            norms,
            store,
        } = self;
        let mut front = prefix;
        put_u32(&mut front, num_docs)?;
        put_section(&mut front, terms)?;
        put_section(&mut front, postings)?;
        put_section(&mut front, positions)?;
        put_section(&mut front, norms)?;
        put_u64(&mut front, store.len() as u64)?;
        joined(front, store)
    }
}

/// Appends `store` to `front`, within the memory of the longer of the two.
fn joined(front: Vec<u8>, store: Vec<u8>) -> Result<Vec<u8>, AllocError>
    ensures whole { IfOk result (λ bytes. bytes.items ≡ front.items ++ store.items) }
    ensures short { IfOk result (λ bytes. length bytes.items < 2 ^ 64) }
{
    if front.len() > store.len() {
        let mut bytes = front;
        bytes.extend_from_slice(&store)?;
        return Ok(bytes);
    }
    let mut bytes = store;
    put_front(&mut bytes, &front)?;
    Ok(bytes)
}

/// Appends `section` after its length, and frees it.
fn put_section(out: &mut Vec<u8>, section: Vec<u8>) -> Result<(), AllocError>
    ensures { OnOk result (out.new.items ≡ out.old.items ++ section_bytes section.items) }
{
    put_u64(out, section.len() as u64)?;
    out.extend_from_slice(&section)
}

/// Inserts `front` before `bytes`.
fn put_front(bytes: &mut Vec<u8>, front: &[u8]) -> Result<(), AllocError>
    ensures { OnOk result (bytes.new.items ≡ front.now ++ bytes.old.items) }
{
    let len = bytes.len();
    bytes.resize(front.len() + len, 0)?;
    bytes.copy_within(0..len, front.len());
    overwrite_front(bytes, front);
    Ok(())
}

/// Overwrites the first of `bytes` with `front`.
fn overwrite_front(bytes: &mut Vec<u8>, front: &[u8])
    requires { length front.now ≤ length bytes.old.items }
    ensures { bytes.new.items ≡ front.now ++ drop (length front.now) bytes.old.items }
{
    bytes[0..front.len()].copy_from_slice(front);
}
