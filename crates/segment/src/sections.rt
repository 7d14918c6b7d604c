//! The sections of a segment, decoded from its bytes.

ghost use Rattle.std.specs.Prelude.{◌<◌, ◌≡◌, ◌≢◌, ◌≤◌, IfErr, IfOk, List, None, Some, length, ℕ, ◌^◌};
ghost use Rattle.definitions.specs.NumberCodes.{AreBytes, take_u32};
ghost use Rattle.definitions.specs.declared.fault.Fault.TheVariants as faults;
ghost use Rattle.layouts.specs.Stores.{max_docs};
ghost use Rattle.segment.specs.Sections.{sections_in, take_section};
ghost use Rattle.segment_definitions.specs.Segments as layout;
ghost use Rattle.segment_definitions.specs.Segments.{AreWritten};

use bytes::Bytes;
use common::{TERMINATED, take_u32, take_u64};
use definitions::Fault;

/// The number of documents of a segment, and its five sections, which share its bytes.
#[derive(Drop)]
pub(crate) struct Sections {
    pub(crate) num_docs: u32,
    pub(crate) terms: Bytes,
    pub(crate) postings: Bytes,
    pub(crate) positions: Bytes,
    pub(crate) norms: Bytes,
    pub(crate) store: Bytes,
}

impl Sections {
    /// Splits `bytes` into sections. Their content isn't looked at.
    pub(crate) fn of_bytes(bytes: Bytes) -> Result<Sections, Fault>
        ensures ok { IfOk result (λ s. AreWritten s.num_docs (sections_in s) bytes) }
        ensures bytes { IfOk result (λ _. AreBytes bytes) }
        ensures err { IfErr result (λ fault. fault ≢ faults.OutOfMemory → (fault ≡ faults.Damaged None)
            × ((num_docs : ℕ) (sections : layout.Sections) → ¬ AreWritten num_docs sections bytes)) }
    {
        let num_docs = first_number(bytes.as_slice())?;
        let mut rest = bytes;
        rest.advance(4);
        let terms = take_section(&mut rest)?;
        let postings = take_section(&mut rest)?;
        let positions = take_section(&mut rest)?;
        let norms = take_section(&mut rest)?;
        let store = take_section(&mut rest)?;
        if !rest.is_empty() {
            return Err(Fault::Damaged(None));
        }
        Ok(Sections {
            num_docs,
            terms,
            postings,
            positions,
            norms,
            store,
        })
    }
}

/// Decodes the number of documents at the start of `bytes`: at least one, and at most what a segment may have.
fn first_number(bytes: &[u8]) -> Result<u32, Fault>
    ensures ok { IfOk result (λ n. (rest : List ℕ) × (take_u32 bytes.now ≡ Some (n, rest)) × (0 < n) × (n ≤ max_docs)) }
    ensures bytes { AreBytes bytes.now }
    ensures short { length bytes.now < 2 ^ 64 }
    ensures err { IfErr result (λ fault. (fault ≡ faults.Damaged None) × ((n : ℕ) (rest : List ℕ)
        → take_u32 bytes.now ≡ Some (n, rest) → 0 < n → ¬ (n ≤ max_docs))) }
{
    let (num_docs, _) = take_u32(bytes)?;
    if num_docs == 0 || num_docs > TERMINATED {
        return Err(Fault::Damaged(None));
    }
    Ok(num_docs)
}

/// Splits a length and a section of that length off the front of `rest`.
fn take_section(rest: &mut Bytes) -> Result<Bytes, Fault>
    ensures ok { IfOk result (λ section. take_section rest.old ≡ Some (section, rest.new)) }
    ensures err { IfErr result (λ fault. fault ≢ faults.OutOfMemory
        → (fault ≡ faults.Damaged None) × (take_section rest.old ≡ None)) }
{
    let (len, behind) = take_u64(rest.as_slice())?;
    if len > behind.len() as u64 {
        return Err(Fault::Damaged(None));
    }
    rest.advance(8);
    Ok(rest.split_to(len as usize)?)
}
