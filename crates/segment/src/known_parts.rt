//! Parts of a segment whose bytes are known to be one: decoded by the checking functions, with out of memory as the
//! only error.

ghost use Rattle.std.specs.Prelude.{◌<◌, ◌^◌, ◌≡◌, ◌≢◌, IfOk, List, length, sum_by, ℕ};
ghost use Rattle.definitions.specs.NumberCodes.{AreBytes};
ghost use Rattle.definitions.specs.declared.fault.Fault.TheVariants as faults;
ghost use Rattle.layouts.specs.Stores.{AreBlocks, Block, store_bytes};
ghost use Rattle.segment.specs.Sections.{sections_in};
ghost use Rattle.segment_definitions.specs.Segments as layout;
ghost use Rattle.segment_definitions.specs.Segments.{AreWritten};

use crate::section_checks::open_store;
use crate::sections::Sections;
use bytes::Bytes;
use definitions::Fault;
use std::alloc::{AllocError, Global};
use store::StoreReader;

/// Splits `bytes`, which are known to consist of sections.
pub(crate) fn known_sections(bytes: Bytes) -> Result<Sections, AllocError>
    requires { ∥ ((num_docs : ℕ) × (sections : layout.Sections) × AreWritten num_docs sections bytes) ∥₁ }
    ensures written { IfOk result (λ s. AreWritten s.num_docs (sections_in s) bytes) }
    ensures bytes { IfOk result (λ _. AreBytes bytes) }
{
    match Sections::of_bytes(bytes) {
        Ok(sections) => Ok(sections),
        Err(fault) => Err(want_of_memory(&fault)),
    }
}

/// Opens a store that is known to have `num_docs` documents.
pub(crate) fn known_store(
    alloc: Global,
    bytes: Bytes,
    num_docs: u32,
    cache_num_blocks: usize,
) -> Result<StoreReader, AllocError>
    requires short { length bytes < 2 ^ 64 }
    requires known { ∥ ((blocks : List Block) × AreBlocks blocks × (bytes ≡ store_bytes blocks)
        × (sum_by (λ (b : Block). b.count) blocks ≡ num_docs)) ∥₁ }
    ensures blocks { IfOk result (λ store. AreBlocks store.blocks × (bytes ≡ store_bytes store.blocks)) }
    ensures counted { IfOk result (λ store. sum_by (λ (b : Block). b.count) store.blocks ≡ num_docs) }
{
    match open_store(alloc, bytes, num_docs, cache_num_blocks) {
        Ok(store) => Ok(store),
        Err(fault) => Err(want_of_memory(&fault)),
    }
}

/// Converts an error that can only be out of memory.
fn want_of_memory(_fault: &Fault) -> AllocError
    requires { (_fault.now ≢ faults.OutOfMemory) → ⊥ }
{
    AllocError
}
