//! Checks of the sections of lengths and of the store.

ghost use Rattle.std.specs.Prelude.{◌<◌, ◌^◌, ◌≡◌, ◌≢◌, ◌≤◌, IfErr, IfOk, List, None, length, sum_by, ℕ};
ghost use Rattle.definitions.specs.KeptLengths.{length_fields};
ghost use Rattle.definitions.specs.declared.fault.Fault.TheVariants as faults;
ghost use Rattle.layouts.specs.FieldNorms.{IsNorms};
ghost use Rattle.layouts.specs.Stores.{AreBlocks, Block, store_bytes};

use bytes::Bytes;
use codes::FieldNormReaders;
use definitions::Fault;
use schema::{Schema, length_fields};
use std::alloc::Global;
use store::StoreReader;

/// Checks the section of lengths, and returns the fields that keep lengths.
pub(crate) fn checked_norms(
    alloc: Global,
    schema: &Schema,
    norms: &[u8],
    num_docs: u32,
) -> Result<Vec<u32>, Fault>
    ensures fields { IfOk result (λ fields. fields.items ≡ length_fields schema.now) }
    ensures ok { IfOk result (λ _. (read : List (ℕ × List ℕ))
        × IsNorms (length_fields schema.now) num_docs norms.now read) }
    ensures err { IfErr result (λ fault. fault ≢ faults.OutOfMemory → (fault ≡ faults.Damaged None)
        × ((read : List (ℕ × List ℕ)) → ¬ IsNorms (length_fields schema.now) num_docs norms.now read)) }
{
    let fields = length_fields(alloc, schema)?;
    FieldNormReaders::open(norms, num_docs, &fields)?;
    Ok(fields)
}

/// Opens a store of `num_docs` documents; `Damaged` for another number of them.
pub(crate) fn open_store(
    alloc: Global,
    bytes: Bytes,
    num_docs: u32,
    cache_num_blocks: usize,
) -> Result<StoreReader, Fault>
    requires { length bytes < 2 ^ 64 }
    ensures blocks { IfOk result (λ store. AreBlocks store.blocks × (bytes ≡ store_bytes store.blocks)) }
    ensures counted { IfOk result (λ store. sum_by (λ (b : Block). b.count) store.blocks ≡ num_docs) }
    ensures err { IfErr result (λ fault. fault ≢ faults.OutOfMemory → (fault ≡ faults.Damaged None)
        × ((blocks : List Block) → AreBlocks blocks → bytes ≡ store_bytes blocks
        → sum_by (λ (b : Block). b.count) blocks ≢ num_docs)) }
{
    let store = StoreReader::open(alloc, bytes, cache_num_blocks)?;
    if store.num_docs() != num_docs {
        return Err(Fault::Damaged(None));
    }
    Ok(store)
}
