//! The appending of a member's living documents to a store.

ghost use Rattle.std.specs.Prelude.{[], ◌++◌, ◌+◌, ◌<◌, ◌∷◌, ◌≡◌, IfErr, List, OnOk, length, ℕ};
ghost use Rattle.std.specs.List.{items_where_true, slice_index_or};
ghost use Rattle.common.specs.BitSets.{count_set};
ghost use Rattle.layouts.specs.Stores.{Hold};
ghost use Rattle.merging.specs.LivingSlots.{IsAppendRefusal, IsSlotRefusal};
ghost use Rattle.store.specs.Writing.{HoldsSlots, count_of, docs_of};

use common::AliveBitSet;
use definitions::Fault;
use store::{StoreReader, StoreWriter};

/// Appends the slots of a member's living documents to a store. If all are alive its blocks are stacked, without a look
/// at their slots.
pub fn append_living(
    store: &StoreReader,
    alive: &AliveBitSet,
    writer: &mut StoreWriter,
) -> Result<(), Fault>
    requires { count_of store.now.blocks ≡ length alive.now }
    ensures ok { (held slots : List (List ℕ)) → HoldsSlots writer.old held → Hold store.now.blocks slots
        → OnOk result (HoldsSlots writer.new (held ++ items_where_true alive.now slots)) }
    ensures docs { OnOk result (docs_of writer.new ≡ docs_of writer.old + count_set alive.now) }
    ensures size { OnOk result (writer.new.block_size ≡ writer.old.block_size) }
    ensures err { IfErr result (λ fault. IsAppendRefusal fault writer.old alive.now store.now.blocks) }
{
    if alive.num_alive() == alive.len() {
        let _docs = writer.num_docs();
        writer.stack(store)?;
        return Ok(());
    }
    append_slots(store, alive, writer)
}

/// Like `append_living`, but slot by slot.
fn append_slots(
    store: &StoreReader,
    alive: &AliveBitSet,
    writer: &mut StoreWriter,
) -> Result<(), Fault>
    requires { count_of store.now.blocks ≡ length alive.now }
    ensures ok { (held slots : List (List ℕ)) → HoldsSlots writer.old held → Hold store.now.blocks slots
        → OnOk result (HoldsSlots writer.new (held ++ items_where_true alive.now slots)) }
    ensures docs { OnOk result (docs_of writer.new ≡ docs_of writer.old + count_set alive.now) }
    ensures size { OnOk result (writer.new.block_size ≡ writer.old.block_size) }
    ensures err { IfErr result (λ fault. IsAppendRefusal fault writer.old alive.now store.now.blocks) }
{
    for doc in 0..store.num_docs() {
        if alive.is_alive(doc) {
            append_slot(store, doc, writer)?;
        }
    }
    Ok(())
}

/// Appends a document's slot.
fn append_slot(store: &StoreReader, doc: u32, writer: &mut StoreWriter) -> Result<(), Fault>
    requires { doc < count_of store.now.blocks }
    ensures ok { (held slots : List (List ℕ)) → HoldsSlots writer.old held → Hold store.now.blocks slots
        → OnOk result (HoldsSlots writer.new (held ++ slice_index_or slots doc [] ∷ [])) }
    ensures docs { OnOk result (docs_of writer.new ≡ docs_of writer.old + 1) }
    ensures size { OnOk result (writer.new.block_size ≡ writer.old.block_size) }
    ensures err { IfErr result (λ fault. IsSlotRefusal fault writer.old doc store.now.blocks) }
{
    let _docs = writer.num_docs();
    let slot = store.read_document_bytes(doc)?;
    writer.store_bytes(slot.as_slice())?;
    Ok(())
}
