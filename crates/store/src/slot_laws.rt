//! What the blocks of a writer promise: a store is a list of slots.

ghost use Rattle.std.specs.Prelude.{[], ◌++◌, ◌∷◌, ◌≡◌, List, false, length, ℕ};
ghost use Rattle.layouts.specs.Stores.{AreBlocks, Block, Hold};
ghost use Rattle.store.specs.Stacking.{stacked};
ghost use Rattle.store.specs.Writing.{AreWritten, HoldsSlots, Written, blocks_of, passes_limit, stored};

/// A document that passes no limit appends a slot, whatever the block size.
pub fn documents_append_slots()
    ensures { (w : Written) (slots : List (List ℕ)) (doc : List ℕ) → AreWritten w.block_size w.blocks w.pending
        → HoldsSlots w slots → passes_limit w (length doc) ≡ false → HoldsSlots (stored w doc) (slots ++ doc ∷ []) }
{}

/// Stacking a store appends its slots, in whatever blocks they are.
pub fn stacked_stores_append_slots()
    ensures { (w : Written) (slots more : List (List ℕ)) (blocks : List Block)
        → AreWritten w.block_size w.blocks w.pending → HoldsSlots w slots → Hold blocks more
        → HoldsSlots (stacked w blocks) (slots ++ more) }
{}

/// The blocks that are closed in the end hold the slots.
pub fn closed_stores_hold_slots()
    ensures { (w : Written) (slots : List (List ℕ)) → AreWritten w.block_size w.blocks w.pending → HoldsSlots w slots
        → AreBlocks (blocks_of w) × Hold (blocks_of w) slots }
{}
