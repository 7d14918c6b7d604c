//! Laws of the bytes of alive sets.

ghost use Rattle.std.specs.Prelude.{◌≡◌, Bool, List, drop, false, if◌then◌else◌, slice_index_or, ℕ};
ghost use Rattle.layouts.specs.AliveSets.{IsAliveSet, alive_bytes};
ghost use Rattle.layouts.specs.PackedBlocks.{bit_in};

/// States that bytes represent at most one list of flags.
pub fn bytes_stand_for_one_alive_set()
    ensures { (a b : List Bool) (bytes : List ℕ) → IsAliveSet a bytes → IsAliveSet b bytes → a ≡ b }
{}

/// States that after the four bytes of the count, bit i is 1 if flag i is set, and 0 past the flags.
pub fn bits_are_flags()
    ensures { (flags : List Bool) (i : ℕ) → bit_in (drop 4 (alive_bytes flags)) i
        ≡ (if slice_index_or flags i false then 1 else 0) }
{}
