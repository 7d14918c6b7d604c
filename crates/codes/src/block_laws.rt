//! What the bytes of blocks promise.
#![tactic(auto)]

ghost use Rattle.std.specs.Prelude.{◌≡◌, List, ℕ};
ghost use Rattle.definitions.specs.NumberCodes.{AreBytes};
ghost use Rattle.layouts.specs.PackedBlocks.{IsBlock, IsPacked, IsSortedBlock};
ghost use Rattle.layouts.specs.PackedBytes.{packed_bytes, width_of};

/// States that no other numbers have the bytes of a block, and no other documents after the same offset: what was
/// encoded is what is decoded.
pub fn blocks_have_one_reading()
    ensures packed { (w : ℕ) (a b bytes : List ℕ) → IsPacked w a bytes → IsPacked w b bytes → a ≡ b }
    ensures block { (w : ℕ) (a b bytes : List ℕ) → IsBlock w a bytes → IsBlock w b bytes → a ≡ b }
    ensures sorted { (offset w : ℕ) (a b bytes : List ℕ) → IsSortedBlock offset w a bytes
        → IsSortedBlock offset w b bytes → a ≡ b }
{}

/// Numbers have one width.
pub fn numbers_have_one_width()
    ensures { (v w : ℕ) (numbers a b : List ℕ) → IsBlock v numbers a → IsBlock w numbers b → v ≡ w }
{}

/// Numbers have one block, whose width and bytes compute.
pub fn numbers_have_one_block()
    ensures width { (w : ℕ) (numbers bytes : List ℕ) → IsBlock w numbers bytes → w ≡ width_of numbers }
    ensures bytes { (w : ℕ) (numbers bytes : List ℕ) → AreBytes bytes → IsBlock w numbers bytes
        → bytes ≡ packed_bytes numbers }
{}
