//! Blocks of 128 numbers as bytes.

ghost use Rattle.std.specs.Prelude.{[], ◌*◌, ◌++◌, ◌∷◌, ◌≡◌, map, replicate};
ghost use Rattle.std.specs.List.{range_with_len};
ghost use Rattle.layouts.specs.Deltas.{deltas, next_of};
ghost use Rattle.layouts.specs.PackedBlocks.{IsBlock, IsPacked, IsSortedBlock};

/// The documents 0, 2, .. 254 have the deltas 0, 1, .. 1, of one bit each.
pub fn every_second_document_takes_one_bit()
    ensures sorted { IsSortedBlock 0 1 (map (λ i. 2 * i) (range_with_len 0 128)) (0xfe ∷ replicate 15 0xff) }
    ensures highest_bit_first { ¬ IsPacked 1 (0 ∷ replicate 127 1) (0x7f ∷ replicate 15 0xff) }
{}

/// The numbers 1, 2, 7 and then zeros take three bits each, and the third number crosses into the second byte.
pub fn numbers_go_over_to_the_next_byte()
    ensures block { IsBlock 3 (1 ∷ 2 ∷ 7 ∷ replicate 125 0) (0xd1 ∷ 0x01 ∷ replicate 46 0) }
    ensures wider { ¬ IsBlock 4 (1 ∷ 2 ∷ 7 ∷ replicate 125 0) (0x21 ∷ 0x07 ∷ replicate 62 0) }
{}

/// A block of zeros takes no bytes.
pub fn zeros_take_no_byte()
    ensures { IsBlock 0 (replicate 128 0) [] }
{}

/// The first document of a list is encoded as it is, and after another one less that one and less 1.
pub fn documents_are_told_by_what_lies_between()
    ensures first { deltas (next_of 0) (3 ∷ 4 ∷ 9 ∷ []) ≡ 3 ∷ 0 ∷ 4 ∷ [] }
    ensures after { deltas (next_of 300) (301 ∷ 305 ∷ []) ≡ 0 ∷ 3 ∷ [] }
{}
