//! Positions of a term.
#![tactic(auto, unfolding(definitions::specs::NumberCodes::vint_bytes, definitions::proofs::OnLiterals::definitions_on_literals))]

ghost use Rattle.std.specs.Prelude.{[], ◌++◌, ◌∷◌, ◌≡◌, replicate};
ghost use Rattle.layouts.specs.Positions.{ArePositions, position_numbers};

/// The first position of each document is encoded as it is, the others as differences.
pub fn documents_have_numbers()
    ensures two { position_numbers ((2 ∷ []) ∷ (0 ∷ 1 ∷ []) ∷ []) ≡ 2 ∷ 0 ∷ 1 ∷ [] }
    ensures falling { position_numbers ((5 ∷ 5 ∷ 9 ∷ []) ∷ (3 ∷ []) ∷ []) ≡ 5 ∷ 0 ∷ 4 ∷ 3 ∷ [] }
    ensures none { position_numbers [] ≡ [] }
{}

/// Position 2 of one document and 0 and 1 of the next: no block, and three numbers.
pub fn positions_have_bytes()
    ensures two { ArePositions (position_numbers ((2 ∷ []) ∷ (0 ∷ 1 ∷ []) ∷ [])) (0x80 ∷ 0x82 ∷ 0x80 ∷ 0x81 ∷ []) }
    ensures none { ArePositions [] (0x80 ∷ []) }
{}

/// 128 positions 0 are a block of width 0, which takes no bytes; position 5 is the rest.
pub fn a_block_stands_before_the_rest()
    ensures { ArePositions (replicate 128 0 ++ 5 ∷ []) (0x81 ∷ 0 ∷ 0x85 ∷ []) }
{}
