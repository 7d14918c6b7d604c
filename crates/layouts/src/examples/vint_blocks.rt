//! Lists of numbers and of ascending documents in bytes of seven bits.
#![tactic(auto, unfolding(definitions::specs::NumberCodes::vint_bytes, definitions::proofs::OnLiterals::definitions_on_literals))]

ghost use Rattle.std.specs.Prelude.{[], ◌∷◌, ◌≡◌, None, Some};
ghost use Rattle.layouts.specs.VintBlocks.{documents_bytes, numbers_bytes, take_all_numbers, take_documents, take_numbers};

/// Numbers are encoded one after another.
pub fn numbers_have_bytes()
    ensures none { numbers_bytes [] ≡ [] }
    ensures three_hundred { numbers_bytes (300 ∷ []) ≡ 0x2c ∷ 0x82 ∷ [] }
    ensures two { numbers_bytes (1 ∷ 300 ∷ []) ≡ 0x81 ∷ 0x2c ∷ 0x82 ∷ [] }
    ensures positions { numbers_bytes (2 ∷ 0 ∷ 1 ∷ []) ≡ 0x82 ∷ 0x80 ∷ 0x81 ∷ [] }
{}

/// Documents are encoded as their distance from the least one possible; offset 0 says that there is none before.
pub fn documents_have_bytes()
    ensures first { documents_bytes 0 (5 ∷ 6 ∷ 9 ∷ []) ≡ 0x85 ∷ 0x80 ∷ 0x82 ∷ [] }
    ensures from_zero { documents_bytes 0 (0 ∷ 1 ∷ []) ≡ 0x80 ∷ 0x80 ∷ [] }
    ensures behind { documents_bytes 127 (128 ∷ 130 ∷ []) ≡ 0x80 ∷ 0x81 ∷ [] }
    ensures far { documents_bytes 0 (4294967295 ∷ []) ≡ 127 ∷ 127 ∷ 127 ∷ 127 ∷ 143 ∷ [] }
{}

/// `take_numbers` decodes `n` numbers and leaves what follows.
pub fn numbers_are_taken()
    ensures none { take_numbers 0 (7 ∷ []) ≡ Some ([], 7 ∷ []) }
    ensures two { take_numbers 2 (0x81 ∷ 0x2c ∷ 0x82 ∷ 7 ∷ []) ≡ Some (1 ∷ 300 ∷ [], 7 ∷ []) }
    ensures cut { take_numbers 2 (0x81 ∷ 0x2c ∷ []) ≡ None }
    ensures too_few { take_numbers 2 (0x81 ∷ []) ≡ None }
    ensures longer { take_numbers 1 (0x2c ∷ 2 ∷ 128 ∷ []) ≡ None }
    ensures greatest { take_numbers 1 (127 ∷ 127 ∷ 127 ∷ 127 ∷ 143 ∷ []) ≡ Some (4294967295 ∷ [], []) }
    ensures too_great { take_numbers 1 (0 ∷ 0 ∷ 0 ∷ 0 ∷ 144 ∷ []) ≡ None }
{}

/// `take_documents` decodes `n` documents, where they are all below 2^32.
pub fn documents_are_taken()
    ensures first { take_documents 0 3 (0x85 ∷ 0x80 ∷ 0x82 ∷ 7 ∷ []) ≡ Some (5 ∷ 6 ∷ 9 ∷ [], 7 ∷ []) }
    ensures behind { take_documents 127 2 (0x80 ∷ 0x81 ∷ []) ≡ Some (128 ∷ 130 ∷ [], []) }
    ensures greatest { take_documents 0 1 (127 ∷ 127 ∷ 127 ∷ 127 ∷ 143 ∷ []) ≡ Some (4294967295 ∷ [], []) }
    ensures past { take_documents 1 1 (127 ∷ 127 ∷ 127 ∷ 127 ∷ 143 ∷ []) ≡ None }
    ensures past_later { take_documents 0 2 (127 ∷ 127 ∷ 127 ∷ 127 ∷ 143 ∷ 0x80 ∷ []) ≡ None }
{}

/// `take_all_numbers` decodes up to the end and leaves nothing.
pub fn numbers_are_taken_up_to_the_end()
    ensures none { take_all_numbers 0 [] ≡ Some [] }
    ensures two { take_all_numbers 128 (0x81 ∷ 0x2c ∷ 0x82 ∷ []) ≡ Some (1 ∷ 300 ∷ []) }
    ensures cut { take_all_numbers 128 (0x81 ∷ 0x2c ∷ []) ≡ None }
    ensures too_many { take_all_numbers 1 (0x81 ∷ 0x82 ∷ []) ≡ None }
{}
