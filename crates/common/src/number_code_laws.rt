//! Laws of number codes.
#![tactic(auto, unfolding(definitions::specs::NumberCodes::vint_bytes, definitions::proofs::OnLiterals::definitions_on_literals))]

ghost use Rattle.std.specs.Prelude.{[], ◌++◌, ◌-◌, ◌<◌, ◌≡◌, ◌^◌, ◌∷◌, IsUtf8, List, None, Some, codes, length, ℕ};
ghost use Rattle.definitions.specs.NumberCodes.{AreBytes, sized_bytes, take_bytes, take_text, take_u32, take_u64, take_vint, u32_bytes, u64_bytes, vint_bytes};

/// States that decoding gives the value that was encoded, and leaves the bytes after it.
pub fn what_was_put_is_taken_back()
    ensures vint { (n : ℕ) (rest : List ℕ) → n < 2 ^ 64 → take_vint (vint_bytes n ++ rest) ≡ Some (n, rest) }
    ensures u32 { (n : ℕ) (rest : List ℕ) → n < 2 ^ 32 → take_u32 (u32_bytes n ++ rest) ≡ Some (n, rest) }
    ensures u64 { (n : ℕ) (rest : List ℕ) → n < 2 ^ 64 → take_u64 (u64_bytes n ++ rest) ≡ Some (n, rest) }
    ensures bytes { (bytes rest : List ℕ) → length bytes < 2 ^ 64
        → take_bytes (sized_bytes bytes ++ rest) ≡ Some (bytes, rest) }
    ensures text { (text rest : List ℕ) → IsUtf8 text → length text < 2 ^ 64
        → take_text (sized_bytes text ++ rest) ≡ Some (text, rest) }
{}

/// States that what is decoded is what encodes to those bytes: nothing else is decoded.
pub fn what_is_taken_was_put()
    ensures vint { (bs rest : List ℕ) (n : ℕ) → AreBytes bs → take_vint bs ≡ Some (n, rest) → (n < 2 ^ 64)
        × (bs ≡ vint_bytes n ++ rest) }
    ensures u32 { (bs rest : List ℕ) (n : ℕ) → AreBytes bs → take_u32 bs ≡ Some (n, rest) → (n < 2 ^ 32)
        × (bs ≡ u32_bytes n ++ rest) }
    ensures u64 { (bs rest : List ℕ) (n : ℕ) → AreBytes bs → take_u64 bs ≡ Some (n, rest) → (n < 2 ^ 64)
        × (bs ≡ u64_bytes n ++ rest) }
    ensures bytes { (bs rest bytes : List ℕ) → AreBytes bs → take_bytes bs ≡ Some (bytes, rest)
        → (length bytes < 2 ^ 64) × (bs ≡ sized_bytes bytes ++ rest) }
    ensures text { (bs rest text : List ℕ) → AreBytes bs → take_text bs ≡ Some (text, rest) → IsUtf8 text
        × (length text < 2 ^ 64) × (bs ≡ sized_bytes text ++ rest) }
{}

/// States the bytes of some numbers in groups of seven bits.
pub fn numbers_have_bytes()
    ensures zero { vint_bytes 0 ≡ 128 ∷ [] }
    ensures one_byte { vint_bytes 127 ≡ 255 ∷ [] }
    ensures two_bytes { vint_bytes 128 ≡ 0 ∷ 129 ∷ [] }
    ensures three_hundred { vint_bytes 300 ≡ 0x2c ∷ 0x82 ∷ [] }
    ensures last_of_two { vint_bytes (2 ^ 14 - 1) ≡ 127 ∷ 255 ∷ [] }
    ensures three_bytes { vint_bytes (2 ^ 14) ≡ 0 ∷ 0 ∷ 129 ∷ [] }
    ensures last_of_three { vint_bytes (2 ^ 21 - 1) ≡ 127 ∷ 127 ∷ 255 ∷ [] }
    ensures last_of_nine { vint_bytes (2 ^ 63 - 1) ≡ 127 ∷ 127 ∷ 127 ∷ 127 ∷ 127 ∷ 127 ∷ 127 ∷ 127 ∷ 255 ∷ [] }
    ensures ten_bytes { vint_bytes (2 ^ 63) ≡ 0 ∷ 0 ∷ 0 ∷ 0 ∷ 0 ∷ 0 ∷ 0 ∷ 0 ∷ 0 ∷ 129 ∷ [] }
    ensures greatest { vint_bytes (2 ^ 64 - 1) ≡ 127 ∷ 127 ∷ 127 ∷ 127 ∷ 127 ∷ 127 ∷ 127 ∷ 127 ∷ 127 ∷ 129 ∷ [] }
{}

/// States which bytes begin with a number, and which don't.
pub fn bytes_begin_with_numbers()
    ensures three_hundred { take_vint (0x2c ∷ 0x82 ∷ 7 ∷ []) ≡ Some (300, 7 ∷ []) }
    ensures zero { take_vint (128 ∷ 0 ∷ []) ≡ Some (0, 0 ∷ []) }
    ensures greatest { take_vint (127 ∷ 127 ∷ 127 ∷ 127 ∷ 127 ∷ 127 ∷ 127 ∷ 127 ∷ 127 ∷ 129 ∷ [])
        ≡ Some (2 ^ 64 - 1, []) }
    ensures nothing { take_vint [] ≡ None }
    ensures cut { take_vint (0x2c ∷ []) ≡ None }
    ensures longer_zero { take_vint (0 ∷ 128 ∷ []) ≡ None }
    ensures longer { take_vint (0x2c ∷ 2 ∷ 128 ∷ []) ≡ None }
    ensures too_great { take_vint (0 ∷ 0 ∷ 0 ∷ 0 ∷ 0 ∷ 0 ∷ 0 ∷ 0 ∷ 0 ∷ 130 ∷ []) ≡ None }
    ensures too_long { take_vint (0 ∷ 0 ∷ 0 ∷ 0 ∷ 0 ∷ 0 ∷ 0 ∷ 0 ∷ 0 ∷ 0 ∷ 129 ∷ []) ≡ None }
    ensures little_endian { take_u32 (1 ∷ 2 ∷ 0 ∷ 0 ∷ 9 ∷ []) ≡ Some (513, 9 ∷ []) }
    ensures cut_u32 { take_u32 (1 ∷ 2 ∷ 0 ∷ []) ≡ None }
    ensures cut_u64 { take_u64 (1 ∷ 2 ∷ 0 ∷ 0 ∷ 0 ∷ 0 ∷ 0 ∷ []) ≡ None }
{}

/// States that byte strings and texts come after their length.
pub fn strings_have_bytes()
    ensures empty { sized_bytes [] ≡ 128 ∷ [] }
    ensures two { sized_bytes (codes "ab") ≡ 130 ∷ 97 ∷ 98 ∷ [] }
    ensures string { take_bytes (129 ∷ 255 ∷ 7 ∷ []) ≡ Some (255 ∷ [], 7 ∷ []) }
    ensures cut { take_bytes (130 ∷ 97 ∷ []) ≡ None }
    ensures text { take_text (130 ∷ 0xc3 ∷ 0xa9 ∷ 7 ∷ []) ≡ Some (0xc3 ∷ 0xa9 ∷ [], 7 ∷ []) }
    ensures no_text { take_text (129 ∷ 255 ∷ 7 ∷ []) ≡ None }
    ensures half_a_character { take_text (129 ∷ 0xc3 ∷ 0xa9 ∷ []) ≡ None }
{}
