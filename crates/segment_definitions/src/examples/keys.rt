//! Keys of each kind, and bytes that are none.
#![tactic(auto, unfolding(definitions::proofs::OnLiterals::definitions_on_literals))]

ghost use Rattle.std.specs.Prelude.{[], ◌++◌, ◌^◌, ◌∷◌, ◌≡◌, codes, false, map, replicate, true};
ghost use Rattle.std.specs.Int.{to_be_bytes, w64};
ghost use Rattle.definitions.specs.Examples.{books};
ghost use Rattle.definitions.specs.Schema.{bool_kind, bytes_kind, date_kind, facet_kind, i64_kind, ip_addr_kind, json_kind, text_kind, u64_kind};
ghost use Rattle.segment_definitions.specs.Keys.{is_key, is_key_of};

/// Texts and facets are UTF-8; bytes are any.
pub fn texts_have_keys()
    ensures texts { map (is_key text_kind) (codes "sea" ∷ [] ∷ (0xc3 ∷ 0xa4 ∷ []) ∷ (0xff ∷ []) ∷ (0xc3 ∷ []) ∷ [])
        ≡ true ∷ true ∷ true ∷ false ∷ false ∷ [] }
    ensures facets { map (is_key facet_kind) ([] ∷ (codes "a" ++ 0 ∷ codes "b") ∷ (0xff ∷ []) ∷ [])
        ≡ true ∷ true ∷ false ∷ [] }
    ensures bytes { map (is_key bytes_kind) ([] ∷ (0xff ∷ []) ∷ []) ≡ true ∷ true ∷ [] }
{}

/// Numbers are eight bytes, bools of them 0 or 1, and addresses sixteen.
pub fn numbers_have_keys()
    ensures unsigned { map (λ n. is_key u64_kind (replicate n 255)) (3 ∷ 8 ∷ 9 ∷ []) ≡ false ∷ true ∷ false ∷ [] }
    ensures signed { map (λ n. is_key i64_kind (replicate n 255)) (3 ∷ 8 ∷ 9 ∷ []) ≡ false ∷ true ∷ false ∷ [] }
    ensures bools { map (λ n. is_key bool_kind (replicate 7 0 ++ n ∷ [])) (0 ∷ 1 ∷ 2 ∷ []) ≡ true ∷ true ∷ false ∷ [] }
    ensures other_bools { map (is_key bool_kind) ([] ∷ (1 ∷ []) ∷ (1 ∷ replicate 7 0) ∷ [])
        ≡ false ∷ false ∷ false ∷ [] }
    ensures addresses { map (λ n. is_key ip_addr_kind (replicate n 1)) (4 ∷ 15 ∷ 16 ∷ 17 ∷ [])
        ≡ false ∷ false ∷ true ∷ false ∷ [] }
{}

/// Dates are whole seconds: 2^63 nanoseconds after the least one is the start of 1970.
pub fn dates_have_keys()
    ensures seconds { map (λ n. is_key date_kind (to_be_bytes w64 n))
        (2 ^ 63 ∷ 9223372037854775808 ∷ 9223372035854775808 ∷ 854775808 ∷ [])
        ≡ true ∷ true ∷ true ∷ true ∷ [] }
    ensures parts { map (λ n. is_key date_kind (to_be_bytes w64 n))
        (9223372036854775809 ∷ 9223372036854775807 ∷ 9223372037354775808 ∷ 0 ∷ [])
        ≡ false ∷ false ∷ false ∷ false ∷ [] }
    ensures long { is_key date_kind (to_be_bytes w64 (2 ^ 63) ++ 0 ∷ []) ≡ false }
{}

/// A JSON key is a path, U+0000, and a leaf; a whole number that fits i64 is one.
pub fn leaves_have_keys()
    ensures texts { map (λ leaf. is_key json_kind (codes "a" ++ 1 ∷ codes "b" ++ 0 ∷ leaf))
        (codes "ssea" ∷ codes "s" ∷ (codes "s" ++ 0xff ∷ []) ∷ codes "sea" ∷ [] ∷ [])
        ≡ true ∷ true ∷ false ∷ true ∷ false ∷ [] }
    ensures numbers { map (λ leaf. is_key json_kind (codes "a" ++ 0 ∷ leaf))
        ((codes "u" ++ to_be_bytes w64 (2 ^ 63)) ∷ (codes "u" ++ to_be_bytes w64 7) ∷ (codes "i" ++ to_be_bytes w64 7)
        ∷ []) ≡ true ∷ false ∷ true ∷ [] }
    ensures others { map (λ leaf. is_key json_kind (codes "a" ++ 0 ∷ leaf))
        ((codes "o" ++ to_be_bytes w64 1) ∷ (codes "o" ++ to_be_bytes w64 2) ∷ (codes "d" ++ to_be_bytes w64 (2 ^ 63))
        ∷ codes "hsea" ∷ codes "bsea" ∷ []) ≡ true ∷ false ∷ true ∷ false ∷ false ∷ [] }
    ensures no_path { map (is_key json_kind) (codes "ssea" ∷ [] ∷ (0xff ∷ 0 ∷ codes "ssea") ∷ (0 ∷ codes "ssea") ∷ [])
        ≡ false ∷ false ∷ false ∷ true ∷ [] }
{}

/// A key is one of its field.
pub fn fields_have_keys()
    ensures books { map (λ field. is_key_of books field (codes "sea")) (0 ∷ 1 ∷ 2 ∷ []) ≡ true ∷ false ∷ false ∷ [] }
{}
