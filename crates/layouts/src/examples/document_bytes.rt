//! Values and documents as bytes.
#![tactic(auto, unfolding(definitions::specs::NumberCodes::vint_bytes, definitions::proofs::OnLiterals::definitions_on_literals))]

ghost use Rattle.std.specs.Prelude.{[], ◌-◌, ◌^◌, ◌∷◌, ◌≡◌, codes, false, negsuc, pos, replicate, true};
ghost use Rattle.definitions.specs.Addresses.{mapped};
ghost use Rattle.definitions.specs.Examples.{hex};
ghost use Rattle.definitions.specs.Facets.{root};
ghost use Rattle.definitions.specs.Values.{array, bool, bytes, date, facet, i64, ip_addr, member, no_members, no_values, null, object, pre_tok_str, str, u64, value};
ghost use Rattle.layouts.specs.DocumentBytes.{document_bytes, pair_bytes, value_bytes};

/// Each kind of value is its code, then its content.
pub fn values_have_bytes()
    ensures text { hex (value_bytes (str (codes "sea"))) ≡ codes "0083736561" }
    ensures empty_text { hex (value_bytes (str [])) ≡ codes "0080" }
    ensures number { hex (value_bytes (u64 7)) ≡ codes "010700000000000000" }
    ensures facet { hex (value_bytes (facet (codes "a" ∷ codes "b" ∷ []))) ≡ codes "0383610062" }
    ensures root_facet { hex (value_bytes (facet root)) ≡ codes "0380" }
    ensures bytes { hex (value_bytes (bytes (0 ∷ 255 ∷ []))) ≡ codes "048200ff" }
    ensures no { hex (value_bytes (bool false)) ≡ codes "0900" }
    ensures yes { hex (value_bytes (bool true)) ≡ codes "0901" }
    ensures address { hex (value_bytes (ip_addr (mapped 16909060))) ≡ codes "0a04030201ffff00000000000000000000" }
    ensures null { hex (value_bytes null) ≡ codes "0b" }
{}

/// Negative numbers and dates are in two's complement, little-endian.
pub fn signed_numbers_have_bytes()
    ensures positive { hex (value_bytes (i64 (pos 7))) ≡ codes "020700000000000000" }
    ensures minus_one { hex (value_bytes (i64 (negsuc 0))) ≡ codes "02ffffffffffffffff" }
    ensures least { hex (value_bytes (i64 (negsuc (2 ^ 63 - 1)))) ≡ codes "020000000000000080" }
    ensures date { hex (value_bytes (date (pos 1714564800750000000))) ≡ codes "05809717259a5bcb17" }
    ensures before_1970 { hex (value_bytes (date (negsuc 1))) ≡ codes "05feffffffffffffff" }
{}

/// Arrays and objects begin with their length.
pub fn nested_values_have_bytes()
    ensures empty_array { hex (value_bytes (array no_values)) ≡ codes "0c80" }
    ensures array { hex (value_bytes (array (value (bool true) (value null no_values)))) ≡ codes "0c8209010b" }
    ensures empty_object { hex (value_bytes (object no_members)) ≡ codes "0d80" }
    ensures object { hex (value_bytes (object (member (codes "a") null (member [] (str (codes "x")) no_members))))
        ≡ codes "0d8281610b80008178" }
    ensures equal_keys { hex (value_bytes (object (member (codes "a") null (member (codes "a") null no_members))))
        ≡ codes "0d8281610b81610b" }
    ensures nested { hex (value_bytes (array (value (object (member (codes "a") (array no_values) no_members))
        no_values))) ≡ codes "0c810d8181610c80" }
{}

/// A pre-tokenised text is encoded as its text, at any depth.
pub fn pre_tokenised_texts_are_texts()
    ensures alone { hex (value_bytes (pre_tok_str (codes "sea")
        (record { position = 3; position_length = 1; text = codes "s" } ∷ []))) ≡ codes "0083736561" }
    ensures inside { hex (value_bytes (array (value (pre_tok_str (codes "sea") []) no_values)))
        ≡ codes "0c810083736561" }
{}

/// A document begins with the number of its pairs.
pub fn documents_have_bytes()
    ensures title_and_year { hex (document_bytes ((0, str (codes "c")) ∷ (1, u64 7) ∷ []))
        ≡ codes "820000000000816301000000010700000000000000" }
    ensures empty { hex (document_bytes []) ≡ codes "80" }
    ensures greatest_field { hex (pair_bytes (4294967295, null)) ≡ codes "ffffffff0b" }
{}
