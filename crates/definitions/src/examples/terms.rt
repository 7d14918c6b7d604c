//! The bytes of terms.

ghost use Rattle.std.specs.Prelude.{[], ◌++◌, ◌-◌, ◌^◌, ◌∷◌, ◌≡◌, codes, false, length, map, negsuc, option_map, pos, true};
ghost use Rattle.definitions.specs.Addresses.{mapped};
ghost use Rattle.definitions.specs.Analyzers.{raw_and_default};
ghost use Rattle.definitions.specs.Examples.{bare, data_of, date_term, hex, json_data, json_hex, one_member, title_term, year_term};
ghost use Rattle.definitions.specs.Facets.{root};
ghost use Rattle.definitions.specs.Indexing.{facet_terms, terms_of};
ghost use Rattle.definitions.specs.JsonLeaves.{leaves};
ghost use Rattle.definitions.specs.Recorded.{holds};
ghost use Rattle.definitions.specs.Schema.{bool_kind, bytes_kind, date_kind, facet_kind, ip_addr_kind, text_kind, u64_kind};
ghost use Rattle.definitions.specs.Stored.{stored_values};
ghost use Rattle.definitions.specs.Terms.{field_of, has_kind, inner_kind, is_text_term, json_term, path_of_keys, signed_bytes, term_bytes, value_bytes, whole_seconds};
ghost use Rattle.definitions.specs.Values.{array, bool, bytes, date, facet, i64, ip_addr, member, no_members, no_values, null, object, str, u64, value};

/// The field's number, the kind's letter and the value.
pub fn terms_have_a_field_a_kind_and_a_value()
    ensures title { hex (title_term "sea") ≡ codes "0000000073736561" }
    ensures year { hex (year_term 1952) ≡ codes "000000017500000000000007a0" }
    ensures flag { option_map (λ payload. hex (term_bytes 258 bool_kind payload)) (value_bytes bool_kind (bool true))
        ≡ Some (codes "000001026f0000000000000001") }
    ensures address { option_map (λ payload. hex (term_bytes 0 ip_addr_kind payload))
        (value_bytes ip_addr_kind (ip_addr (mapped 16909060)))
        ≡ Some (codes "000000007000000000000000000000ffff01020304") }
    ensures bytes { option_map (λ payload. hex (term_bytes 0 bytes_kind payload)) (value_bytes bytes_kind (bytes (0
        ∷ 255 ∷ []))) ≡ Some (codes "000000006200ff") }
    ensures facet { option_map (λ payload. hex (term_bytes 0 facet_kind payload))
        (value_bytes facet_kind (facet (codes "a" ∷ codes "b" ∷ []))) ≡ Some (codes "0000000068610062") }
    ensures other_kind { value_bytes u64_kind (i64 (pos 5)) ≡ None }
{}

/// Negative numbers come before 0, and 0 before positive ones.
pub fn signed_numbers_keep_their_order()
    ensures least { hex (signed_bytes (negsuc (2 ^ 63 - 1))) ≡ codes "0000000000000000" }
    ensures minus_one { hex (signed_bytes (negsuc 0)) ≡ codes "7fffffffffffffff" }
    ensures zero { hex (signed_bytes (pos 0)) ≡ codes "8000000000000000" }
    ensures greatest { hex (signed_bytes (pos (2 ^ 63 - 1))) ≡ codes "ffffffffffffffff" }
{}

/// Dates are cut toward 1970 to whole seconds.
pub fn dates_are_cut_to_seconds()
    ensures after_1970 { whole_seconds (pos 1714564800750000000) ≡ pos 1714564800000000000 }
    ensures just_before { whole_seconds (negsuc 499999999) ≡ pos 0 }
    ensures before_1970 { whole_seconds (negsuc 1499999999) ≡ negsuc 999999999 }
    ensures whole { whole_seconds (negsuc 999999999) ≡ negsuc 999999999 }
{}

/// A date finds the dates of its second, and the stored date keeps its fraction.
pub fn dates_find_their_second()
    ensures found { holds (data_of date_kind) raw_and_default (date_term (pos 1714564800250000000))
        ((0, date (pos 1714564800750000000)) ∷ []) ≡ true }
    ensures next_second { holds (data_of date_kind) raw_and_default (date_term (pos 1714564801000000000))
        ((0, date (pos 1714564800750000000)) ∷ []) ≡ false }
    ensures stored { stored_values (data_of date_kind) ((0, date (pos 1714564800750000000)) ∷ [])
        ≡ (codes "data", date (pos 1714564800750000000) ∷ []) ∷ [] }
{}

/// A facet gives the terms of all its first steps, also of none.
pub fn facets_give_their_first_steps()
    ensures two_steps { map (λ p. hex p.0) (facet_terms 0 (facet (codes "a" ∷ codes "b" ∷ []))) ≡ codes "0000000068"
        ∷ codes "000000006861" ∷ codes "0000000068610062" ∷ [] }
    ensures root { map (λ p. hex p.0) (facet_terms 0 (facet root)) ≡ codes "0000000068" ∷ codes "0000000068" ∷ [] }
    ensures always_indexed { length (terms_of (bare "data" facet_kind
        ∷ []) raw_and_default ((0, facet (codes "a" ∷ [])) ∷ [])) ≡ 2 }
{}

/// Keys are joined by a byte 1, also empty ones, and a dot parts keys where the field says so.
pub fn keys_are_joined()
    ensures one { hex (path_of_keys false (codes "a" ∷ [])) ≡ codes "61" }
    ensures two { hex (path_of_keys false (codes "a" ∷ codes "b.c" ∷ [])) ≡ codes "6101622e63" }
    ensures dots { hex (path_of_keys true (codes "a" ∷ codes "b.c" ∷ [])) ≡ codes "6101620163" }
    ensures empty_first { hex (path_of_keys false ([] ∷ codes "a" ∷ [])) ≡ codes "0161" }
    ensures empty_last { hex (path_of_keys false (codes "a" ∷ [] ∷ [])) ≡ codes "6101" }
    ensures empty_alone { path_of_keys false ([] ∷ []) ≡ [] }
    ensures dots_in_a_document { map (λ l. hex l.0) (leaves true [] (one_member "a.b" (bool true))) ≡ codes "610162"
        ∷ [] }
{}

/// A JSON term has the path, a byte 0, and the leaf's kind and value.
pub fn json_terms_have_a_path()
    ensures text { json_hex (one_member "a" (str (codes "x"))) ≡ codes "000000006a61007378" ∷ [] }
    ensures below_an_empty_key { json_hex (one_member "" (one_member "a" (str (codes "x"))))
        ≡ codes "000000006a0161007378" ∷ [] }
    ensures number { json_hex (one_member "a" (u64 5)) ≡ codes "000000006a6100698000000000000005" ∷ [] }
    ensures great_number { json_hex (one_member "a" (u64 (2 ^ 63))) ≡ codes "000000006a6100758000000000000000" ∷ [] }
    ensures negative { json_hex (one_member "a" (i64 (negsuc 0))) ≡ codes "000000006a6100697fffffffffffffff" ∷ [] }
    ensures flag { json_hex (one_member "a" (bool false)) ≡ codes "000000006a61006f0000000000000000" ∷ [] }
    ensures no_value { json_hex (one_member "a" null) ≡ [] }
    ensures array { json_hex (one_member "a" (array (value (bool true)
        (value (array (value (str (codes "x")) no_values)) no_values)))) ≡ codes "000000006a61007378"
        ∷ codes "000000006a61006f0000000000000001" ∷ [] }
{}

/// Under a key with a byte 0 nothing is found, and what stands beside it is.
pub fn keys_with_a_zero_are_left_out()
    ensures { map (λ l. l.0) (leaves false [] (object (member (97 ∷ 0
        ∷ []) (one_member "b" (bool true)) (member (codes "c") (bool true) no_members)))) ≡ codes "c" ∷ [] }
{}

/// The texts on one path stand in one row, and each path has its own.
pub fn paths_have_places_of_their_own()
    ensures { map (λ p. p.1) (terms_of json_data raw_and_default
        ((
          0,
          object (member (codes "a") (array (value (str (codes "x y")) (value (str (codes "z")) no_values)))
              (member (codes "b") (str (codes "w")) no_members)),
        ) ∷ [])) ≡ 0 ∷ 1 ∷ 3 ∷ 0 ∷ [] }
{}

/// A term tells its field, its kind and whether it is of a text.
pub fn terms_tell_what_they_are()
    ensures field { field_of (term_bytes 258 u64_kind []) ≡ 258 }
    ensures kind { has_kind u64_kind (year_term 1952) ≡ true }
    ensures other_kind { has_kind text_kind (year_term 1952) ≡ false }
    ensures text { is_text_term (title_term "sea") ≡ true }
    ensures number { is_text_term (year_term 1952) ≡ false }
    ensures text_in_json { is_text_term (json_term 0 (codes "a") (codes "sx")) ≡ true }
    ensures number_in_json { is_text_term (json_term 0 (codes "s") (codes "i" ++ signed_bytes (pos 0))) ≡ false }
    ensures first_zero { inner_kind (json_term 0 (codes "a") (codes "s" ++ (0 ∷ codes "i"))) ≡ Some text_kind }
{}
