//! Texts in words, their lengths, and what is recorded of them.

ghost use Rattle.std.specs.Prelude.{[], ◌++◌, ◌∷◌, ◌≡◌, codes, false, length, map, pos, replicate, true};
ghost use Rattle.definitions.specs.Analyzers.{default_tokens, is_raw_or_default, one_token, raw, raw_and_default};
ghost use Rattle.definitions.specs.Examples.{books, indexed_entry, json_data, one_member, sea_wind, text_entry, title_term, titled, year_term};
ghost use Rattle.definitions.specs.Lengths.{fieldnorm_to_id, id_to_fieldnorm, len_of};
ghost use Rattle.definitions.specs.Recorded.{ascending, count_of, holds, positions_of};
ghost use Rattle.definitions.specs.Schema.{basic, facet_kind, json_kind, keeps_length, with_freqs};
ghost use Rattle.definitions.specs.Stored.{stored_values};
ghost use Rattle.definitions.specs.Terms.{json_term, signed_bytes};
ghost use Rattle.definitions.specs.Values.{array, no_values, pre_tok_str, str, u64, value};

/// Letters, digits and characters past ASCII make words, which are lowered and numbered.
pub fn words_are_lowered_and_numbered()
    ensures words { default_tokens (codes "The old, OLD sea-7!") ≡ one_token 0 (codes "the")
        ∷ one_token 1 (codes "old") ∷ one_token 2 (codes "old") ∷ one_token 3 (codes "sea") ∷ one_token 4 (codes "7")
        ∷ [] }
    ensures past_ascii { default_tokens (codes "A" ++ (195 ∷ 132 ∷ codes "B c"))
        ≡ one_token 0 (codes "a" ++ (195 ∷ 132 ∷ codes "b")) ∷ one_token 1 (codes "c") ∷ [] }
    ensures no_word { default_tokens (codes " .- ") ≡ [] }
    ensures whole { raw (codes "The Old") ≡ one_token 0 (codes "The Old") ∷ [] }
    ensures whole_empty { raw [] ≡ one_token 0 [] ∷ [] }
{}

/// A word over 40 bytes takes a number and gives no token.
pub fn long_words_take_a_number()
    ensures longer { default_tokens (codes "one " ++ (replicate 41 97 ++ codes " Two")) ≡ one_token 0 (codes "one")
        ∷ one_token 2 (codes "two") ∷ [] }
    ensures longest { length (default_tokens (codes "one " ++ (replicate 40 97 ++ codes " Two"))) ≡ 3 }
{}

/// An analyzer goes by its name, and another name gives no token.
pub fn analyzers_go_by_name()
    ensures raw { raw_and_default (codes "raw") (codes "Old Sea") ≡ one_token 0 (codes "Old Sea") ∷ [] }
    ensures default { raw_and_default (codes "default") (codes "Old Sea") ≡ one_token 0 (codes "old")
        ∷ one_token 1 (codes "sea") ∷ [] }
    ensures other { raw_and_default (codes "other") (codes "Old Sea") ≡ [] }
    ensures known { map is_raw_or_default (codes "raw" ∷ codes "default" ∷ codes "other" ∷ []) ≡ true ∷ true ∷ false
        ∷ [] }
{}

/// A text with tokens of its own is found by them alone.
pub fn own_tokens_are_taken()
    ensures own { holds books raw_and_default (title_term "Sea")
        ((0, pre_tok_str (codes "wind") (one_token 0 (codes "Sea") ∷ [])) ∷ []) ≡ true }
    ensures text { holds books raw_and_default (title_term "wind")
        ((0, pre_tok_str (codes "wind") (one_token 0 (codes "Sea") ∷ [])) ∷ []) ≡ false }
    ensures stored { stored_values books ((0, pre_tok_str (codes "wind") (one_token 0 (codes "Sea") ∷ [])) ∷ [])
        ≡ (codes "title", str (codes "wind") ∷ []) ∷ [] }
{}

/// A text field's length is its number of tokens, another's its number of values.
pub fn lengths_count_tokens_or_values()
    ensures title { len_of books raw_and_default 0 sea_wind ≡ 3 }
    ensures year { len_of books raw_and_default 1 sea_wind ≡ 1 }
    ensures two_titles { len_of books raw_and_default 0 (titled ("a b" ∷ "" ∷ "c" ∷ [])) ≡ 3 }
    ensures two_years { len_of books raw_and_default 1 ((1, u64 1) ∷ (1, u64 1) ∷ []) ≡ 2 }
    ensures none { len_of books raw_and_default 1 (titled ("a" ∷ [])) ≡ 0 }
{}

/// A length's id is the greatest whose length isn't above it.
pub fn lengths_have_ids()
    ensures below { fieldnorm_to_id 41 ≡ 40 }
    ensures exact { fieldnorm_to_id 42 ≡ 41 }
    ensures greatest { fieldnorm_to_id 4294967295 ≡ 255 }
    ensures small { map fieldnorm_to_id (0 ∷ 1 ∷ 23 ∷ 24 ∷ 39 ∷ 40 ∷ []) ≡ 0 ∷ 1 ∷ 23 ∷ 24 ∷ 39 ∷ 40 ∷ [] }
    ensures lengths { map id_to_fieldnorm (0 ∷ 23 ∷ 24 ∷ 40 ∷ 41 ∷ 48 ∷ 255 ∷ []) ≡ 0 ∷ 23 ∷ 24 ∷ 40 ∷ 42 ∷ 56
        ∷ 2013265944 ∷ [] }
{}

/// Which fields keep their length.
pub fn some_fields_keep_lengths()
    ensures indexed { map keeps_length books ≡ true ∷ true ∷ [] }
    ensures unset { keeps_length (record (text_entry "title") { fieldnorms = false }) ≡ false }
    ensures not_indexed { keeps_length (record (text_entry "title") { indexed = false }) ≡ false }
    ensures facets { keeps_length (record (indexed_entry "data" facet_kind) { fieldnorms = true }) ≡ false }
    ensures json { keeps_length (record (indexed_entry "data" json_kind) { fieldnorms = true }) ≡ false }
{}

/// A text term has a count and positions, and every other reads 1 and none.
pub fn texts_have_counts_and_positions()
    ensures count { count_of books raw_and_default (title_term "sea") sea_wind ≡ 2 }
    ensures positions { positions_of books raw_and_default (title_term "sea") sea_wind ≡ 0 ∷ 1 ∷ [] }
    ensures number_count { count_of books raw_and_default (year_term 1) ((1, u64 1) ∷ (1, u64 1) ∷ []) ≡ 1 }
    ensures number_positions { positions_of books raw_and_default (year_term 1) ((1, u64 1) ∷ (1, u64 1) ∷ []) ≡ [] }
    ensures number_in_json { count_of json_data raw_and_default
        (json_term 0 (codes "a") (codes "i" ++ signed_bytes (pos 5)))
        ((0, one_member "a" (array (value (u64 5) (value (u64 5) no_values)))) ∷ []) ≡ 1 }
    ensures number_in_json_positions { positions_of json_data raw_and_default
        (json_term 0 (codes "a") (codes "i" ++ signed_bytes (pos 5)))
        ((0, one_member "a" (array (value (u64 5) (value (u64 5) no_values)))) ∷ []) ≡ [] }
    ensures text_in_json { count_of json_data raw_and_default (json_term 0 (codes "a") (codes "sx"))
        ((0, one_member "a" (str (codes "x x"))) ∷ []) ≡ 2 }
    ensures documents_only { count_of (record (text_entry "title") { record_option = basic }
        ∷ []) raw_and_default (title_term "sea") sea_wind ≡ 1 }
    ensures counts_only { count_of (record (text_entry "title") { record_option = with_freqs }
        ∷ []) raw_and_default (title_term "sea") sea_wind ≡ 2 }
    ensures no_positions { positions_of (record (text_entry "title") { record_option = with_freqs }
        ∷ []) raw_and_default (title_term "sea") sea_wind ≡ [] }
{}

/// Positions ascend in whatever order tokens come, and repeats are kept.
pub fn positions_ascend()
    ensures sorted { ascending (3 ∷ 1 ∷ 2 ∷ 1 ∷ []) ≡ 1 ∷ 1 ∷ 2 ∷ 3 ∷ [] }
    ensures found { positions_of books raw_and_default (title_term "a") ((
      0,
      pre_tok_str [] (one_token 0 (codes "a")
          ∷ record { position = 0; position_length = 9; text = codes "b" } ∷ one_token 0 (codes "a")
          ∷ one_token 1 (codes "a") ∷ []),
    ) ∷ (0, str (codes "a")) ∷ []) ≡ 0 ∷ 0 ∷ 1 ∷ 10 ∷ [] }
{}
