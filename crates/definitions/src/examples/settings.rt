//! Worked settings: what is read, what is refused, and what is written.
#![tactic(auto, unfolding(crate::proofs::OnLiterals::definitions_on_literals))]

ghost use Rattle.std.specs.Prelude.{[], ◌++◌, ◌∷◌, ◌≡◌, Some, codes, false, flat_map, option_and_then, replicate, true};
ghost use Rattle.definitions.specs.Json.{object_of};
ghost use Rattle.definitions.specs.LineExamples.{book_schema, from_text, kinds_schema};
ghost use Rattle.definitions.specs.Making.{making_fault};
ghost use Rattle.definitions.specs.Replies.{number_data};
ghost use Rattle.definitions.specs.Settings.{default_settings};
ghost use Rattle.definitions.specs.SettingsGrammar.{array_of, settings_data, settings_in, weighs_named, weight_data};
ghost use Rattle.definitions.specs.TermData.{reads_back, term_data};
ghost use Rattle.definitions.specs.declared.fault.Fault.TheVariants as faults;
ghost use Rattle.serde_json.specs.Read.{read};
ghost use Rattle.serde_json.specs.Written.{compact_text};

/// A key that is absent has its default, and one that stands its value, up to the greatest.
pub fn settings_are_read()
    ensures none { from_text (settings_in book_schema) "{}" ≡ Some default_settings }
    ensures docs_per_segment { from_text (settings_in book_schema) "{\"docs_per_segment\":2147483647}"
        ≡ Some (record default_settings { docs_per_segment = 2147483647 }) }
    ensures block_size { from_text (settings_in book_schema) "{\"block_size\":4294967295}"
        ≡ Some (record default_settings { block_size = 4294967295 }) }
    ensures cache_blocks { from_text (settings_in book_schema) "{\"cache_blocks\":18446744073709551615}"
        ≡ Some (record default_settings { cache_blocks = 18446744073709551615 }) }
    ensures default_weight { from_text (settings_in book_schema) "{\"default_weight\":1000000000000000}"
        ≡ Some (record default_settings { default_weight = 1000000000000000 }) }
    ensures weights { from_text (settings_in book_schema)
        "{\"weights\":[{\"term\":{\"field\":\"title\",\"value\":\"sea\"},\"weight\":7},{\"weight\":0,\"term\":{\"field\":\"year\",\"value\":1952}}]}" ≡ Some (record default_settings { weights = (0 ∷ 0 ∷ 0 ∷ 0 ∷ codes "ssea", 7) ∷ (0 ∷ 0 ∷ 0 ∷ 1 ∷ codes "u" ++ (0 ∷ 0 ∷ 0 ∷ 0 ∷ 0 ∷ 0 ∷ 7 ∷ 160 ∷ []), 0) ∷ [] }) }
    ensures no_weights { from_text (settings_in book_schema) "{\"weights\":[]}" ≡ Some default_settings }
    ensures norms { settings_in book_schema (object_of ((
      codes "norms",
      array_of number_data (0
          ∷ replicate 255 4294967295),
    ) ∷ [])) ≡ Some (record default_settings { norms = 0 ∷ replicate 255 4294967295 }) }
    ensures all_numbers { from_text (settings_in book_schema)
        "{\"default_weight\":0,\"cache_blocks\":0,\"block_size\":0,\"docs_per_segment\":1}"
        ≡ Some (record default_settings {
          docs_per_segment = 1;
          block_size = 0;
          cache_blocks = 0;
          default_weight = 0;
        }) }
    ensures last_key { from_text (settings_in book_schema) "{\"block_size\":1,\"block_size\":2}"
        ≡ Some (record default_settings { block_size = 2 }) }
{}

/// Numbers are whole, and in range.
pub fn numbers_out_of_range_are_refused()
    ensures no_docs { from_text (settings_in book_schema) "{\"docs_per_segment\":0}" ≡ None }
    ensures many_docs { from_text (settings_in book_schema) "{\"docs_per_segment\":2147483648}" ≡ None }
    ensures great_blocks { from_text (settings_in book_schema) "{\"block_size\":4294967296}" ≡ None }
    ensures great_default { from_text (settings_in book_schema) "{\"default_weight\":1000000000000001}" ≡ None }
    ensures negative_default { from_text (settings_in book_schema) "{\"default_weight\":-1}" ≡ None }
    ensures great_cache { from_text (settings_in book_schema) "{\"cache_blocks\":18446744073709551616}" ≡ None }
    ensures negative { from_text (settings_in book_schema) "{\"cache_blocks\":-1}" ≡ None }
    ensures float { from_text (settings_in book_schema) "{\"cache_blocks\":100.0}" ≡ None }
    ensures text { from_text (settings_in book_schema) "{\"cache_blocks\":\"100\"}" ≡ None }
    ensures null_number { from_text (settings_in book_schema) "{\"cache_blocks\":null}" ≡ None }
{}

/// Weights are of terms, none too great, and none of one term twice.
pub fn other_weights_are_refused()
    ensures great_weight { from_text (settings_in book_schema)
        "{\"weights\":[{\"term\":{\"field\":\"title\",\"value\":\"sea\"},\"weight\":1000000000000001}]}" ≡ None }
    ensures negative_weight { from_text (settings_in book_schema)
        "{\"weights\":[{\"term\":{\"field\":\"title\",\"value\":\"sea\"},\"weight\":-1}]}" ≡ None }
    ensures float_weight { from_text (settings_in book_schema)
        "{\"weights\":[{\"term\":{\"field\":\"title\",\"value\":\"sea\"},\"weight\":7.0}]}" ≡ None }
    ensures no_weight { from_text (settings_in book_schema)
        "{\"weights\":[{\"term\":{\"field\":\"title\",\"value\":\"sea\"}}]}" ≡ None }
    ensures no_term { from_text (settings_in book_schema) "{\"weights\":[{\"weight\":7}]}" ≡ None }
    ensures another_key { from_text (settings_in book_schema)
        "{\"weights\":[{\"term\":{\"field\":\"title\",\"value\":\"sea\"},\"weight\":7,\"field\":\"title\"}]}" ≡ None }
    ensures twice { from_text (settings_in book_schema)
        "{\"weights\":[{\"term\":{\"field\":\"title\",\"value\":\"sea\"},\"weight\":7},{\"term\":{\"field\":\"year\",\"value\":1952},\"weight\":1},{\"term\":{\"field\":\"title\",\"value\":\"sea\"},\"weight\":7}]}" ≡ None }
    ensures unknown_field { from_text (settings_in book_schema)
        "{\"weights\":[{\"term\":{\"field\":\"x\",\"value\":\"sea\"},\"weight\":7}]}" ≡ None }
    ensures another_kind { from_text (settings_in book_schema)
        "{\"weights\":[{\"term\":{\"field\":\"year\",\"value\":\"1952\"},\"weight\":7}]}" ≡ None }
    ensures float_term { from_text (settings_in book_schema)
        "{\"weights\":[{\"term\":{\"field\":\"year\",\"value\":1952.0},\"weight\":7}]}" ≡ None }
    ensures record_of_a_term { from_text (settings_in book_schema)
        "{\"weights\":[{\"term\":{\"field\":\"title\",\"value\":\"sea\",\"record\":\"freq\"},\"weight\":7}]}" ≡ None }
    ensures pair { from_text (settings_in book_schema) "{\"weights\":[[{\"field\":\"title\",\"value\":\"sea\"},7]]}"
        ≡ None }
    ensures no_list { from_text (settings_in book_schema)
        "{\"weights\":{\"term\":{\"field\":\"title\",\"value\":\"sea\"},\"weight\":7}}" ≡ None }
    ensures null_weights { from_text (settings_in book_schema) "{\"weights\":null}" ≡ None }
{}

/// Norms are 256 numbers of 32 bits that never fall.
pub fn other_norms_are_refused()
    ensures few { settings_in book_schema (object_of ((codes "norms", array_of number_data (replicate 255 1)) ∷ []))
        ≡ None }
    ensures many { settings_in book_schema (object_of ((codes "norms", array_of number_data (replicate 257 1)) ∷ []))
        ≡ None }
    ensures falling { settings_in book_schema (object_of ((
      codes "norms",
      array_of number_data (replicate 255 2 ++ (1
          ∷ [])),
    ) ∷ [])) ≡ None }
    ensures great { settings_in book_schema (object_of ((
      codes "norms",
      array_of number_data
          (replicate 255 1 ++ (4294967296 ∷ [])),
    ) ∷ [])) ≡ None }
    ensures negative { option_and_then (settings_in book_schema)
        (read (codes "{\"norms\":[-1" ++ (flat_map codes (replicate 255 ",1") ++ codes "]}"))) ≡ None }
    ensures float { option_and_then (settings_in book_schema)
        (read (codes "{\"norms\":[1.0" ++ (flat_map codes (replicate 255 ",1") ++ codes "]}"))) ≡ None }
    ensures whole { option_and_then (settings_in book_schema)
        (read (codes "{\"norms\":[0" ++ (flat_map codes (replicate 255 ",1") ++ codes "]}")))
        ≡ Some (record default_settings { norms = 0 ∷ replicate 255 1 }) }
    ensures no_norms { from_text (settings_in book_schema) "{\"norms\":[]}" ≡ None }
    ensures one_norm { from_text (settings_in book_schema) "{\"norms\":1}" ≡ None }
    ensures null_norms { from_text (settings_in book_schema) "{\"norms\":null}" ≡ None }
{}

/// Nothing else is settings.
pub fn other_settings_are_refused()
    ensures another_key { from_text (settings_in book_schema) "{\"docs_per_segment\":65536,\"name\":\"books\"}" ≡ None }
    ensures capital { from_text (settings_in book_schema) "{\"Norms\":[]}" ≡ None }
    ensures array { from_text (settings_in book_schema) "[]" ≡ None }
    ensures null_value { from_text (settings_in book_schema) "null" ≡ None }
    ensures number { from_text (settings_in book_schema) "1" ≡ None }
    ensures text { from_text (settings_in book_schema) "\"default\"" ≡ None }
{}

/// Every key is written, with keys in the order of their bytes.
pub fn settings_are_written()
    ensures defaults { compact_text (settings_data book_schema default_settings)
        ≡ codes "{\"block_size\":16384,\"cache_blocks\":100,\"default_weight\":60,\"docs_per_segment\":65536,\"norms\":[1" ++ (flat_map codes (replicate 255 ",1") ++ codes "],\"weights\":[]}") }
    ensures weight { compact_text (weight_data book_schema (0 ∷ 0 ∷ 0 ∷ 0 ∷ codes "ssea", 7))
        ≡ codes "{\"term\":{\"field\":\"title\",\"value\":\"sea\"},\"weight\":7}" }
    ensures read_again { settings_in book_schema (settings_data book_schema (record default_settings {
      weights = (
        0 ∷ 0
            ∷ 0 ∷ 0 ∷ codes "ssea",
        7,
      ) ∷ (0 ∷ 0 ∷ 0 ∷ 1 ∷ codes "u" ++ (0 ∷ 0 ∷ 0 ∷ 0 ∷ 0 ∷ 0 ∷ 7 ∷ 160 ∷ []), 0) ∷ [];
    }))
        ≡ Some (record default_settings {
          weights = (0 ∷ 0 ∷ 0 ∷ 0 ∷ codes "ssea", 7)
              ∷ (0 ∷ 0 ∷ 0 ∷ 1 ∷ codes "u" ++ (0 ∷ 0 ∷ 0 ∷ 0 ∷ 0 ∷ 0 ∷ 7 ∷ 160 ∷ []), 0) ∷ [];
        }) }
    ensures named { weighs_named book_schema (record default_settings {
      weights = (0 ∷ 0 ∷ 0 ∷ 0 ∷ codes "ssea", 7)
          ∷ (0 ∷ 0 ∷ 0 ∷ 1 ∷ codes "u" ++ (0 ∷ 0 ∷ 0 ∷ 0 ∷ 0 ∷ 0 ∷ 7 ∷ 160 ∷ []), 0) ∷ [];
    }) ≡ true }
    ensures not_named { weighs_named book_schema (record default_settings {
      weights = (0 ∷ 0 ∷ 0 ∷ 2 ∷ codes "ssea", 7)
          ∷ [];
    }) ≡ false }
{}

/// A term is written as the object that it is read from.
pub fn terms_are_written()
    ensures text { compact_text (term_data kinds_schema (0 ∷ 0 ∷ 0 ∷ 0 ∷ codes "sThe Sea"))
        ≡ codes "{\"field\":\"s\",\"value\":\"The Sea\"}" }
    ensures natural { compact_text (term_data kinds_schema (0 ∷ 0 ∷ 0 ∷ 1 ∷ codes "u" ++ replicate 8 255))
        ≡ codes "{\"field\":\"u\",\"value\":18446744073709551615}" }
    ensures whole { compact_text (term_data kinds_schema (0 ∷ 0 ∷ 0 ∷ 2 ∷ codes "i" ++ (127 ∷ replicate 7 255)))
        ≡ codes "{\"field\":\"i\",\"value\":-1}" }
    ensures flag { compact_text (term_data kinds_schema (0 ∷ 0 ∷ 0 ∷ 3 ∷ codes "o" ++ (replicate 7 0 ++ (1 ∷ []))))
        ≡ codes "{\"field\":\"o\",\"value\":true}" }
    ensures date { compact_text (term_data kinds_schema (0 ∷ 0 ∷ 0 ∷ 4
        ∷ codes "d" ++ (128 ∷ 0 ∷ 0 ∷ 0 ∷ 59 ∷ 154 ∷ 202 ∷ 0 ∷ [])))
        ≡ codes "{\"field\":\"d\",\"value\":\"1970-01-01T00:00:01Z\"}" }
    ensures facet { compact_text (term_data kinds_schema (0 ∷ 0 ∷ 0 ∷ 5 ∷ codes "ha" ++ (0 ∷ codes "b")))
        ≡ codes "{\"field\":\"h\",\"value\":\"/a/b\"}" }
    ensures root { compact_text (term_data kinds_schema (0 ∷ 0 ∷ 0 ∷ 5 ∷ codes "h"))
        ≡ codes "{\"field\":\"h\",\"value\":\"/\"}" }
    ensures bytes { compact_text (term_data kinds_schema (0 ∷ 0 ∷ 0 ∷ 6 ∷ codes "b" ++ (0 ∷ 255 ∷ [])))
        ≡ codes "{\"field\":\"b\",\"value\":\"AP8=\"}" }
    ensures address { compact_text (term_data kinds_schema (0 ∷ 0 ∷ 0 ∷ 7
        ∷ codes "p" ++ (replicate 10 0 ++ (255 ∷ 255 ∷ 1 ∷ 2 ∷ 3 ∷ 4 ∷ []))))
        ≡ codes "{\"field\":\"p\",\"value\":\"1.2.3.4\"}" }
    ensures path { compact_text (term_data kinds_schema (0 ∷ 0 ∷ 0 ∷ 8
        ∷ codes "ja" ++ (1 ∷ codes "b.c" ++ (0 ∷ codes "sx"))))
        ≡ codes "{\"field\":\"j\",\"path\":[\"a\",\"b.c\"],\"value\":\"x\"}" }
    ensures dots { compact_text (term_data kinds_schema (0 ∷ 0 ∷ 0 ∷ 9
        ∷ codes "ja" ++ (1 ∷ codes "b" ++ (1 ∷ codes "c" ++ (0 ∷ codes "sx")))))
        ≡ codes "{\"field\":\"dots\",\"path\":[\"a\",\"b\",\"c\"],\"value\":\"x\"}" }
    ensures empty_key { compact_text (term_data kinds_schema (0 ∷ 0 ∷ 0 ∷ 8 ∷ codes "j" ++ (0 ∷ codes "sx")))
        ≡ codes "{\"field\":\"j\",\"path\":[\"\"],\"value\":\"x\"}" }
    ensures number { compact_text (term_data kinds_schema (0 ∷ 0 ∷ 0 ∷ 8
        ∷ codes "ja" ++ (0 ∷ codes "i" ++ (128 ∷ replicate 6 0 ++ (5 ∷ [])))))
        ≡ codes "{\"field\":\"j\",\"path\":[\"a\"],\"value\":5}" }
    ensures great_number { compact_text (term_data kinds_schema (0 ∷ 0 ∷ 0 ∷ 8
        ∷ codes "ja" ++ (0 ∷ codes "u" ++ (128 ∷ replicate 7 0))))
        ≡ codes "{\"field\":\"j\",\"path\":[\"a\"],\"value\":9223372036854775808}" }
    ensures flag_inside { compact_text (term_data kinds_schema (0 ∷ 0 ∷ 0 ∷ 8
        ∷ codes "ja" ++ (0 ∷ codes "o" ++ replicate 8 0)))
        ≡ codes "{\"field\":\"j\",\"path\":[\"a\"],\"value\":false}" }
    ensures date_inside { compact_text (term_data kinds_schema (0 ∷ 0 ∷ 0 ∷ 8
        ∷ codes "ja" ++ (0 ∷ codes "d" ++ (128 ∷ 0 ∷ 0 ∷ 0 ∷ 59 ∷ 154 ∷ 202 ∷ 0 ∷ []))))
        ≡ codes "{\"field\":\"j\",\"path\":[\"a\"],\"value\":{\"date\":\"1970-01-01T00:00:01Z\"}}" }
{}

/// What is written of a term reads back.
pub fn written_terms_read_back()
    ensures text { reads_back kinds_schema (0 ∷ 0 ∷ 0 ∷ 0 ∷ codes "sThe Sea") ≡ true }
    ensures natural { reads_back kinds_schema (0 ∷ 0 ∷ 0 ∷ 1 ∷ codes "u" ++ replicate 8 255) ≡ true }
    ensures whole { reads_back kinds_schema (0 ∷ 0 ∷ 0 ∷ 2 ∷ codes "i" ++ (127 ∷ replicate 7 255)) ≡ true }
    ensures flag { reads_back kinds_schema (0 ∷ 0 ∷ 0 ∷ 3 ∷ codes "o" ++ (replicate 7 0 ++ (1 ∷ []))) ≡ true }
    ensures date { reads_back kinds_schema (0 ∷ 0 ∷ 0 ∷ 4 ∷ codes "d" ++ (128 ∷ 0 ∷ 0 ∷ 0 ∷ 59 ∷ 154 ∷ 202 ∷ 0 ∷ []))
        ≡ true }
    ensures facet { reads_back kinds_schema (0 ∷ 0 ∷ 0 ∷ 5 ∷ codes "ha" ++ (0 ∷ codes "b")) ≡ true }
    ensures root { reads_back kinds_schema (0 ∷ 0 ∷ 0 ∷ 5 ∷ codes "h") ≡ true }
    ensures bytes { reads_back kinds_schema (0 ∷ 0 ∷ 0 ∷ 6 ∷ codes "b" ++ (0 ∷ 255 ∷ [])) ≡ true }
    ensures address { reads_back kinds_schema (0 ∷ 0 ∷ 0 ∷ 7
        ∷ codes "p" ++ (replicate 10 0 ++ (255 ∷ 255 ∷ 1 ∷ 2 ∷ 3 ∷ 4 ∷ []))) ≡ true }
    ensures path { reads_back kinds_schema (0 ∷ 0 ∷ 0 ∷ 8 ∷ codes "ja" ++ (1 ∷ codes "b.c" ++ (0 ∷ codes "sx")))
        ≡ true }
    ensures dots { reads_back kinds_schema (0 ∷ 0 ∷ 0 ∷ 9
        ∷ codes "ja" ++ (1 ∷ codes "b" ++ (1 ∷ codes "c" ++ (0 ∷ codes "sx")))) ≡ true }
    ensures empty_key { reads_back kinds_schema (0 ∷ 0 ∷ 0 ∷ 8 ∷ codes "j" ++ (0 ∷ codes "sx")) ≡ true }
    ensures number { reads_back kinds_schema (0 ∷ 0 ∷ 0 ∷ 8
        ∷ codes "ja" ++ (0 ∷ codes "i" ++ (128 ∷ replicate 6 0 ++ (5 ∷ [])))) ≡ true }
    ensures great_number { reads_back kinds_schema (0 ∷ 0 ∷ 0 ∷ 8
        ∷ codes "ja" ++ (0 ∷ codes "u" ++ (128 ∷ replicate 7 0))) ≡ true }
    ensures flag_inside { reads_back kinds_schema (0 ∷ 0 ∷ 0 ∷ 8 ∷ codes "ja" ++ (0 ∷ codes "o" ++ replicate 8 0))
        ≡ true }
    ensures date_inside { reads_back kinds_schema (0 ∷ 0 ∷ 0 ∷ 8
        ∷ codes "ja" ++ (0 ∷ codes "d" ++ (128 ∷ 0 ∷ 0 ∷ 0 ∷ 59 ∷ 154 ∷ 202 ∷ 0 ∷ []))) ≡ true }
{}

/// What no term object gives isn't read back.
pub fn other_terms_do_not_read_back()
    ensures no_field { reads_back kinds_schema (0 ∷ 0 ∷ 0 ∷ 10 ∷ codes "sx") ≡ false }
    ensures another_code { reads_back kinds_schema (0 ∷ 0 ∷ 0 ∷ 0 ∷ codes "ux") ≡ false }
    ensures no_text { reads_back kinds_schema (0 ∷ 0 ∷ 0 ∷ 0 ∷ codes "s" ++ (255 ∷ [])) ≡ false }
    ensures seven_bytes { reads_back kinds_schema (0 ∷ 0 ∷ 0 ∷ 1 ∷ codes "u" ++ replicate 7 0) ≡ false }
    ensures parts_of_seconds { reads_back kinds_schema (0 ∷ 0 ∷ 0 ∷ 4 ∷ codes "d" ++ (128 ∷ replicate 6 0 ++ (1 ∷ [])))
        ≡ false }
    ensures no_flag { reads_back kinds_schema (0 ∷ 0 ∷ 0 ∷ 3 ∷ codes "o" ++ (replicate 7 0 ++ (2 ∷ []))) ≡ false }
    ensures no_leaf { reads_back kinds_schema (0 ∷ 0 ∷ 0 ∷ 8 ∷ codes "ja") ≡ false }
    ensures small_leaf { reads_back kinds_schema (0 ∷ 0 ∷ 0 ∷ 8 ∷ codes "ja" ++ (0 ∷ codes "u" ++ replicate 8 0))
        ≡ false }
{}

/// An index is made of fields of all kinds, where the analyzer knows the tokenizers.
pub fn makings_are_refused()
    ensures made { making_fault (λ _. true) book_schema default_settings ≡ None }
    ensures other_kinds { making_fault (λ _. true) kinds_schema default_settings ≡ None }
    ensures tokenizer { making_fault (λ _. false) book_schema default_settings ≡ Some faults.UnknownTokenizer }
{}
