//! Documents read from JSON.
#![tactic(auto, unfolding(crate::proofs::OnLiterals::definitions_on_literals))]

ghost use Rattle.std.specs.Prelude.{[], ◌++◌, ◌-◌, ◌^◌, ◌∷◌, ◌≡◌, None, codes, false, negsuc, pos, true};
ghost use Rattle.definitions.specs.Calls.{add_json, commit_pending, document_json};
ghost use Rattle.definitions.specs.Examples.{after_calls, best, book, books, coercing_data, data_of, json_arrays, json_data, nested_arrays, old_sea, one_member, titled};
ghost use Rattle.definitions.specs.GivenDepths.{is_too_deep, is_too_deep_value};
ghost use Rattle.definitions.specs.Query.{all};
ghost use Rattle.definitions.specs.QueryGrammar.{query_in};
ghost use Rattle.definitions.specs.Reading.{read_data, read_json};
ghost use Rattle.definitions.specs.Schema.{bool_kind, bytes_kind, date_kind, facet_kind, i64_kind, ip_addr_kind, text_kind, u64_kind};
ghost use Rattle.definitions.specs.State.{committed, nothing_yet};
ghost use Rattle.definitions.specs.Values.{array, bool, bytes, date, facet, i64, ip_addr, member, no_members, no_values, null, object, str, u64, value};
ghost use Rattle.definitions.specs.declared.fault.Fault.TheVariants as faults;
ghost use Rattle.serde_json.specs.Data as json;

/// Fields are found by their names, in whichever order they stand, and other keys are skipped.
pub fn documents_are_objects()
    ensures book { read_json books (codes "{\"year\":1952, \"title\":\"the old sea\", \"x\":1.5}") ≡ Ok old_sea }
    ensures array { read_json books (codes "[1]") ≡ Err faults.NotAnObject }
    ensures no_json { read_json books (codes "{\"year\":") ≡ Err faults.NotAnObject }
    ensures no_field { read_json books (codes "{\"x\":1.5}") ≡ Ok [] }
    ensures found { best 10 (committed (after_calls 2 (add_json (codes "{\"x\":1.5}") ∷ commit_pending
        ∷ []) nothing_yet)) all ≡ (1, []) ∷ [] }
{}

/// An array gives a value for each element, also none.
pub fn arrays_give_values()
    ensures two { read_json books (codes "{\"title\":[\"a b\",\"c\"]}") ≡ Ok (titled ("a b" ∷ "c" ∷ [])) }
    ensures none { read_json books (codes "{\"title\":[]}") ≡ Ok [] }
    ensures nested { read_json books (codes "{\"title\":[[\"a\"]]}") ≡ Err faults.TypeError }
    ensures fields { read_json books (codes "{\"year\":[1,2],\"title\":\"a\"}") ≡ Ok (book "a" 1 ++ ((1, u64 2) ∷ [])) }
{}

/// JSON that nests more than 256 deep isn't looked into: no document is read from it, and no query.
pub fn deep_values_are_not_read()
    ensures deepest { is_too_deep (json_arrays 256) ≡ false }
    ensures deeper { is_too_deep (json_arrays 257) ≡ true }
    ensures document { read_data books (json_arrays 257) ≡ Err faults.NotIndexable }
    ensures query { query_in books (json_arrays 257) ≡ None }
    ensures no_object { read_data books (json_arrays 256) ≡ Err faults.NotAnObject }
    ensures value { is_too_deep_value (nested_arrays 256) ≡ false }
    ensures deeper_value { is_too_deep_value (nested_arrays 257) ≡ true }
{}

/// The first value that fails, by the order of keys and elements, decides.
pub fn the_first_failing_value_decides()
    ensures elements { read_json books (codes "{\"year\":[1952,null,-1]}") ≡ Err faults.TypeError }
    ensures keys { read_json books (codes "{\"year\":-1,\"title\":1}") ≡ Err faults.TypeError }
    ensures floats_first { read_json json_data (codes "{\"data\":[1.5]}") ≡ Err faults.FloatValue }
    ensures element_before_float { read_json books (codes "{\"year\":[-1,1.5]}") ≡ Err faults.OverflowError }
{}

/// Whole numbers in range.
pub fn numbers_are_in_range()
    ensures negative { read_json books (codes "{\"year\":-1}") ≡ Err faults.OverflowError }
    ensures text { read_json books (codes "{\"year\":\"1952\"}") ≡ Err faults.TypeError }
    ensures float { read_json books (codes "{\"year\":1.5}") ≡ Err faults.FloatValue }
    ensures null_value { read_json books (codes "{\"year\":null}") ≡ Err faults.TypeError }
    ensures signed { read_json (data_of i64_kind) (codes "{\"data\":[-9223372036854775808,5]}")
        ≡ Ok ((0, i64 (negsuc (2 ^ 63 - 1))) ∷ (0, i64 (pos 5)) ∷ []) }
    ensures signed_too_great { read_json (data_of i64_kind) (codes "{\"data\":9223372036854775808}")
        ≡ Err faults.OverflowError }
    ensures greatest { read_json (data_of u64_kind) (codes "{\"data\":18446744073709551615}")
        ≡ Ok ((0, u64 (2 ^ 64 - 1)) ∷ []) }
    ensures too_great { read_json (data_of u64_kind) (codes "{\"data\":18446744073709551616}") ≡ Err faults.FloatValue }
{}

/// A field that coerces reads texts as numbers.
pub fn texts_are_coerced_to_numbers()
    ensures plus { read_json (coercing_data u64_kind) (codes "{\"data\":\"+5\"}") ≡ Ok ((0, u64 5) ∷ []) }
    ensures minus { read_json (coercing_data u64_kind) (codes "{\"data\":\"-5\"}") ≡ Err faults.ParseError }
    ensures signed { read_json (coercing_data i64_kind) (codes "{\"data\":[\"-5\",\"+5\",\"05\"]}")
        ≡ Ok ((0, i64 (negsuc 4)) ∷ (0, i64 (pos 5)) ∷ (0, i64 (pos 5)) ∷ []) }
    ensures no_digit { read_json (coercing_data u64_kind) (codes "{\"data\":\"+\"}") ≡ Err faults.ParseError }
    ensures too_great { read_json (coercing_data u64_kind) (codes "{\"data\":\"18446744073709551616\"}")
        ≡ Err faults.ParseError }
    ensures least { read_json (coercing_data i64_kind) (codes "{\"data\":\"-9223372036854775808\"}")
        ≡ Ok ((0, i64 (negsuc (2 ^ 63 - 1))) ∷ []) }
    ensures below_the_least { read_json (coercing_data i64_kind) (codes "{\"data\":\"-9223372036854775809\"}")
        ≡ Err faults.ParseError }
{}

/// A text field that coerces reads what is no text as its JSON.
pub fn texts_are_coerced_from_json()
    ensures null_value { read_json (coercing_data text_kind) (codes "{\"data\":null}")
        ≡ Ok ((0, str (codes "null")) ∷ []) }
    ensures others { read_json (coercing_data text_kind) (codes "{\"data\":[true,-7,\"a\"]}")
        ≡ Ok ((0, str (codes "true")) ∷ (0, str (codes "-7")) ∷ (0, str (codes "a")) ∷ []) }
    ensures float { read_json (coercing_data text_kind) (codes "{\"data\":1.5}") ≡ Err faults.FloatValue }
    ensures object { read_json (coercing_data text_kind) (codes "{\"data\":{}}") ≡ Err faults.TypeError }
    ensures not_coerced { read_json (data_of text_kind) (codes "{\"data\":null}") ≡ Err faults.TypeError }
{}

/// Truth values, and where the field coerces their texts.
pub fn flags_are_read()
    ensures both { read_json (data_of bool_kind) (codes "{\"data\":[true,false]}")
        ≡ Ok ((0, bool true) ∷ (0, bool false) ∷ []) }
    ensures text { read_json (data_of bool_kind) (codes "{\"data\":\"true\"}") ≡ Err faults.TypeError }
    ensures coerced { read_json (coercing_data bool_kind) (codes "{\"data\":\"false\"}") ≡ Ok ((0, bool false) ∷ []) }
    ensures other_text { read_json (coercing_data bool_kind) (codes "{\"data\":\"True\"}") ≡ Err faults.ParseError }
    ensures number { read_json (coercing_data bool_kind) (codes "{\"data\":1}") ≡ Err faults.TypeError }
{}

/// Bytes are base64.
pub fn bytes_are_base64()
    ensures text { read_json (data_of bytes_kind) (codes "{\"data\":\"dGhpcyBpcyBhIHRlc3Q=\"}")
        ≡ Ok ((0, bytes (codes "this is a test")) ∷ []) }
    ensures number { read_json (data_of bytes_kind) (codes "{\"data\":521}") ≡ Err faults.TypeError }
    ensures no_base64 { read_json (data_of bytes_kind) (codes "{\"data\":\"-\"}") ≡ Err faults.InvalidBase64 }
{}

/// Dates are timestamps within 64 bits of nanoseconds, and a whole number stays one.
pub fn dates_are_timestamps()
    ensures date { read_json (data_of date_kind) (codes "{\"data\":\"2024-05-01T12:00:00.75Z\"}")
        ≡ Ok ((0, date (pos 1714564800750000000)) ∷ []) }
    ensures number { read_json (data_of date_kind) (codes "{\"data\":5}") ≡ Ok ((0, i64 (pos 5)) ∷ []) }
    ensures not_indexable { document_json (data_of date_kind) (codes "{\"data\":5}") ≡ Err faults.NotIndexable }
    ensures no_date { read_json (data_of date_kind) (codes "{\"data\":\"sea\"}") ≡ Err faults.ParseError }
    ensures too_late { read_json (data_of date_kind) (codes "{\"data\":\"2263-01-01T00:00:00Z\"}")
        ≡ Err faults.OverflowError }
    ensures flag { read_json (data_of date_kind) (codes "{\"data\":true}") ≡ Err faults.TypeError }
{}

/// Facets and addresses are texts.
pub fn facets_and_addresses_are_texts()
    ensures facet { read_json (data_of facet_kind) (codes "{\"data\":\"/a/b\"}")
        ≡ Ok ((0, facet (codes "a" ∷ codes "b" ∷ [])) ∷ []) }
    ensures no_slash { read_json (data_of facet_kind) (codes "{\"data\":\"a\"}") ≡ Err faults.ParseError }
    ensures zero { read_json (data_of facet_kind) (codes "{\"data\":\"/a\\u0000\"}") ≡ Err faults.ParseError }
    ensures address { read_json (data_of ip_addr_kind) (codes "{\"data\":\"::1\"}") ≡ Ok ((0, ip_addr 1) ∷ []) }
    ensures no_address { read_json (data_of ip_addr_kind) (codes "{\"data\":\"1:2\"}") ≡ Err faults.ParseError }
    ensures number { read_json (data_of ip_addr_kind) (codes "{\"data\":1}") ≡ Err faults.TypeError }
{}

/// A JSON field takes objects, whose whole numbers are signed where they fit.
pub fn json_fields_take_objects()
    ensures object { read_json json_data (codes "{\"data\":{\"b\":[1,-2,null],\"a\":18446744073709551615}}")
        ≡ Ok ((
          0,
          object (member (codes "a") (u64 (2 ^ 64 - 1))
              (member (codes "b") (array (value (i64 (pos 1)) (value (i64 (negsuc 1)) (value null no_values)))) no_members)),
        )
        ∷ []) }
    ensures array_of_objects { read_json json_data (codes "{\"data\":[{},{\"a\":\"x\"}]}")
        ≡ Ok ((0, object no_members) ∷ (0, one_member "a" (str (codes "x"))) ∷ []) }
    ensures text { read_json json_data (codes "{\"data\":\"x\"}") ≡ Err faults.TypeError }
    ensures float_within { read_json json_data (codes "{\"data\":{\"a\":[{\"b\":0.5}]}}") ≡ Err faults.FloatValue }
{}
