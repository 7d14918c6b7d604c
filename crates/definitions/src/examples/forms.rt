//! Worked forms: what is read as a term, and what as a query.
#![tactic(auto, unfolding(crate::proofs::OnLiterals::definitions_on_literals))]

ghost use Rattle.std.specs.Prelude.{[], ◌++◌, ◌∷◌, ◌≡◌, codes, pos, replicate};
ghost use Rattle.definitions.specs.LineExamples.{from_text, kinds_schema};
ghost use Rattle.definitions.specs.Query.{all, boolean, boost, clause, const_score, disjunction_max, empty, must, must_not, no_clauses, no_queries, phrase, phrase_prefix, query, should, term};
ghost use Rattle.definitions.specs.QueryGrammar.{query_in};
ghost use Rattle.definitions.specs.Schema.{basic, with_freqs, with_freqs_and_positions};
ghost use Rattle.definitions.specs.TermGrammar.{term_in};

/// A term is a field's number, its kind's letter and the value's bytes.
pub fn terms_of_each_kind_are_read()
    ensures text { from_text (term_in kinds_schema) "{\"field\":\"s\",\"value\":\"The Sea\"}"
        ≡ Some (0 ∷ 0 ∷ 0 ∷ 0 ∷ codes "sThe Sea") }
    ensures natural { from_text (term_in kinds_schema) "{\"field\":\"u\",\"value\":1952}"
        ≡ Some (0 ∷ 0 ∷ 0 ∷ 1 ∷ codes "u" ++ (0 ∷ 0 ∷ 0 ∷ 0 ∷ 0 ∷ 0 ∷ 7 ∷ 160 ∷ [])) }
    ensures whole { from_text (term_in kinds_schema) "{\"field\":\"i\",\"value\":-1}"
        ≡ Some (0 ∷ 0 ∷ 0 ∷ 2 ∷ codes "i" ++ (127 ∷ replicate 7 255)) }
    ensures flag { from_text (term_in kinds_schema) "{\"field\":\"o\",\"value\":true}"
        ≡ Some (0 ∷ 0 ∷ 0 ∷ 3 ∷ codes "o" ++ (replicate 7 0 ++ (1 ∷ []))) }
    ensures date { from_text (term_in kinds_schema) "{\"field\":\"d\",\"value\":\"1970-01-01T00:00:01.75Z\"}"
        ≡ Some (0 ∷ 0 ∷ 0 ∷ 4 ∷ codes "d" ++ (128 ∷ 0 ∷ 0 ∷ 0 ∷ 59 ∷ 154 ∷ 202 ∷ 0 ∷ [])) }
    ensures facet { from_text (term_in kinds_schema) "{\"field\":\"h\",\"value\":\"/a/b\"}"
        ≡ Some (0 ∷ 0 ∷ 0 ∷ 5 ∷ codes "ha" ++ (0 ∷ codes "b")) }
    ensures bytes { from_text (term_in kinds_schema) "{\"field\":\"b\",\"value\":\"AP8=\"}"
        ≡ Some (0 ∷ 0 ∷ 0 ∷ 6 ∷ codes "b" ++ (0 ∷ 255 ∷ [])) }
    ensures address { from_text (term_in kinds_schema) "{\"field\":\"p\",\"value\":\"1.2.3.4\"}"
        ≡ Some (0 ∷ 0 ∷ 0 ∷ 7 ∷ codes "p" ++ (replicate 10 0 ++ (255 ∷ 255 ∷ 1 ∷ 2 ∷ 3 ∷ 4 ∷ []))) }
{}

/// A term of a JSON field has the path, a byte 0, and the leaf's letter and bytes.
pub fn terms_of_json_fields_are_read()
    ensures text { from_text (term_in kinds_schema) "{\"field\":\"j\",\"path\":[\"a\",\"b.c\"],\"value\":\"x\"}"
        ≡ Some (0 ∷ 0 ∷ 0 ∷ 8 ∷ codes "ja" ++ (1 ∷ codes "b.c" ++ (0 ∷ codes "sx"))) }
    ensures dots { from_text (term_in kinds_schema) "{\"field\":\"dots\",\"path\":[\"a\",\"b.c\"],\"value\":\"x\"}"
        ≡ Some (0 ∷ 0 ∷ 0 ∷ 9 ∷ codes "ja" ++ (1 ∷ codes "b" ++ (1 ∷ codes "c" ++ (0 ∷ codes "sx")))) }
    ensures empty_key { from_text (term_in kinds_schema) "{\"field\":\"j\",\"path\":[\"\"],\"value\":\"x\"}"
        ≡ Some (0 ∷ 0 ∷ 0 ∷ 8 ∷ codes "j" ++ (0 ∷ codes "sx")) }
    ensures number { from_text (term_in kinds_schema) "{\"field\":\"j\",\"path\":[\"a\"],\"value\":5}"
        ≡ Some (0 ∷ 0 ∷ 0 ∷ 8 ∷ codes "ja" ++ (0 ∷ codes "i" ++ (128 ∷ replicate 6 0 ++ (5 ∷ [])))) }
    ensures great_number { from_text (term_in kinds_schema)
        "{\"field\":\"j\",\"path\":[\"a\"],\"value\":9223372036854775808}"
        ≡ Some (0 ∷ 0 ∷ 0 ∷ 8 ∷ codes "ja" ++ (0 ∷ codes "u" ++ (128 ∷ replicate 7 0))) }
    ensures flag { from_text (term_in kinds_schema) "{\"field\":\"j\",\"path\":[\"a\"],\"value\":false}"
        ≡ Some (0 ∷ 0 ∷ 0 ∷ 8 ∷ codes "ja" ++ (0 ∷ codes "o" ++ replicate 8 0)) }
    ensures date { from_text (term_in kinds_schema)
        "{\"field\":\"j\",\"path\":[\"a\"],\"value\":{\"date\":\"1970-01-01T00:00:01.75Z\"}}"
        ≡ Some (0 ∷ 0 ∷ 0 ∷ 8 ∷ codes "ja" ++ (0 ∷ codes "d" ++ (128 ∷ 0 ∷ 0 ∷ 0 ∷ 59 ∷ 154 ∷ 202 ∷ 0 ∷ []))) }
{}

/// What is no term of a field.
pub fn other_terms_are_refused()
    ensures unknown_field { from_text (term_in kinds_schema) "{\"field\":\"x\",\"value\":5}" ≡ None }
    ensures no_value { from_text (term_in kinds_schema) "{\"field\":\"u\"}" ≡ None }
    ensures another_key { from_text (term_in kinds_schema) "{\"field\":\"u\",\"value\":5,\"q\":\"term\"}" ≡ None }
    ensures a_path { from_text (term_in kinds_schema) "{\"field\":\"u\",\"path\":[\"a\"],\"value\":5}" ≡ None }
    ensures no_coercing { from_text (term_in kinds_schema) "{\"field\":\"s\",\"value\":5}" ≡ None }
    ensures text { from_text (term_in kinds_schema) "{\"field\":\"u\",\"value\":\"5\"}" ≡ None }
    ensures negative { from_text (term_in kinds_schema) "{\"field\":\"u\",\"value\":-5}" ≡ None }
    ensures float { from_text (term_in kinds_schema) "{\"field\":\"u\",\"value\":5.0}" ≡ None }
    ensures array { from_text (term_in kinds_schema) "{\"field\":\"u\",\"value\":[5]}" ≡ None }
    ensures null_value { from_text (term_in kinds_schema) "{\"field\":\"s\",\"value\":null}" ≡ None }
    ensures number_of_a_date { from_text (term_in kinds_schema) "{\"field\":\"d\",\"value\":5}" ≡ None }
    ensures no_date { from_text (term_in kinds_schema) "{\"field\":\"d\",\"value\":\"1970\"}" ≡ None }
    ensures no_facet { from_text (term_in kinds_schema) "{\"field\":\"h\",\"value\":\"a\"}" ≡ None }
    ensures no_base64 { from_text (term_in kinds_schema) "{\"field\":\"b\",\"value\":\"-\"}" ≡ None }
    ensures no_address { from_text (term_in kinds_schema) "{\"field\":\"p\",\"value\":\"1.2.3\"}" ≡ None }
    ensures no_object { from_text (term_in kinds_schema) "\"s\"" ≡ None }
{}

/// What is no term of a JSON field.
pub fn other_json_terms_are_refused()
    ensures no_path { from_text (term_in kinds_schema) "{\"field\":\"j\",\"value\":\"x\"}" ≡ None }
    ensures empty_path { from_text (term_in kinds_schema) "{\"field\":\"j\",\"path\":[],\"value\":\"x\"}" ≡ None }
    ensures text_path { from_text (term_in kinds_schema) "{\"field\":\"j\",\"path\":\"a\",\"value\":\"x\"}" ≡ None }
    ensures zero_byte { from_text (term_in kinds_schema) "{\"field\":\"j\",\"path\":[\"a\\u0000\"],\"value\":\"x\"}"
        ≡ None }
    ensures float { from_text (term_in kinds_schema) "{\"field\":\"j\",\"path\":[\"a\"],\"value\":1.5}" ≡ None }
    ensures null_leaf { from_text (term_in kinds_schema) "{\"field\":\"j\",\"path\":[\"a\"],\"value\":null}" ≡ None }
    ensures array { from_text (term_in kinds_schema) "{\"field\":\"j\",\"path\":[\"a\"],\"value\":[\"x\"]}" ≡ None }
    ensures object { from_text (term_in kinds_schema) "{\"field\":\"j\",\"path\":[\"a\"],\"value\":{\"b\":\"x\"}}"
        ≡ None }
    ensures number_of_a_date { from_text (term_in kinds_schema)
        "{\"field\":\"j\",\"path\":[\"a\"],\"value\":{\"date\":5}}" ≡ None }
    ensures beside_a_date { from_text (term_in kinds_schema)
        "{\"field\":\"j\",\"path\":[\"a\"],\"value\":{\"date\":\"1970-01-01T00:00:01Z\",\"x\":1}}" ≡ None }
{}

/// Queries without a query inside.
pub fn simple_queries_are_read()
    ensures all { from_text (query_in kinds_schema) "{\"q\":\"all\"}" ≡ Some all }
    ensures none { from_text (query_in kinds_schema) "{\"q\":\"none\"}" ≡ Some empty }
    ensures counts { from_text (query_in kinds_schema) "{\"q\":\"term\",\"field\":\"s\",\"value\":\"x\"}"
        ≡ Some (term (0 ∷ 0 ∷ 0 ∷ 0 ∷ codes "sx") with_freqs) }
    ensures documents { from_text (query_in kinds_schema)
        "{\"q\":\"term\",\"field\":\"s\",\"value\":\"x\",\"record\":\"basic\"}"
        ≡ Some (term (0 ∷ 0 ∷ 0 ∷ 0 ∷ codes "sx") basic) }
    ensures positions { from_text (query_in kinds_schema)
        "{\"q\":\"term\",\"record\":\"position\",\"field\":\"j\",\"path\":[\"a\"],\"value\":\"x\"}"
        ≡ Some (term (0 ∷ 0 ∷ 0 ∷ 8 ∷ codes "ja" ++ (0 ∷ codes "sx")) with_freqs_and_positions) }
    ensures no_form { from_text (query_in kinds_schema) "{}" ≡ None }
    ensures other_form { from_text (query_in kinds_schema) "{\"q\":\"terms\"}" ≡ None }
    ensures another_key { from_text (query_in kinds_schema) "{\"q\":\"all\",\"boost\":1}" ≡ None }
    ensures no_text { from_text (query_in kinds_schema) "{\"q\":1}" ≡ None }
    ensures array { from_text (query_in kinds_schema) "[{\"q\":\"all\"}]" ≡ None }
{}

/// The terms of a phrase stand at their places in the list unless offsets are given, and in the order of these.
pub fn phrases_are_read()
    ensures in_a_row { from_text (query_in kinds_schema)
        "{\"q\":\"phrase\",\"terms\":[{\"field\":\"s\",\"value\":\"a\"},{\"field\":\"s\",\"value\":\"b\"}]}"
        ≡ Some (phrase ((0, 0 ∷ 0 ∷ 0 ∷ 0 ∷ codes "sa") ∷ (1, 0 ∷ 0 ∷ 0 ∷ 0 ∷ codes "sb") ∷ []) 0) }
    ensures offsets { from_text (query_in kinds_schema)
        "{\"q\":\"phrase\",\"terms\":[{\"field\":\"s\",\"value\":\"a\"},{\"field\":\"s\",\"value\":\"b\"}],\"offsets\":[4294967295,0],\"slop\":4294967295}" ≡ Some (phrase ((0, 0 ∷ 0 ∷ 0 ∷ 0 ∷ codes "sb") ∷ (4294967295, 0 ∷ 0 ∷ 0 ∷ 0 ∷ codes "sa") ∷ []) 4294967295) }
    ensures one_term { from_text (query_in kinds_schema)
        "{\"q\":\"phrase\",\"terms\":[{\"field\":\"s\",\"value\":\"a\"}]}" ≡ None }
    ensures two_fields { from_text (query_in kinds_schema)
        "{\"q\":\"phrase\",\"terms\":[{\"field\":\"s\",\"value\":\"a\"},{\"field\":\"u\",\"value\":5}]}" ≡ None }
    ensures numbers { from_text (query_in kinds_schema)
        "{\"q\":\"phrase\",\"terms\":[{\"field\":\"o\",\"value\":true},{\"field\":\"o\",\"value\":false}]}"
        ≡ Some (phrase ((0, 0 ∷ 0 ∷ 0 ∷ 3 ∷ codes "o" ++ (replicate 7 0 ++ (1 ∷ [])))
        ∷ (1, 0 ∷ 0 ∷ 0 ∷ 3 ∷ codes "o" ++ replicate 8 0) ∷ []) 0) }
    ensures few_offsets { from_text (query_in kinds_schema)
        "{\"q\":\"phrase\",\"terms\":[{\"field\":\"s\",\"value\":\"a\"},{\"field\":\"s\",\"value\":\"b\"}],\"offsets\":[0]}" ≡ None }
    ensures great_offset { from_text (query_in kinds_schema)
        "{\"q\":\"phrase\",\"terms\":[{\"field\":\"s\",\"value\":\"a\"},{\"field\":\"s\",\"value\":\"b\"}],\"offsets\":[0,4294967296]}" ≡ None }
    ensures great_slop { from_text (query_in kinds_schema)
        "{\"q\":\"phrase\",\"terms\":[{\"field\":\"s\",\"value\":\"a\"},{\"field\":\"s\",\"value\":\"b\"}],\"slop\":4294967296}" ≡ None }
    ensures bad_term { from_text (query_in kinds_schema)
        "{\"q\":\"phrase\",\"terms\":[{\"field\":\"s\",\"value\":\"a\"},{\"field\":\"s\",\"value\":\"b\",\"record\":\"freq\"}]}" ≡ None }
    ensures prefix { from_text (query_in kinds_schema)
        "{\"q\":\"phrase_prefix\",\"terms\":[{\"field\":\"s\",\"value\":\"a\"},{\"field\":\"s\",\"value\":\"b\"}],\"offsets\":[0,2]}" ≡ Some (phrase_prefix ((0, 0 ∷ 0 ∷ 0 ∷ 0 ∷ codes "sa") ∷ (2, 0 ∷ 0 ∷ 0 ∷ 0 ∷ codes "sb") ∷ []) 4294967295) }
    ensures prefix_slop { from_text (query_in kinds_schema)
        "{\"q\":\"phrase_prefix\",\"terms\":[{\"field\":\"s\",\"value\":\"a\"},{\"field\":\"s\",\"value\":\"b\"}],\"slop\":0}" ≡ None }
{}

/// The clauses of a bool stand in one order, whatever the order of its keys.
pub fn bools_are_read()
    ensures order { from_text (query_in kinds_schema)
        "{\"must_not\":[{\"q\":\"none\"}],\"should\":[{\"q\":\"all\"},{\"q\":\"none\"}],\"q\":\"bool\",\"must\":[{\"q\":\"all\"}]}" ≡ Some (boolean (clause must all (clause should all (clause should empty (clause must_not empty no_clauses)))) 0) }
    ensures shoulds_alone { from_text (query_in kinds_schema) "{\"q\":\"bool\",\"should\":[{\"q\":\"all\"}]}"
        ≡ Some (boolean (clause should all no_clauses) 1) }
    ensures no_clause { from_text (query_in kinds_schema) "{\"q\":\"bool\"}" ≡ Some (boolean no_clauses 0) }
    ensures empty_lists { from_text (query_in kinds_schema)
        "{\"q\":\"bool\",\"must\":[],\"should\":[{\"q\":\"all\"}],\"must_not\":[]}"
        ≡ Some (boolean (clause should all no_clauses) 1) }
    ensures least { from_text (query_in kinds_schema)
        "{\"q\":\"bool\",\"should\":[{\"q\":\"all\"}],\"min\":9223372036854775807}"
        ≡ Some (boolean (clause should all no_clauses) 9223372036854775807) }
    ensures great_least { from_text (query_in kinds_schema) "{\"q\":\"bool\",\"min\":9223372036854775808}" ≡ None }
    ensures null_least { from_text (query_in kinds_schema) "{\"q\":\"bool\",\"min\":null}" ≡ None }
    ensures no_list { from_text (query_in kinds_schema) "{\"q\":\"bool\",\"must\":{\"q\":\"all\"}}" ≡ None }
    ensures bad_clause { from_text (query_in kinds_schema) "{\"q\":\"bool\",\"must\":[{\"q\":\"all\"},{\"q\":\"x\"}]}"
        ≡ None }
    ensures last_key { from_text (query_in kinds_schema)
        "{\"q\":\"bool\",\"must\":[{\"q\":\"none\"}],\"must\":[{\"q\":\"all\"}]}"
        ≡ Some (boolean (clause must all no_clauses) 0) }
{}

/// Queries round others.
pub fn queries_round_others_are_read()
    ensures best { from_text (query_in kinds_schema)
        "{\"q\":\"dismax\",\"queries\":[{\"q\":\"all\"},{\"q\":\"none\"}]}"
        ≡ Some (disjunction_max (query all (query empty no_queries)) (pos 0)) }
    ensures tie { from_text (query_in kinds_schema) "{\"q\":\"dismax\",\"queries\":[],\"tie\":1001}"
        ≡ Some (disjunction_max no_queries (pos 1001)) }
    ensures no_queries_key { from_text (query_in kinds_schema) "{\"q\":\"dismax\"}" ≡ None }
    ensures boosted { from_text (query_in kinds_schema)
        "{\"q\":\"boost\",\"boost\":3,\"query\":{\"q\":\"const\",\"score\":7,\"query\":{\"q\":\"all\"}}}"
        ≡ Some (boost (pos 3) (const_score (pos 7) all)) }
    ensures no_boost { from_text (query_in kinds_schema) "{\"q\":\"boost\",\"query\":{\"q\":\"all\"}}" ≡ None }
    ensures negative_boost { from_text (query_in kinds_schema)
        "{\"q\":\"boost\",\"boost\":-1,\"query\":{\"q\":\"all\"}}" ≡ None }
    ensures no_query { from_text (query_in kinds_schema) "{\"q\":\"const\",\"score\":7}" ≡ None }
    ensures bad_query { from_text (query_in kinds_schema) "{\"q\":\"const\",\"score\":7,\"query\":[{\"q\":\"all\"}]}"
        ≡ None }
    ensures deep { from_text (query_in kinds_schema)
        "{\"q\":\"bool\",\"should\":[{\"q\":\"dismax\",\"queries\":[{\"q\":\"bool\",\"must_not\":[{\"q\":\"boost\",\"boost\":2,\"query\":{\"q\":\"all\"}}]}]}]}" ≡ Some (boolean (clause should (disjunction_max (query (boolean (clause must_not (boost (pos 2) all) no_clauses) 0) no_queries) (pos 0)) no_clauses) 1) }
{}
