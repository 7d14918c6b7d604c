//! Stored values, and what is written of them.
#![tactic(auto, unfolding(crate::proofs::OnLiterals::definitions_on_literals))]

ghost use Rattle.std.specs.Prelude.{[], ◌∷◌, ◌≡◌, codes, false, map, negsuc, pos, true};
ghost use Rattle.definitions.specs.Addresses.{mapped};
ghost use Rattle.definitions.specs.Examples.{bare, books, coercing, indexed_entry, json_data, last_member, old_sea, one_member, text_entry, titled};
ghost use Rattle.definitions.specs.Facets.{facet_of_path, facet_of_steps, is_prefix_of, path_of, root};
ghost use Rattle.definitions.specs.Printed.{printed, printed_named};
ghost use Rattle.definitions.specs.Schema.{IsSchema, bool_kind, cleaned_as, date_kind, facet_kind, field_named, is_valid_field_name, json_kind, text_kind, u64_kind};
ghost use Rattle.definitions.specs.Stored.{stored_values};
ghost use Rattle.definitions.specs.Values.{IsDocument, array, bool, bytes, date, facet, i64, ip_addr, member, no_values, null, object, pre_tok_str, str, u64, value};
ghost use Rattle.serde_json.specs.Written.{compact_text};

/// Each stored field that has a value stands with its values in order, by the order of the schema.
pub fn stored_fields_stand_by_name()
    ensures book { stored_values books ((1, u64 1952) ∷ (0, str (codes "a")) ∷ (1, u64 7) ∷ [])
        ≡ (codes "title", str (codes "a") ∷ []) ∷ (codes "year", u64 1952 ∷ u64 7 ∷ []) ∷ [] }
    ensures no_value { stored_values books ((1, u64 1952) ∷ []) ≡ (codes "year", u64 1952 ∷ []) ∷ [] }
    ensures not_stored { stored_values (record (text_entry "title") { stored = false } ∷ indexed_entry "year" u64_kind
        ∷ []) old_sea ≡ (codes "year", u64 1952 ∷ []) ∷ [] }
    ensures tokens_within { stored_values json_data ((
      0,
      one_member "a"
          (array (value (pre_tok_str (codes "x") []) no_values)),
    ) ∷ [])
        ≡ (codes "data", one_member "a" (array (value (str (codes "x")) no_values)) ∷ []) ∷ [] }
{}

/// A document as JSON.
pub fn documents_are_written_as_json()
    ensures book { compact_text (printed_named (stored_values books old_sea))
        ≡ codes "{\"title\":[\"the old sea\"],\"year\":[1952]}" }
    ensures two_values { compact_text (printed_named (stored_values books (titled ("a" ∷ "b" ∷ []))))
        ≡ codes "{\"title\":[\"a\",\"b\"]}" }
    ensures nothing { compact_text (printed_named []) ≡ codes "{}" }
    ensures names_in_order { compact_text (printed_named ((codes "b", null ∷ []) ∷ (codes "a", bool true ∷ []) ∷ []))
        ≡ codes "{\"a\":[true],\"b\":[null]}" }
{}

/// Each kind of value as JSON.
pub fn values_are_written_as_json()
    ensures numbers { compact_text (printed (array (value (i64 (negsuc 4))
        (value (i64 (pos 5)) (value (u64 6) no_values))))) ≡ codes "[-5,5,6]" }
    ensures bytes { compact_text (printed (bytes (codes "this is a test"))) ≡ codes "\"dGhpcyBpcyBhIHRlc3Q=\"" }
    ensures facet { compact_text (printed (facet (codes "a" ∷ codes "b/c" ∷ []))) ≡ codes "\"/a/b\\\\/c\"" }
    ensures address { compact_text (printed (ip_addr (mapped 16909060))) ≡ codes "\"1.2.3.4\"" }
    ensures date { compact_text (printed (date (pos 1714564800750000000))) ≡ codes "\"2024-05-01T12:00:00.75Z\"" }
    ensures tokens { compact_text (printed (pre_tok_str (codes "sea") [])) ≡ codes "\"sea\"" }
    ensures object { compact_text (printed (object (member (codes "b") null (last_member "a" (bool false)))))
        ≡ codes "{\"a\":false,\"b\":null}" }
    ensures equal_keys { compact_text (printed (object (member (codes "a") (u64 1) (last_member "a" (u64 2)))))
        ≡ codes "{\"a\":2}" }
{}

/// A facet's path has a slash before each step, and backslashes before slashes and backslashes in it.
pub fn facets_are_written_as_paths()
    ensures steps { path_of (codes "first" ∷ codes "second" ∷ codes "third/not_fourth" ∷ [])
        ≡ codes "/first/second/third\\/not_fourth" }
    ensures backslash { path_of (codes "a\\b" ∷ []) ≡ codes "/a\\\\b" }
    ensures root { path_of root ≡ codes "/" }
    ensures empty_step { path_of (codes "a" ∷ [] ∷ []) ≡ codes "/a/" }
{}

/// A path is read back to its facet.
pub fn paths_are_read_as_facets()
    ensures steps { facet_of_path (codes "/first/second/third\\/not_fourth")
        ≡ Some (codes "first" ∷ codes "second" ∷ codes "third/not_fourth" ∷ []) }
    ensures root { facet_of_path (codes "/") ≡ Some root }
    ensures empty_step { facet_of_path (codes "/a//b") ≡ Some (codes "a" ∷ [] ∷ codes "b" ∷ []) }
    ensures any_character { facet_of_path (codes "/\\a\\\\") ≡ Some (codes "a\\" ∷ []) }
    ensures no_slash { facet_of_path (codes "a") ≡ None }
    ensures nothing { facet_of_path [] ≡ None }
    ensures last_backslash { facet_of_path (codes "/a\\") ≡ None }
    ensures zero { facet_of_path (47 ∷ 97 ∷ 0 ∷ []) ≡ None }
{}

/// Facets of steps, and which are below which.
pub fn facets_stand_below_each_other()
    ensures no_step { facet_of_steps [] ≡ Some root }
    ensures steps { facet_of_steps (codes "a" ∷ []) ≡ Some (codes "a" ∷ []) }
    ensures zero { facet_of_steps ((97 ∷ 0 ∷ []) ∷ []) ≡ None }
    ensures below { is_prefix_of (codes "a" ∷ []) (codes "a" ∷ codes "b" ∷ []) ≡ true }
    ensures itself { is_prefix_of (codes "a" ∷ []) (codes "a" ∷ []) ≡ false }
    ensures whole_steps { is_prefix_of (codes "a" ∷ []) (codes "ab" ∷ codes "b" ∷ []) ≡ false }
    ensures root_of_all { is_prefix_of root (codes "a" ∷ []) ≡ true }
    ensures root_of_itself { is_prefix_of root root ≡ false }
{}

/// Fields have a number, and a name that isn't empty and begins with no `-`.
pub fn fields_have_names()
    ensures number { field_named books (codes "year") ≡ Some 1 }
    ensures unknown { field_named books (codes "Year") ≡ None }
    ensures names { map is_valid_field_name (codes "a" ∷ codes "a-b" ∷ codes "-a" ∷ [] ∷ []) ≡ true ∷ true ∷ false
        ∷ false ∷ [] }
{}

/// An entry has the options of its kind, and no others.
pub fn entries_have_options_of_their_kind()
    ensures title { cleaned_as text_kind (text_entry "title") ≡ text_entry "title" }
    ensures year { cleaned_as u64_kind (indexed_entry "year" u64_kind) ≡ indexed_entry "year" u64_kind }
    ensures facet { (cleaned_as facet_kind (bare "data" facet_kind)).indexed ≡ true }
    ensures without_indexing { cleaned_as text_kind (record (text_entry "title") { indexed = false })
        ≡ record (bare "title" text_kind) { stored = true } }
    ensures coerce { (cleaned_as date_kind (coercing (indexed_entry "data" date_kind))).coerce ≡ false }
    ensures coerced_bool { cleaned_as bool_kind (coercing (indexed_entry "data" bool_kind))
        ≡ coercing (indexed_entry "data" bool_kind) }
    ensures gap { (cleaned_as text_kind (record (text_entry "title") { gap = 5 })).gap ≡ 5 }
    ensures unindexed_gap { (cleaned_as text_kind (record (text_entry "title") { indexed = false; gap = 5 })).gap ≡ 1 }
    ensures json_gap { (cleaned_as json_kind (record (indexed_entry "data" json_kind) { gap = 5 })).gap ≡ 1 }
    ensures number_gap { (cleaned_as u64_kind (record (indexed_entry "year" u64_kind) { gap = 5 })).gap ≡ 1 }
{}

/// The fields and documents of these examples are fields and documents.
pub fn books_are_documents_of_a_schema()
    ensures schema { IsSchema books }
    ensures document { IsDocument old_sea }
{}
