//! Which calls are refused, and what stands after them.
#![tactic(auto, unfolding(crate::specs::Refusing::node_fault))]

ghost use Rattle.std.specs.Prelude.{[], ◌∷◌, ◌≡◌, codes, false, pos, true};
ghost use Rattle.definitions.specs.Calls.{add_document, add_value, after, call_fault, closed, commit_pending, count_all, delete_term, merge_range, own_fault, search_best, writer_closed};
ghost use Rattle.definitions.specs.Examples.{arrays, bare, begun, book_index, books, data_of, json_data, of_three_books, one_member, text_entry, title_term, wind, word};
ghost use Rattle.definitions.specs.Indexable.{is_indexable};
ghost use Rattle.definitions.specs.Schema.{date_kind, facet_kind, json_kind, text_kind, u64_kind};
ghost use Rattle.definitions.specs.State.{added, nothing_yet};
ghost use Rattle.definitions.specs.Terms.{term_bytes};
ghost use Rattle.definitions.specs.Values.{array, date, ip_addr, no_values, null, pre_tok_str, str, u64, value};
ghost use Rattle.definitions.specs.declared.fault.Fault.TheVariants as faults;
ghost use Rattle.serde_json.specs.Data as json;

/// A deletion is of a term whose field is there and is indexed.
pub fn deletions_are_of_indexed_fields()
    ensures unknown { own_fault (book_index 2) nothing_yet (delete_term (term_bytes 2 text_kind (codes "sea")))
        ≡ Some faults.UnknownField }
    ensures not_indexed { own_fault (record (book_index 2) {
      schema = record (text_entry "title") { indexed = false }
          ∷ [];
    }) nothing_yet (delete_term (title_term "sea")) ≡ Some faults.NotIndexed }
    ensures indexed { own_fault (book_index 2) nothing_yet (delete_term (title_term "sea")) ≡ None }
{}

/// A merge names one group or more, and none past the last.
pub fn merges_are_of_groups()
    ensures past_the_last { own_fault (book_index 1) (of_three_books 1) (merge_range 1 4) ≡ Some faults.BadRange }
    ensures none { own_fault (book_index 1) (of_three_books 1) (merge_range 2 2) ≡ Some faults.BadRange }
    ensures all_of_them { own_fault (book_index 1) (of_three_books 1) (merge_range 0 3) ≡ None }
{}

/// A document has values of fields of the schema that these fields take.
pub fn documents_fit_the_schema()
    ensures fit { own_fault (book_index 2) nothing_yet (add_document wind) ≡ None }
    ensures unknown { own_fault (book_index 2) nothing_yet (add_document ((2, u64 5) ∷ [])) ≡ Some faults.UnknownField }
    ensures other_kind { own_fault (book_index 2) nothing_yet (add_document ((1, str (codes "1952")) ∷ []))
        ≡ Some faults.NotIndexable }
    ensures unknown_first { own_fault (book_index 2) nothing_yet (add_document ((1, str (codes "1952")) ∷ (2, u64 5)
        ∷ [])) ≡ Some faults.UnknownField }
    ensures tokens { own_fault (book_index 2) nothing_yet (add_document ((0, pre_tok_str (codes "sea") []) ∷ []))
        ≡ None }
{}

/// An index whose writer is closed refuses calls that write, and still answers searches.
pub fn a_closed_writer_still_searches()
    ensures add { call_fault (book_index 2) (record { state = nothing_yet; status = writer_closed })
        (add_document wind) ≡ Some faults.WriterClosed }
    ensures delete { call_fault (book_index 2) (record { state = nothing_yet; status = writer_closed })
        (delete_term (title_term "sea")) ≡ Some faults.WriterClosed }
    ensures commit { call_fault (book_index 2) (record { state = nothing_yet; status = writer_closed }) commit_pending
        ≡ Some faults.WriterClosed }
    ensures merge { call_fault (book_index 2) (record { state = nothing_yet; status = writer_closed })
        (merge_range 0 1) ≡ Some faults.WriterClosed }
    ensures search { call_fault (book_index 2) (record { state = nothing_yet; status = writer_closed })
        (search_best (word "sea") 10) ≡ None }
    ensures count { call_fault (book_index 2) (record { state = nothing_yet; status = writer_closed })
        (count_all (word "sea")) ≡ None }
    ensures bad_query { call_fault (book_index 2) (record { state = nothing_yet; status = writer_closed })
        (count_all (begun ("sea" ∷ []))) ≡ Some faults.NoWholeTerm }
{}

/// A closed index refuses every call, before the call's own tests.
pub fn a_closed_index_refuses_every_call()
    ensures search { call_fault (book_index 2) (record { state = nothing_yet; status = closed })
        (search_best (word "sea") 10) ≡ Some faults.Closed }
    ensures add { call_fault (book_index 2) (record { state = nothing_yet; status = closed }) (add_document ((2, u64 5)
        ∷ [])) ≡ Some faults.Closed }
    ensures commit { call_fault (book_index 2) (record { state = nothing_yet; status = closed }) commit_pending
        ≡ Some faults.Closed }
{}

/// What is read is tested as what is given, and by the same schema.
pub fn values_are_tested_as_they_are_read()
    ensures indexed { own_fault (record (book_index 2) { schema = data_of date_kind }) nothing_yet
        (add_value (json.object (json.member (codes "data") (json.number (json.unsigned 5)) json.no_members)))
        ≡ Some faults.NotIndexable }
    ensures stored { own_fault (record (book_index 2) {
      schema = bare "data" date_kind
          ∷ [];
    }) nothing_yet (add_value (json.object (json.member (codes "data") (json.number (json.unsigned 5))
        json.no_members))) ≡ None }
    ensures waits { (after (book_index 2) nothing_yet (add_value
        (json.object (json.member (codes "year") (json.number (json.unsigned 1952)) json.no_members)))).pending
        ≡ added ((1, u64 1952) ∷ []) ∷ [] }
    ensures array { own_fault (book_index 2) nothing_yet (add_value (json.array json.no_items))
        ≡ Some faults.NotAnObject }
{}

/// A value of an indexed field is of its kind, and no value nests more than 128 deep.
pub fn indexed_fields_take_their_kind()
    ensures number { is_indexable books ((0, u64 5) ∷ []) ≡ false }
    ensures null_value { is_indexable books ((0, null) ∷ []) ≡ false }
    ensures not_indexed { is_indexable (bare "data" u64_kind ∷ []) ((0, str []) ∷ []) ≡ true }
    ensures facet { is_indexable (bare "data" facet_kind ∷ []) ((0, str []) ∷ []) ≡ false }
    ensures deepest { is_indexable json_data ((0, arrays 127) ∷ []) ≡ true }
    ensures deeper { is_indexable json_data ((0, arrays 128) ∷ []) ≡ false }
    ensures deeper_stored { is_indexable (bare "data" json_kind ∷ []) ((0, arrays 128) ∷ []) ≡ false }
{}

/// In an indexed JSON field stands no facet, bytes, address or text with tokens of its own.
pub fn json_fields_take_json()
    ensures plain { is_indexable json_data ((0, one_member "a" (array (value null (value (u64 5) no_values)))) ∷ [])
        ≡ true }
    ensures date { is_indexable json_data ((0, one_member "a" (date (pos 0))) ∷ []) ≡ true }
    ensures address { is_indexable json_data ((0, one_member "a" (array (value null (value (ip_addr 5) no_values))))
        ∷ []) ≡ false }
    ensures tokens { is_indexable json_data ((0, one_member "a" (pre_tok_str [] [])) ∷ []) ≡ false }
    ensures text { is_indexable json_data ((0, str (codes "a")) ∷ []) ≡ false }
    ensures stored { is_indexable (bare "data" json_kind ∷ []) ((0, one_member "a" (ip_addr 5)) ∷ []) ≡ true }
{}
