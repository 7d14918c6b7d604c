//! Laws and worked examples of schemas as JSON.
#![tactic(auto, unfolding(definitions::proofs::OnLiterals::definitions_on_literals))]

ghost use Rattle.std.specs.Prelude.{[], ◌∷◌, ◌≡◌, Err, List, None, Ok, Some, codes, false, length, map, option_map, true, ℕ};
ghost use Rattle.definitions.specs.Schema.{Entry, IsSchema, Kind, Schema, bool_kind, bytes_kind, date_kind, facet_kind, field_named, i64_kind, ip_addr_kind, is_valid_field_name, json_kind, max_fields, text_kind, u64_kind, with_freqs, with_freqs_and_positions};
ghost use Rattle.definitions.specs.SchemaGrammar.{entry_named, schema_data, schema_in, with_entry};
ghost use Rattle.definitions.specs.declared.fault.Fault.TheVariants as faults;
ghost use Rattle.serde_json.specs.Read.{read};
ghost use Rattle.serde_json.specs.Written.{compact_text};

/// States that a schema that is written is read back.
pub fn written_schemas_are_read_back()
    ensures { (s : Schema) → IsSchema s → schema_in (schema_data s) ≡ Ok s }
{}

/// States, by examples, that every option of each field is written.
pub fn schemas_are_written()
    ensures nothing { compact_text (schema_data []) ≡ codes "[]" }
    ensures text { compact_text (schema_data (record (entry_named (codes "t") text_kind) {
      stored = true;
      indexed = true;
      fieldnorms = true;
      coerce = true;
      record_option = with_freqs_and_positions;
      tokenizer = codes "default";
    } ∷ []))
        ≡ codes "[{\"name\":\"t\",\"options\":{\"coerce\":true,\"fast\":false,\"indexing\":{\"fieldnorms\":true,\"gap\":1,\"record\":\"position\",\"tokenizer\":\"default\"},\"stored\":true},\"type\":\"text\"}]" }
    ensures gap { compact_text (schema_data (record (entry_named (codes "t") text_kind) { indexed = true; gap = 1000 } ∷ []))
        ≡ codes "[{\"name\":\"t\",\"options\":{\"coerce\":false,\"fast\":false,\"indexing\":{\"fieldnorms\":false,\"gap\":1000,\"record\":\"basic\",\"tokenizer\":\"\"},\"stored\":false},\"type\":\"text\"}]" }
    ensures unindexed { compact_text (schema_data (entry_named (codes "a") text_kind ∷ []))
        ≡ codes "[{\"name\":\"a\",\"options\":{\"coerce\":false,\"fast\":false,\"indexing\":null,\"stored\":false},\"type\":\"text\"}]" }
    ensures number { compact_text (schema_data (record (entry_named (codes "n") u64_kind)
        { indexed = true; fast = true } ∷ []))
        ≡ codes "[{\"name\":\"n\",\"options\":{\"coerce\":false,\"fast\":true,\"fieldnorms\":false,\"indexed\":true,\"stored\":false},\"type\":\"u64\"}]" }
    ensures date { compact_text (schema_data (record (entry_named (codes "d") date_kind) { fieldnorms = true } ∷ []))
        ≡ codes "[{\"name\":\"d\",\"options\":{\"fast\":false,\"fieldnorms\":true,\"indexed\":false,\"stored\":false},\"type\":\"date\"}]" }
    ensures facet { compact_text (schema_data (record (entry_named (codes "f") facet_kind)
        { stored = true; indexed = true } ∷ []))
        ≡ codes "[{\"name\":\"f\",\"options\":{\"stored\":true},\"type\":\"facet\"}]" }
    ensures json { compact_text (schema_data (record (entry_named (codes "j") json_kind)
        { indexed = true; record_option = with_freqs; tokenizer = codes "raw"; expand_dots = true } ∷ []))
        ≡ codes "[{\"name\":\"j\",\"options\":{\"expand_dots\":true,\"fast\":false,\"indexing\":{\"fieldnorms\":false,\"record\":\"freq\",\"tokenizer\":\"raw\"},\"stored\":false},\"type\":\"json_object\"}]" }
{}

/// States, by examples, that options come in any order, and have defaults if they are absent.
pub fn options_have_defaults()
    ensures nothing { option_map schema_in (read (codes "[]")) ≡ Some (Ok []) }
    ensures text { option_map schema_in (read (codes "[{\"options\":{},\"type\":\"text\",\"name\":\"t\"}]"))
        ≡ Some (Ok (entry_named (codes "t") text_kind ∷ [])) }
    ensures null_indexing { option_map schema_in (read (codes
        "[{\"name\":\"t\",\"type\":\"text\",\"options\":{\"indexing\":null,\"stored\":true}}]"))
        ≡ Some (Ok (record (entry_named (codes "t") text_kind) { stored = true } ∷ [])) }
    ensures default_indexing { option_map schema_in (read (codes
        "[{\"name\":\"t\",\"type\":\"text\",\"options\":{\"indexing\":{}}}]"))
        ≡ Some (Ok (record (entry_named (codes "t") text_kind)
        { indexed = true; fieldnorms = true; tokenizer = codes "default" } ∷ [])) }
    ensures set_indexing { option_map schema_in (read (codes
        "[{\"name\":\"t\",\"type\":\"text\",\"options\":{\"indexing\":{\"tokenizer\":\"raw\",\"record\":\"freq\",\"fieldnorms\":false}}}]")) ≡ Some (Ok (record (entry_named (codes "t") text_kind) { indexed = true; record_option = with_freqs; tokenizer = codes "raw" } ∷ [])) }
    ensures number { option_map schema_in (read (codes "[{\"name\":\"n\",\"type\":\"u64\",\"options\":{}}]"))
        ≡ Some (Ok (entry_named (codes "n") u64_kind ∷ [])) }
    ensures lengths_follow { option_map schema_in (read (codes
        "[{\"name\":\"n\",\"type\":\"u64\",\"options\":{\"indexed\":true}}]"))
        ≡ Some (Ok (record (entry_named (codes "n") u64_kind) { indexed = true; fieldnorms = true } ∷ [])) }
    ensures others { option_map schema_in
        (read (codes "[{\"name\":\"i\",\"type\":\"i64\",\"options\":{}},{\"name\":\"o\",\"type\":\"bool\",\"options\":{}},{\"name\":\"d\",\"type\":\"date\",\"options\":{}},{\"name\":\"b\",\"type\":\"bytes\",\"options\":{}},{\"name\":\"j\",\"type\":\"json_object\",\"options\":{}},{\"name\":\"p\",\"type\":\"ip_addr\",\"options\":{}}]")) ≡ Some (Ok (map (λ (f : List ℕ × Kind). entry_named f.0 f.1) ((codes "i", i64_kind) ∷ (codes "o", bool_kind) ∷ (codes "d", date_kind) ∷ (codes "b", bytes_kind) ∷ (codes "j", json_kind) ∷ (codes "p", ip_addr_kind) ∷ []))) }
    ensures flags { option_map schema_in
        (read (codes "[{\"name\":\"o\",\"type\":\"bool\",\"options\":{\"coerce\":true,\"fast\":true,\"stored\":true}}]")) ≡ Some (Ok (record (entry_named (codes "o") bool_kind) { stored = true; fast = true; coerce = true } ∷ [])) }
    ensures lengths_are_set { option_map schema_in (read (codes
        "[{\"name\":\"n\",\"type\":\"u64\",\"options\":{\"fieldnorms\":false,\"indexed\":true}}]"))
        ≡ Some (Ok (record (entry_named (codes "n") u64_kind) { indexed = true } ∷ [])) }
{}

/// States, by examples, that options that a type lacks are ignored, whatever their values.
pub fn unknown_options_are_ignored()
    ensures text { option_map schema_in
        (read (codes "[{\"name\":\"t\",\"type\":\"text\",\"options\":{\"gap\":[1],\"indexed\":\"yes\",\"expand_dots\":5}}]")) ≡ Some (Ok (entry_named (codes "t") text_kind ∷ [])) }
    ensures number { option_map schema_in
        (read (codes "[{\"name\":\"n\",\"type\":\"u64\",\"options\":{\"indexing\":7,\"expand_dots\":{}}}]"))
        ≡ Some (Ok (entry_named (codes "n") u64_kind ∷ [])) }
    ensures date { option_map schema_in
        (read (codes "[{\"name\":\"d\",\"type\":\"date\",\"options\":{\"coerce\":5}}]"))
        ≡ Some (Ok (entry_named (codes "d") date_kind ∷ [])) }
    ensures facet { option_map schema_in
        (read (codes "[{\"name\":\"f\",\"type\":\"facet\",\"options\":{\"fast\":5,\"indexed\":false,\"fieldnorms\":0}}]")) ≡ Some (Ok (record (entry_named (codes "f") facet_kind) { indexed = true } ∷ [])) }
    ensures indexing { option_map schema_in
        (read (codes "[{\"name\":\"t\",\"type\":\"text\",\"options\":{\"indexing\":{\"slop\":\"x\"}}}]"))
        ≡ Some (Ok (record (entry_named (codes "t") text_kind)
        { indexed = true; fieldnorms = true; tokenizer = codes "default" } ∷ [])) }
    ensures json_gap { option_map schema_in
        (read (codes "[{\"name\":\"j\",\"type\":\"json_object\",\"options\":{\"indexing\":{\"gap\":\"x\"}}}]"))
        ≡ Some (Ok (record (entry_named (codes "j") json_kind)
        { indexed = true; fieldnorms = true; tokenizer = codes "default" } ∷ [])) }
    ensures json_gap_number { option_map schema_in
        (read (codes "[{\"name\":\"j\",\"type\":\"json_object\",\"options\":{\"indexing\":{\"gap\":7}}}]"))
        ≡ Some (Ok (record (entry_named (codes "j") json_kind)
        { indexed = true; fieldnorms = true; tokenizer = codes "default" } ∷ [])) }
{}

/// States, by examples, that the indexing of a text field has a gap from 0 to 1000.
pub fn gaps_are_read()
    ensures none { option_map schema_in
        (read (codes "[{\"name\":\"t\",\"type\":\"text\",\"options\":{\"indexing\":{\"gap\":0}}}]"))
        ≡ Some (Ok (record (entry_named (codes "t") text_kind)
        { indexed = true; fieldnorms = true; tokenizer = codes "default"; gap = 0 } ∷ [])) }
    ensures greatest { option_map schema_in
        (read (codes "[{\"name\":\"t\",\"type\":\"text\",\"options\":{\"indexing\":{\"gap\":1000}}}]"))
        ≡ Some (Ok (record (entry_named (codes "t") text_kind)
        { indexed = true; fieldnorms = true; tokenizer = codes "default"; gap = 1000 } ∷ [])) }
    ensures last_key { option_map schema_in
        (read (codes "[{\"name\":\"t\",\"type\":\"text\",\"options\":{\"indexing\":{\"gap\":7,\"gap\":8}}}]"))
        ≡ Some (Ok (record (entry_named (codes "t") text_kind)
        { indexed = true; fieldnorms = true; tokenizer = codes "default"; gap = 8 } ∷ [])) }
    ensures greater { option_map schema_in
        (read (codes "[{\"name\":\"t\",\"type\":\"text\",\"options\":{\"indexing\":{\"gap\":1001}}}]"))
        ≡ Some (Err faults.BadSchema) }
    ensures negative { option_map schema_in
        (read (codes "[{\"name\":\"t\",\"type\":\"text\",\"options\":{\"indexing\":{\"gap\":-1}}}]"))
        ≡ Some (Err faults.BadSchema) }
    ensures text { option_map schema_in
        (read (codes "[{\"name\":\"t\",\"type\":\"text\",\"options\":{\"indexing\":{\"gap\":\"1\"}}}]"))
        ≡ Some (Err faults.BadSchema) }
    ensures null { option_map schema_in
        (read (codes "[{\"name\":\"t\",\"type\":\"text\",\"options\":{\"indexing\":{\"gap\":null}}}]"))
        ≡ Some (Err faults.BadSchema) }
    ensures fraction { option_map schema_in
        (read (codes "[{\"name\":\"t\",\"type\":\"text\",\"options\":{\"indexing\":{\"gap\":1.0}}}]"))
        ≡ Some (Err faults.BadSchema) }
    ensures flag { option_map schema_in
        (read (codes "[{\"name\":\"t\",\"type\":\"text\",\"options\":{\"indexing\":{\"gap\":true}}}]"))
        ≡ Some (Err faults.BadSchema) }
{}

/// States, by examples, that JSON of other forms isn't a schema.
pub fn other_forms_are_refused()
    ensures no_list { option_map schema_in (read (codes "{}")) ≡ Some (Err faults.BadSchema) }
    ensures no_object { option_map schema_in (read (codes "[\"t\"]")) ≡ Some (Err faults.BadSchema) }
    ensures no_options { option_map schema_in (read (codes "[{\"name\":\"t\",\"type\":\"text\"}]"))
        ≡ Some (Err faults.BadSchema) }
    ensures another_key { option_map schema_in
        (read (codes "[{\"name\":\"t\",\"type\":\"text\",\"options\":{},\"x\":1}]")) ≡ Some (Err faults.BadSchema) }
    ensures another_type { option_map schema_in (read (codes "[{\"name\":\"t\",\"type\":\"f64\",\"options\":{}}]"))
        ≡ Some (Err faults.BadSchema) }
    ensures fast_number { option_map schema_in
        (read (codes "[{\"name\":\"t\",\"type\":\"text\",\"options\":{\"fast\":5}}]")) ≡ Some (Err faults.BadSchema) }
    ensures coerce_null { option_map schema_in
        (read (codes "[{\"name\":\"n\",\"type\":\"i64\",\"options\":{\"coerce\":null}}]"))
        ≡ Some (Err faults.BadSchema) }
    ensures options_list { option_map schema_in (read (codes "[{\"name\":\"t\",\"type\":\"text\",\"options\":[]}]"))
        ≡ Some (Err faults.BadSchema) }
    ensures stored_text { option_map schema_in
        (read (codes "[{\"name\":\"t\",\"type\":\"text\",\"options\":{\"stored\":\"true\"}}]"))
        ≡ Some (Err faults.BadSchema) }
    ensures stored_null { option_map schema_in
        (read (codes "[{\"name\":\"t\",\"type\":\"text\",\"options\":{\"stored\":null}}]"))
        ≡ Some (Err faults.BadSchema) }
    ensures indexing_flag { option_map schema_in (read (codes
        "[{\"name\":\"t\",\"type\":\"text\",\"options\":{\"indexing\":true}}]")) ≡ Some (Err faults.BadSchema) }
    ensures another_record { option_map schema_in (read (codes
        "[{\"name\":\"t\",\"type\":\"text\",\"options\":{\"indexing\":{\"record\":\"positions\"}}}]"))
        ≡ Some (Err faults.BadSchema) }
    ensures no_name { option_map schema_in (read (codes "[{\"name\":7,\"type\":\"text\",\"options\":{}}]"))
        ≡ Some (Err faults.BadSchema) }
{}

/// States, by examples, that no schema has an empty name, one that begins with `-`, or one name twice.
pub fn other_names_are_refused()
    ensures empty { option_map schema_in (read (codes "[{\"name\":\"\",\"type\":\"text\",\"options\":{}}]"))
        ≡ Some (Err faults.BadSchema) }
    ensures dash { option_map schema_in (read (codes "[{\"name\":\"-t\",\"type\":\"text\",\"options\":{}}]"))
        ≡ Some (Err faults.BadSchema) }
    ensures twice { option_map schema_in
        (read (codes "[{\"name\":\"t\",\"type\":\"text\",\"options\":{}},{\"name\":\"t\",\"type\":\"u64\",\"options\":{}}]")) ≡ Some (Err faults.BadSchema) }
{}

/// States that a field is refused first for its form, then for its name, then for the number of fields.
pub fn fields_are_refused_in_order()
    ensures form { (s : Schema) → with_entry s None ≡ Err faults.BadSchema }
    ensures twice { (s : Schema) (e : Entry) (i : ℕ) → field_named s e.name ≡ Some i
        → with_entry s (Some e) ≡ Err faults.BadSchema }
    ensures bad { (s : Schema) (e : Entry) → is_valid_field_name e.name ≡ false
        → with_entry s (Some e) ≡ Err faults.BadSchema }
    ensures full { (s : Schema) (e : Entry) → field_named s e.name ≡ None → is_valid_field_name e.name ≡ true
        → length s ≡ max_fields → with_entry s (Some e) ≡ Err faults.TooManyFields }
{}
