//! Laws of requests, replies, queries and settings.

ghost use Rattle.std.specs.Prelude.{◌<◌, ◌^◌, ◌≡◌, ◌≤◌, Err, IsUtf8, List, None, Ok, Option, Some, codes, false, flat_map, length, slice_get, true, ℕ};
ghost use Rattle.std.specs.Int.{to_be_bytes, w64};
ghost use Rattle.std.specs.Str.{is_utf8};
ghost use Rattle.definitions.specs.Calls.{Call, Configuration, Index, call_fault, status_fault};
ghost use Rattle.definitions.specs.FaultNames.{reply_text};
ghost use Rattle.definitions.specs.GivenDepths.{is_too_deep};
ghost use Rattle.definitions.specs.Lines.{max_line_len};
ghost use Rattle.definitions.specs.QueryGrammar.{many_at, nested_query, one_at, query_in, query_of};
ghost use Rattle.definitions.specs.Replying.{AreReplies, answers_to, output_line, reply_to, state_after};
ghost use Rattle.definitions.specs.Replies.{error_reply, ok_reply, reply_of};
ghost use Rattle.definitions.specs.Requests.{Request};
ghost use Rattle.definitions.specs.Schema.{Entry, IsSchema, Schema, text_kind, u64_kind};
ghost use Rattle.definitions.specs.Scoring.{IsSimilarity};
ghost use Rattle.definitions.specs.Settings.{Settings, default_settings, is_settings, similarity_of};
ghost use Rattle.definitions.specs.SettingsGrammar.{settings_data, settings_in, weighs_named};
ghost use Rattle.definitions.specs.Step.{Session, after_line, answer_of, answering, call_in, index_step, only_asks, refusing, step};
ghost use Rattle.definitions.specs.TermData.{reads_back};
ghost use Rattle.definitions.specs.Terms.{term_bytes};
ghost use Rattle.definitions.specs.declared.fault.Fault.{Fault};
ghost use Rattle.definitions.specs.declared.fault.Fault.TheVariants.{BadRequest, LineTooLong};
ghost use Rattle.serde_json.specs.Data.{Data};
ghost use Rattle.serde_json.specs.Written.{has_float};

/// A query is its form by what stands at its keys. A value that nests too deep is none.
pub fn queries_are_read_by_their_keys()
    ensures keys { (schema : Schema) (d : Data) → nested_query schema d
        ≡ query_of schema (one_at schema d) (many_at schema d) d }
    ensures shallow { (schema : Schema) (d : Data) → is_too_deep d ≡ false → query_in schema d ≡ nested_query schema d }
    ensures deep { (schema : Schema) (d : Data) → is_too_deep d ≡ true → query_in schema d ≡ None }
{}

/// The reply of a refusal is the compact text of its JSON, and so is the reply of what succeeds.
pub fn replies_are_compact_json()
    ensures refused { (fault : Fault) → reply_text fault ≡ reply_of (error_reply fault) }
    ensures succeeds { reply_of ok_reply ≡ codes "{\"ok\":true}" }
{}

/// No reply has a float, so each has a text.
pub fn replies_have_a_text()
    ensures { (session : Session) (r : Option Request) → has_float ((step session r).0) ≡ false }
{}

/// A line that is too long is refused so, and one that is no UTF-8 is no request: neither is read, and the session
/// stays as it was. Every other line is a text, and is answered.
pub fn some_lines_are_refused_unread()
    ensures long { (session : Session) (line : List ℕ) → max_line_len < length line
        → (reply_to answer_of after_line session line ≡ reply_text LineTooLong)
        × (state_after answer_of after_line session line ≡ session) }
    ensures no_text { (session : Session) (line : List ℕ) → length line ≤ max_line_len → is_utf8 line ≡ false
        → (reply_to answer_of after_line session line ≡ reply_text BadRequest)
        × (state_after answer_of after_line session line ≡ session) }
    ensures text { (session : Session) (line : List ℕ) → length line ≤ max_line_len → is_utf8 line ≡ true
        → (reply_to answer_of after_line session line ≡ answer_of session line)
        × (state_after answer_of after_line session line ≡ after_line session line) }
{}

/// The answers to lines are replies to them, as the relation of all replies has them, where no fault stops.
pub fn answers_are_replies()
    ensures { (session : Session) (lines : List (List ℕ))
        → AreReplies answer_of after_line (λ s line. ⊥) ⊥ session lines
        (flat_map output_line (answers_to session lines)) }
{}

/// A request of which a call is read does what that call does, and replies so.
pub fn a_request_is_its_call()
    ensures refused { (c : Configuration) (x : Index) (r : Request) (call : Call) (fault : Fault)
        → call_in c.schema r ≡ Ok call → call_fault c x call ≡ Some fault → index_step c x r ≡ refusing fault x }
    ensures answered { (c : Configuration) (x : Index) (r : Request) (call : Call) → call_in c.schema r ≡ Ok call
        → call_fault c x call ≡ None → index_step c x r ≡ answering c x call }
    ensures unread { (c : Configuration) (x : Index) (r : Request) (fault : Fault) → call_in c.schema r ≡ Err fault
        → status_fault x.status (only_asks r) ≡ None → index_step c x r ≡ refusing fault x }
{}

/// The settings that stand where none are given are in range.
pub fn default_settings_are_settings()
    ensures { is_settings default_settings ≡ true }
{}

/// Settings in range give weights and norms by which scores fit.
pub fn settings_give_a_similarity()
    ensures { (s : Settings) → is_settings s ≡ true → IsSimilarity (similarity_of s) }
{}

/// Settings in range, of which each weighted term reads back, are read from what is written of them.
pub fn settings_read_back()
    ensures { (schema : Schema) (s : Settings) → is_settings s ≡ true → weighs_named schema s ≡ true
        → settings_in schema (settings_data schema s) ≡ Some s }
{}

/// Each text of a text field, and each number of a u64 field, is a term that is read from what is written of it.
pub fn texts_and_numbers_read_back()
    ensures text { (schema : Schema) (field : ℕ) (e : Entry) → IsSchema schema → slice_get schema field ≡ Some e
        → (s : List ℕ) → e.kind ≡ text_kind → IsUtf8 s → reads_back schema (term_bytes field text_kind s) ≡ true }
    ensures number { (schema : Schema) (field : ℕ) (e : Entry) → IsSchema schema → slice_get schema field ≡ Some e
        → (n : ℕ) → e.kind ≡ u64_kind → n < 2 ^ 64
        → reads_back schema (term_bytes field u64_kind (to_be_bytes w64 n)) ≡ true }
{}
