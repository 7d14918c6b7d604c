//! Worked lines: what is sent, and what is replied.
#![tactic(auto, unfolding(crate::proofs::OnLiterals::definitions_on_literals))]

ghost use Rattle.std.specs.Prelude.{[], ⊤, ◌++◌, ◌∷◌, ◌≡◌, None, Some, codes, false, map, true};
ghost use Rattle.definitions.specs.Analyzers.{is_raw_or_default};
ghost use Rattle.definitions.specs.Calls.{closed, ready, writer_closed};
ghost use Rattle.definitions.specs.Examples.{of_three_books, old_sea, sea_wind, wind};
ghost use Rattle.definitions.specs.LineExamples.{after_lines, book_schema, book_session, empty_session, opened_session, reply, session_on, session_with, three_book_lines, three_books_session, title_line, unindexed_session};
ghost use Rattle.definitions.specs.Replying.{AreReplies, HasReason, answers_to, stops};
ghost use Rattle.definitions.specs.Settings.{default_settings};
ghost use Rattle.definitions.specs.Step.{after_line, answer_of, file_of, fresh_index, held_by, index_of, no_index, opened, other_bytes};
ghost use Rattle.definitions.specs.declared.fault.Fault.TheVariants as faults;

/// A device holds the groups of its index, and an index that is opened has them again; a new one has none.
pub fn devices_hold_groups()
    ensures two { held_by (index_of book_schema default_settings (record { state = of_three_books 2; status = ready }))
        ≡ file_of book_schema default_settings ((old_sea ∷ sea_wind ∷ []) ∷ (wind ∷ []) ∷ []) }
    ensures none { held_by (index_of book_schema default_settings fresh_index)
        ≡ file_of book_schema default_settings [] }
    ensures again { (opened is_raw_or_default (file_of book_schema default_settings (of_three_books 2).groups)).1
        ≡ index_of book_schema default_settings (record { state = of_three_books 2; status = ready }) }
{}

/// After running out of memory, a limit or a failed device nothing more is owed; every other fault is answered like any line.
pub fn three_faults_stop()
    ensures memory { stops faults.OutOfMemory ≡ true }
    ensures limit { stops faults.Limit ≡ true }
    ensures device { stops faults.Device ≡ true }
    ensures closed { stops faults.Closed ≡ false }
    ensures damaged { stops (faults.Damaged None) ≡ false }
    ensures bad_request { stops faults.BadRequest ≡ false }
{}

/// Without a line nothing is written, and no line stays without a reply.
pub fn each_line_has_a_reply()
    ensures no_line { ¬ AreReplies answer_of after_line (λ s line. ⊤) ⊤ book_session [] (10 ∷ []) }
    ensures no_reply { ¬ AreReplies answer_of after_line (λ s line. ⊤) ⊤ book_session ([] ∷ []) [] }
{}

/// Memory may be wanting at any line; `Limit` and `Device` are the replies to a text alone, and not without a limit that it
/// meets, or a failure.
pub fn faults_that_stop_have_reasons()
    ensures memory { HasReason (λ s line. ⊥) ⊥ book_session (255 ∷ []) faults.OutOfMemory }
    ensures limit { ¬ HasReason (λ s line. ⊥) ⊤ book_session [] faults.Limit }
    ensures device { ¬ HasReason (λ s line. ⊤) ⊥ book_session [] faults.Device }
    ensures unread_limit { ¬ HasReason (λ s line. ⊤) ⊤ book_session (255 ∷ []) faults.Limit }
    ensures unread_device { ¬ HasReason (λ s line. ⊤) ⊤ book_session (255 ∷ []) faults.Device }
    ensures text_limit { HasReason (λ s line. ⊤) ⊥ book_session [] faults.Limit }
    ensures refusal { ¬ HasReason (λ s line. ⊤) ⊤ book_session [] faults.NotOpen }
{}

/// Three books are added and committed, then searched and counted.
pub fn a_session_answers_line_by_line()
    ensures { answers_to book_session (three_book_lines ++ (codes
        "{\"op\":\"search\",\"k\":10,\"query\":{\"q\":\"term\",\"field\":\"title\",\"value\":\"sea\"}}"
        ∷ codes "{\"op\":\"count\",\"query\":{\"q\":\"term\",\"field\":\"title\",\"value\":\"sea\"}}" ∷ []))
        ≡ codes "{\"ok\":true}" ∷ codes "{\"ok\":true}" ∷ codes "{\"ok\":true}" ∷ codes "{\"ok\":true}"
        ∷ codes "{\"hits\":[{\"doc\":{\"title\":[\"sea sea wind\"],\"year\":[1987]},\"score\":40},{\"doc\":{\"title\":[\"the old sea\"],\"year\":[1952]},\"score\":30}]}" ∷ codes "{\"count\":2}" ∷ [] }
{}

/// The best k are replied, a count is of all that match, and what waits for a commit isn't seen.
pub fn searches_see_what_is_committed()
    ensures none { reply three_books_session
        "{\"op\":\"search\",\"k\":0,\"query\":{\"q\":\"term\",\"field\":\"title\",\"value\":\"sea\"}}"
        ≡ codes "{\"hits\":[]}" }
    ensures one { reply three_books_session
        "{\"op\":\"search\",\"k\":1,\"query\":{\"q\":\"term\",\"field\":\"year\",\"value\":1952}}"
        ≡ codes "{\"hits\":[{\"doc\":{\"title\":[\"the old sea\"],\"year\":[1952]},\"score\":30}]}" }
    ensures all_that_match { reply three_books_session "{\"op\":\"count\",\"query\":{\"q\":\"term\",\"field\":\"year\",\"value\":1952}}"
        ≡ codes "{\"count\":2}" }
    ensures nothing { reply three_books_session
        "{\"op\":\"count\",\"query\":{\"q\":\"term\",\"field\":\"title\",\"value\":\"Sea\"}}" ≡ codes "{\"count\":0}" }
    ensures waiting { answers_to three_books_session (codes "{\"op\":\"add\",\"doc\":{\"title\":\"sea\"}}"
        ∷ codes "{\"op\":\"count\",\"query\":{\"q\":\"term\",\"field\":\"title\",\"value\":\"sea\"}}" ∷ [])
        ≡ codes "{\"ok\":true}" ∷ codes "{\"count\":2}" ∷ [] }
{}

/// A term is scored by its count unless the query says that only documents are to be read.
pub fn a_query_says_what_it_reads()
    ensures counts { reply three_books_session
        "{\"op\":\"search\",\"k\":1,\"query\":{\"q\":\"term\",\"field\":\"title\",\"value\":\"sea\",\"record\":\"freq\"}}" ≡ codes "{\"hits\":[{\"doc\":{\"title\":[\"sea sea wind\"],\"year\":[1987]},\"score\":40}]}" }
    ensures documents { reply three_books_session
        "{\"op\":\"search\",\"k\":1,\"query\":{\"q\":\"term\",\"field\":\"title\",\"value\":\"sea\",\"record\":\"basic\"}}" ≡ codes "{\"hits\":[{\"doc\":{\"title\":[\"the old sea\"],\"year\":[1952]},\"score\":30}]}" }
    ensures other { reply three_books_session
        "{\"op\":\"count\",\"query\":{\"q\":\"term\",\"field\":\"title\",\"value\":\"sea\",\"record\":\"all\"}}"
        ≡ codes "{\"error\":\"BadQuery\"}" }
    ensures null_record { reply three_books_session
        "{\"op\":\"count\",\"query\":{\"q\":\"term\",\"field\":\"title\",\"value\":\"sea\",\"record\":null}}"
        ≡ codes "{\"error\":\"BadQuery\"}" }
{}

/// What is no request.
pub fn other_lines_are_refused()
    ensures open_brace { reply book_session "{" ≡ codes "{\"error\":\"BadRequest\"}" }
    ensures empty { reply book_session "" ≡ codes "{\"error\":\"BadRequest\"}" }
    ensures array { reply book_session "[\"commit\"]" ≡ codes "{\"error\":\"BadRequest\"}" }
    ensures two_values { reply book_session "{\"op\":\"commit\"} {\"op\":\"commit\"}"
        ≡ codes "{\"error\":\"BadRequest\"}" }
    ensures no_op { reply book_session "{}" ≡ codes "{\"error\":\"BadRequest\"}" }
    ensures other_op { reply book_session "{\"op\":\"Commit\"}" ≡ codes "{\"error\":\"BadRequest\"}" }
    ensures another_key { reply book_session "{\"op\":\"commit\",\"all\":true}" ≡ codes "{\"error\":\"BadRequest\"}" }
    ensures missing_key { reply book_session "{\"op\":\"search\",\"query\":{\"q\":\"all\"}}"
        ≡ codes "{\"error\":\"BadRequest\"}" }
    ensures wrong_key { reply book_session "{\"op\":\"add\",\"document\":{}}" ≡ codes "{\"error\":\"BadRequest\"}" }
    ensures not_utf8 { answers_to book_session ((codes "{\"op\":\"add\",\"doc\":{\"title\":\"" ++ (255 ∷ codes "\"}}"))
        ∷ []) ≡ codes "{\"error\":\"BadRequest\"}" ∷ [] }
{}

/// A deletion names a term, and a merge a range of the segments that stand.
pub fn deletions_and_merges_are_requests()
    ensures deletion { answers_to book_session (codes "{\"op\":\"delete\",\"term\":{\"field\":\"year\",\"value\":1}}"
        ∷ codes "{\"op\":\"delete\",\"term\":{\"field\":\"year\"}}" ∷ []) ≡ codes "{\"ok\":true}"
        ∷ codes "{\"error\":\"BadTerm\"}" ∷ [] }
    ensures no_segment { reply book_session "{\"op\":\"merge\",\"from\":0,\"to\":1}"
        ≡ codes "{\"error\":\"BadRange\"}" }
    ensures merge { answers_to three_books_session (codes "{\"op\":\"merge\",\"from\":0,\"to\":1}"
        ∷ codes "{\"op\":\"merge\",\"from\":0,\"to\":2}" ∷ []) ≡ codes "{\"ok\":true}"
        ∷ codes "{\"error\":\"BadRange\"}" ∷ [] }
    ensures half_a_range { reply book_session "{\"op\":\"merge\",\"from\":0}" ≡ codes "{\"error\":\"BadRequest\"}" }
{}

/// Numbers are whole, from 0 to 2 to the 63rd less 1.
pub fn limits_are_whole_numbers()
    ensures greatest { reply book_session
        "{\"op\":\"search\",\"k\":9223372036854775807,\"query\":{\"q\":\"term\",\"field\":\"year\",\"value\":1}}"
        ≡ codes "{\"hits\":[]}" }
    ensures too_great { reply book_session
        "{\"op\":\"search\",\"k\":9223372036854775808,\"query\":{\"q\":\"term\",\"field\":\"year\",\"value\":1}}"
        ≡ codes "{\"error\":\"BadRequest\"}" }
    ensures negative { reply book_session
        "{\"op\":\"search\",\"k\":-1,\"query\":{\"q\":\"term\",\"field\":\"year\",\"value\":1}}"
        ≡ codes "{\"error\":\"BadRequest\"}" }
    ensures float { reply book_session
        "{\"op\":\"search\",\"k\":1.0,\"query\":{\"q\":\"term\",\"field\":\"year\",\"value\":1}}"
        ≡ codes "{\"error\":\"BadRequest\"}" }
    ensures text { reply book_session
        "{\"op\":\"search\",\"k\":\"1\",\"query\":{\"q\":\"term\",\"field\":\"year\",\"value\":1}}"
        ≡ codes "{\"error\":\"BadRequest\"}" }
{}

/// White space stands anywhere between, keys in any order, and of equal keys the last stands.
pub fn requests_are_json()
    ensures spaces { reply book_session " { \"op\" : \"commit\" }\r" ≡ codes "{\"ok\":true}" }
    ensures order { reply book_session "{\"doc\":{},\"op\":\"add\"}" ≡ codes "{\"ok\":true}" }
    ensures last_key { reply book_session "{\"op\":\"open\",\"op\":\"commit\"}" ≡ codes "{\"ok\":true}" }
    ensures escapes { reply book_session "{\"o\\u0070\":\"commi\\u0074\"}" ≡ codes "{\"ok\":true}" }
{}

/// A document that is refused isn't added.
pub fn documents_are_read_from_the_line()
    ensures array { reply book_session "{\"op\":\"add\",\"doc\":[1]}" ≡ codes "{\"error\":\"NotAnObject\"}" }
    ensures null_document { reply book_session "{\"op\":\"add\",\"doc\":null}" ≡ codes "{\"error\":\"NotAnObject\"}" }
    ensures negative { reply book_session "{\"op\":\"add\",\"doc\":{\"year\":-1}}"
        ≡ codes "{\"error\":\"OverflowError\"}" }
    ensures text { reply book_session "{\"op\":\"add\",\"doc\":{\"year\":\"1952\"}}"
        ≡ codes "{\"error\":\"TypeError\"}" }
    ensures float { reply book_session "{\"op\":\"add\",\"doc\":{\"year\":1.5}}" ≡ codes "{\"error\":\"FloatValue\"}" }
    ensures null_year { reply book_session "{\"op\":\"add\",\"doc\":{\"year\":null}}"
        ≡ codes "{\"error\":\"TypeError\"}" }
    ensures no_field { reply book_session "{\"op\":\"add\",\"doc\":{\"x\":1.5}}" ≡ codes "{\"ok\":true}" }
    ensures unchanged { reply (after_lines three_books_session
        (codes "{\"op\":\"add\",\"doc\":{\"title\":\"sea\",\"year\":-1}}" ∷ codes "{\"op\":\"commit\"}"
        ∷ [])) "{\"op\":\"count\",\"query\":{\"q\":\"term\",\"field\":\"title\",\"value\":\"sea\"}}"
        ≡ codes "{\"count\":2}" }
{}

/// Where no index stands a request is refused, and what is no request before that.
pub fn requests_ask_for_an_index()
    ensures commit { reply empty_session "{\"op\":\"commit\"}" ≡ codes "{\"error\":\"NotOpen\"}" }
    ensures query { reply empty_session "{\"op\":\"count\",\"query\":5}" ≡ codes "{\"error\":\"NotOpen\"}" }
    ensures no_request { reply empty_session "{" ≡ codes "{\"error\":\"BadRequest\"}" }
{}

/// A query is refused by its form, and then by what it asks for.
pub fn queries_are_read_and_tested()
    ensures no_object { reply book_session "{\"op\":\"count\",\"query\":5}" ≡ codes "{\"error\":\"BadQuery\"}" }
    ensures unknown_field { reply book_session "{\"op\":\"count\",\"query\":{\"q\":\"term\",\"field\":\"x\",\"value\":5}}"
        ≡ codes "{\"error\":\"BadQuery\"}" }
    ensures other_kind { reply book_session
        "{\"op\":\"count\",\"query\":{\"q\":\"term\",\"field\":\"year\",\"value\":\"5\"}}"
        ≡ codes "{\"error\":\"BadQuery\"}" }
    ensures inside { reply three_books_session
        "{\"op\":\"count\",\"query\":{\"q\":\"bool\",\"must\":[{\"q\":\"const\",\"score\":1,\"query\":{\"q\":\"all\"}}]}}" ≡ codes "{\"count\":3}" }
    ensures every { reply three_books_session
        "{\"op\":\"count\",\"query\":{\"q\":\"bool\",\"must\":[{\"q\":\"all\"}]}}" ≡ codes "{\"count\":3}" }
    ensures not_indexed { reply unindexed_session
        "{\"op\":\"search\",\"k\":1,\"query\":{\"q\":\"term\",\"field\":\"title\",\"value\":\"sea\"}}"
        ≡ codes "{\"error\":\"NotIndexed\"}" }
{}

/// A closed index refuses every request, and a closed writer those that write, before a query is read.
pub fn a_status_refuses_first()
    ensures closed_search { reply (session_with closed) "{\"op\":\"search\",\"k\":1,\"query\":5}"
        ≡ codes "{\"error\":\"Closed\"}" }
    ensures closed_commit { reply (session_with closed) "{\"op\":\"commit\"}" ≡ codes "{\"error\":\"Closed\"}" }
    ensures closed_no_request { reply (session_with closed) "{\"op\":5}" ≡ codes "{\"error\":\"BadRequest\"}" }
    ensures writer_add { reply (session_with writer_closed) "{\"op\":\"add\",\"doc\":5}"
        ≡ codes "{\"error\":\"WriterClosed\"}" }
    ensures writer_commit { reply (session_with writer_closed) "{\"op\":\"commit\"}"
        ≡ codes "{\"error\":\"WriterClosed\"}" }
    ensures writer_search { reply (session_with writer_closed)
        "{\"op\":\"search\",\"k\":1,\"query\":{\"q\":\"term\",\"field\":\"year\",\"value\":5}}"
        ≡ codes "{\"hits\":[]}" }
    ensures writer_bad_query { reply (session_with writer_closed) "{\"op\":\"count\",\"query\":5}"
        ≡ codes "{\"error\":\"BadQuery\"}" }
{}

/// An index is made once. Before that no request is answered, and no index is opened.
pub fn an_index_is_made_line_by_line()
    ensures { answers_to empty_session (codes "{\"op\":\"commit\"}" ∷ codes "{\"op\":\"open\"}" ∷ title_line
        ∷ title_line ∷ codes "{\"op\":\"open\"}" ∷ codes "{\"op\":\"add\",\"doc\":{\"t\":\"a b\"}}"
        ∷ codes "{\"op\":\"add\",\"doc\":[]}" ∷ codes "{\"op\":\"commit\"}"
        ∷ codes "{\"op\":\"count\",\"query\":{\"q\":\"term\",\"field\":\"t\",\"value\":\"a\"}}" ∷ [])
        ≡ codes "{\"error\":\"NotOpen\"}" ∷ codes "{\"error\":\"NoIndex\"}" ∷ codes "{\"ok\":true}"
        ∷ codes "{\"error\":\"AlreadyOpen\"}" ∷ codes "{\"error\":\"AlreadyOpen\"}" ∷ codes "{\"ok\":true}"
        ∷ codes "{\"error\":\"NotAnObject\"}" ∷ codes "{\"ok\":true}" ∷ codes "{\"count\":1}" ∷ [] }
{}

/// An index is opened again with what was committed; what waited is lost.
pub fn an_index_is_opened_again()
    ensures committed { answers_to (opened_session []) (codes
        "{\"op\":\"count\",\"query\":{\"q\":\"term\",\"field\":\"title\",\"value\":\"sea\"}}" ∷ title_line
        ∷ codes "{\"op\":\"open\"}" ∷ codes "{\"op\":\"open\"}"
        ∷ codes "{\"op\":\"count\",\"query\":{\"q\":\"term\",\"field\":\"title\",\"value\":\"sea\"}}" ∷ [])
        ≡ codes "{\"error\":\"NotOpen\"}" ∷ codes "{\"error\":\"NotEmpty\"}" ∷ codes "{\"ok\":true}"
        ∷ codes "{\"error\":\"AlreadyOpen\"}" ∷ codes "{\"count\":2}" ∷ [] }
    ensures lost { answers_to (opened_session (codes "{\"op\":\"add\",\"doc\":{\"title\":\"sea\"}}"
        ∷ [])) (codes "{\"op\":\"open\"}" ∷ codes "{\"op\":\"commit\"}"
        ∷ codes "{\"op\":\"count\",\"query\":{\"q\":\"term\",\"field\":\"title\",\"value\":\"sea\"}}" ∷ [])
        ≡ codes "{\"ok\":true}" ∷ codes "{\"ok\":true}" ∷ codes "{\"count\":2}" ∷ [] }
{}

/// Over bytes that are no file of an index nothing is made or opened, and they stay.
pub fn other_bytes_stay()
    ensures refused { answers_to (session_on (other_bytes (97 ∷ []) faults.NoIndex)) (codes "{\"op\":\"open\"}" ∷ title_line
        ∷ codes "{\"op\":\"commit\"}" ∷ []) ≡ codes "{\"error\":\"NoIndex\"}" ∷ codes "{\"error\":\"NotEmpty\"}"
        ∷ codes "{\"error\":\"NotOpen\"}" ∷ [] }
    ensures damaged { answers_to (session_on (other_bytes (165 ∷ []) (faults.Damaged (Some 0)))) (codes
        "{\"op\":\"open\"}" ∷ []) ≡ codes "{\"error\":\"Damaged\"}" ∷ [] }
    ensures kept { (after_lines (session_on (other_bytes (97 ∷ []) faults.NoIndex)) (codes "{\"op\":\"open\"}"
        ∷ title_line ∷ [])).stage ≡ no_index (other_bytes (97 ∷ []) faults.NoIndex) }
{}

/// What is refused when an index is to be made, in this order.
pub fn a_create_is_refused_in_order()
    ensures another_key { reply empty_session "{\"op\":\"create\",\"schema\":[],\"name\":1}"
        ≡ codes "{\"error\":\"BadRequest\"}" }
    ensures schema_first { reply empty_session "{\"op\":\"create\",\"schema\":5,\"settings\":5}"
        ≡ codes "{\"error\":\"BadSchema\"}" }
    ensures null_settings { reply empty_session "{\"op\":\"create\",\"schema\":[],\"settings\":null}"
        ≡ codes "{\"error\":\"BadSettings\"}" }
    ensures settings_first { reply (opened_session [])
        "{\"op\":\"create\",\"schema\":[{\"name\":\"t\",\"type\":\"text\",\"options\":{\"indexing\":{\"tokenizer\":\"other\"}}}],\"settings\":{\"docs_per_segment\":0}}" ≡ codes "{\"error\":\"BadSettings\"}" }
    ensures tokenizer_first { reply (opened_session [])
        "{\"op\":\"create\",\"schema\":[{\"name\":\"t\",\"type\":\"text\",\"options\":{\"indexing\":{\"tokenizer\":\"other\"}}}]}" ≡ codes "{\"error\":\"UnknownTokenizer\"}" }
    ensures ready_first { reply book_session "{\"op\":\"create\",\"schema\":5}" ≡ codes "{\"error\":\"AlreadyOpen\"}" }
    ensures settings_sent { reply empty_session "{\"op\":\"create\",\"schema\":[],\"settings\":{\"block_size\":0}}"
        ≡ codes "{\"ok\":true}" }
{}

/// An index that isn't ready stands until another is made or opened, and what is refused before that leaves it.
pub fn what_a_refused_create_leaves()
    ensures made { answers_to (session_with writer_closed) (codes "{\"op\":\"create\",\"schema\":5}"
        ∷ codes "{\"op\":\"create\",\"schema\":[],\"settings\":5}" ∷ codes "{\"op\":\"commit\"}" ∷ title_line
        ∷ codes "{\"op\":\"commit\"}" ∷ codes "{\"op\":\"open\"}" ∷ codes "{\"op\":\"commit\"}" ∷ [])
        ≡ codes "{\"error\":\"BadSchema\"}" ∷ codes "{\"error\":\"BadSettings\"}"
        ∷ codes "{\"error\":\"WriterClosed\"}" ∷ codes "{\"error\":\"NotEmpty\"}" ∷ codes "{\"error\":\"NotOpen\"}"
        ∷ codes "{\"ok\":true}" ∷ codes "{\"ok\":true}" ∷ [] }
    ensures opened { answers_to (session_with writer_closed) (codes "{\"op\":\"open\"}" ∷ codes "{\"op\":\"commit\"}"
        ∷ []) ≡ codes "{\"ok\":true}" ∷ codes "{\"ok\":true}" ∷ [] }
{}
