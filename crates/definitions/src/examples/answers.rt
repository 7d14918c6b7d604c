//! What queries answer over a segment, which terms they read, and the lengths that a segment keeps.

ghost use Rattle.std.specs.Prelude.{[], ◌∷◌, ◌≡◌, false, map, pos, true};
ghost use Rattle.definitions.specs.Analyzers.{raw_and_default};
ghost use Rattle.definitions.specs.Answers.{answers, living_answers, living_count};
ghost use Rattle.definitions.specs.Examples.{bare, begun, best_of, books, bool_of, data_of, indexed_entry, json_data, letters, of_year, old_sea, sea_or_wind, sea_wind, shoulds, text_entry, three_books, title_term, weighing, wind, word, words, year_term};
ghost use Rattle.definitions.specs.KeptLengths.{length_fields, norms_of};
ghost use Rattle.definitions.specs.Query.{all, boolean, boost, clause, const_score, empty, must, must_not, no_clauses, phrase};
ghost use Rattle.definitions.specs.QueryTerms.{query_terms};
ghost use Rattle.definitions.specs.Schema.{facet_kind, text_kind, u64_kind};
ghost use Rattle.definitions.specs.ScoredLists.{documents_of};

/// The places of the documents that match, with their scores.
pub fn queries_answer_places_and_scores()
    ensures word { answers books raw_and_default (weighing 60) 1 (word "sea") three_books ≡ (0, 30) ∷ (1, 40) ∷ [] }
    ensures boosted { answers books raw_and_default (weighing 60) 3 (word "sea") three_books ≡ (0, 90) ∷ (1, 120) ∷ [] }
    ensures either { answers books raw_and_default (weighing 60) 1 sea_or_wind three_books ≡ (0, 30) ∷ (1, 70)
        ∷ (2, 30) ∷ [] }
    ensures everything { answers books raw_and_default (weighing 60) 2 all three_books ≡ (0, 2) ∷ (1, 2) ∷ (2, 2) ∷ [] }
    ensures nothing { answers books raw_and_default (weighing 60) 1 empty three_books ≡ [] }
    ensures zero { answers books raw_and_default (weighing 0) 1 (word "sea") three_books ≡ (0, 0) ∷ (1, 0) ∷ [] }
{}

/// Unions of words with a minimum, over five titles of letters.
pub fn minimums_choose_places()
    ensures two_of_four { documents_of (answers books raw_and_default (weighing 60) 1 (boolean (shoulds (map word ("a"
        ∷ "c" ∷ "z" ∷ "i" ∷ []))) 2) letters) ≡ 0 ∷ 1 ∷ 4 ∷ [] }
    ensures three_of_four { documents_of (answers books raw_and_default (weighing 60) 1
        (boolean (shoulds (map word ("a" ∷ "b" ∷ "c" ∷ "e" ∷ []))) 3) letters) ≡ 0 ∷ 1 ∷ [] }
    ensures three_of_two { documents_of (answers books raw_and_default (weighing 60) 1 (boolean (shoulds (map word ("a"
        ∷ "b" ∷ []))) 3) letters) ≡ [] }
    ensures one_of_two { documents_of (answers books raw_and_default (weighing 60) 1 (boolean (shoulds (map word ("a"
        ∷ "z" ∷ []))) 1) letters) ≡ 0 ∷ 1 ∷ 3 ∷ [] }
    ensures none_of_two { documents_of (answers books raw_and_default (weighing 60) 1 (boolean (shoulds (map word ("a"
        ∷ "b" ∷ []))) 0) letters) ≡ 0 ∷ 1 ∷ 4 ∷ [] }
{}

/// Dead documents answer nothing, and a count leaves them out.
pub fn dead_documents_answer_nothing()
    ensures living { living_answers (true ∷ false ∷ true
        ∷ []) (answers books raw_and_default (weighing 60) 1 sea_or_wind three_books) ≡ (0, 30) ∷ (2, 30) ∷ [] }
    ensures past_the_flags { living_answers (true ∷ []) ((0, 30) ∷ (1, 40) ∷ []) ≡ (0, 30) ∷ [] }
    ensures count { living_count books raw_and_default (word "sea") ((old_sea, true) ∷ (sea_wind, false) ∷ (wind, true)
        ∷ []) ≡ 1 }
    ensures count_of_all { living_count books raw_and_default all ((old_sea, true) ∷ (sea_wind, false) ∷ (wind, true)
        ∷ []) ≡ 2 }
{}

/// A query reads its terms in order, and needs positions of those of phrases.
pub fn queries_have_terms()
    ensures word { query_terms (word "sea") ≡ (title_term "sea", false) ∷ [] }
    ensures phrase { query_terms (words ("old" ∷ "sea" ∷ []) 0) ≡ (title_term "old", true) ∷ (title_term "sea", true)
        ∷ [] }
    ensures by_offset { query_terms (phrase ((1, title_term "sea") ∷ (0, title_term "old") ∷ []) 0)
        ≡ (title_term "old", true) ∷ (title_term "sea", true) ∷ [] }
    ensures begun { query_terms (begun ("old" ∷ "se" ∷ [])) ≡ (title_term "old", true) ∷ [] }
    ensures clauses { query_terms (bool_of (clause must (word "sea")
        (clause must_not (of_year 1952) (shoulds (words ("a" ∷ "b" ∷ []) 0 ∷ []))))) ≡ (title_term "sea", false)
        ∷ (year_term 1952, false) ∷ (title_term "a", true) ∷ (title_term "b", true) ∷ [] }
    ensures twice { query_terms (best_of (word "sea" ∷ boost (pos 3) (word "sea") ∷ const_score (pos 7) (word "wind")
        ∷ []) 0) ≡ (title_term "sea", false) ∷ (title_term "sea", false) ∷ (title_term "wind", false) ∷ [] }
    ensures none { query_terms (bool_of (clause must all (clause must empty no_clauses))) ≡ [] }
{}

/// The fields that keep lengths, and the length id of each document in them.
pub fn segments_keep_lengths()
    ensures fields { length_fields books ≡ 0 ∷ 1 ∷ [] }
    ensures facets { length_fields (data_of facet_kind) ≡ [] }
    ensures json { length_fields json_data ≡ [] }
    ensures not_indexed { length_fields (bare "a" text_kind ∷ text_entry "title" ∷ []) ≡ 1 ∷ [] }
    ensures set_but_not_indexed { length_fields (record (bare "year" u64_kind) { fieldnorms = true }
        ∷ indexed_entry "day" u64_kind ∷ []) ≡ 1 ∷ [] }
    ensures unset { length_fields (record (text_entry "title") { fieldnorms = false } ∷ []) ≡ [] }
    ensures norms { norms_of books raw_and_default three_books ≡ (0, 3 ∷ 3 ∷ 1 ∷ []) ∷ (1, 1 ∷ 1 ∷ 1 ∷ []) ∷ [] }
    ensures no_documents { norms_of books raw_and_default [] ≡ (0, []) ∷ (1, []) ∷ [] }
{}
