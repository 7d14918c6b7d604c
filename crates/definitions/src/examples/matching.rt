//! Which documents match.

ghost use Rattle.std.specs.Prelude.{[], ◌∷◌, ◌≡◌, codes, false, filter, map, true};
ghost use Rattle.definitions.specs.Analyzers.{raw_and_default};
ghost use Rattle.definitions.specs.Examples.{bare, best, best_of, books, bool_of, count_in, hit, letters, of_year, old_sea, sea_wind, shoulds, text_entry, three_books, title_term, titled, wind, word, words};
ghost use Rattle.definitions.specs.Matching.{matches};
ghost use Rattle.definitions.specs.Query.{all, boolean, clause, default_minimum, empty, must, must_not, no_clauses, should, term};
ghost use Rattle.definitions.specs.Recorded.{holds};
ghost use Rattle.definitions.specs.Schema.{basic, facet_kind, text_kind};
ghost use Rattle.definitions.specs.Terms.{term_bytes};
ghost use Rattle.definitions.specs.Values.{facet};

/// What must not match takes documents away, and by itself finds none.
pub fn forbidden_clauses_take_away()
    ensures one { best 10 three_books (bool_of (clause must (word "sea") (clause must_not (word "wind") no_clauses)))
        ≡ hit old_sea 30 ∷ [] }
    ensures alone { best 10 three_books (bool_of (clause must_not (word "sea") no_clauses)) ≡ [] }
    ensures none { count_in three_books (bool_of (clause must_not (word "sea") no_clauses)) ≡ 0 }
{}

/// At least `minimum_should` clauses match.
pub fn enough_clauses_match()
    ensures of_one { best 10 three_books (boolean (shoulds (word "sea" ∷ [])) 2) ≡ [] }
    ensures none { count_in three_books (boolean (shoulds (word "sea" ∷ [])) 2) ≡ 0 }
    ensures both { best 10 three_books (boolean (shoulds (word "sea" ∷ word "wind" ∷ [])) 2) ≡ hit sea_wind 70 ∷ [] }
    ensures none_needed { count_in three_books (boolean (shoulds (word "sea" ∷ [])) 0) ≡ 2 }
{}

/// Beside a clause that must match, should clauses only add to the score.
pub fn should_clauses_are_free_beside_a_must()
    ensures { best 10 three_books (bool_of (clause must (word "sea") (clause should (word "wind") no_clauses)))
        ≡ hit sea_wind 70 ∷ hit old_sea 30 ∷ [] }
{}

/// Without clauses nothing matches.
pub fn no_clause_finds_nothing()
    ensures clauses { count_in three_books (bool_of no_clauses) ≡ 0 }
    ensures queries { count_in three_books (best_of [] 0) ≡ 0 }
{}

/// All documents, and none.
pub fn all_and_none()
    ensures all { count_in three_books all ≡ 3 }
    ensures none { count_in three_books empty ≡ 0 }
    ensures all_but_some { best 10 three_books (bool_of (clause must all (clause must_not (word "sea") no_clauses)))
        ≡ hit wind 1 ∷ [] }
{}

/// A number is found whole, and a field's terms are its own.
pub fn terms_are_of_their_field()
    ensures year { best 10 three_books (of_year 1952) ≡ hit old_sea 30 ∷ hit wind 30 ∷ [] }
    ensures part { count_in three_books (word "win") ≡ 0 }
    ensures upper_case { count_in three_books (word "Sea") ≡ 0 }
    ensures other_field { count_in three_books (term (term_bytes 1 text_kind (codes "sea")) basic) ≡ 0 }
{}

/// A word and a phrase that both must match.
pub fn a_word_and_a_phrase()
    ensures { count_in (titled ("hello happy tax" ∷ []) ∷ titled ("hello" ∷ []) ∷ titled ("hello" ∷ [])
        ∷ titled ("happy tax" ∷ []) ∷ []) (bool_of (clause must (word "hello") (clause must (words ("happy" ∷ "tax"
        ∷ []) 0) no_clauses))) ≡ 1 }
{}

/// Of four words at least two, or three.
pub fn so_many_words_of_four()
    ensures two { filter (λ doc. matches books raw_and_default doc (boolean (shoulds (map word ("a" ∷ "c" ∷ "z" ∷ "i"
        ∷ []))) 2)) letters ≡ titled ("a b c" ∷ []) ∷ titled ("a c e" ∷ []) ∷ titled ("c i b" ∷ []) ∷ [] }
    ensures three { filter (λ doc. matches books raw_and_default doc (boolean (shoulds (map word ("a" ∷ "b" ∷ "c" ∷ "e"
        ∷ []))) 3)) letters ≡ titled ("a b c" ∷ []) ∷ titled ("a c e" ∷ []) ∷ [] }
    ensures more_than_there_are { count_in letters (boolean (shoulds (map word ("a" ∷ "b" ∷ []))) 3) ≡ 0 }
{}

/// In a field without an indexing nothing is found, and facets need no option.
pub fn fields_are_found_where_they_are_indexed()
    ensures text { holds (record (text_entry "title") { indexed = false }
        ∷ []) raw_and_default (title_term "sea") sea_wind ≡ false }
    ensures facet { holds (bare "data" facet_kind
        ∷ []) raw_and_default (term_bytes 0 facet_kind (codes "a")) ((0, facet (codes "a" ∷ [])) ∷ []) ≡ true }
{}

/// Where no minimum is given it is 1 if all clauses are should clauses, and else 0.
pub fn minimums_follow_the_clauses()
    ensures should_clauses { default_minimum (shoulds (all ∷ all ∷ [])) ≡ 1 }
    ensures with_a_must { default_minimum (clause should all (clause must all no_clauses)) ≡ 0 }
    ensures with_a_must_not { default_minimum (clause should all (clause must_not all no_clauses)) ≡ 0 }
    ensures no_clause { default_minimum no_clauses ≡ 0 }
{}

/// A minimum is of should clauses alone, and a bool needs a clause that counts.
pub fn a_minimum_is_of_should_clauses()
    ensures must_with_min { count_in three_books (boolean (clause must (word "sea") no_clauses) 1) ≡ 0 }
    ensures not_alone_min_0 { count_in three_books (boolean (clause must_not (word "x") no_clauses) 0) ≡ 0 }
    ensures none_min_0 { count_in three_books (boolean no_clauses 0) ≡ 0 }
    ensures should_with_not { count_in three_books (bool_of (clause should (word "sea")
        (clause must_not (word "x") no_clauses))) ≡ 2 }
{}
