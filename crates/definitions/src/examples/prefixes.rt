//! Prefixes of terms.

ghost use Rattle.std.specs.Prelude.{[], ◌++◌, ◌∷◌, ◌≡◌, None, Some, codes, map};
ghost use Rattle.definitions.specs.Analyzers.{one_token, raw_and_default};
ghost use Rattle.definitions.specs.Examples.{books, in_a_row, three_books, title_term, titled, year_term};
ghost use Rattle.definitions.specs.Phrases.{phrase_count};
ghost use Rattle.definitions.specs.Prefixes.{expansions, prefix_count, prefix_end, terms_in};
ghost use Rattle.definitions.specs.Refusing.{all_expansions};
ghost use Rattle.definitions.specs.Values.{pre_tok_str};

/// The terms that begin with a prefix end where its last byte below 255 is one greater.
pub fn prefixes_end()
    ensures letters { prefix_end (codes "aaa") ≡ Some (codes "aab") }
    ensures last_byte { prefix_end (97 ∷ 97 ∷ 255 ∷ []) ≡ Some (codes "ab") }
    ensures two_last_bytes { prefix_end (97 ∷ 255 ∷ 255 ∷ []) ≡ Some (codes "b") }
    ensures inside { prefix_end (255 ∷ 7 ∷ 255 ∷ []) ≡ Some (255 ∷ 8 ∷ []) }
    ensures greatest_bytes { prefix_end (255 ∷ 255 ∷ 255 ∷ []) ≡ None }
    ensures nothing { prefix_end [] ≡ None }
{}

/// Terms stand in the order of their bytes, each once, and the first `limit` begin with a prefix.
pub fn terms_begin_with_a_prefix()
    ensures terms { terms_in books raw_and_default three_books
        ≡ map title_term ("old" ∷ "sea" ∷ "the" ∷ "wind" ∷ []) ++ map year_term (1952 ∷ 1987 ∷ []) }
    ensures two { expansions books raw_and_default (titled ("cd cc c b" ∷ []) ∷ titled ("cb c" ∷ [])
        ∷ []) 2 (title_term "c") ≡ map title_term ("c" ∷ "cb" ∷ []) }
    ensures all { expansions books raw_and_default (titled ("cd cc c b" ∷ []) ∷ titled ("cb c" ∷ [])
        ∷ []) all_expansions (title_term "c") ≡ map title_term ("c" ∷ "cb" ∷ "cc" ∷ "cd" ∷ []) }
    ensures none { expansions books raw_and_default three_books all_expansions (title_term "x") ≡ [] }
    ensures of_the_field { expansions books raw_and_default three_books all_expansions (title_term "")
        ≡ map title_term ("old" ∷ "sea" ∷ "the" ∷ "wind" ∷ []) }
{}

/// A phrase prefix counts, for each term that begins with its last, the places that this one follows.
pub fn begun_words_are_counted()
    ensures first { map (prefix_count books raw_and_default (map title_term ("c" ∷ "cc" ∷ "cd" ∷ [])) (in_a_row ("aa"
        ∷ "bb" ∷ "c" ∷ []))) (titled ("aa bb dd cc" ∷ []) ∷ titled ("aa aa bb c dd aa bb cc aa bb dc" ∷ [])
        ∷ titled ("aa bb cd" ∷ []) ∷ []) ≡ 0 ∷ 2 ∷ 1 ∷ [] }
    ensures second { map (prefix_count books raw_and_default (map title_term ("bb" ∷ [])) (in_a_row ("aa" ∷ "b"
        ∷ []))) (titled ("aa dd cc" ∷ []) ∷ titled ("aa aa bb c dd aa bb cc aa dc" ∷ []) ∷ titled ("aa bb cd" ∷ [])
        ∷ []) ≡ 0 ∷ 2 ∷ 1 ∷ [] }
    ensures third { map (prefix_count books raw_and_default (map title_term ("dc" ∷ "dd" ∷ [])) (in_a_row ("aa" ∷ "cc"
        ∷ "d" ∷ []))) (titled ("aa dd cc" ∷ []) ∷ titled ("aa aa bb c dd aa bb cc aa dc" ∷ [])
        ∷ titled ("aa bb cd" ∷ []) ∷ []) ≡ 0 ∷ 0 ∷ 0 ∷ [] }
    ensures left_out { prefix_count books raw_and_default (map title_term ("c" ∷ [])) (in_a_row ("aa" ∷ "bb" ∷ "c"
        ∷ [])) (titled ("aa aa bb c dd aa bb cc aa bb dc" ∷ [])) ≡ 1 }
    ensures at_one_place { prefix_count books raw_and_default (map title_term ("sea" ∷ "see" ∷ [])) (in_a_row ("a"
        ∷ "se" ∷ [])) ((
          0,
          pre_tok_str [] (one_token 0 (codes "a") ∷ one_token 1 (codes "sea")
              ∷ one_token 1 (codes "see") ∷ []),
        ) ∷ []) ≡ 2 }
    ensures a_place_once { prefix_count books raw_and_default (map title_term ("sea" ∷ [])) (in_a_row ("a" ∷ "se"
        ∷ [])) ((
          0,
          pre_tok_str [] (one_token 0 (codes "a") ∷ one_token 1 (codes "sea") ∷ one_token 1 (codes "sea")
              ∷ []),
        ) ∷ []) ≡ 1 }
    ensures a_whole_place_once { prefix_count books raw_and_default (map title_term ("sea" ∷ [])) (in_a_row ("a" ∷ "se"
        ∷ [])) ((
          0,
          pre_tok_str [] (one_token 0 (codes "a") ∷ one_token 0 (codes "a") ∷ one_token 1 (codes "sea")
              ∷ []),
        ) ∷ []) ≡ 1 }
    ensures at_its_offset { prefix_count books raw_and_default (map title_term ("sea" ∷ [])) ((0, title_term "the")
        ∷ (1, title_term "old") ∷ (3, title_term "s") ∷ []) (titled ("the old big sea" ∷ [])) ≡ 1 }
{}
