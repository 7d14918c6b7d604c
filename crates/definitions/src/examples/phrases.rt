//! Words beside each other.

ghost use Rattle.std.specs.Prelude.{[], ◌∷◌, ◌≡◌, codes, false, map, true};
ghost use Rattle.definitions.specs.Analyzers.{one_token, raw_and_default};
ghost use Rattle.definitions.specs.Examples.{begun, best, best_apart, books, count_in, hit, in_a_row, old_sea, sea_on_wind, sea_wind, three_books, title_term, titled, two_titles, words};
ghost use Rattle.definitions.specs.Indexing.{terms_of};
ghost use Rattle.definitions.specs.Phrases.{phrase_count, prefix_matches};
ghost use Rattle.definitions.specs.Places.{places};
ghost use Rattle.definitions.specs.Query.{phrase, phrase_prefix};
ghost use Rattle.definitions.specs.Recorded.{positions_of};
ghost use Rattle.definitions.specs.Refusing.{all_expansions};
ghost use Rattle.definitions.specs.Values.{pre_tok_str};

/// Words stand in the order of the phrase.
pub fn a_phrase_has_an_order()
    ensures old_sea { best 10 three_books (words ("old" ∷ "sea" ∷ []) 0) ≡ hit old_sea 60 ∷ [] }
    ensures sea_wind { best 10 three_books (words ("sea" ∷ "wind" ∷ []) 0) ≡ hit sea_wind 60 ∷ [] }
    ensures turned { best 10 three_books (words ("sea" ∷ "old" ∷ []) 0) ≡ [] }
{}

/// With a slop of 2 two words may change places.
pub fn a_slop_lets_words_move()
    ensures one { best 10 three_books (words ("sea" ∷ "old" ∷ []) 1) ≡ [] }
    ensures two { best 10 three_books (words ("sea" ∷ "old" ∷ []) 2) ≡ hit old_sea 60 ∷ [] }
    ensures apart { best 10 three_books (words ("the" ∷ "sea" ∷ []) 1) ≡ hit old_sea 60 ∷ [] }
{}

/// Between two values of a field stands a place for no word, and an empty value takes one too.
pub fn values_stand_apart()
    ensures across { best 10 (titled ("a b" ∷ "c" ∷ []) ∷ []) (words ("b" ∷ "c" ∷ []) 0) ≡ [] }
    ensures within { best 10 (titled ("a b" ∷ "c" ∷ []) ∷ []) (words ("a" ∷ "b" ∷ []) 0)
        ≡ hit (titled ("a b" ∷ "c" ∷ [])) 60 ∷ [] }
    ensures one_place { best 10 (titled ("a b" ∷ "c" ∷ [])
        ∷ []) (phrase ((0, title_term "b") ∷ (2, title_term "c") ∷ []) 0) ≡ hit (titled ("a b" ∷ "c" ∷ [])) 60 ∷ [] }
    ensures positions { map (λ p. p.1) (terms_of books raw_and_default (titled ("a b" ∷ "" ∷ "c" ∷ []))) ≡ 0 ∷ 1 ∷ 4
        ∷ [] }
    ensures empty_first { positions_of books raw_and_default (title_term "a") (titled ("" ∷ "a" ∷ [])) ≡ 1 ∷ [] }
{}

/// Other gaps between two values: none, and three places.
pub fn gaps_between_values()
    ensures none { places 0 ((one_token 0 (codes "a") ∷ one_token 1 (codes "b") ∷ []) ∷ (one_token 0 (codes "c") ∷ [])
        ∷ []) ≡ (codes "a", 0) ∷ (codes "b", 1) ∷ (codes "c", 2) ∷ [] }
    ensures three { places 3 ((one_token 0 (codes "a") ∷ []) ∷ [] ∷ (one_token 0 (codes "c") ∷ []) ∷ [])
        ≡ (codes "a", 0) ∷ (codes "c", 7) ∷ [] }
{}

/// The gap is the field's own: a phrase goes from one value to the next where its offsets leave out as many places.
pub fn gaps_are_chosen_by_field()
    ensures none { best_apart 0 two_titles (words ("b" ∷ "c" ∷ []) 0) ≡ hit two_titles 60 ∷ [] }
    ensures one { best_apart 1 two_titles (words ("b" ∷ "c" ∷ []) 0) ≡ [] }
    ensures two_slop_one { best_apart 2 two_titles (words ("b" ∷ "c" ∷ []) 1) ≡ [] }
    ensures two_slop_two { best_apart 2 two_titles (words ("b" ∷ "c" ∷ []) 2) ≡ hit two_titles 60 ∷ [] }
    ensures thousand { best_apart 1000 two_titles (phrase ((0, title_term "b") ∷ (1001, title_term "c") ∷ []) 0)
        ≡ hit two_titles 60 ∷ [] }
    ensures empty_value { best_apart 0 (titled ("" ∷ "a" ∷ [])) (begun ("a" ∷ "a" ∷ [])) ≡ [] }
{}

/// With no gap, tokens of length 0 leave the next value at their own place.
pub fn values_may_share_a_place()
    ensures exact { best_apart 0 sea_on_wind (phrase ((0, title_term "sea") ∷ (0, title_term "wind") ∷ []) 0)
        ≡ hit sea_on_wind 60 ∷ [] }
    ensures beside { best_apart 0 sea_on_wind (words ("sea" ∷ "wind" ∷ []) 0) ≡ [] }
    ensures slop { best_apart 0 sea_on_wind (words ("sea" ∷ "wind" ∷ []) 1) ≡ hit sea_on_wind 60 ∷ [] }
    ensures one { best_apart 1 sea_on_wind (words ("sea" ∷ "wind" ∷ []) 0) ≡ hit sea_on_wind 60 ∷ [] }
{}

/// The next value begins after the greatest end of a token, which needn't be the last token's.
pub fn the_greatest_end_counts()
    ensures { map (λ p. p.1) (places 1 ((record { position = 0; position_length = 5; text = codes "a" }
        ∷ one_token 1 (codes "b") ∷ []) ∷ (one_token 0 (codes "c") ∷ []) ∷ [])) ≡ 0 ∷ 1 ∷ 6 ∷ [] }
{}

/// The begun word stands where its offset says.
pub fn offsets_may_leave_places_out()
    ensures shown { best 10 (titled ("the old big sea" ∷ [])
        ∷ []) (phrase_prefix ((0, title_term "the") ∷ (1, title_term "old") ∷ (3, title_term "s") ∷ []) all_expansions)
        ≡ hit (titled ("the old big sea" ∷ [])) 60 ∷ [] }
    ensures beside { best 10 (titled ("the old big sea" ∷ []) ∷ []) (begun ("the" ∷ "old" ∷ "s" ∷ [])) ≡ [] }
{}

/// The last word may be only begun.
pub fn a_begun_word_follows()
    ensures sea_w { best 10 three_books (begun ("sea" ∷ "w" ∷ [])) ≡ hit sea_wind 1 ∷ [] }
    ensures sea_w_count { count_in three_books (begun ("sea" ∷ "w" ∷ [])) ≡ 1 }
    ensures old_se { best 10 three_books (begun ("old" ∷ "se" ∷ [])) ≡ hit old_sea 1 ∷ [] }
    ensures old_se_count { count_in three_books (begun ("old" ∷ "se" ∷ [])) ≡ 1 }
    ensures sea_x { count_in three_books (begun ("sea" ∷ "x" ∷ [])) ≡ 0 }
    ensures whole { count_in three_books (begun ("sea" ∷ "wind" ∷ [])) ≡ 1 }
    ensures not_begun { count_in three_books (begun ("se" ∷ "wind" ∷ [])) ≡ 0 }
    ensures nothing_begun { count_in three_books (begun ("old" ∷ "" ∷ [])) ≡ 1 }
{}

/// A phrase counts its places, each once.
pub fn places_are_counted_once()
    ensures never { phrase_count books raw_and_default (in_a_row ("a" ∷ "b" ∷ [])) 0 (titled ("a c" ∷ [])) ≡ 0 }
    ensures twice { phrase_count books raw_and_default (in_a_row ("a" ∷ "b" ∷ [])) 0 (titled ("a a b d a b c" ∷ []))
        ≡ 2 }
    ensures once { phrase_count books raw_and_default (in_a_row ("a" ∷ "b" ∷ [])) 0 (titled ("a b" ∷ [])) ≡ 1 }
    ensures within_slop { phrase_count books raw_and_default (in_a_row ("a" ∷ "b" ∷ [])) 1 (titled ("a a b d a b c"
        ∷ [])) ≡ 2 }
    ensures repeated { phrase_count books raw_and_default (in_a_row ("a" ∷ "a" ∷ [])) 0 (titled ("a a a" ∷ [])) ≡ 2 }
{}

/// Terms are taken in the order of their offsets, in whichever order they are given.
pub fn terms_are_taken_by_offset()
    ensures turned { best 10 three_books (phrase ((1, title_term "sea") ∷ (0, title_term "old") ∷ []) 0)
        ≡ hit old_sea 60 ∷ [] }
    ensures prefix_first { count_in three_books (phrase_prefix ((1, title_term "w") ∷ (0, title_term "sea")
        ∷ []) all_expansions) ≡ 1 }
    ensures from_any_offset { best 10 three_books (phrase ((7, title_term "old") ∷ (8, title_term "sea") ∷ []) 0)
        ≡ hit old_sea 60 ∷ [] }
{}

/// Phrases of two whole words and a begun one.
pub fn two_whole_words_and_a_begun_one()
    ensures first { map (prefix_matches books raw_and_default (in_a_row ("aa" ∷ "bb" ∷ "c"
        ∷ []))) (titled ("aa bb dd cc" ∷ []) ∷ titled ("aa aa bb c dd aa bb cc aa bb dc" ∷ [])
        ∷ titled ("aa bb cd" ∷ []) ∷ []) ≡ false ∷ true ∷ true ∷ [] }
    ensures second { map (prefix_matches books raw_and_default (in_a_row ("aa" ∷ "b" ∷ []))) (titled ("aa dd cc" ∷ [])
        ∷ titled ("aa aa bb c dd aa bb cc aa dc" ∷ []) ∷ titled ("aa bb cd" ∷ []) ∷ []) ≡ false ∷ true ∷ true ∷ [] }
    ensures third { map (prefix_matches books raw_and_default (in_a_row ("aa" ∷ "cc" ∷ "d" ∷ []))) (titled ("aa dd cc"
        ∷ []) ∷ titled ("aa aa bb c dd aa bb cc aa dc" ∷ []) ∷ titled ("aa bb cd" ∷ []) ∷ []) ≡ false ∷ false ∷ false
        ∷ [] }
{}

/// Tokens may stand at one place, which then counts once.
pub fn equal_places_count_once()
    ensures { phrase_count books raw_and_default (in_a_row ("a" ∷ "b"
        ∷ [])) 0 ((
          0,
          pre_tok_str [] (one_token 0 (codes "a") ∷ one_token 0 (codes "a") ∷ one_token 1 (codes "b")
              ∷ one_token 1 (codes "b") ∷ []),
        ) ∷ []) ≡ 1 }
{}

/// Tokens at one place: two terms may stand there, and with a slop each place counts once.
pub fn terms_may_share_a_place()
    ensures same_place { phrase_count books raw_and_default ((0, title_term "a") ∷ (0, title_term "b")
        ∷ []) 0 ((0, pre_tok_str [] (one_token 0 (codes "a") ∷ one_token 0 (codes "b") ∷ [])) ∷ []) ≡ 1 }
    ensures slop_one { phrase_count books raw_and_default (in_a_row ("a" ∷ "b"
        ∷ [])) 1 ((
          0,
          pre_tok_str [] (one_token 0 (codes "a") ∷ one_token 0 (codes "a") ∷ one_token 0 (codes "b")
              ∷ one_token 2 (codes "b") ∷ []),
        ) ∷ []) ≡ 2 }
    ensures slop_none { phrase_count books raw_and_default (in_a_row ("a" ∷ "b"
        ∷ [])) 0 ((
          0,
          pre_tok_str [] (one_token 0 (codes "a") ∷ one_token 0 (codes "a") ∷ one_token 0 (codes "b")
              ∷ one_token 2 (codes "b") ∷ []),
        ) ∷ []) ≡ 0 }
{}

/// A slop is shared by all neighbours: what two words use up is lost for the third.
pub fn a_slop_is_shared_by_three_words()
    ensures one { phrase_count books raw_and_default (in_a_row ("a" ∷ "b" ∷ "c" ∷ [])) 1 (titled ("a x b x c" ∷ []))
        ≡ 0 }
    ensures two { phrase_count books raw_and_default (in_a_row ("a" ∷ "b" ∷ "c" ∷ [])) 2 (titled ("a x b x c" ∷ []))
        ≡ 1 }
    ensures thrice_one { phrase_count books raw_and_default (in_a_row ("a" ∷ "a" ∷ "a" ∷ [])) 1 (titled ("a" ∷ []))
        ≡ 0 }
    ensures thrice_two { phrase_count books raw_and_default (in_a_row ("a" ∷ "a" ∷ "a" ∷ [])) 2 (titled ("a" ∷ []))
        ≡ 1 }
{}

/// A begun word may stand at the place of a whole one, and the place counts for the score whether it follows or not.
pub fn begun_words_stand_at_their_offset()
    ensures one_place { prefix_matches books raw_and_default ((0, title_term "sea") ∷ (0, title_term "s")
        ∷ []) (titled ("sea" ∷ [])) ≡ true }
    ensures turned { prefix_matches books raw_and_default ((0, title_term "s") ∷ (0, title_term "sea")
        ∷ []) (titled ("sea" ∷ [])) ≡ false }
    ensures one_term { prefix_matches books raw_and_default ((0, title_term "s") ∷ []) (titled ("sea" ∷ [])) ≡ false }
    ensures scores_all_places { best 10 (titled ("a b c a b d" ∷ []) ∷ []) (begun ("a" ∷ "b" ∷ "c" ∷ []))
        ≡ hit (titled ("a b c a b d" ∷ [])) 80 ∷ [] }
{}
