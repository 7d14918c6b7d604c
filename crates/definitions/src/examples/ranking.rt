//! Which documents stand first, and with which scores.

ghost use Rattle.std.specs.Prelude.{[], ◌∷◌, ◌≡◌, codes, false, negsuc, pos};
ghost use Rattle.std.specs.List.{range_with_len};
ghost use Rattle.definitions.specs.Analyzers.{raw_and_default};
ghost use Rattle.definitions.specs.Examples.{begun, best, best_of, books, bool_of, count_in, hit, of_year, old_sea, sea_and_a_point, sea_or_wind, sea_wind, text_entry, three_books, title_term, weighing, wind, word, words};
ghost use Rattle.definitions.specs.Query.{all, boost, clause, const_score, must, must_not, no_clauses, term};
ghost use Rattle.definitions.specs.Scanning.{scan};
ghost use Rattle.definitions.specs.Schema.{basic, with_freqs};
ghost use Rattle.definitions.specs.Scoring.{length_id};
ghost use Rattle.definitions.specs.Values.{str, u64};

/// A document that has the word twice stands before one that has it once.
pub fn a_term_ranks_by_its_count()
    ensures hits { best 10 three_books (word "sea") ≡ (
      40,
      (codes "title", str (codes "sea sea wind") ∷ [])
          ∷ (codes "year", u64 1987 ∷ []) ∷ [],
    ) ∷ (
      30,
      (codes "title", str (codes "the old sea") ∷ [])
          ∷ (codes "year", u64 1952 ∷ []) ∷ [],
    ) ∷ [] }
    ensures count { count_in three_books (word "sea") ≡ 2 }
{}

/// A document earns what each clause that matches earns, and only `k` are taken.
pub fn scores_add_up()
    ensures hits { best 10 three_books sea_or_wind ≡ hit sea_wind 70 ∷ hit old_sea 30 ∷ hit wind 30 ∷ [] }
    ensures two { best 2 three_books sea_or_wind ≡ hit sea_wind 70 ∷ hit old_sea 30 ∷ [] }
{}

/// Where every weight is 0 all scores are, and documents keep the order of addition.
pub fn equal_scores_keep_the_order_of_addition()
    ensures { scan books raw_and_default (weighing 0) three_books sea_or_wind 3 ≡ hit old_sea 0 ∷ hit sea_wind 0
        ∷ hit wind 0 ∷ [] }
{}

/// The best of two counts, and of the other `tie` thousandths.
pub fn the_best_query_counts()
    ensures alone { best 10 three_books (best_of (word "sea" ∷ word "wind" ∷ []) 0) ≡ hit sea_wind 40 ∷ hit old_sea 30
        ∷ hit wind 30 ∷ [] }
    ensures half { best 10 three_books (best_of (word "sea" ∷ word "wind" ∷ []) 500) ≡ hit sea_wind 55 ∷ hit old_sea 30
        ∷ hit wind 30 ∷ [] }
    ensures whole { best 10 three_books (best_of (word "sea" ∷ word "wind" ∷ []) 1000)
        ≡ best 10 three_books sea_or_wind }
    ensures three { best 1 three_books (best_of (word "sea" ∷ word "wind" ∷ all ∷ []) 333) ≡ hit sea_wind 50 ∷ [] }
    ensures boosted { best 1 three_books (boost (pos 3) (best_of (word "sea" ∷ word "wind" ∷ []) 333))
        ≡ hit sea_wind 149 ∷ [] }
    ensures rounded { best 1 three_books (best_of (word "sea" ∷ word "wind" ∷ []) 50) ≡ hit sea_wind 41 ∷ [] }
{}

/// Of no hit all documents still count.
pub fn no_hits_still_count()
    ensures hits { best 0 three_books (word "sea") ≡ [] }
    ensures count { count_in three_books (word "sea") ≡ 2 }
{}

/// A constant stands in place of a score, and a boost multiplies it.
pub fn constants_replace_and_boosts_multiply()
    ensures constant { best 10 three_books (const_score (pos 7) (word "sea")) ≡ hit old_sea 7 ∷ hit sea_wind 7 ∷ [] }
    ensures boosted { best 10 three_books (boost (pos 3) (word "sea")) ≡ hit sea_wind 120 ∷ hit old_sea 90 ∷ [] }
    ensures both { best 1 three_books (boost (pos 3) (const_score (pos 7) (word "sea"))) ≡ hit old_sea 21 ∷ [] }
    ensures twice { best 1 three_books (boost (pos 3) (boost (pos 2) (word "sea"))) ≡ hit sea_wind 240 ∷ [] }
    ensures negative { best 1 three_books (boost (negsuc 2) (word "sea")) ≡ hit old_sea 0 ∷ [] }
    ensures of_a_whole_part { scan books raw_and_default (weighing 61) three_books (boost (pos 2) (word "sea")) 10
        ≡ hit sea_wind 80 ∷ hit old_sea 60 ∷ [] }
{}

/// The query for all documents earns a point times the boosts above it.
pub fn all_documents_earn_a_point()
    ensures hits { best 10 three_books sea_and_a_point ≡ hit sea_wind 71 ∷ hit old_sea 31 ∷ [] }
    ensures boosted { best 1 three_books (boost (pos 5) all) ≡ hit old_sea 5 ∷ [] }
{}

/// The norm is that of the length in the term's own field.
pub fn long_texts_earn_less()
    ensures words { scan books raw_and_default (record { weight = λ t. 60; norms = range_with_len 0 256 }) three_books
        (word "wind") 10 ≡ hit wind 30 ∷ hit sea_wind 15 ∷ [] }
    ensures values { scan books raw_and_default (record { weight = λ t. 60; norms = range_with_len 0 256 }) three_books
        (of_year 1987) 10 ≡ hit sea_wind 30 ∷ [] }
    ensures unknown { length_id (record (text_entry "title") { fieldnorms = false } ∷ []) raw_and_default 0 sea_wind
        ≡ 1 }
{}

/// A query that doesn't read counts takes each for 1.
pub fn counts_are_read_where_the_query_reads_them()
    ensures documents { best 10 three_books (term (title_term "sea") basic) ≡ hit old_sea 30 ∷ hit sea_wind 30 ∷ [] }
    ensures counts { best 10 three_books (term (title_term "sea") with_freqs) ≡ hit sea_wind 40 ∷ hit old_sea 30 ∷ [] }
{}

/// A phrase weighs what its terms weigh, and a term that stands in it twice weighs twice.
pub fn phrases_weigh_their_terms()
    ensures two_words { best 10 three_books (words ("sea" ∷ "wind" ∷ []) 0) ≡ hit sea_wind 60 ∷ [] }
    ensures a_word_twice { best 10 three_books (words ("sea" ∷ "sea" ∷ []) 0) ≡ hit sea_wind 60 ∷ [] }
    ensures three_words { best 10 three_books (words ("sea" ∷ "sea" ∷ "wind" ∷ []) 0) ≡ hit sea_wind 90 ∷ [] }
{}

/// What is begun earns what its whole words earn, and with one whole word a point.
pub fn whole_words_earn_for_the_begun_one()
    ensures one { best 10 three_books (begun ("sea" ∷ "w" ∷ [])) ≡ hit sea_wind 1 ∷ [] }
    ensures boosted { best 10 three_books (boost (pos 4) (begun ("sea" ∷ "w" ∷ []))) ≡ hit sea_wind 4 ∷ [] }
    ensures two { best 10 three_books (begun ("sea" ∷ "sea" ∷ "w" ∷ [])) ≡ hit sea_wind 60 ∷ [] }
{}
