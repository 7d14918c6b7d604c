//! Postings, bounds of blocks, and sinks.

ghost use Rattle.std.specs.Prelude.{[], ◌++◌, ◌∷◌, ◌≡◌, List, length, map, negsuc, pos, replicate, ℕ};
ghost use Rattle.definitions.specs.Analyzers.{raw_and_default};
ghost use Rattle.definitions.specs.Blocks.{blocks, bound_of, bound_score};
ghost use Rattle.definitions.specs.Examples.{best_threshold, book, books, falling_blocks, head_or, keep_best, three_books, title_term, weighing, year_term};
ghost use Rattle.definitions.specs.Postings.{postings};
ghost use Rattle.definitions.specs.Schema.{with_freqs};
ghost use Rattle.definitions.specs.Sinks.{blocks_above, fed, later_blocks_above};
ghost use Rattle.definitions.specs.TermBlocks.{scored_blocks};

/// The documents that have a term, each with its count and positions.
pub fn postings_list_documents()
    ensures sea { postings books raw_and_default (title_term "sea") three_books
        ≡ record { doc = 0; count = 1; positions = 2 ∷ [] } ∷ record { doc = 1; count = 2; positions = 0 ∷ 1 ∷ [] }
        ∷ [] }
    ensures year { postings books raw_and_default (year_term 1952) three_books
        ≡ record { doc = 0; count = 1; positions = [] } ∷ record { doc = 2; count = 1; positions = [] } ∷ [] }
    ensures nothing { postings books raw_and_default (title_term "x") three_books ≡ [] }
{}

/// A full block is bound by its least length id and its greatest count.
pub fn full_blocks_have_a_bound()
    ensures equal { bound_of (replicate 128 (2, 2)) ≡ Some (2, 2) }
    ensures least_and_greatest { bound_of (replicate 127 (2, 2) ++ ((1, 5) ∷ [])) ≡ Some (1, 5) }
    ensures greatest_count { bound_of (replicate 127 (2, 2) ++ ((3, 254) ∷ [])) ≡ Some (2, 254) }
    ensures too_great { bound_of (replicate 127 (2, 2) ++ ((3, 255) ∷ [])) ≡ None }
    ensures rest { bound_of (replicate 127 (2, 2)) ≡ None }
{}

/// 128 documents fill a block, and what is left is a block of its own.
pub fn documents_stand_in_blocks()
    ensures lengths { map length (blocks books raw_and_default (year_term 1) (replicate 130 (book "a" 1))) ≡ 128 ∷ 2
        ∷ [] }
    ensures pairs { blocks books raw_and_default (title_term "sea") three_books ≡ ((3, 1) ∷ (3, 2) ∷ []) ∷ [] }
    ensures none { blocks books raw_and_default (title_term "x") three_books ≡ [] }
{}

/// A bound's score is that of its length and count, and without a bound the weight.
pub fn bounds_have_scores()
    ensures bound { bound_score 3 60 (1 ∷ 1 ∷ 1 ∷ []) (Some (2, 2)) ≡ 120 }
    ensures none { bound_score 3 60 (1 ∷ 1 ∷ 1 ∷ []) None ≡ 180 }
{}

/// A sink takes what is above its threshold as it then stands, and no tie.
pub fn sinks_take_what_is_above()
    ensures rising { fed (λ (s : List ℕ). pos (head_or 0 s)) (λ s p. p.1 ∷ s) [] ((0, 3) ∷ (1, 3) ∷ (2, 2) ∷ (3, 4)
        ∷ []) ≡ 4 ∷ 3 ∷ [] }
    ensures from_zero { fed (λ (s : List ℕ). negsuc 0) (λ s p. p.1 ∷ s) [] ((0, 3) ∷ (1, 0) ∷ []) ≡ 0 ∷ 3 ∷ [] }
    ensures none { fed (λ (s : List ℕ). pos 3) (λ s p. p.1 ∷ s) [] ((0, 3) ∷ (1, 0) ∷ []) ≡ [] }
{}

/// A walk that keeps the best k needs the blocks after the first whose bounds are above the threshold as it then stands.
pub fn blocks_above_the_threshold_are_counted()
    ensures no_hit { later_blocks_above (best_threshold 0) (keep_best 0) [] falling_blocks ≡ 0 }
    ensures one { later_blocks_above (best_threshold 1) (keep_best 1) [] falling_blocks ≡ 0 }
    ensures full { later_blocks_above (best_threshold 128) (keep_best 128) [] falling_blocks ≡ 0 }
    ensures one_more { later_blocks_above (best_threshold 129) (keep_best 129) [] falling_blocks ≡ 1 }
    ensures empty { blocks_above (best_threshold 1) (keep_best 1) [] ((40, []) ∷ []) ≡ 0 }
    ensures none { later_blocks_above (best_threshold 1) (keep_best 1) [] [] ≡ 0 }
{}

/// The documents of a term stand in blocks, each with the score of its bound.
pub fn blocks_have_scored_documents()
    ensures rest { scored_blocks books raw_and_default (weighing 60) 1 (title_term "sea") with_freqs three_books
        ≡ (60, (0, 30) ∷ (1, 40) ∷ []) ∷ [] }
    ensures boosted { scored_blocks books raw_and_default (weighing 60) 3 (title_term "sea") with_freqs three_books
        ≡ (180, (0, 90) ∷ (1, 120) ∷ []) ∷ [] }
    ensures bounds { map (λ block. block.0) (scored_blocks books raw_and_default (weighing 60) 1 (title_term "a")
        with_freqs (replicate 130 (book "a" 1))) ≡ 30 ∷ 60 ∷ [] }
    ensures lengths { map (λ block. length block.1) (scored_blocks books raw_and_default (weighing 60) 1
        (title_term "a") with_freqs (replicate 130 (book "a" 1))) ≡ 128 ∷ 2 ∷ [] }
    ensures nothing { scored_blocks books raw_and_default (weighing 60) 1 (title_term "x") with_freqs three_books ≡ [] }
{}
