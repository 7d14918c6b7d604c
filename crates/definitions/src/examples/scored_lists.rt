//! Lists of documents with scores, and what is made of several.

ghost use Rattle.std.specs.Prelude.{[], ◌*◌, ◌+◌, ◌++◌, ◌-◌, ◌^◌, ◌∷◌, ◌≡◌, drop, length, map, replicate, sum};
ghost use Rattle.std.specs.List.{range_with_len};
ghost use Rattle.definitions.specs.Examples.{head_or};
ghost use Rattle.definitions.specs.ScoredLists.{AreScoredFrom, at_least, boosted, documents_of, each_scoring, first_document, from_document, meeting_of, no_score, rescored, union_of, with_optional, without_all};
ghost use Rattle.definitions.specs.Scoring.{best_and_tie, max_score};
ghost use Rattle.definitions.specs.State.{pieces};

/// Documents ascend, each once, below where cursors end, and scores have a limit.
pub fn lists_ascend()
    ensures list { AreScoredFrom 0 ((0, 3) ∷ (1, 0) ∷ (2147483646, max_score) ∷ []) }
    ensures twice { ¬ AreScoredFrom 0 ((1, 3) ∷ (1, 3) ∷ []) }
    ensures end { ¬ AreScoredFrom 0 ((2147483647, 3) ∷ []) }
    ensures too_much { ¬ AreScoredFrom 0 ((1, max_score + 1) ∷ []) }
{}

/// What is left from a document on.
pub fn lists_are_left_from_a_document_on()
    ensures in_the_list { first_document (from_document 7 (each_scoring 1 (1 ∷ 5 ∷ 6 ∷ 7 ∷ 5112 ∷ []))) ≡ 7 }
    ensures after { first_document (drop 1 (from_document 7 (each_scoring 1 (1 ∷ 5 ∷ 6 ∷ 7 ∷ 5112 ∷ [])))) ≡ 5112 }
    ensures between { first_document (from_document 3 (each_scoring 1 (1 ∷ 5 ∷ 6 ∷ 7 ∷ 5112 ∷ []))) ≡ 5 }
    ensures past { first_document (from_document 5113 (each_scoring 1 (1 ∷ 5 ∷ 6 ∷ 7 ∷ 5112 ∷ []))) ≡ 2147483647 }
    ensures none { first_document [] ≡ 2147483647 }
    ensures threes { map (λ t. first_document (from_document t
        (each_scoring 1 (map (λ i. 3 * i) (range_with_len 0 1024))))) (14 ∷ 300 ∷ 6000 ∷ []) ≡ 15 ∷ 300 ∷ 2147483647
        ∷ [] }
    ensures buffers { map length (pieces 64 (each_scoring 1 (range_with_len 1 137))) ≡ 64 ∷ 64 ∷ 9 ∷ [] }
{}

/// Of one list the documents that none of the others has.
pub fn others_are_taken_away()
    ensures left { documents_of (without_all (each_scoring 1 (1 ∷ 2 ∷ 3 ∷ 10 ∷ 16 ∷ 24 ∷ [])
        ∷ []) (each_scoring 1 (1 ∷ 2 ∷ 5 ∷ 8 ∷ 10 ∷ 15 ∷ 24 ∷ []))) ≡ 5 ∷ 8 ∷ 15 ∷ [] }
    ensures seeks { map (λ t. first_document (from_document t (without_all (each_scoring 1 (1 ∷ 2 ∷ 3 ∷ 10 ∷ 16 ∷ 24
        ∷ []) ∷ []) (each_scoring 1 (1 ∷ 2 ∷ 5 ∷ 8 ∷ 10 ∷ 15 ∷ 24 ∷ []))))) (5 ∷ 8 ∷ 10 ∷ 15 ∷ 24 ∷ []) ≡ 5 ∷ 8 ∷ 15
        ∷ 15 ∷ 2147483647 ∷ [] }
    ensures two_others { documents_of (without_all (each_scoring 1 (1 ∷ []) ∷ each_scoring 1 (3 ∷ [])
        ∷ []) (each_scoring 1 (1 ∷ 2 ∷ 3 ∷ []))) ≡ 2 ∷ [] }
    ensures scores { without_all (each_scoring 9 (2 ∷ []) ∷ []) ((1, 3) ∷ (2, 4) ∷ []) ≡ (1, 3) ∷ [] }
{}

/// The documents that enough lists have, with their scores added up.
pub fn enough_lists_have_a_document()
    ensures three { at_least 3 sum (map (each_scoring 1) ((1 ∷ 2 ∷ []) ∷ (1 ∷ 3 ∷ []) ∷ (1 ∷ 4 ∷ []) ∷ (1 ∷ 2 ∷ [])
        ∷ (1 ∷ 2 ∷ []) ∷ [])) ≡ (1, 5) ∷ (2, 3) ∷ [] }
    ensures two { at_least 2 sum (map (each_scoring 1) ((1 ∷ 2 ∷ []) ∷ (1 ∷ 3 ∷ []) ∷ (1 ∷ 3 ∷ []) ∷ [])) ≡ (1, 3)
        ∷ (3, 2) ∷ [] }
    ensures far { documents_of (at_least 2 sum (map (each_scoring 1) ((1 ∷ 3333 ∷ 100000000 ∷ [])
        ∷ (1 ∷ 2 ∷ 100000000 ∷ []) ∷ (1 ∷ 2 ∷ 100000000 ∷ []) ∷ []))) ≡ 1 ∷ 2 ∷ 100000000 ∷ [] }
    ensures all { documents_of (at_least 3 sum (map (each_scoring 1) ((1 ∷ 3333 ∷ 100000000 ∷ [])
        ∷ (1 ∷ 2 ∷ 100000000 ∷ []) ∷ (1 ∷ 2 ∷ 100000000 ∷ []) ∷ []))) ≡ 1 ∷ 100000000 ∷ [] }
    ensures apart { at_least 2 sum (map (each_scoring 1) ((8 ∷ []) ∷ (3 ∷ 4 ∷ 12648430 ∷ []) ∷ (1 ∷ 2 ∷ 100000000 ∷ [])
        ∷ [])) ≡ [] }
    ensures alike { at_least (2 ^ 64 - 1) sum (replicate 10000 (each_scoring 1 (12648430 ∷ []))) ≡ [] }
    ensures one_each { at_least 2 sum (map (λ doc. each_scoring 1 (doc ∷ [])) (range_with_len 1 9999)) ≡ [] }
    ensures no_list { at_least 2 sum [] ≡ [] }
{}

/// The documents that all lists have.
pub fn lists_meet()
    ensures two { documents_of (meeting_of sum (map (each_scoring 1) ((1 ∷ 3 ∷ 9 ∷ []) ∷ (3 ∷ 4 ∷ 9 ∷ 18 ∷ []) ∷ [])))
        ≡ 3 ∷ 9 ∷ [] }
    ensures three { documents_of (meeting_of sum (map (each_scoring 1) ((1 ∷ 3 ∷ 9 ∷ []) ∷ (3 ∷ 4 ∷ 9 ∷ 18 ∷ [])
        ∷ (1 ∷ 5 ∷ 9 ∷ 111 ∷ []) ∷ []))) ≡ 9 ∷ [] }
    ensures zero { documents_of (meeting_of sum (map (each_scoring 1) ((0 ∷ []) ∷ (0 ∷ []) ∷ []))) ≡ 0 ∷ [] }
    ensures five { documents_of (meeting_of sum (map (each_scoring 1) ((1 ∷ 4 ∷ 5 ∷ 6 ∷ []) ∷ (1 ∷ 2 ∷ 5 ∷ 6 ∷ [])
        ∷ (1 ∷ 4 ∷ 5 ∷ 6 ∷ []) ∷ (1 ∷ 5 ∷ 6 ∷ []) ∷ (2 ∷ 4 ∷ 5 ∷ 7 ∷ 8 ∷ []) ∷ []))) ≡ 5 ∷ [] }
    ensures none { meeting_of sum (map (each_scoring 1) ((1 ∷ 3 ∷ []) ∷ (1 ∷ 4 ∷ []) ∷ (3 ∷ 9 ∷ []) ∷ [])) ≡ [] }
    ensures from_two { first_document (from_document 2 (meeting_of sum (map (each_scoring 1) ((0 ∷ 1 ∷ 2 ∷ 4 ∷ [])
        ∷ (2 ∷ 5 ∷ []) ∷ [])))) ≡ 2 }
    ensures scores { meeting_of sum (map (each_scoring 1) ((0 ∷ 10000 ∷ []) ∷ (0 ∷ 10000 ∷ [])
        ∷ (0 ∷ 20000 ∷ range_with_len 30000 100) ∷ [])) ≡ (0, 3) ∷ [] }
    ensures no_list { meeting_of sum [] ≡ [] }
{}

/// The documents that some list has, with what each combiner makes of their scores.
pub fn unions_combine_scores()
    ensures added { union_of sum (((1, 40) ∷ (3, 30) ∷ []) ∷ ((1, 30) ∷ (2, 30) ∷ []) ∷ []) ≡ (1, 70) ∷ (2, 30)
        ∷ (3, 30) ∷ [] }
    ensures best { union_of (best_and_tie 500) (((1, 40) ∷ (3, 30) ∷ []) ∷ ((1, 30) ∷ (2, 30) ∷ []) ∷ []) ≡ (1, 55)
        ∷ (2, 30) ∷ (3, 30) ∷ [] }
    ensures without { union_of no_score (((1, 40) ∷ (3, 30) ∷ []) ∷ ((1, 30) ∷ (2, 30) ∷ []) ∷ []) ≡ (1, 1) ∷ (2, 1)
        ∷ (3, 1) ∷ [] }
    ensures in_order { union_of (head_or 0) (((1, 40) ∷ []) ∷ ((1, 30) ∷ []) ∷ []) ≡ (1, 40) ∷ [] }
    ensures score_of_zero { union_of sum (((1, 0) ∷ []) ∷ []) ≡ (1, 0) ∷ [] }
{}

/// An optional list adds scores, and no document.
pub fn optional_lists_only_score()
    ensures scores { map (λ p. p.1) (with_optional sum (each_scoring 1 (1 ∷ 3 ∷ 7 ∷ 8 ∷ 9 ∷ 10 ∷ 13 ∷ 15
        ∷ [])) (each_scoring 1 (1 ∷ 2 ∷ 7 ∷ 11 ∷ 12 ∷ 15 ∷ []))) ≡ 2 ∷ 1 ∷ 2 ∷ 1 ∷ 1 ∷ 1 ∷ 1 ∷ 2 ∷ [] }
    ensures from_seven { from_document 7 (with_optional sum (each_scoring 1 (1 ∷ 3 ∷ 7 ∷ [])) (each_scoring 1 (2 ∷ 7
        ∷ 11 ∷ 12 ∷ 15 ∷ []))) ≡ (7, 2) ∷ [] }
    ensures from_twelve { from_document 12 (with_optional sum (each_scoring 1 (1 ∷ 3 ∷ 7 ∷ 8 ∷ 9 ∷ 10 ∷ 13 ∷ 15
        ∷ [])) (each_scoring 1 (2 ∷ 7 ∷ 11 ∷ 12 ∷ 15 ∷ []))) ≡ (13, 1) ∷ (15, 2) ∷ [] }
    ensures required_first { with_optional (head_or 0) ((1, 40) ∷ (2, 30) ∷ []) ((1, 7) ∷ (3, 9) ∷ []) ≡ (1, 40)
        ∷ (2, 30) ∷ [] }
{}

/// A boost multiplies scores, and a constant stands in their place.
pub fn scores_change_in_place()
    ensures boost { boosted 3 ((1, 40) ∷ (2, 0) ∷ []) ≡ (1, 120) ∷ (2, 0) ∷ [] }
    ensures constant { rescored 7 ((1, 40) ∷ (2, 0) ∷ []) ≡ (1, 7) ∷ (2, 7) ∷ [] }
{}
