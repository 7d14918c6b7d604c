//! Which queries are refused.
#![tactic(auto, unfolding(crate::specs::Refusing::node_fault))]

ghost use Rattle.std.specs.Prelude.{[], ◌++◌, ◌+◌, ◌∷◌, ◌≡◌, None, Some, codes, false, negsuc, pos, replicate};
ghost use Rattle.definitions.specs.Examples.{bare, begun, best_of, books, bool_of, in_a_row, json_data, nested, sea_or_wind, text_entry, title_term, word, words, year_term};
ghost use Rattle.definitions.specs.Query.{all, boost, clause, const_score, disjunction_max, empty, must, must_not, no_clauses, no_queries, phrase, phrase_prefix, should, term};
ghost use Rattle.definitions.specs.Refusing.{refusal};
ghost use Rattle.definitions.specs.Schema.{basic, facet_kind, json_kind, text_kind, u64_kind};
ghost use Rattle.definitions.specs.Scoring.{max_score};
ghost use Rattle.definitions.specs.Terms.{json_term, signed_bytes, term_bytes};
ghost use Rattle.definitions.specs.declared.fault.Fault.TheVariants as faults;

/// A phrase is over fields with positions, and over texts.
pub fn phrases_are_over_texts_with_positions()
    ensures years { refusal books (λ t. 60) (phrase ((0, year_term 1952) ∷ (1, year_term 1987) ∷ []) 0)
        ≡ Some faults.NoPositions }
    ensures titles { refusal books (λ t. 60) (words ("old" ∷ "sea" ∷ []) 0) ≡ None }
    ensures numbers_in_json { refusal json_data (λ t. 60) (phrase
        ((0, json_term 0 (codes "a") (codes "i" ++ signed_bytes (pos 5))) ∷ []) 0) ≡ Some faults.NotText }
    ensures texts_in_json { refusal json_data (λ t. 60) (phrase ((0, json_term 0 (codes "a") (codes "sx")) ∷ []) 0)
        ≡ None }
{}

/// No score may pass the greatest.
pub fn scores_have_a_limit()
    ensures boosts { refusal books (λ t. 60) (boost (pos 1000000)
        (boost (pos 1000000) (boost (pos 1000000) (word "sea")))) ≡ Some faults.ScoreTooLarge }
    ensures two_boosts { refusal books (λ t. 60) (boost (pos 1000) (boost (pos 1000000) (word "sea"))) ≡ None }
    ensures greatest { refusal books (λ t. 60) (const_score (pos max_score) all) ≡ None }
    ensures one_more { refusal books (λ t. 60) (const_score (pos (max_score + 1)) all) ≡ Some faults.ScoreTooLarge }
    ensures negative { refusal books (λ t. 60) (boost (negsuc 0) all) ≡ Some faults.ScoreTooLarge }
    ensures sum { refusal books (λ t. max_score) sea_or_wind ≡ Some faults.ScoreTooLarge }
    ensures alone { refusal books (λ t. max_score) (word "sea") ≡ None }
    ensures forbidden { refusal books (λ t. max_score) (bool_of
        (clause must (word "sea") (clause must_not (word "wind") no_clauses))) ≡ None }
    ensures in_a_forbidden_one { refusal books (λ t. 60) (bool_of (clause must_not (boost (negsuc 0) all) no_clauses))
        ≡ Some faults.ScoreTooLarge }
{}

/// A path has at most 64 nodes.
pub fn paths_have_a_limit()
    ensures longest { refusal books (λ t. 60) (nested 63 (word "sea")) ≡ None }
    ensures one_more { refusal books (λ t. 60) (nested 64 (word "sea")) ≡ Some faults.TooDeep }
    ensures tested_first { refusal books (λ t. 60) (boost (negsuc 0) (nested 64 all)) ≡ Some faults.TooDeep }
    ensures through_clauses { refusal books (λ t. 60) (bool_of
        (clause should all (clause should (nested 64 (word "sea")) no_clauses))) ≡ Some faults.TooDeep }
{}

/// A term is of a field of the schema that is indexed and of the term's kind.
pub fn terms_are_of_indexed_fields()
    ensures unknown { refusal books (λ t. 60) (term (term_bytes 2 text_kind (codes "sea")) basic)
        ≡ Some faults.UnknownField }
    ensures not_indexed { refusal (record (text_entry "title") { indexed = false } ∷ []) (λ t. 60) (word "sea")
        ≡ Some faults.NotIndexed }
    ensures facet { refusal (bare "data" facet_kind ∷ []) (λ t. 60) (term (term_bytes 0 facet_kind []) basic) ≡ None }
    ensures other_kind { refusal books (λ t. 60) (term (term_bytes 1 text_kind (codes "sea")) basic)
        ≡ Some faults.TypeMismatch }
    ensures no_path { refusal json_data (λ t. 60) (term (term_bytes 0 json_kind (codes "sx")) basic)
        ≡ Some faults.TypeMismatch }
    ensures path_before_the_zero { refusal json_data (λ t. 60) (term (term_bytes 0 json_kind (codes "s" ++ (0
        ∷ codes "b"))) basic) ≡ Some faults.TypeMismatch }
    ensures no_inner_kind { refusal json_data (λ t. 60) (term (json_term 0 (codes "a") (codes "hx")) basic)
        ≡ Some faults.TypeMismatch }
    ensures json { refusal json_data (λ t. 60) (term (json_term 0 (codes "a") (codes "sx")) basic) ≡ None }
{}

/// A term whose offset is past 2 to the 30th is refused, and a begun word without a whole one.
pub fn phrases_have_limits()
    ensures greatest_offset { refusal books (λ t. 60) (phrase ((0, title_term "old") ∷ (1073741824, title_term "sea")
        ∷ []) 0) ≡ None }
    ensures offset { refusal books (λ t. 60) (phrase ((0, title_term "old") ∷ (1073741825, title_term "sea") ∷ []) 0)
        ≡ Some faults.OffsetTooLarge }
    ensures no_whole_word { refusal books (λ t. 60) (begun ("sea" ∷ [])) ≡ Some faults.NoWholeTerm }
    ensures some_expansions { refusal books (λ t. 60) (phrase_prefix (in_a_row ("sea" ∷ "w" ∷ [])) 4294967294)
        ≡ Some faults.PartialExpansion }
    ensures all_of_them { refusal books (λ t. 60) (begun ("sea" ∷ "w" ∷ [])) ≡ None }
{}

/// A tie breaker is a number of thousandths.
pub fn ties_are_thousandths()
    ensures greatest { refusal books (λ t. 60) (best_of (word "sea" ∷ []) 1000) ≡ None }
    ensures one_more { refusal books (λ t. 60) (best_of (word "sea" ∷ []) 1001) ≡ Some faults.BadTieBreaker }
    ensures negative { refusal books (λ t. 60) (disjunction_max no_queries (negsuc 0)) ≡ Some faults.BadTieBreaker }
{}

/// A node is tested before those below it, and a child with all below it before the next.
pub fn refusals_have_an_order()
    ensures outer { refusal books (λ t. 60) (boost (negsuc 0) (best_of [] 1001)) ≡ Some faults.ScoreTooLarge }
    ensures first { refusal books (λ t. 60) (best_of (best_of [] 1001 ∷ boost (negsuc 0) all ∷ []) 0)
        ≡ Some faults.BadTieBreaker }
    ensures second { refusal books (λ t. 60) (best_of (boost (negsuc 0) all ∷ best_of [] 1001 ∷ []) 0)
        ≡ Some faults.ScoreTooLarge }
    ensures below_the_first { refusal books (λ t. 60) (best_of (boost (pos 1) (best_of [] 1001) ∷ boost (negsuc 0) all
        ∷ []) 0) ≡ Some faults.BadTieBreaker }
    ensures tests { refusal books (λ t. 60) (phrase ((0, year_term 1952) ∷ (1, term_bytes 2 text_kind []) ∷ []) 0)
        ≡ Some faults.UnknownField }
    ensures positions_before_offsets { refusal books (λ t. 60) (phrase ((0, year_term 1952)
        ∷ (1073741825, year_term 1987) ∷ []) 0) ≡ Some faults.NoPositions }
    ensures score_last { refusal books (λ t. max_score) (begun ("sea" ∷ [])) ≡ Some faults.NoWholeTerm }
{}

/// The product of boosts has the limit by itself, and a child of a constant is tested too.
pub fn boosts_have_a_limit_together()
    ensures product_over_nothing { refusal books (λ t. 60) (boost (pos 1000000000) (boost (pos 1000000000) empty))
        ≡ Some faults.ScoreTooLarge }
    ensures product_without_weight { refusal books (λ t. 0) (boost (pos 1000000000)
        (boost (pos 1000000000) (word "sea"))) ≡ Some faults.ScoreTooLarge }
    ensures product_over_not { refusal books (λ t. 60) (bool_of
        (clause must_not (boost (pos 1000000000) (boost (pos 1000000000) empty)) no_clauses))
        ≡ Some faults.ScoreTooLarge }
    ensures one_whole_word { refusal books (λ t. max_score) (boost (pos 2) (begun ("sea" ∷ "w" ∷ []))) ≡ None }
    ensures two_whole_words { refusal books (λ t. max_score) (begun ("sea" ∷ "sea" ∷ "w" ∷ []))
        ≡ Some faults.ScoreTooLarge }
    ensures const_under_boost { refusal books (λ t. 60) (boost (pos 2) (const_score (pos max_score) all))
        ≡ Some faults.ScoreTooLarge }
    ensures child_of_const { refusal books (λ t. max_score) (const_score (pos 0) (boost (pos 2) (word "sea")))
        ≡ Some faults.ScoreTooLarge }
{}

/// Of the tests of one node the earlier one decides.
pub fn tests_have_an_order()
    ensures whole_before_limit { refusal books (λ t. 60) (phrase_prefix (in_a_row ("sea" ∷ [])) 50)
        ≡ Some faults.NoWholeTerm }
    ensures text_before_offset { refusal json_data (λ t. 60)
        (phrase ((0, json_term 0 (codes "a") (codes "i" ++ replicate 8 0))
        ∷ (1073741825, json_term 0 (codes "a") (codes "sx")) ∷ []) 0) ≡ Some faults.NotText }
    ensures offset_before_whole { refusal books (λ t. 60) (phrase_prefix ((1073741825, title_term "sea") ∷ []) 50)
        ≡ Some faults.OffsetTooLarge }
    ensures tie_before_score { refusal books (λ t. max_score) (best_of (word "sea" ∷ word "wind" ∷ []) 1001)
        ≡ Some faults.BadTieBreaker }
    ensures indexed_before_kind { refusal (record (text_entry "title") { indexed = false }
        ∷ []) (λ t. 60) (term (term_bytes 0 u64_kind (codes "sea")) basic) ≡ Some faults.NotIndexed }
{}
