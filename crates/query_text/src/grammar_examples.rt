//! Worked examples of the grammar, which its definitions compute.

ghost use Rattle.std.specs.Prelude.{◌++◌, ◌∷◌, ◌≡◌, Err, Ok, codes, pos};
ghost use Rattle.definitions.specs.Query.{all, boolean, boost, clause, must, must_not, no_clauses, should};
ghost use Rattle.query_text.specs.GrammarExamples.{both, itself, pair_in, plain, quoted, titles, titles_and_texts, typed, word, words_of};
ghost use Rattle.query_text.specs.Reading.{read};
ghost use Rattle.query_text.specs.Refusals.{refusal_at};
ghost use Rattle.query_text.specs.declared.refusal.Reason.TheVariants as reasons;

/// Shows how marks and spaces read: each word must match, unless one is marked by `+`.
pub fn marks_are_read()
    ensures plain { read plain (codes "sea wind") ≡ Ok (both must (word "sea") must (word "wind")) }
    ensures required { read plain (codes "+sea wind") ≡ Ok (both must (word "sea") should (word "wind")) }
    ensures excluded { read plain (codes "sea -wind") ≡ Ok (both must (word "sea") must_not (word "wind")) }
    ensures others { read plain (codes "-sea") ≡ Ok (both must all must_not (word "sea")) }
    ensures one { read plain (codes " sea ") ≡ Ok (word "sea") }
{}

/// Shows how alternatives, groups and boosts read: `OR` binds less than a space.
pub fn alternatives_are_read()
    ensures alternatives { read plain (codes "sea OR old wind") ≡ Ok (boolean (clause should (word "sea")
        (clause should (both must (word "old") must (word "wind")) no_clauses)) 1) }
    ensures group { read plain (codes "old (sea OR wind)^3") ≡ Ok (both must (word "old") must (boost (pos 3)
        (boolean (clause should (word "sea") (clause should (word "wind") no_clauses)) 1))) }
    ensures excluded { read plain (codes "old -(sea wind)")
        ≡ Ok (both must (word "old") must_not (both must (word "sea") must (word "wind"))) }
{}

/// Shows how words in capitals read, and what stands for them in other grammars.
pub fn operators_are_read()
    ensures between { read plain (codes "sea AND wind") ≡ Ok (both must (word "sea") must (word "wind")) }
    ensures without { read plain (codes "sea AND NOT wind") ≡ Ok (both must (word "sea") must_not (word "wind")) }
    ensures group { read plain (codes "old NOT (sea wind)")
        ≡ Ok (both must (word "old") must_not (both must (word "sea") must (word "wind"))) }
    ensures small { read plain (codes "not sea") ≡ Ok (both must (word "not") must (word "sea")) }
    ensures last { read plain (codes "sea AND") ≡ Err (refusal_at 4 reasons.StrayOperator) }
    ensures marked { read plain (codes "NOT -sea") ≡ Err (refusal_at 4 reasons.StrayOperator) }
    ensures foreign { read plain (codes "sea || wind") ≡ Err (refusal_at 4 reasons.ForeignOperator) }
{}

/// Shows how typed quotation marks and spaces past ASCII read; a refusal has its offset in the text.
pub fn typed_marks_are_read()
    ensures phrase { read plain (typed "old sea") ≡ Ok (word "old sea") }
    ensures space { read plain (codes "sea" ++ 194 ∷ 160 ∷ codes "wind") ≡ Ok (both must (word "sea") must (word "wind")) }
    ensures refused { read plain (typed "old" ++ codes " (sea") ≡ Err (refusal_at 10 reasons.UnclosedGroup) }
{}

/// Shows how phrases read: with a slop behind them, and with a boost.
pub fn phrases_are_read()
    ensures phrase { read plain (quoted "old (sea") ≡ Ok (word "old (sea") }
    ensures slop { read plain (quoted "old sea" ++ codes "~2^3") ≡ Ok (boost (pos 3) (itself (codes "old sea") 2)) }
    ensures excluded { read plain (codes "-title:" ++ quoted "old sea") ≡ Ok (both must all must_not (word "old sea")) }
{}

/// Shows where phrases are looked for: in the fields that record positions, and nowhere else.
pub fn phrases_need_positions()
    ensures any { read (words_of titles_and_texts) (quoted "old sea") ≡ Ok (pair_in 1 "old" "sea") }
    ensures named { read (words_of titles_and_texts) (codes "sea title:" ++ quoted "old sea")
        ≡ Err (refusal_at 4 reasons.NoPositions) }
    ensures none { read (words_of titles) (codes "sea " ++ quoted "old sea") ≡ Err (refusal_at 4 reasons.NoPositions) }
{}

/// Shows which texts are refused, and at which byte.
pub fn other_texts_are_refused()
    ensures nothing { read plain (codes " ") ≡ Err (refusal_at 0 reasons.Nothing) }
    ensures alternative { read plain (codes "sea OR OR") ≡ Err (refusal_at 7 reasons.Nothing) }
    ensures prefix { read plain (codes "old sea*") ≡ Err (refusal_at 4 reasons.LonePrefix) }
    ensures letter { read plain (codes "old s?a") ≡ Err (refusal_at 4 reasons.Wildcard) }
    ensures alike { read plain (codes "old sea~1") ≡ Err (refusal_at 4 reasons.Fuzzy) }
    ensures closed { read plain (codes "sea)") ≡ Err (refusal_at 3 reasons.StrayClose) }
    ensures opened { read plain (codes "old (sea") ≡ Err (refusal_at 4 reasons.UnclosedGroup) }
    ensures number { read plain (codes "sea^x") ≡ Err (refusal_at 0 reasons.BadNumber) }
    ensures marked { read plain (codes "old - sea") ≡ Err (refusal_at 4 reasons.NothingMarked) }
{}
