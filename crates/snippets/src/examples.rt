//! Worked examples of how snippets are shown, which the definitions compute.
#![tactic(auto, unfolding(crate::proofs::OnLiterals::shown_on_literals))]

ghost use Rattle.std.specs.Prelude.{[], ◌∷◌, ◌≡◌, None, Some, codes};
ghost use Rattle.snippets.specs.Examples.{old_quay_wall, piece};
ghost use Rattle.snippets.specs.ShownTexts.{begun, shown_piece, shown_snippet, shown_text};

/// Shows how a piece is shown: its word between brackets if it has one that is looked for.
pub fn words_are_marked()
    ensures found { shown_piece (piece "quay." "quay" (Some 0)) ≡ codes "[quay]." }
    ensures other { shown_piece (piece "quay." "quay" None) ≡ codes "quay." }
    ensures whole { shown_piece (piece "Old Quay" "Old Quay" (Some 1)) ≡ codes "[Old Quay]" }
{}

/// Shows that a control character is shown as a space, one of two bytes too, and that other characters stay.
pub fn control_characters_are_spaces()
    ensures tab { shown_text (97 ∷ 9 ∷ 98 ∷ []) ≡ codes "a b" }
    ensures next_line { shown_text (97 ∷ 194 ∷ 133 ∷ 98 ∷ []) ≡ codes "a b" }
    ensures other { shown_text (195 ∷ 169 ∷ []) ≡ 195 ∷ 169 ∷ [] }
{}

/// Shows where two dots stand: before a passage, and behind it, where the text goes on.
pub fn dots_are_where_the_text_goes_on()
    ensures whole { shown_snippet old_quay_wall 0 3 ≡ codes " old [quay] wall" }
    ensures first { shown_snippet old_quay_wall 0 2 ≡ codes " old [quay] .." }
    ensures inside { shown_snippet old_quay_wall 1 2 ≡ codes " .. [quay] .." }
    ensures last { shown_snippet old_quay_wall 2 3 ≡ codes " .. wall" }
    ensures begun { shown_snippet old_quay_wall 0 0 ≡ codes " old .." }
    ensures none { shown_snippet [] 0 0 ≡ codes " " }
{}

/// Shows that of a word which is too long the characters are shown that there is room for, each of them whole.
pub fn long_words_are_begun()
    ensures letters { begun 3 (codes "quay") ≡ codes "qua" }
    ensures whole { begun 4 (codes "quay") ≡ codes "quay" }
    ensures room { begun 3 (97 ∷ 233 ∷ 98 ∷ []) ≡ 97 ∷ 233 ∷ [] }
    ensures none { begun 2 (97 ∷ 233 ∷ 98 ∷ []) ≡ 97 ∷ [] }
{}
