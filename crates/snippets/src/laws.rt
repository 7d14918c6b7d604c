//! What the pieces of a text are.

ghost use Rattle.std.specs.Prelude.{◌++◌, ◌≡◌, All, List, drop, length, map, ℕ};
ghost use Rattle.std.specs.List.{concat, flat_map};
ghost use Rattle.definitions.specs.Analyzers.{default_tokens};
ghost use Rattle.definitions.specs.Values.{Token};
ghost use Rattle.snippets.specs.Cutting.{cut};
ghost use Rattle.snippets.specs.Passages.{max_passage_len};
ghost use Rattle.snippets.specs.Snippets.{parts_of, with_words};

use crate::passages::MAX_PASSAGE_LEN;

/// States that the pieces of a text are the text.
pub fn pieces_are_the_text()
    ensures { (analyze : List ℕ → List Token) (s : List ℕ) → concat (map (λ p. p.0) (parts_of analyze s)) ≡ s }
{}

/// States that each piece of a text begins with its word.
pub fn pieces_begin_with_their_words()
    ensures { (analyze : List ℕ → List Token) (s : List ℕ)
        → All (λ p. p.0 ≡ p.1 ++ drop (length p.1) p.0) (parts_of analyze s) }
{}

/// States that the words of the pieces are those of the text.
pub fn words_of_pieces_are_those_of_the_text()
    ensures { (analyze : List ℕ → List Token) (s : List ℕ)
        → flat_map (λ p. map (λ t. t.text) (analyze p.0)) (parts_of analyze s) ≡ map (λ t. t.text) (analyze s) }
{}

/// States that a text is cut at its words by the analyzer `default`.
pub fn texts_are_cut_at_words()
    ensures { (s : List ℕ) → parts_of default_tokens s ≡ with_words (cut s) }
{}

/// States that `MAX_PASSAGE_LEN` is the number of that name in the definitions.
pub fn max_passage_len_is_that_of_definitions()
    ensures { MAX_PASSAGE_LEN ≡ max_passage_len }
{}
