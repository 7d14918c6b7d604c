//! Alive sets as bytes.

ghost use Rattle.std.specs.Prelude.{[], ◌++◌, ◌∷◌, ◌≡◌, false, replicate, true};
ghost use Rattle.layouts.specs.AliveSets.{alive_bytes, alive_words, word_of};

/// A set of no documents is its length alone.
pub fn a_set_of_none_has_no_word()
    ensures { alive_bytes [] ≡ replicate 4 0 }
{}

/// Bit `i` of a word is flag `i`.
pub fn flags_are_bits_of_a_word()
    ensures one { alive_bytes (true ∷ []) ≡ 1 ∷ 0 ∷ 0 ∷ 0 ∷ 1 ∷ replicate 7 0 }
    ensures dead { alive_bytes (false ∷ []) ≡ 1 ∷ 0 ∷ 0 ∷ 0 ∷ replicate 8 0 }
    ensures third { alive_bytes (false ∷ false ∷ true ∷ []) ≡ 3 ∷ 0 ∷ 0 ∷ 0 ∷ 4 ∷ replicate 7 0 }
    ensures ten { alive_bytes (replicate 10 true) ≡ 10 ∷ 0 ∷ 0 ∷ 0 ∷ 0xff ∷ 3 ∷ replicate 6 0 }
    ensures last { word_of (replicate 63 false ++ (true ∷ [])) ≡ 0x8000_0000_0000_0000 }
{}

/// A word has 64 flags; the next flag begins another word.
pub fn words_have_64_flags()
    ensures full { alive_bytes (replicate 64 true) ≡ 64 ∷ 0 ∷ 0 ∷ 0 ∷ replicate 8 0xff }
    ensures more { alive_bytes (replicate 64 false ++ (true ∷ [])) ≡ 65 ∷ 0 ∷ 0 ∷ 0
        ∷ replicate 8 0 ++ (1 ∷ replicate 7 0) }
    ensures words { alive_words (replicate 129 true) ≡ 0xffff_ffff_ffff_ffff ∷ 0xffff_ffff_ffff_ffff ∷ 1 ∷ [] }
{}
