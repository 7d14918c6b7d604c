//! When two texts have the same words.

ghost use Rattle.std.specs.Prelude.{◌≡◌, ◌↔◌, List, chars, ℕ};
ghost use Rattle.caseless.specs.Caseless.{IsCompatibilityMatch};
ghost use Rattle.languages.specs.Tokens.{IsOneWord, english18, plain18, words18};

/// States that texts have the same words where Unicode's compatibility caseless matching holds of them.
pub fn texts_that_match_have_the_same_words()
    ensures words { (s t : List ℕ) → IsCompatibilityMatch (chars s) (chars t) → words18 s ≡ words18 t }
    ensures plain { (s t : List ℕ) → IsCompatibilityMatch (chars s) (chars t) → plain18 s ≡ plain18 t }
    ensures english { (s t : List ℕ) → IsCompatibilityMatch (chars s) (chars t) → english18 s ≡ english18 t }
{}

/// States that two words meet by `words18` exactly where Unicode's compatibility caseless matching holds of them.
pub fn words_meet_where_they_match()
    ensures { (s t : List ℕ) → IsOneWord s → IsOneWord t
        → ((words18 s ≡ words18 t) ↔ IsCompatibilityMatch (chars s) (chars t)) }
{}
