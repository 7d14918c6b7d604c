//! Laws of facets, lengths, words and phrases.

ghost use Rattle.std.specs.Prelude.{◌≡◌, ◌≢◌, ◌<◌, ◌≤◌, ◌∷◌, ◌++◌, [], ℕ, IsFalse, IsTrue, List, None, Some, filter, reverse};
ghost use Rattle.std.specs.List.{AllByRecursion, concat};
ghost use Rattle.definitions.specs.Analyzers.{IsAnalyzer, is_word_byte, raw_and_default, runs};
ghost use Rattle.definitions.specs.Facets.{facet_of_path, path_of, slash};
ghost use Rattle.definitions.specs.Lengths.{fieldnorm_to_id, id_to_fieldnorm};
ghost use Rattle.definitions.specs.Phrases.{is_reached};
ghost use Rattle.definitions.specs.Values.{IsFacet};
ghost use Rattle.definitions.specs.Walking.{is_led_to};

/// The path of a facet is read back to it.
pub fn a_facets_path_reads_back()
    ensures { (steps : List (List ℕ)) → IsFacet steps → facet_of_path (path_of steps) ≡ Some steps }
{}

/// What doesn't begin with a slash is no facet's path.
pub fn a_path_without_slash_is_no_facet()
    ensures nothing { facet_of_path [] ≡ None }
    ensures another { (c : ℕ) (path : List ℕ) → c ≢ slash → facet_of_path (c ∷ path) ≡ None }
{}

/// The id of a length is the greatest of 0 to 255 whose length isn't above it.
pub fn a_length_id_is_the_greatest()
    ensures one_byte { (n : ℕ) → fieldnorm_to_id n ≤ 255 }
    ensures not_above { (n : ℕ) → id_to_fieldnorm (fieldnorm_to_id n) ≤ n }
    ensures greatest { (n i : ℕ) → i ≤ 255 → id_to_fieldnorm i ≤ n → i ≤ fieldnorm_to_id n }
{}

/// A greater id stands for a greater length.
pub fn lengths_rise()
    ensures { (i j : ℕ) → i < j → j ≤ 255 → id_to_fieldnorm i < id_to_fieldnorm j }
{}

/// The runs of a text joined are its word bytes, no run is empty, and each byte of a run is a word byte.
pub fn runs_are_the_words()
    ensures joined { (s : List ℕ) → concat (runs s) ≡ filter is_word_byte s }
    ensures words { (s : List ℕ) → AllByRecursion (λ run. (run ≢ [])
        × AllByRecursion (λ b. IsTrue (is_word_byte b)) run) (runs s) }
{}

/// Word bytes up to the next other byte, or to the end, are one run.
pub fn runs_are_longest()
    ensures followed { (run : List ℕ) (b : ℕ) (s : List ℕ) → run ≢ []
        → AllByRecursion (λ c. IsTrue (is_word_byte c)) run → IsFalse (is_word_byte b)
        → runs (run ++ (b ∷ s)) ≡ run ∷ runs s }
    ensures last { (run : List ℕ) → run ≢ [] → AllByRecursion (λ c. IsTrue (is_word_byte c)) run → runs run ≡ run ∷ [] }
    ensures skipped { (b : ℕ) (s : List ℕ) → IsFalse (is_word_byte b) → runs (b ∷ s) ≡ runs s }
{}

/// Some choice from the earlier terms leads to a place where a walk from the nearest term back does.
pub fn walks_find_phrases()
    ensures { (earlier : List (List ℕ)) (slop r : ℕ) → is_reached earlier slop r ≡ is_led_to (reverse earlier) slop r }
{}

/// The tokens of `raw` and `default` are texts whose positions never fall.
pub fn default_positions_never_fall()
    ensures { IsAnalyzer raw_and_default }
{}
