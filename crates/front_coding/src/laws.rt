//! What front coding promises.

ghost use Rattle.std.specs.Prelude.{[], ◌+◌, ◌++◌, ◌<◌, ◌≡◌, ◌^◌, ◌∷◌, List, None, Some, false, flat_map, length, map, true, slice_index, ℕ};
ghost use Rattle.std.specs.Cmp.Lexicographic.{slice_cmp};
ghost use Rattle.std.specs.List.{AllByRecursion};
ghost use Rattle.std.specs.Ordering.{nat_cmp};
ghost use Rattle.std.specs.declared.cmp.Ordering.TheVariants.{Less};
ghost use Rattle.definitions.specs.NumberCodes.{AreBytes};
ghost use Rattle.layouts.specs.TermSections.{TermsAscend, Told, block_size, coded_entry, coded_terms, next_key};
ghost use Rattle.front_coding.specs.TakenKeys.{LengthsFit, take_next_key};

/// A key that stands above the one before is taken back.
pub fn what_was_put_is_taken_back()
    ensures { (before key rest : List ℕ) → slice_cmp nat_cmp before key ≡ Less → length before < 2 ^ 64
        → length key < 2 ^ 64 → take_next_key before (next_key before key ++ rest) ≡ Some (key, rest) }
{}

/// What is taken stands above the key before, and stood there as it is put: no other shared length is taken.
pub fn what_is_taken_was_put()
    ensures { (before bs key rest : List ℕ) → AreBytes bs → take_next_key before bs ≡ Some (key, rest)
        → (slice_cmp nat_cmp before key ≡ Less) × (bs ≡ next_key before key ++ rest) }
{}

/// As many ascending terms, whose numbers fit, have no other bytes: front-coded terms have one reading.
pub fn coded_terms_have_one_reading()
    ensures { (size : ℕ) (ts us : List Told) (rest others : List ℕ)
        → length ts ≡ length us
        → length (coded_terms size ts ++ rest) < 2 ^ 63
        → TermsAscend (map (λ t. t.0) ts)
        → TermsAscend (map (λ t. t.0) us)
        → AllByRecursion (λ t. LengthsFit t.1) ts
        → AllByRecursion (λ t. LengthsFit t.1) us
        → coded_terms size ts ++ rest ≡ coded_terms size us ++ others
        → (ts ≡ us) × (rest ≡ others) }
{}

/// In blocks of one each term stands whole, as in a section that isn't front-coded.
pub fn blocks_of_one_stand_whole()
    ensures { (ts : List Told) → coded_terms (block_size false) ts ≡ flat_map (coded_entry None) ts }
{}
