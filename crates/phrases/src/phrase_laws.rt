//! Phrases in the words of the definitions.

ghost use Rattle.std.specs.Prelude.{◌-◌, ◌≡◌, List, map, sum_by, ℕ};
ghost use Rattle.definitions.specs.Phrases.{adjusted, by_offset, last_offset, phrase_places};
ghost use Rattle.definitions.specs.Prefixes.{suffixes_count};
ghost use Rattle.definitions.specs.Query.{Terms};
ghost use Rattle.definitions.specs.Scoring.{greatest_of};
ghost use Rattle.phrases.specs.Places.{places_of};
ghost use Rattle.phrases.specs.PrefixEntries.{continued};

/// States that the places which the adjusted positions of terms reach, in the order of their offsets, are those of
/// their phrase.
pub fn places_are_those_of_definitions()
    ensures { (positions : List ℕ → List ℕ) (terms : Terms) (slop : ℕ)
        → places_of slop (map (adjusted positions (greatest_of (map (λ t. t.0) terms))) (by_offset terms))
        ≡ phrase_places positions terms slop }
{}

/// States that terms follow the places of whole terms, in the order of their offsets, as often as by the definitions,
/// which shift places by the offset of the terms that follow less the greatest of the others.
pub fn suffixes_are_those_of_definitions()
    ensures offsets { (terms : Terms) → greatest_of (map (λ t. t.0) terms) ≡ last_offset terms }
    ensures counts { (positions : List ℕ → List ℕ) (suffixes : List (List ℕ)) (last : ℕ × List ℕ) (whole : Terms)
        → sum_by (λ t. continued (last.0 - greatest_of (map (λ t. t.0) whole)) (phrase_places positions whole 0)
        (positions t)) suffixes ≡ suffixes_count positions suffixes (last, whole) }
{}
