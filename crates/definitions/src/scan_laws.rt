//! Laws over scans.

ghost use Rattle.std.specs.Prelude.{◌≡◌, ◌∷◌, ◌≤◌, [], List, length, map, min, nat_lt, take, ℕ};
ghost use Rattle.std.specs.List.{AllByRecursion};
ghost use Rattle.std.specs.List.Sorted.{IsSortedBy, IsStableBy};
ghost use Rattle.definitions.specs.Analyzers.{Analyzer};
ghost use Rattle.definitions.specs.Query.{Query};
ghost use Rattle.definitions.specs.NumberedHits.{IsOfItsDocument, IsOfOneDocument, NeverRises, StandInOrder, place_of, placed_scan, without_place};
ghost use Rattle.definitions.specs.Scanning.{Hit, ranked, scan, scan_count};
ghost use Rattle.definitions.specs.Schema.{Schema};
ghost use Rattle.definitions.specs.Scoring.{Similarity};
ghost use Rattle.definitions.specs.Values.{Document};

/// A scan with a smaller limit has the first of the hits.
pub fn a_smaller_limit_gives_the_first_hits()
    ensures { (schema : Schema) (analyze : Analyzer) (sim : Similarity) (docs : List Document) (q : Query) (j k : ℕ)
        → j ≤ k → scan schema analyze sim docs q j ≡ take j (scan schema analyze sim docs q k) }
{}

/// A scan has as many hits as documents match, up to its limit.
pub fn all_that_match_are_hits()
    ensures up_to_the_limit { (schema : Schema) (analyze : Analyzer) (sim : Similarity) (docs : List Document)
        (q : Query) (k : ℕ) → length (scan schema analyze sim docs q k) ≡ min k (scan_count schema analyze docs q) }
    ensures all { (schema : Schema) (analyze : Analyzer) (sim : Similarity) (docs : List Document) (q : Query) (k : ℕ)
        → scan_count schema analyze docs q ≤ k → length (scan schema analyze sim docs q k)
        ≡ scan_count schema analyze docs q }
{}

/// No hit's score is below that of a hit after it.
pub fn scores_never_rise()
    ensures { (schema : Schema) (analyze : Analyzer) (sim : Similarity) (docs : List Document) (q : Query) (k : ℕ)
        → NeverRises (λ h. h.0) (scan schema analyze sim docs q k) }
{}

/// Of two hits with one score, the document of the earlier stands at the smaller place.
pub fn equal_scores_stand_in_order()
    ensures without_places { (schema : Schema) (analyze : Analyzer) (sim : Similarity) (docs : List Document)
        (q : Query) (k : ℕ) → map without_place (placed_scan schema analyze sim docs q k)
        ≡ scan schema analyze sim docs q k }
    ensures in_order { (schema : Schema) (analyze : Analyzer) (sim : Similarity) (docs : List Document) (q : Query)
        (k : ℕ) → StandInOrder (λ h. h.0) place_of (placed_scan schema analyze sim docs q k) }
{}

/// Each hit is what one document of the list gives by itself.
pub fn a_hit_is_its_documents_alone()
    ensures of_one { (schema : Schema) (analyze : Analyzer) (sim : Similarity) (docs : List Document) (q : Query)
        (k : ℕ) → AllByRecursion (IsOfOneDocument schema analyze sim docs q) (scan schema analyze sim docs q k) }
    ensures at_its_place { (schema : Schema) (analyze : Analyzer) (sim : Similarity) (docs : List Document) (q : Query)
        (k : ℕ) → AllByRecursion (IsOfItsDocument schema analyze sim docs q) (placed_scan schema analyze sim docs q k) }
{}

/// A stable sort by falling keys gives the ranking.
pub fn a_stable_sort_is_the_ranking<T>()
    ensures { (key : T → ℕ) (xs ys : List T) → IsSortedBy (λ a b. nat_lt (key b) (key a)) ys
        → IsStableBy (λ a b. nat_lt (key b) (key a)) xs ys → ys ≡ ranked key xs }
{}

/// A map that keeps keys commutes with the ranking.
pub fn a_map_that_keeps_keys_keeps_the_ranking<T, U>()
    ensures { (f : T → U) (key : T → ℕ) (other : U → ℕ) → ((x : T) → other (f x) ≡ key x) → (xs : List T)
        → map f (ranked key xs) ≡ ranked other (map f xs) }
{}
