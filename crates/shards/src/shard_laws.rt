//! Laws over scans of lists of documents, one list behind the other.

ghost use Rattle.std.specs.Prelude.{◌≡◌, ◌≤◌, List, flat_map, map, sum, take, ℕ};
ghost use Rattle.definitions.specs.Analyzers.{Analyzer};
ghost use Rattle.definitions.specs.Query.{Query};
ghost use Rattle.definitions.specs.Scanning.{ranked, scan, scan_count};
ghost use Rattle.definitions.specs.Schema.{Schema};
ghost use Rattle.definitions.specs.Scoring.{Similarity};
ghost use Rattle.definitions.specs.Values.{Document};

/// The best k hits of all lists are the best k of the best k, or of more, of each list: by score, then by list, then by
/// place.
pub fn the_best_are_among_those_of_each_list()
    ensures { (schema : Schema) (analyze : Analyzer) (sim : Similarity) (lists : List (List Document)) (q : Query)
        (k j : ℕ) → k ≤ j → take k (ranked (λ h. h.0) (flat_map (λ docs. scan schema analyze sim docs q j) lists))
        ≡ scan schema analyze sim (flat_map (λ docs. docs) lists) q k }
{}

/// As many documents match in all lists as in each of them, added up.
pub fn counts_add_up()
    ensures { (schema : Schema) (analyze : Analyzer) (lists : List (List Document)) (q : Query)
        → scan_count schema analyze (flat_map (λ docs. docs) lists) q
        ≡ sum (map (λ docs. scan_count schema analyze docs q) lists) }
{}
