//! Laws of answers over segments.

ghost use Rattle.std.specs.Prelude.{◌≡◌, List, length, map, ℕ};
ghost use Rattle.definitions.specs.Analyzers.{Analyzer};
ghost use Rattle.definitions.specs.Answers.{answers};
ghost use Rattle.definitions.specs.Query.{Query};
ghost use Rattle.definitions.specs.NumberedHits.{place_of, placed_found};
ghost use Rattle.definitions.specs.ScoredLists.{documents_of};
ghost use Rattle.definitions.specs.Scanning.{found, scan_count};
ghost use Rattle.definitions.specs.Schema.{Schema};
ghost use Rattle.definitions.specs.Scoring.{Similarity};
ghost use Rattle.definitions.specs.Values.{Document};

/// A query answers as many places as documents match, under any boost, and these are the places of the documents that a scan
/// finds, in their order. Without a boost each has its score there.
pub fn answers_are_those_of_the_scan()
    ensures count { (schema : Schema) (analyze : Analyzer) (sim : Similarity) (b : ℕ) (q : Query)
        (docs : List Document) → length (answers schema analyze sim b q docs) ≡ scan_count schema analyze docs q }
    ensures scores { (schema : Schema) (analyze : Analyzer) (sim : Similarity) (q : Query) (docs : List Document)
        → map (λ p. p.1) (answers schema analyze sim 1 q docs) ≡ map (λ h. h.0) (found schema analyze sim docs q) }
    ensures places { (schema : Schema) (analyze : Analyzer) (sim : Similarity) (b : ℕ) (q : Query)
        (docs : List Document) → documents_of (answers schema analyze sim b q docs)
        ≡ map place_of (placed_found schema analyze sim docs q) }
    ensures found { (schema : Schema) (analyze : Analyzer) (sim : Similarity) (q : Query) (docs : List Document)
        → answers schema analyze sim 1 q docs ≡ map (λ h. (place_of h, h.0)) (placed_found schema analyze sim docs q) }
{}
