//! Laws of what is kept.

ghost use Rattle.std.specs.Prelude.{◌++◌, ◌≡◌, ◌≤◌, length};
ghost use Rattle.best_k.specs.Kept.{Best, best_by, limit, living_in, score_of, taken};
ghost use Rattle.definitions.specs.NumberedHits.{NeverRises};
ghost use Rattle.definitions.specs.ScoredLists.{ScoredList};
ghost use Rattle.definitions.specs.Sinks.{fed};

/// States that a sink that was fed the documents of a segment keeps the best of what it kept and of the living ones,
/// whatever its threshold left out, and that it still wants as many.
pub fn fed_documents_leave_the_best()
    ensures hits { (b : Best) (ps : ScoredList) → NeverRises score_of b.hits → length b.hits ≤ b.wanted
        → (fed limit taken b ps).hits ≡ best_by score_of b.wanted (b.hits ++ living_in b.segment b.alive ps) }
    ensures wanted { (b : Best) (ps : ScoredList) → (fed limit taken b ps).wanted ≡ b.wanted }
{}
