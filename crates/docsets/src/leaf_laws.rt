//! Laws of the leaves' entries, in the words of the definitions.

ghost use Rattle.std.specs.Prelude.{◌*◌, ◌≡◌, List, ℕ};
ghost use Rattle.docsets.specs.Entries.{Entry};
ghost use Rattle.definitions.specs.ScoredLists.{ScoredList, boosted, rescored};
ghost use Rattle.docsets.specs.ScoredEntries.{pairs_of, rescored_by, scored};

/// States that the documents and scores of a list, of boosted entries and of entries with a constant score are those of
/// the definitions.
pub fn scores_are_those_of_definitions()
    ensures lists { (ps : ScoredList) → pairs_of (scored ps) ≡ ps }
    ensures boosts { (b : ℕ) (es : List Entry) → pairs_of (rescored_by (λ e. b * e.score) es)
        ≡ boosted b (pairs_of es) }
    ensures constants { (constant : ℕ) (es : List Entry) → pairs_of (rescored_by (λ e. constant) es)
        ≡ rescored constant (pairs_of es) }
{}
