//! Laws of the entries of several lists, in the words of the definitions.

ghost use Rattle.std.specs.Prelude.{◌≡◌, ◌≤◌, List, length, map, sum, ℕ};
ghost use Rattle.std.specs.List.{AllByRecursion};
ghost use Rattle.docsets.specs.Entries.{Entry, Rising};
ghost use Rattle.definitions.specs.ScoredLists as lists;
ghost use Rattle.docsets.specs.ScoredEntries.{pairs_of};
ghost use Rattle.docsets.specs.Members.{at_least, combining, joining};

/// States that the documents that at least `minimum` lists have, with what a combiner makes of their scores or, where
/// entries are joined, with the sums of these, are those of the definitions.
pub fn at_least_is_that_of_definitions()
    ensures combined { (minimum : ℕ) (f : List ℕ → ℕ) (ess : List (List Entry))
        → 1 ≤ minimum → AllByRecursion (Rising 0) ess
        → pairs_of (at_least minimum (combining f) ess) ≡ lists.at_least minimum f (map pairs_of ess) }
    ensures joined { (minimum : ℕ) (ess : List (List Entry))
        → 1 ≤ minimum → AllByRecursion (Rising 0) ess
        → pairs_of (at_least minimum joining ess) ≡ lists.at_least minimum sum (map pairs_of ess) }
{}
