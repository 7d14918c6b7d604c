//! The documents where a phrase occurs, among those that have all its terms.

ghost use Rattle.std.specs.Prelude.{◌<◌, ◌≡◌, ◌≤ℤ◌, drop, length, pos, ℕ};
ghost use Rattle.std.specs.List.{AllByRecursion};
ghost use Rattle.docsets.specs.Entries.{IsRest, first, from};
ghost use Rattle.phrases.specs.Finders.{HasRoom};
ghost use Rattle.phrases.specs.PhraseEntries.{HaveColumns, longest_column, phrased};
ghost use Rattle.phrases.specs.Places.{places_of};
ghost use Rattle.phrases.specs.Settled.{IsSettled};

use crate::place_finder::PlaceFinder;
use common::{DocId, TERMINATED};
use docsets::DocSet;
use intersections::{ColumnThreshold, Intersection, Positioned};

/// Moves `terms` to the first document where the phrase occurs, maybe the current one, and returns it.
pub(crate) fn settle<S: Positioned>(terms: &mut Intersection<S>, finder: &mut PlaceFinder) -> DocId
    requires columns { HaveColumns (⟦<Intersection<S> as DocSet>⟧.entries terms.old) }
    requires room { HasRoom finder.old (longest_column (⟦<Intersection<S> as DocSet>⟧.entries terms.old)) }
    ensures same { (score : ℕ → ℕ → ℕ) → phrased score finder.old.slop (⟦<Intersection<S> as DocSet>⟧.entries terms.new)
        ≡ phrased score finder.old.slop (⟦<Intersection<S> as DocSet>⟧.entries terms.old) }
    ensures rest { IsRest (⟦<Intersection<S> as DocSet>⟧.entries terms.new)
        (⟦<Intersection<S> as DocSet>⟧.entries terms.old) }
    ensures slop { finder.new.slop ≡ finder.old.slop }
    ensures room { (n : ℕ) → HasRoom finder.old n → HasRoom finder.new n }
    ensures settled { IsSettled finder.new (⟦<Intersection<S> as DocSet>⟧.entries terms.new) }
    ensures at { result ≡ first (⟦<Intersection<S> as DocSet>⟧.entries terms.new) }
{
    let mut doc = terms.doc();
    while doc < TERMINATED {
        finder.find(terms);
        if !finder.places.is_empty() {
            return doc;
        }
        doc = terms.advance();
    }
    doc
}

/// Moves `terms` behind their document to the next where the phrase occurs and that isn't known to earn a low score, and
/// returns it.
pub(crate) fn settle_above<S: Positioned, C: ColumnThreshold>(
    terms: &mut Intersection<S>,
    finder: &mut PlaceFinder,
    threshold: &C,
) -> DocId
    requires columns { HaveColumns (⟦<Intersection<S> as DocSet>⟧.entries terms.old) }
    requires room { HasRoom finder.old (longest_column (⟦<Intersection<S> as DocSet>⟧.entries terms.old)) }
    ensures left { ⟦<Intersection<S> as DocSet>⟧.entries terms.new
        ≡ from result (drop 1 (⟦<Intersection<S> as DocSet>⟧.entries terms.old)) }
    ensures slop { finder.new.slop ≡ finder.old.slop }
    ensures room { (n : ℕ) → HasRoom finder.old n → HasRoom finder.new n }
    ensures settled { IsSettled finder.new (⟦<Intersection<S> as DocSet>⟧.entries terms.new) }
    ensures at { result ≡ first (⟦<Intersection<S> as DocSet>⟧.entries terms.new) }
    ensures low { AllByRecursion (λ e. e.doc < result → 0 < length (places_of finder.old.slop e.positions)
        → pos (C.score threshold.now e.doc e.positions) ≤ℤ C.limit threshold.now)
        (drop 1 (⟦<Intersection<S> as DocSet>⟧.entries terms.old)) }
{
    let mut doc = terms.advance_above(threshold);
    while doc < TERMINATED {
        finder.find(terms);
        if !finder.places.is_empty() {
            return doc;
        }
        doc = terms.advance_above(threshold);
    }
    doc
}
