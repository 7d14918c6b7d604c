//! The documents of a cursor that a set doesn't have.

ghost use Rattle.std.specs.Prelude.{◌≡◌};
ghost use Rattle.docsets.specs.Entries.{first};
ghost use Rattle.intersections.specs.DifferenceLaws.{IsOutside-prop};
ghost use Rattle.intersections.specs.Differences.{IsOutside, without};

use crate::exclusion_set::ExclusionSet;
use common::{DocId, Score, TERMINATED};
use docsets::{DocSet, Scorer, Window};

/// The documents of a cursor that aren't in a set, with their scores.
#[derive(Drop)]
pub struct Exclude<D: DocSet, E: ExclusionSet> {
    underlying: D,
    exclusion: E,
    ghost outside: { IsOutside (E.excludes exclusion) (D.entries underlying) } by { IsOutside-prop (E.excludes exclusion) (D.entries underlying) },
}

/// Moves `underlying` to its first document, from the current one on, that `exclusion` doesn't have; returns it.
fn skip_excluded<D: DocSet, E: ExclusionSet>(underlying: &mut D, exclusion: &mut E) -> DocId
    ensures same { without (E.excludes exclusion.new) (D.entries underlying.new)
        ≡ without (E.excludes exclusion.old) (D.entries underlying.old) }
    ensures outside { IsOutside (E.excludes exclusion.new) (D.entries underlying.new) }
    ensures at { result ≡ first (D.entries underlying.new) }
{
    let mut doc = underlying.doc();
    while doc < TERMINATED {
        if !exclusion.contains(doc) {
            return doc;
        }
        doc = underlying.advance();
    }
    doc
}

impl<D: DocSet, E: ExclusionSet> Exclude<D, E> {
    /// Returns the documents of `underlying` that aren't in `exclusion`, with their scores.
    pub fn new(underlying: D, exclusion: E) -> Exclude<D, E>
        ensures { ⟦<Exclude<D, E> as DocSet>⟧.entries result ≡ without (E.excludes exclusion) (D.entries underlying) }
    {
        let mut underlying = underlying;
        let mut exclusion = exclusion;
        skip_excluded(&mut underlying, &mut exclusion);
        Exclude {
            underlying,
            exclusion,
        }
    }
}

impl<D: DocSet, E: ExclusionSet> DocSet for Exclude<D, E> {
    ghost use Rattle.intersections.specs.DifferenceLaws.{Rising-without};

    ghost entries = { λ s. without (E.excludes s.exclusion) (D.entries s.underlying) };

    fn advance(&mut self) -> DocId {
        self.underlying.advance();
        skip_excluded(&mut self.underlying, &mut self.exclusion)
    }

    fn seek(&mut self, target: DocId) -> DocId {
        self.underlying.seek(target);
        skip_excluded(&mut self.underlying, &mut self.exclusion)
    }

    #[inline]
    fn doc(&self) -> DocId {
        self.underlying.doc()
    }

    fn size_hint(&self) -> u32 {
        self.underlying.size_hint()
    }

    fn cost(&self) -> u64 {
        self.underlying.cost()
    }

    ghost rising = { λ s. Rising-without (E.excludes s.exclusion) 0 (D.entries s.underlying) (D.rising s.underlying) };
}

impl<S: Scorer, E: ExclusionSet> Scorer for Exclude<S, E> {
    #[inline]
    fn score(&mut self) -> Score {
        self.underlying.score()
    }

    fn window(&mut self, target: DocId) -> Window {
        self.underlying.window(target)
    }
}
