//! The documents where one of several terms follows a phrase.

ghost use Rattle.std.specs.Prelude.{◌++◌, ◌<◌, ◌≡◌, ◌≤◌, IfOk, length, map};
ghost use Rattle.docsets.specs.Entries.{Rising, first, first_count, most_positions};
ghost use Rattle.docsets.specs.EntryLaws.{Rising-prop};
ghost use Rattle.definitions.specs.Postings.{terminated};
ghost use Rattle.phrases.specs.PrefixEntries.{most_suffix_positions, prefixed};
ghost use Rattle.phrases.specs.PrefixWindows.{IsFollowing};
ghost use Rattle.phrases.specs.PrefixWindowsLaws.{IsFollowing-prop};
ghost use Rattle.phrases.specs.Windows.{left_in};

use crate::suffix_windows::refill;
use crate::window::Window;
use common::{DocId, Score};
use docsets::{DocSet, Postings, Scorer, move_to};
use intersections::Positioned;
use std::alloc::{AllocError, Global};

/// The documents where some of the suffixes occur at the shifted places of a phrase, with the scores of the phrase.
#[derive(Drop)]
pub struct PhrasePrefixScorer<W: Scorer + Positioned, P: Postings> {
    phrase_scorer: W,
    suffixes: Vec<P>,
    suffix_offset: u32,
    window: Window,
    ghost rises: { Rising 0 (left_in window ++ prefixed suffix_offset (map P.entries suffixes.items) (W.entries phrase_scorer)) } by { Rising-prop 0 (left_in window ++ prefixed suffix_offset (map P.entries suffixes.items) (W.entries phrase_scorer)) },
    ghost following: { IsFollowing window (length suffixes.items) (map P.entries suffixes.items) (W.entries phrase_scorer) } by { IsFollowing-prop window (length suffixes.items) (map P.entries suffixes.items) (W.entries phrase_scorer) },
}

/// Returns an upper bound of the number of positions of each document of `suffixes`.
fn most_of_suffixes<P: Postings>(suffixes: &Vec<P>) -> usize
    ensures { most_suffix_positions (map P.entries suffixes.now.items) ≤ result }
{
    let mut most: usize = 0;
    for i in 0..suffixes.len() {
        most = most.max(suffixes[i].most_positions());
    }
    most
}

impl<W: Scorer + Positioned + Drop, P: Postings + Drop> PhrasePrefixScorer<W, P> {
    /// Returns the documents of `phrase_scorer` that some of `suffixes`, fewer than 2^32, follow, `suffix_offset`
    /// positions after the last term of the phrase. No document has 2^32 places of the phrase.
    pub fn new(
        alloc: Global,
        phrase_scorer: W,
        suffixes: Vec<P>,
        suffix_offset: u32,
    ) -> Result<PhrasePrefixScorer<W, P>, AllocError>
        requires few_places { most_positions (W.entries phrase_scorer) ≤ 4294967295 }
        requires few_suffixes { length suffixes.items < 4294967296 }
        ensures { IfOk result (λ scorer. ⟦<PhrasePrefixScorer<W, P> as DocSet>⟧.entries scorer
            ≡ prefixed suffix_offset (map P.entries suffixes.items) (W.entries phrase_scorer)) }
    {
        let mut phrase_scorer = phrase_scorer;
        let mut suffixes = suffixes;
        let most = phrase_scorer.most_positions();
        let mut window = Window::new(alloc, most, most_of_suffixes(&suffixes))?;
        refill(
            &mut phrase_scorer,
            &mut suffixes,
            &mut window,
            suffix_offset,
        );
        Ok(PhrasePrefixScorer {
            phrase_scorer,
            suffixes,
            suffix_offset,
            window,
        })
    }
}

impl<W: Scorer + Positioned, P: Postings> PhrasePrefixScorer<W, P> {
    /// Returns how often the suffixes follow the phrase in the current document: at each of its places, each suffix
    /// that does.
    #[inline]
    pub fn phrase_count(&self) -> u64
        requires { first (⟦<PhrasePrefixScorer<W, P> as DocSet>⟧.entries self.now) < terminated }
        ensures { result ≡ first_count (⟦<PhrasePrefixScorer<W, P> as DocSet>⟧.entries self.now) }
    {
        self.window.count()
    }
}

impl<W: Scorer + Positioned, P: Postings> DocSet for PhrasePrefixScorer<W, P> {
    ghost use Rattle.std.specs.Prelude.{◌++◌, map};
    ghost use Rattle.phrases.specs.PrefixEntries.{prefixed};
    ghost use Rattle.phrases.specs.Windows.{left_in};

    ghost entries = { λ s. left_in s.window ++ prefixed s.suffix_offset (map P.entries s.suffixes.items) (W.entries s.phrase_scorer) };

    fn advance(&mut self) -> DocId {
        self.window.step();
        refill(
            &mut self.phrase_scorer,
            &mut self.suffixes,
            &mut self.window,
            self.suffix_offset,
        )
    }

    fn seek(&mut self, target: DocId) -> DocId {
        self.window.seek(target);
        move_to(&mut self.phrase_scorer, target);
        refill(
            &mut self.phrase_scorer,
            &mut self.suffixes,
            &mut self.window,
            self.suffix_offset,
        )
    }

    #[inline]
    fn doc(&self) -> DocId {
        self.window.doc()
    }

    fn size_hint(&self) -> u32 {
        self.phrase_scorer.size_hint()
    }

    fn cost(&self) -> u64 {
        self.phrase_scorer.cost()
    }

    ghost rising = { λ s. s.rises };
}

impl<W: Scorer + Positioned, P: Postings> Scorer for PhrasePrefixScorer<W, P> {
    #[inline]
    fn score(&mut self) -> Score {
        self.window.score() as i64
    }
}
