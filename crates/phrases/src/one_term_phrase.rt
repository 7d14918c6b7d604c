//! A phrase of one term.

ghost use Rattle.std.specs.Prelude.{◌≡◌, ◌≤ℤ◌, ◌≤◌, IfOk, pos, vec_capacity};
ghost use Rattle.docsets.specs.Entries.{most_positions};
ghost use Rattle.definitions.specs.Scoring.{max_score, natural};
ghost use Rattle.phrases.specs.PrefixEntries.{one_term};

use crate::shared_positions::{copy_all, copy_distinct};
use crate::suffixes::read_positions;
use common::{DocId, Score};
use docsets::{DocSet, Postings, Scorer};
use intersections::Positioned;
use std::alloc::{AllocError, Global};

/// The documents of one whole term before a prefix: the places of the phrase are the term's positions, each once, and
/// each score is the boost.
#[derive(Drop)]
pub struct OneTermPhrase<P: Postings> {
    postings: P,
    boost: u64,
    positions: Vec<u32>,
    places: Vec<u32>,
    ghost small: { boost ≤ max_score },
    ghost positions_room: { most_positions (P.entries postings) ≤ vec_capacity positions },
    ghost places_room: { most_positions (P.entries postings) ≤ vec_capacity places },
}

impl<P: Postings + Drop> OneTermPhrase<P> {
    /// Returns the documents of `postings`, each with the score `boost`.
    pub fn new(alloc: Global, postings: P, boost: Score) -> Result<OneTermPhrase<P>, AllocError>
        requires positive { pos 0 ≤ℤ boost }
        requires small { natural boost ≤ max_score }
        ensures { IfOk result (λ phrase. ⟦<OneTermPhrase<P> as DocSet>⟧.entries phrase
            ≡ one_term (natural boost) (P.entries postings)) }
    {
        let most = postings.most_positions();
        let positions = Vec::with_capacity(alloc, most)?;
        let places = Vec::with_capacity(alloc, most)?;
        Ok(OneTermPhrase {
            postings,
            boost: boost as u64,
            positions,
            places,
        })
    }
}

impl<P: Postings> DocSet for OneTermPhrase<P> {
    ghost use Rattle.phrases.specs.OneTermLaws.{Rising-one_term};
    ghost use Rattle.phrases.specs.PrefixEntries.{one_term};

    ghost entries = { λ s. one_term s.boost (P.entries s.postings) };

    fn advance(&mut self) -> DocId {
        self.postings.advance()
    }

    fn seek(&mut self, target: DocId) -> DocId {
        self.postings.seek(target)
    }

    #[inline]
    fn doc(&self) -> DocId {
        self.postings.doc()
    }

    fn size_hint(&self) -> u32 {
        self.postings.size_hint()
    }

    fn cost(&self) -> u64 {
        self.postings.cost()
    }

    ghost rising = { λ s. Rising-one_term s.boost 0 (P.entries s.postings) s.small (P.rising s.postings) };
}

impl<P: Postings> Scorer for OneTermPhrase<P> {
    #[inline]
    fn score(&mut self) -> Score {
        self.boost as i64
    }
}

impl<P: Postings> Positioned for OneTermPhrase<P> {
    ghost use Rattle.phrases.specs.OneTermLaws.{one_column-one_term};

    fn positions(&mut self, output: &mut Vec<u32>) {
        read_positions(&mut self.postings, &mut self.positions);
        copy_distinct(&self.positions, &mut self.places);
        copy_all(&self.places, output);
    }

    fn most_positions(&self) -> usize {
        self.postings.most_positions()
    }

    ghost one_column = { λ s. one_column-one_term s.boost (P.entries s.postings) (P.of_one_term s.postings) };
}
