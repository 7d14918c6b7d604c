//! The postings of a phrase's term, shifted by its offset in the phrase.

ghost use Rattle.std.specs.Prelude.{◌≡◌, ◌≤◌};
ghost use Rattle.phrases.specs.PhraseEntries.{placed};

use common::DocId;
use docsets::{DocSet, Postings, SeekDangerResult};
use intersections::Positioned;

/// The documents of a term, each position plus an offset. They have no scores.
#[derive(Drop)]
pub struct PostingsWithOffset<P: Postings> {
    postings: P,
    offset: u32,
    ghost small: { offset ≤ 1073741824 },
}

impl<P: Postings> PostingsWithOffset<P> {
    /// Returns `segment_postings` with each position plus `offset`, which is at most 2^30.
    pub fn new(segment_postings: P, offset: u32) -> PostingsWithOffset<P>
        requires { offset ≤ 1073741824 }
        ensures { ⟦<PostingsWithOffset<P> as DocSet>⟧.entries result ≡ placed offset (P.entries segment_postings) }
    {
        PostingsWithOffset {
            postings: segment_postings,
            offset,
        }
    }
}

impl<P: Postings> DocSet for PostingsWithOffset<P> {
    ghost use Rattle.phrases.specs.PhraseEntryLaws.{Rising-placed};

    ghost entries = { λ s. placed s.offset (P.entries s.postings) };

    #[inline]
    fn advance(&mut self) -> DocId {
        self.postings.advance()
    }

    #[inline]
    fn seek(&mut self, target: DocId) -> DocId {
        self.postings.seek(target)
    }

    #[inline]
    fn seek_danger(&mut self, target: DocId) -> SeekDangerResult {
        self.postings.seek_danger(target)
    }

    #[inline]
    fn doc(&self) -> DocId {
        self.postings.doc()
    }

    fn size_hint(&self) -> u32 {
        self.postings.size_hint()
    }

    fn cost(&self) -> u64 {
        self.postings.cost()
    }

    ghost rising = { λ s. Rising-placed s.offset 0 (P.entries s.postings) (P.rising s.postings) };
}

impl<P: Postings> Positioned for PostingsWithOffset<P> {
    ghost use Rattle.phrases.specs.PhraseEntryLaws.{one_column-placed};

    fn positions(&mut self, output: &mut Vec<u32>) {
        let _ = self.postings.positions_with_offset(self.offset, output);
    }

    fn most_positions(&self) -> usize {
        self.postings.most_positions()
    }

    #[inline]
    fn positions_bound(&self) -> usize {
        self.postings.positions_bound()
    }

    ghost one_column = { λ s. one_column-placed s.offset (P.entries s.postings) s.small (P.of_one_term s.postings) };
}
