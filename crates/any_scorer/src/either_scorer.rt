//! A scorer that has one of two forms.

use common::{AliveBitSet, DocId, Score};
use docsets::{DocSet, Scorer, SeekDangerResult, Window};

/// A scorer of one of two forms.
#[derive(Drop)]
pub enum EitherScorer<A: Scorer, B: Scorer> {
    /// The first form.
    Left(A),
    /// The second.
    Right(B),
}

impl<A: Scorer, B: Scorer> DocSet for EitherScorer<A, B> {
    ghost use Rattle.any_scorer.specs.declared.either_scorer.EitherScorer.TheVariants as forms;

    ghost entries = { elim [ forms.Left x ↦ A.entries x | forms.Right x ↦ B.entries x ] };

    #[inline]
    fn advance(&mut self) -> DocId {
        match self {
            EitherScorer::Left(scorer) => scorer.advance(),
            EitherScorer::Right(scorer) => scorer.advance(),
        }
    }

    #[inline]
    fn seek(&mut self, target: DocId) -> DocId {
        match self {
            EitherScorer::Left(scorer) => scorer.seek(target),
            EitherScorer::Right(scorer) => scorer.seek(target),
        }
    }

    #[inline]
    fn seek_danger(&mut self, target: DocId) -> SeekDangerResult {
        match self {
            EitherScorer::Left(scorer) => scorer.seek_danger(target),
            EitherScorer::Right(scorer) => scorer.seek_danger(target),
        }
    }

    fn fill_buffer(&mut self, buffer: &mut [DocId; 64]) -> usize {
        match self {
            EitherScorer::Left(scorer) => scorer.fill_buffer(buffer),
            EitherScorer::Right(scorer) => scorer.fill_buffer(buffer),
        }
    }

    #[inline]
    fn doc(&self) -> DocId {
        match self {
            EitherScorer::Left(scorer) => scorer.doc(),
            EitherScorer::Right(scorer) => scorer.doc(),
        }
    }

    fn size_hint(&self) -> u32 {
        match self {
            EitherScorer::Left(scorer) => scorer.size_hint(),
            EitherScorer::Right(scorer) => scorer.size_hint(),
        }
    }

    fn cost(&self) -> u64 {
        match self {
            EitherScorer::Left(scorer) => scorer.cost(),
            EitherScorer::Right(scorer) => scorer.cost(),
        }
    }

    fn count(&mut self, alive: &AliveBitSet) -> u32 {
        match self {
            EitherScorer::Left(scorer) => scorer.count(alive),
            EitherScorer::Right(scorer) => scorer.count(alive),
        }
    }

    fn count_including_deleted(&mut self) -> u32 {
        match self {
            EitherScorer::Left(scorer) => scorer.count_including_deleted(),
            EitherScorer::Right(scorer) => scorer.count_including_deleted(),
        }
    }

    ghost rising = { elim [ forms.Left x ↦ A.rising x | forms.Right x ↦ B.rising x ] };
}

impl<A: Scorer, B: Scorer> Scorer for EitherScorer<A, B> {
    #[inline]
    fn score(&mut self) -> Score {
        match self {
            EitherScorer::Left(scorer) => scorer.score(),
            EitherScorer::Right(scorer) => scorer.score(),
        }
    }

    fn window(&mut self, target: DocId) -> Window {
        match self {
            EitherScorer::Left(scorer) => scorer.window(target),
            EitherScorer::Right(scorer) => scorer.window(target),
        }
    }
}
