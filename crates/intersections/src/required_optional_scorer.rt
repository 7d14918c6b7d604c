//! A required scorer, with an optional one that adds to its scores.

ghost use Rattle.std.specs.Prelude.{◌+◌, ◌≡◌, ◌≤◌, sum, true};
ghost use Rattle.definitions.specs.Scoring.{max_score};
ghost use Rattle.intersections.specs.OptionalLaws.{AddsUp-prop};
ghost use Rattle.intersections.specs.Optionals.{AddsUp, with_optional};
ghost use Rattle.docsets.specs.ScoredEntries.{greatest_score};

use crate::joint_windows::joint;
use common::{AliveBitSet, DocId, MAX_SCORE, Score, TERMINATED};
use docsets::{
    DocSet, ScoreCombiner, Scorer, SeekDangerResult, SumCombiner, Window, move_to, take_score,
};

/// The documents of a required scorer, each with what a combiner makes of its score and of the optional one, where
/// there is one.
#[derive(Drop)]
pub struct RequiredOptionalScorer<R: Scorer, O: Scorer, C: ScoreCombiner> {
    req_scorer: R,
    opt_scorer: O,
    fresh: C,
    sums: bool,
    ghost unused: { C.total fresh ≡ 0 },
    ghost fits: { greatest_score (R.entries req_scorer) + greatest_score (O.entries opt_scorer) ≤ max_score },
    ghost adds: { sums ≡ true → AddsUp (C.answer fresh) } by { AddsUp-prop sums (C.answer fresh) },
}

impl<R: Scorer, O: Scorer, C: ScoreCombiner> RequiredOptionalScorer<R, O, C> {
    /// Returns the documents of `req_scorer`, with the scores that `opt_scorer` adds. What `combiner` has taken is
    /// forgotten.
    pub fn new(req_scorer: R, opt_scorer: O, combiner: C) -> RequiredOptionalScorer<R, O, C>
        requires { greatest_score (R.entries req_scorer) + greatest_score (O.entries opt_scorer) ≤ max_score }
        ensures { ⟦<RequiredOptionalScorer<R, O, C> as DocSet>⟧.entries result
            ≡ with_optional (C.anew combiner) (R.entries req_scorer) (O.entries opt_scorer) }
    {
        let mut fresh = combiner;
        fresh.clear();
        RequiredOptionalScorer {
            req_scorer,
            opt_scorer,
            fresh,
            sums: false,
        }
    }
}

impl<R: Scorer, O: Scorer> RequiredOptionalScorer<R, O, SumCombiner> {
    /// Returns the documents of `req_scorer`, with the scores of `opt_scorer` added. Where both have a bound of their
    /// scores it has one too.
    pub fn with_sums(req_scorer: R, opt_scorer: O) -> RequiredOptionalScorer<R, O, SumCombiner>
        requires { greatest_score (R.entries req_scorer) + greatest_score (O.entries opt_scorer) ≤ max_score }
        ensures { ⟦<RequiredOptionalScorer<R, O, SumCombiner> as DocSet>⟧.entries result
            ≡ with_optional sum (R.entries req_scorer) (O.entries opt_scorer) }
    {
        RequiredOptionalScorer {
            req_scorer,
            opt_scorer,
            fresh: SumCombiner::default(),
            sums: true,
        }
    }
}

impl<R: Scorer, O: Scorer, C: ScoreCombiner> DocSet for RequiredOptionalScorer<R, O, C> {
    ghost use Rattle.intersections.specs.OptionalLaws.{Rising-optional};

    ghost entries = { λ s. with_optional (C.answer s.fresh) (R.entries s.req_scorer) (O.entries s.opt_scorer) };

    #[inline]
    fn advance(&mut self) -> DocId {
        self.req_scorer.advance()
    }

    #[inline]
    fn seek(&mut self, target: DocId) -> DocId {
        self.req_scorer.seek(target)
    }

    #[inline]
    fn seek_danger(&mut self, target: DocId) -> SeekDangerResult {
        self.req_scorer.seek_danger(target)
    }

    fn fill_buffer(&mut self, buffer: &mut [DocId; 64]) -> usize {
        self.req_scorer.fill_buffer(buffer)
    }

    #[inline]
    fn doc(&self) -> DocId {
        self.req_scorer.doc()
    }

    fn size_hint(&self) -> u32 {
        self.req_scorer.size_hint()
    }

    fn cost(&self) -> u64 {
        self.req_scorer.cost()
    }

    fn count(&mut self, alive: &AliveBitSet) -> u32 {
        self.req_scorer.count(alive)
    }

    fn count_including_deleted(&mut self) -> u32 {
        self.req_scorer.count_including_deleted()
    }

    ghost rising = { λ s. Rising-optional C.answer C.total C.bounded s.fresh (R.entries s.req_scorer) (O.entries s.opt_scorer) (R.rising s.req_scorer) (O.rising s.opt_scorer) s.unused s.fits };
}

impl<R: Scorer, O: Scorer, C: ScoreCombiner> Scorer for RequiredOptionalScorer<R, O, C> {
    fn score(&mut self) -> Score {
        let doc = self.req_scorer.doc();
        let mut combiner = self.fresh;
        combiner.update(&mut self.req_scorer);
        move_to(&mut self.opt_scorer, doc);
        take_score(&mut self.opt_scorer, doc, &mut combiner);
        combiner.score()
    }

    fn window(&mut self, target: DocId) -> Window {
        if !self.sums {
            return Window {
                bound: MAX_SCORE,
                until: TERMINATED,
            };
        }
        let own = self.req_scorer.window(target);
        if self.opt_scorer.doc() >= own.until {
            return own;
        }
        joint(own, self.opt_scorer.window(target))
    }
}
