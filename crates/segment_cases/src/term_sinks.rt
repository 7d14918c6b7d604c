//! Sinks that keep a number.

use common::{DocId, Score};
use walks::{BlockSink, Sink};

/// The highest score that was taken.
#[derive(Clone, Copy)]
pub(crate) struct Highest {
    pub(crate) threshold: Score,
}

impl Sink for Highest {
    ghost use Rattle.std.specs.Prelude.{pos};

    type State = Highest;

    ghost state = { λ s. s };

    ghost limit = { λ s. s.threshold };

    ghost taken = { λ s p. record { threshold = pos p.1 } };

    ghost room = { λ s. 4294967295 };

    fn threshold(&self) -> Score {
        self.threshold
    }

    fn collect(&mut self, _doc: DocId, score: Score) -> Score {
        self.threshold = score;
        score
    }
}

/// How many blocks were taken.
#[derive(Clone, Copy)]
pub(crate) struct Blocks {
    pub(crate) taken: u64,
}

impl BlockSink for Blocks {
    ghost use Rattle.std.specs.Prelude.{◌+◌, min};

    type State = Blocks;

    ghost state = { λ s. s };

    ghost taken = { λ s docs. record { taken = min (s.taken + 1) 18446744073709551615 } };

    fn collect_block(&mut self, _docs: &[DocId]) {
        self.taken = self.taken.saturating_add(1);
    }
}
