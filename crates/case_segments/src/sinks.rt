//! Sinks that count what they take.

use common::{DocId, Score};
use walks::{BlockSink, Sink};

/// How many documents were taken, and the highest score, which is the next threshold.
#[derive(Clone, Copy)]
pub struct Highest {
    pub threshold: Score,
    pub taken: u64,
}

impl Sink for Highest {
    ghost use Rattle.std.specs.Prelude.{◌+◌, min, pos};

    type State = Highest;

    ghost state = { λ s. s };

    ghost limit = { λ s. s.threshold };

    ghost taken = { λ s p. record { threshold = pos p.1; taken = min (s.taken + 1) 18446744073709551615 } };

    ghost room = { λ s. 4294967295 };

    fn threshold(&self) -> Score {
        self.threshold
    }

    fn collect(&mut self, _doc: DocId, score: Score) -> Score {
        self.threshold = score;
        self.taken = self.taken.saturating_add(1);
        score
    }
}

/// How many blocks were taken, and how many documents in them.
#[derive(Clone, Copy)]
pub struct Blocks {
    pub blocks: u64,
    pub documents: u64,
}

impl BlockSink for Blocks {
    ghost use Rattle.std.specs.Prelude.{◌+◌, length, min};

    type State = Blocks;

    ghost state = { λ s. s };

    ghost taken = { λ s docs. record {
      blocks = min (s.blocks + 1) 18446744073709551615;
      documents = min (s.documents + length docs) 18446744073709551615;
    } };

    fn collect_block(&mut self, docs: &[DocId]) {
        self.blocks = self.blocks.saturating_add(1);
        self.documents = self.documents.saturating_add(docs.len() as u64);
    }
}
