//! A scorer of all documents below a bound.

ghost use Rattle.std.specs.Prelude.{◌-◌, ◌≡◌, ◌≤◌};
ghost use Rattle.docsets.specs.Entries.{first};
ghost use Rattle.definitions.specs.Postings.{terminated};
ghost use Rattle.docsets.specs.ScoredEntries.{all_from};

use crate::DocSet;
use crate::scorer::{Scorer, Window};
use common::{DocId, Score, TERMINATED};

/// The documents below `max_doc`, each with score 1.
#[derive(Drop)]
pub struct AllScorer {
    doc: DocId,
    max_doc: DocId,
    ghost small: { max_doc ≤ terminated },
    ghost ends: { max_doc ≤ doc → doc ≡ terminated },
}

impl AllScorer {
    /// Returns a scorer on document 0, exhausted if `max_doc` is 0.
    pub fn new(max_doc: DocId) -> AllScorer
        requires { max_doc ≤ terminated }
        ensures { ⟦<AllScorer as DocSet>⟧.entries result ≡ all_from 0 max_doc }
    {
        AllScorer {
            doc: within(0, max_doc),
            max_doc,
        }
    }
}

/// Returns `doc` if it is below `max_doc`, else `TERMINATED`.
#[inline]
fn within(doc: DocId, max_doc: DocId) -> DocId
    requires { max_doc ≤ terminated }
    ensures same { all_from result (max_doc - result) ≡ all_from doc (max_doc - doc) }
    ensures ends { max_doc ≤ result → result ≡ terminated }
    ensures at { result ≡ first (all_from doc (max_doc - doc)) }
{
    if doc < max_doc { doc } else { TERMINATED }
}

impl DocSet for AllScorer {
    ghost use Rattle.docsets.specs.ScoredEntryLaws.{rising_all};

    ghost entries = { λ s. all_from s.doc (s.max_doc - s.doc) };

    #[inline]
    fn advance(&mut self) -> DocId {
        if self.doc == TERMINATED {
            return TERMINATED;
        }
        self.doc = within(self.doc + 1, self.max_doc);
        self.doc
    }

    #[inline]
    fn seek(&mut self, target: DocId) -> DocId {
        self.doc = within(target, self.max_doc);
        self.doc
    }

    #[inline]
    fn doc(&self) -> DocId {
        self.doc
    }

    fn size_hint(&self) -> u32 {
        self.max_doc
    }

    ghost rising = { λ s. rising_all s.doc s.max_doc s.small };
}

impl Scorer for AllScorer {
    #[inline]
    fn score(&mut self) -> Score {
        1
    }

    #[inline]
    fn window(&mut self, target: DocId) -> Window {
        Window {
            bound: 1,
            until: TERMINATED,
        }
    }

    #[inline]
    fn advance_above(&mut self, threshold: Score) -> DocId {
        if threshold < 1 {
            return self.advance();
        }
        self.doc = TERMINATED;
        TERMINATED
    }
}
