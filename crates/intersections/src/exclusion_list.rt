//! Several cursors whose documents are excluded.

ghost use Rattle.std.specs.Prelude.{◌<◌, ◌≡◌, map, ℕ};
ghost use Rattle.docsets.specs.Entries.{first};
ghost use Rattle.definitions.specs.Postings.{terminated};
ghost use Rattle.intersections.specs.Differences.{has, unscored};
ghost use Rattle.docsets.specs.Members.{at_least, enough, least};

use common::DocId;
use docsets::{DocSet, advance_any, seek_any};

/// The documents that at least one of several cursors has, without scores: a set to exclude.
#[derive(Drop)]
pub struct ExclusionList<D: DocSet> {
    docsets: Vec<D>,
    doc: DocId,
    ghost leads: { doc ≡ least (map D.entries docsets.items) },
}

impl<D: DocSet> ExclusionList<D> {
    /// Returns the documents that at least one of `docsets` has.
    pub fn new(docsets: Vec<D>) -> ExclusionList<D>
        ensures entries { ⟦<ExclusionList<D> as DocSet>⟧.entries result
            ≡ at_least 1 unscored (map D.entries docsets.items) }
        ensures excludes { (d : ℕ) → d < terminated → has (⟦<ExclusionList<D> as DocSet>⟧.entries result) d
            ≡ enough 1 (map D.entries docsets.items) d }
    {
        let mut docsets = docsets;
        let doc = seek_any(&mut docsets, 0);
        ExclusionList { docsets, doc }
    }
}

impl<D: DocSet> DocSet for ExclusionList<D> {
    ghost use Rattle.intersections.specs.ExclusionLaws.{Rising-unscored};

    ghost entries = { λ s. at_least 1 unscored (map D.entries s.docsets.items) };

    fn advance(&mut self) -> DocId {
        self.doc = advance_any(&mut self.docsets, self.doc);
        self.doc
    }

    fn seek(&mut self, target: DocId) -> DocId {
        self.doc = seek_any(&mut self.docsets, target);
        self.doc
    }

    #[inline]
    fn doc(&self) -> DocId {
        self.doc
    }

    fn size_hint(&self) -> u32 {
        let mut hint = 0;
        for i in 0..self.docsets.len() {
            hint = hint.max(self.docsets[i].size_hint());
        }
        hint
    }

    ghost rising = { λ s. Rising-unscored (map D.entries s.docsets.items) };
}
