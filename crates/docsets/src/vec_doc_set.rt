//! A cursor over a list of documents.

ghost use Rattle.std.specs.Prelude.{◌≡◌, drop, length};
ghost use Rattle.docsets.specs.Entries.{Rising};
ghost use Rattle.docsets.specs.EntryLaws.{Rising-prop};
ghost use Rattle.definitions.specs.ScoredLists.{AreScoredFrom, each_scoring};
ghost use Rattle.docsets.specs.ScoredEntries.{scored};

use crate::DocSet;
use common::{DocId, HasLen, TERMINATED};

/// The documents of a list, without scores.
#[derive(Drop)]
pub struct VecDocSet {
    doc_ids: Vec<DocId>,
    cursor: usize,
    ghost ascends: { Rising 0 (scored (each_scoring 0 (drop cursor doc_ids.items))) } by { Rising-prop 0 (scored (each_scoring 0 (drop cursor doc_ids.items))) },
}

impl VecDocSet {
    /// Returns a cursor on the first document of `doc_ids`, which ascend below `TERMINATED`.
    pub fn from(doc_ids: Vec<DocId>) -> VecDocSet
        requires { AreScoredFrom 0 (each_scoring 0 doc_ids.items) }
        ensures entries { ⟦<VecDocSet as DocSet>⟧.entries result ≡ scored (each_scoring 0 doc_ids.items) }
        ensures len { ⟦<VecDocSet as HasLen>⟧.count result ≡ length doc_ids.items }
    {
        VecDocSet { doc_ids, cursor: 0 }
    }
}

impl HasLen for VecDocSet {
    ghost count = { λ s. length s.doc_ids.items };

    fn len(&self) -> usize {
        self.doc_ids.len()
    }
}

impl DocSet for VecDocSet {
    ghost entries = { λ s. scored (each_scoring 0 (drop s.cursor s.doc_ids.items)) };

    #[inline]
    fn advance(&mut self) -> DocId {
        if self.cursor >= self.doc_ids.len() {
            return TERMINATED;
        }
        self.cursor += 1;
        self.doc()
    }

    #[inline]
    fn doc(&self) -> DocId {
        if self.cursor < self.doc_ids.len() {
            return self.doc_ids[self.cursor];
        }
        TERMINATED
    }

    fn size_hint(&self) -> u32 {
        self.doc_ids.len().min(u32::MAX as usize) as u32
    }

    ghost rising = { λ s. s.ascends };
}
