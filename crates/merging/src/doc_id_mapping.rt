//! The document ids that the documents of a member get in a merge.

ghost use Rattle.std.specs.Prelude.{◌+◌, ◌<◌, ◌≡◌, ◌≤◌, IfOk, length};
ghost use Rattle.definitions.specs.Merging.{num_living};
ghost use Rattle.definitions.specs.Postings.{terminated};
ghost use Rattle.merging.specs.Mappings.{end_of, new_doc};

use common::{AliveBitSet, DocId, TERMINATED};
use std::alloc::{AllocError, Global};
use std::marker::Model;

/// The new ids of a member's documents: those of the living ones follow one another from a base on.
#[derive(Drop)]
pub struct DocIdMapping {
    base: DocId,
    end: DocId,
    // The new id of each document, `TERMINATED` for one that is dead.
    new_doc_ids: Vec<DocId>,
}

impl Model for DocIdMapping {
    ghost use Rattle.merging.specs.Mappings.{AreNumbers, Mapping, mapping_of};

    ghost Value = { Mapping };

    ghost view = { λ m. mapping_of m.base m.new_doc_ids.items };

    ghost invariant = { λ m. AreNumbers m.base m.end m.new_doc_ids.items };
}

impl DocIdMapping {
    /// Returns the mapping of the documents in `alive`, of which the living ones get the ids from `base` on.
    pub fn new(alloc: Global, base: DocId, alive: &AliveBitSet) -> Result<DocIdMapping, AllocError>
        requires { base + num_living alive.now ≤ terminated }
        ensures { IfOk result (λ mapping. mapping ≡ record { base = base; flags = alive.now }) }
    {
        let num_docs = alive.len() as u32;
        let mut new_doc_ids = Vec::with_capacity(alloc, num_docs as usize)?;
        let mut end = base;
        for doc in 0..num_docs {
            if alive.is_alive(doc) {
                new_doc_ids.push(end)?;
                end += 1;
            } else {
                new_doc_ids.push(TERMINATED)?;
            }
        }
        Ok(DocIdMapping {
            base,
            end,
            new_doc_ids,
        })
    }

    /// Returns the new id of `doc`; none if it is dead.
    #[inline]
    pub fn get_new_doc_id(&self, doc: DocId) -> Option<DocId>
        requires { doc < length self.now.flags }
        ensures { result ≡ new_doc self.now doc }
    {
        let new_doc = self.new_doc_ids[doc as usize];
        if new_doc == TERMINATED {
            return None;
        }
        Some(new_doc)
    }

    /// Returns the id after that of the last living document.
    pub fn end(&self) -> DocId
        ensures end { result ≡ end_of self.now }
        ensures few { end_of self.now ≤ terminated }
    {
        self.end
    }
}
