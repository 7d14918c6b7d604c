//! The starts of texts.

ghost use Rattle.std.specs.Prelude.{[], ◌≡◌, List, OnOk, Some, bytes_eq, if◌then◌else◌, ℕ};
ghost use Rattle.std.specs.Map.{lookup};
ghost use Rattle.document_indexer.specs.Contexts.{start_of};

use postings_writer::SeededState;
use std::alloc::{AllocError, Global};
use std::collections::HashMap;
use std::marker::Model;

/// The number of positions that are left out between two texts of one path of a JSON field.
pub(crate) const PATH_GAP: u32 = 1;

/// A map from the first bytes of a text's terms to the last document with such a text, and the start of its next one.
#[derive(Drop)]
pub(crate) struct IndexingPositions {
    starts: HashMap<Vec<u8>, (u32, u32), SeededState>,
}

impl Model for IndexingPositions {
    ghost use Rattle.std.specs.Prelude.{map};
    ghost use Rattle.document_indexer.specs.Contexts.{Positions};

    ghost Value = { Positions };

    ghost view = { λ p. map (λ e. (e.0.items, e.1)) p.starts.entries };
}

impl IndexingPositions {
    /// Returns a map without texts. First bytes of terms are hashed by `hash_seed`.
    pub(crate) fn new(alloc: Global, hash_seed: u128) -> IndexingPositions
        ensures { result ≡ [] }
    {
        IndexingPositions {
            starts: HashMap::with_hasher(alloc, SeededState::new(hash_seed)),
        }
    }

    /// Returns the start of the next text of `doc` whose terms begin with `prefix`.
    pub(crate) fn start_of(&self, doc: u32, prefix: &[u8]) -> u32
        ensures { result ≡ start_of doc prefix.now self.now }
    {
        match self.starts.get(prefix) {
            Some((last, start)) if *last == doc => *start,
            _ => 0,
        }
    }

    /// Sets the start of the next text of `doc` whose terms begin with `prefix`.
    pub(crate) fn set_start(
        &mut self,
        alloc: Global,
        doc: u32,
        prefix: &[u8],
        start: u32,
    ) -> Result<(), AllocError>
        ensures { OnOk result ((other : List ℕ) → lookup (bytes_eq other) self.new
            ≡ (if bytes_eq prefix.now other then Some (doc, start) else lookup (bytes_eq other) self.old)) }
    {
        match self.starts.get_mut(prefix) {
            Some(last) => {
                *last = (doc, start);
                Ok(())
            }
            None => {
                self.starts.insert(prefix.to_vec(alloc)?, (doc, start))?;
                Ok(())
            }
        }
    }
}
