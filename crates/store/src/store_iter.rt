//! The documents of a store in order.

ghost use Rattle.std.specs.Prelude.{◌-◌, ◌<◌, ◌^◌, ◌≡◌, IfSome, option_map};
ghost use Rattle.std.specs.Iterator.{at_most};
ghost use Rattle.common.specs.BitSets.{IsFirst};
ghost use Rattle.store.specs.Walking.{IsNext, is_due};
ghost use Rattle.store.specs.Writing.{count_of};

use crate::store_reader::StoreReader;
use bytes::Bytes;
use common::AliveBitSet;
use definitions::Fault;

/// The documents of a store in order, each as its bytes or as the fault of its block.
#[derive(Drop)]
pub struct StoreIter<'a> {
    pub(crate) reader: &'a mut StoreReader,
    pub(crate) alive: Option<&'a AliveBitSet>,
    pub(crate) doc: u32,
}

impl<'a> StoreIter<'a> {
    ghost use Rattle.store.specs.Iterations.{doc_of, flags_of, reader_of};

    /// Returns the next document that is due.
    fn due(&self) -> Option<u32>
        ensures first { IsFirst (is_due (count_of (reader_of self.now).blocks) (flags_of self.now)) (doc_of self.now)
            result }
        ensures within { IfSome result (λ doc. (doc < count_of (reader_of self.now).blocks)
            × (count_of (reader_of self.now).blocks < 2 ^ 32)) }
    {
        let doc = match self.alive {
            Some(alive) => alive.first_alive_from(self.doc)?,
            None => self.doc,
        };
        if doc < self.reader.num_docs() {
            Some(doc)
        } else {
            None
        }
    }
}

impl<'a> Iterator for StoreIter<'a> {
    ghost use Rattle.store.specs.Iterations.{doc_of, flags_of, reader_of};

    type Item = Result<Bytes, Fault>;

    ghost remaining = { λ i. at_most (count_of (reader_of i).blocks - doc_of i) };

    ghost next_gives = { λ a r b. IsNext (flags_of a) (reader_of a) (doc_of a) r (reader_of b) (doc_of b) × (flags_of b ≡ flags_of a) };

    fn next(&mut self) -> Option<Result<Bytes, Fault>> {
        let doc = self.due()?;
        self.doc = doc + 1;
        Some(self.reader.next_slot(doc))
    }
}
