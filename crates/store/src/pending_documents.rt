//! The pending documents of a writer, and how they become blocks.

ghost use Rattle.std.specs.Prelude.{◌++◌, ◌+◌, ◌<◌, ◌≡◌, ◌≤◌, ◌^◌, ◌∷◌, [], List, OnErr, OnOk, length, ℕ};
ghost use Rattle.std.specs.List.{concat};
ghost use Rattle.layouts.specs.Stores.{Block, max_docs};
ghost use Rattle.store.specs.Writing.{Stand, closed, count_of};

use crate::writer_fields::{Parts, put_block_end};
use layouts::Checkpoint;
use std::alloc::{AllocError, Global};

impl Parts {
    /// Returns parts without blocks and documents.
    pub(crate) fn new(alloc: Global) -> Parts
        ensures { Stand result [] [] }
    {
        Parts {
            out: Vec::new(alloc),
            checkpoints: Vec::new(alloc),
            starts: Vec::new(alloc),
            first_doc: 0,
            first_byte: 0,
        }
    }

    /// Adds a pending document. A failed call changes nothing.
    pub(crate) fn add(&mut self, doc: &[u8]) -> Result<(), AllocError>
        requires { (bs : List Block) × (ds : List (List ℕ)) × Stand self.old bs ds × (length (concat ds) < 2 ^ 32) }
        ensures ok { (bs : List Block) (ds : List (List ℕ)) → Stand self.old bs ds
            → OnOk result (Stand self.new bs (ds ++ doc.now ∷ [])) }
        ensures err { (bs : List Block) (ds : List (List ℕ)) → Stand self.old bs ds
            → OnErr result (Stand self.new bs ds) }
    {
        let start = (self.out.len() - self.first_byte) as u32;
        self.starts.reserve(1)?;
        self.out.extend_from_slice(doc)?;
        self.starts.push(start)?;
        Ok(())
    }

    /// Removes the last pending document.
    pub(crate) fn remove_last(&mut self)
        requires { (bs : List Block) × (ds : List (List ℕ)) × (doc : List ℕ) × Stand self.old bs (ds ++ doc ∷ []) }
        ensures { (bs : List Block) (ds : List (List ℕ)) (doc : List ℕ) → Stand self.old bs (ds ++ doc ∷ [])
            → Stand self.new bs ds }
    {
        let last = self.starts.len() - 1;
        let end = self.first_byte + self.starts[last] as usize;
        self.starts.truncate(last);
        self.out.truncate(end);
    }

    /// Makes a block of the pending documents. A failed call changes nothing.
    pub(crate) fn close_block(&mut self) -> Result<(), AllocError>
        requires { (bs : List Block) × (ds : List (List ℕ)) × Stand self.old bs ds
            × (count_of bs + length ds ≤ max_docs) }
        ensures ok { (bs : List Block) (ds : List (List ℕ)) → Stand self.old bs ds
            → OnOk result (Stand self.new (bs ++ closed ds ∷ []) []) }
        ensures err { (bs : List Block) (ds : List (List ℕ)) → Stand self.old bs ds
            → OnErr result (Stand self.new bs ds) }
    {
        self.checkpoints.reserve(1)?;
        put_block_end(&mut self.out, &self.starts)?;
        let reach = Checkpoint {
            doc_range: self.first_doc..self.first_doc + self.starts.len() as u32,
            byte_range: self.first_byte..self.out.len(),
        };
        self.first_doc = reach.doc_range.end;
        self.first_byte = reach.byte_range.end;
        self.checkpoints.push(reach)?;
        self.starts.clear();
        Ok(())
    }
}
