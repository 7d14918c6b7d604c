//! How another store's blocks are appended to the fields of a writer.

ghost use Rattle.std.specs.Prelude.{◌++◌, ◌+◌, ◌<◌, ◌≡◌, ◌≤◌, ◌^◌, [], List, OnErr, OnOk, IfOk, All, length, map, take, ℕ};
ghost use Rattle.layouts.specs.Stores.{Adjoin, Block, byte_end, checkpoints, data_of, doc_end, max_docs};
ghost use Rattle.store.specs.Stacking.{FitsShifted, IsKeptIn, IsShut, shifted};
ghost use Rattle.store.specs.Writing.{Stand, blocks_of, count_of, written};

use crate::skip_index::doc_end;
use crate::writer_fields::{Parts, put_block_end};
use layouts::Checkpoint;
use std::alloc::AllocError;

/// Returns `reach` moved on by `docs` documents and `bytes` bytes.
fn shifted(reach: &Checkpoint, docs: u32, bytes: usize) -> Checkpoint
    requires { FitsShifted docs bytes reach.now }
    ensures { result ≡ shifted docs bytes reach.now }
{
    Checkpoint {
        doc_range: docs + reach.doc_range.start..docs + reach.doc_range.end,
        byte_range: bytes + reach.byte_range.start..bytes + reach.byte_range.end,
    }
}

/// Appends `reaches`, each moved on by `docs` documents and `bytes` bytes.
fn put_shifted(
    out: &mut Vec<Checkpoint>,
    reaches: &[Checkpoint],
    docs: u32,
    bytes: usize,
) -> Result<(), AllocError>
    requires { All (FitsShifted docs bytes) reaches.now }
    ensures ok { OnOk result (out.new.items ≡ out.old.items ++ map (shifted docs bytes) reaches.now) }
    ensures kept { take (length out.old.items) out.new.items ≡ out.old.items }
{
    for reach in reaches {
        out.push(shifted(reach, docs, bytes))?;
    }
    Ok(())
}

impl Parts {
    /// Ends the block of any pending documents, which stay pending; returns the documents and bytes of the blocks then.
    fn put_pending(&mut self) -> Result<(u32, usize), AllocError>
        requires { (bs : List Block) × (ds : List (List ℕ)) × Stand self.old bs ds
            × (count_of bs + length ds ≤ max_docs) }
        ensures ok { (bs : List Block) (ds : List (List ℕ)) → Stand self.old bs ds
            → IfOk result (λ ends. IsShut self.new (blocks_of (written bs ds 0)) ends) }
        ensures kept { IsKeptIn self.old self.new }
    {
        if self.starts.len() == 0 {
            return Ok((self.first_doc, self.first_byte));
        }
        put_block_end(&mut self.out, &self.starts)?;
        let reach = Checkpoint {
            doc_range: self.first_doc..self.first_doc + self.starts.len() as u32,
            byte_range: self.first_byte..self.out.len(),
        };
        let ends = (reach.doc_range.end, reach.byte_range.end);
        self.checkpoints.push(reach)?;
        Ok(ends)
    }

    /// Makes a block of the pending documents, and appends the blocks of `bytes` with the checkpoints `reaches`.
    fn append(&mut self, bytes: &[u8], reaches: &[Checkpoint]) -> Result<(), AllocError>
        requires stands { (bs : List Block) × (ds : List (List ℕ)) × Stand self.old bs ds
            × (count_of bs + length ds + doc_end 0 reaches.now ≤ max_docs) }
        requires run { Adjoin 0 0 reaches.now }
        requires covers { byte_end 0 reaches.now ≤ length bytes.now }
        ensures ok { (bs : List Block) (ds : List (List ℕ)) (more : List Block) → Stand self.old bs ds
            → reaches.now ≡ checkpoints 0 0 more → bytes.now ≡ data_of more
            → OnOk result (Stand self.new (blocks_of (written bs ds 0) ++ more) []) }
        ensures kept { OnErr result (IsKeptIn self.old self.new) }
    {
        let (docs, end) = self.put_pending()?;
        self.out.extend_from_slice(bytes)?;
        let len = self.out.len();
        put_shifted(&mut self.checkpoints, reaches, docs, end)?;
        self.starts.clear();
        self.first_byte = len;
        self.first_doc = docs + doc_end(reaches);
        Ok(())
    }

    /// Like `append`, but a failed call changes nothing.
    pub(crate) fn stack(&mut self, bytes: &[u8], reaches: &[Checkpoint]) -> Result<(), AllocError>
        requires stands { (bs : List Block) × (ds : List (List ℕ)) × Stand self.old bs ds
            × (count_of bs + length ds + doc_end 0 reaches.now ≤ max_docs) }
        requires run { Adjoin 0 0 reaches.now }
        requires covers { byte_end 0 reaches.now ≤ length bytes.now }
        ensures ok { (bs : List Block) (ds : List (List ℕ)) (more : List Block) → Stand self.old bs ds
            → reaches.now ≡ checkpoints 0 0 more → bytes.now ≡ data_of more
            → OnOk result (Stand self.new (blocks_of (written bs ds 0) ++ more) []) }
        ensures err { (bs : List Block) (ds : List (List ℕ)) → Stand self.old bs ds
            → OnErr result (Stand self.new bs ds) }
    {
        let len = self.out.len();
        let blocks = self.checkpoints.len();
        match self.append(bytes, reaches) {
            Ok(()) => Ok(()),
            Err(fault) => {
                self.out.truncate(len);
                self.checkpoints.truncate(blocks);
                Err(fault)
            }
        }
    }
}
