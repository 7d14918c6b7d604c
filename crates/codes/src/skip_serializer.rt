//! Skip entries, encoded as bytes.

ghost use Rattle.std.specs.Prelude.{[], ◌++◌, ◌∷◌, ◌≡◌, OnOk};
ghost use Rattle.definitions.specs.NumberCodes.{u32_bytes};
ghost use Rattle.layouts.specs.SkipEntries.{count_code};

use common::put_u32;
use std::alloc::{AllocError, Global};
use std::marker::Model;

/// The skip entries of a term's full blocks, each written in the order of its calls: what isn't recorded is
/// left out. Seen as the bytes so far.
#[derive(Drop)]
pub struct SkipSerializer {
    buffer: Vec<u8>,
}

impl Model for SkipSerializer {
    ghost use Rattle.std.specs.Prelude.{List, ℕ};

    ghost Value = { List ℕ };

    ghost view = { λ s. s.buffer.items };
}

impl SkipSerializer {
    /// Returns a serializer without entries.
    pub fn new(alloc: Global) -> SkipSerializer
        ensures { result ≡ [] }
    {
        SkipSerializer {
            buffer: Vec::new(alloc),
        }
    }

    /// Begins the entry of a block: its last document, and the width of its documents.
    pub fn write_doc(&mut self, last_doc: u32, doc_num_bits: u8) -> Result<(), AllocError>
        ensures { OnOk result (self.new ≡ self.old ++ u32_bytes last_doc ++ doc_num_bits ∷ []) }
    {
        put_u32(&mut self.buffer, last_doc)?;
        self.buffer.push(doc_num_bits)?;
        Ok(())
    }

    /// Appends the width of the block's counts, where they are recorded.
    pub fn write_term_freq(&mut self, tf_num_bits: u8) -> Result<(), AllocError>
        ensures { OnOk result (self.new ≡ self.old ++ tf_num_bits ∷ []) }
    {
        self.buffer.push(tf_num_bits)?;
        Ok(())
    }

    /// Appends the sum of the block's counts, where positions are recorded.
    pub fn write_total_term_freq(&mut self, tf_sum: u32) -> Result<(), AllocError>
        ensures { OnOk result (self.new ≡ self.old ++ u32_bytes tf_sum) }
    {
        put_u32(&mut self.buffer, tf_sum)
    }

    /// Ends the entry by the bound of its block: the least length id, and the greatest count.
    pub fn write_blockwand_max(
        &mut self,
        fieldnorm_id: u8,
        term_freq: u32,
    ) -> Result<(), AllocError>
        ensures { OnOk result (self.new ≡ self.old ++ fieldnorm_id ∷ count_code term_freq ∷ []) }
    {
        self.buffer.push(fieldnorm_id)?;
        self.buffer.push(term_freq.min(255) as u8)?;
        Ok(())
    }

    /// Returns the bytes of the entries so far.
    pub fn data(&self) -> &[u8]
        ensures { result.now ≡ self.now }
    {
        &self.buffer
    }

    /// Removes every entry.
    pub fn clear(&mut self)
        ensures { self.new ≡ [] }
    {
        self.buffer.clear();
    }
}
