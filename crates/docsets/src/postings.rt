//! Cursors that have counts and positions.

ghost use Rattle.std.specs.Prelude.{[], ◌+◌, ◌<◌, ◌≡◌, ◌≤◌, List, OnErr, OnOk, length, map, vec_capacity, ℕ};
ghost use Rattle.definitions.specs.Postings.{terminated};
ghost use Rattle.docsets.specs.Entries.{first, first_count, first_positions, highest, most_positions, single};

use crate::doc_set::DocSet;
use std::alloc::AllocError;

/// A cursor over the documents of a term, with how often it occurs in the current one, and at which positions.
///
/// The calls that write positions allocate only if `output` hasn't the room for what it then holds.
pub trait Postings: DocSet {
    ghost use Rattle.docsets.specs.Entries.{AreSingle};

    // How positions are appended to those that an output holds.
    ghost joined: { List ℕ → List ℕ → List ℕ };

    /// Returns how often the term occurs in the current document.
    fn term_freq(&self) -> u32
        requires { first (Self.entries self.now) < terminated }
        ensures { result ≡ first_count (Self.entries self.now) };

    /// Appends the positions in the current document, each plus `offset`, to `output`.
    fn append_positions_with_offset(
        &mut self,
        offset: u32,
        output: &mut Vec<u32>,
    ) -> Result<(), AllocError>
        requires on { first (Self.entries self.old) < terminated }
        requires fits { highest (single (first_positions (Self.entries self.old))) + offset ≤ 4294967295 }
        ensures same { Self.entries self.new ≡ Self.entries self.old }
        ensures ok { OnOk result (output.new.items
            ≡ joined output.old.items (map (λ p. p + offset) (single (first_positions (Self.entries self.old))))) }
        ensures err { OnErr result (output.new.items ≡ output.old.items) }
        ensures full { OnErr result (vec_capacity output.old
            < length (joined output.old.items (map (λ p. p + offset)
            (single (first_positions (Self.entries self.old)))))) }
        ensures room { vec_capacity output.old ≤ vec_capacity output.new };

    /// Replaces what `output` holds by the positions in the current document, each plus `offset`; by none if out of
    /// memory.
    fn positions_with_offset(
        &mut self,
        offset: u32,
        output: &mut Vec<u32>,
    ) -> Result<(), AllocError>
        requires on { first (Self.entries self.old) < terminated }
        requires fits { highest (single (first_positions (Self.entries self.old))) + offset ≤ 4294967295 }
        ensures same { Self.entries self.new ≡ Self.entries self.old }
        ensures ok { OnOk result (output.new.items
            ≡ map (λ p. p + offset) (single (first_positions (Self.entries self.old)))) }
        ensures err { OnErr result (output.new.items ≡ []) }
        ensures full { OnErr result (vec_capacity output.old
            < length (single (first_positions (Self.entries self.old)))) }
        ensures room { vec_capacity output.old ≤ vec_capacity output.new }
    {
        output.clear();
        self.append_positions_with_offset(offset, output)?;
        Ok(())
    }

    /// Replaces what `output` holds by the positions in the current document; by none if out of memory.
    fn positions(&mut self, output: &mut Vec<u32>) -> Result<(), AllocError>
        requires on { first (Self.entries self.old) < terminated }
        ensures same { Self.entries self.new ≡ Self.entries self.old }
        ensures ok { OnOk result (output.new.items ≡ single (first_positions (Self.entries self.old))) }
        ensures err { OnErr result (output.new.items ≡ []) }
        ensures full { OnErr result (vec_capacity output.old
            < length (single (first_positions (Self.entries self.old)))) }
        ensures room { vec_capacity output.old ≤ vec_capacity output.new }
    {
        self.positions_with_offset(0, output)?;
        Ok(())
    }

    /// Returns an upper bound of the number of positions of each remaining document.
    fn most_positions(&self) -> usize
        ensures { most_positions (Self.entries self.now) ≤ result };

    /// Returns an upper bound of the number of positions of the current document, which aren't read for it.
    #[inline]
    fn positions_bound(&self) -> usize
        requires { first (Self.entries self.now) < terminated }
        ensures { length (single (first_positions (Self.entries self.now))) ≤ result }
    {
        self.most_positions()
    }

    // Each entry is of one term; its positions don't fall.
    ghost of_one_term: { (s : Self) → AreSingle (Self.entries s) };

    // Without others before them, the positions of an entry are put as they are.
    ghost alone: { (s : Self) (offset : ℕ) → joined [] (map (λ p. p + offset) (single (first_positions (Self.entries s)))) ≡ map (λ p. p + offset) (single (first_positions (Self.entries s))) };
}
