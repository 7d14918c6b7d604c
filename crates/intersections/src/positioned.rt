//! Cursors whose documents have one list of positions each.

ghost use Rattle.std.specs.Prelude.{◌<◌, ◌≡◌, ◌≤◌, length, vec_capacity};
ghost use Rattle.docsets.specs.Entries.{first, first_positions, most_positions, single};
ghost use Rattle.definitions.specs.Postings.{terminated};

use docsets::DocSet;

/// A cursor whose documents have one list of positions each.
pub trait Positioned: DocSet {
    ghost use Rattle.intersections.specs.Columns.{HaveOneColumn};

    /// Replaces the content of `output`, which has the room, with the positions in the current document.
    fn positions(&mut self, output: &mut Vec<u32>)
        requires on { first (Self.entries self.old) < terminated }
        requires room { length (single (first_positions (Self.entries self.old))) ≤ vec_capacity output.old }
        ensures same { Self.entries self.new ≡ Self.entries self.old }
        ensures items { output.new.items ≡ single (first_positions (Self.entries self.old)) }
        ensures room { vec_capacity output.old ≤ vec_capacity output.new };

    /// Returns an upper bound of the number of positions of each remaining document.
    fn most_positions(&self) -> usize
        ensures { most_positions (Self.entries self.now) ≤ result };

    /// Returns an upper bound of the number of positions of the current document, which aren't read for it.
    #[inline]
    fn positions_bound(&self) -> usize
        requires { first (Self.entries self.now) < terminated }
        ensures { length (single (first_positions (Self.entries self.now))) ≤ result }
    {
        self.most_positions()
    }

    // Each entry has one column, whose positions don't fall.
    ghost one_column: { (s : Self) → HaveOneColumn (Self.entries s) };
}
