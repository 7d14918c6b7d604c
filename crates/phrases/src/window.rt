//! A window over a phrase: rows of its next documents, in buffers that are allocated before.

ghost use Rattle.std.specs.Prelude.{[], ◌<◌, ◌≡◌, ◌≤◌, IfOk, drop, length, ℕ};
ghost use Rattle.docsets.specs.Entries.{Rising, first, first_count, first_score, from};
ghost use Rattle.definitions.specs.Postings.{terminated};
ghost use Rattle.phrases.specs.Windows.{IsWindow, left_in};

use crate::row::Row;
use crate::row_search::{doc_at, first_row};
use common::{DocId, TERMINATED};
use std::alloc::{AllocError, Global};

/// The most documents of a phrase in a window.
pub(crate) const MOST_ROWS: usize = 4096;

/// The number of documents in the first window.
const FIRST_ROWS: usize = 128;

/// The number of documents in the window after a seek.
const FEW_ROWS: usize = 16;

/// The factor by which the next window is larger.
pub(crate) const GROWTH: usize = 4;

/// The number of places with which a window is full.
pub(crate) const MANY_PLACES: usize = 16384;

/// Rows that suffixes follow, the index of the current one, and how many documents to take next; guesses for a search
/// of rows, the places of all rows, and buffers for those of one row and for the positions of one suffix.
/// A window has at most 128 documents at first, later up to 4096, and 16 after a seek past its rows: each suffix is
/// walked over all in a row, since thousands that move for each document would mostly be looked at for nothing.
/// Guesses are checked; rows closer together than guessed are passed by halves.
#[derive(Drop)]
pub(crate) struct Window {
    pub(crate) rows: Vec<Row>,
    pub(crate) row: usize,
    pub(crate) limit: usize,
    pub(crate) guesses: Vec<u32>,
    pub(crate) places: Vec<u32>,
    pub(crate) here: Vec<u32>,
    pub(crate) positions: Vec<u32>,
}

impl Window {
    /// Returns a window without rows, with room for `most_places` places and `most_positions` positions of one
    /// document.
    pub(crate) fn new(
        alloc: Global,
        most_places: usize,
        most_positions: usize,
    ) -> Result<Window, AllocError>
        ensures none { IfOk result (λ window. left_in window ≡ []) }
        ensures room { IfOk result (λ window. IsWindow window most_places most_positions) }
    {
        let places_room = most_places.saturating_add(MANY_PLACES);
        Ok(Window {
            rows: Vec::with_capacity(alloc, MOST_ROWS)?,
            row: 0,
            limit: FIRST_ROWS,
            guesses: Vec::with_capacity(alloc, MOST_ROWS)?,
            places: Vec::with_capacity(alloc, places_room)?,
            here: Vec::with_capacity(alloc, most_places)?,
            positions: Vec::with_capacity(alloc, most_positions)?,
        })
    }

    /// Returns the document of the current row.
    #[inline]
    pub(crate) fn doc(&self) -> DocId
        ensures { result ≡ first (left_in self.now) }
    {
        if self.row < self.rows.len() {
            return doc_at(&self.rows, self.row);
        }
        TERMINATED
    }

    /// Returns the score of the current row.
    #[inline]
    pub(crate) fn score(&self) -> u64
        requires { first (left_in self.now) < terminated }
        ensures { result ≡ first_score (left_in self.now) }
    {
        self.rows[self.row].score
    }

    /// Returns how often suffixes follow the current row.
    #[inline]
    pub(crate) fn count(&self) -> u64
        requires { first (left_in self.now) < terminated }
        ensures { result ≡ first_count (left_in self.now) }
    {
        self.rows[self.row].count
    }

    /// Moves to the next row.
    #[inline]
    pub(crate) fn step(&mut self)
        ensures left { left_in self.new ≡ drop 1 (left_in self.old) }
        ensures window { (n m : ℕ) → IsWindow self.old n m → IsWindow self.new n m }
    {
        if self.row < self.rows.len() {
            self.row += 1;
        }
    }

    /// Moves to the first row whose document is >= `target`.
    pub(crate) fn seek(&mut self, target: DocId)
        requires within { self.old.row ≤ length self.old.rows.items }
        requires rises { Rising 0 (left_in self.old) }
        ensures left { left_in self.new ≡ from target (left_in self.old) }
        ensures window { (n m : ℕ) → IsWindow self.old n m → IsWindow self.new n m }
    {
        self.row = first_row(&self.rows, self.row, self.rows.len(), target);
        if self.row == self.rows.len() {
            self.limit = FEW_ROWS;
        }
    }
}
