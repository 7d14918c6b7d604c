//! The places of a phrase in one document, found in buffers that are allocated before.

ghost use Rattle.std.specs.Prelude.{◌<◌, ◌≡◌, IfOk};
ghost use Rattle.phrases.specs.Finders.{CanFind, HasFound, HasRoom};

use crate::position_marks::Marks;
use crate::shared_positions::keep_distinct;
use crate::slop_costs::{Cost, begin, copy_cheap, reach};
use docsets::DocSet;
use intersections::{Intersection, Positioned};
use std::alloc::{AllocError, Global};
use std::mem::swap;

/// The position below which terms are marked if there is no slop. Most texts are shorter.
const MARKED: usize = 4096;

/// A slop, the places found last, and buffers for columns, for their costs and for marks.
#[derive(Drop)]
pub(crate) struct PlaceFinder {
    pub(crate) slop: u32,
    pub(crate) places: Vec<u32>,
    pub(crate) positions: Vec<u32>,
    pub(crate) costs: Vec<Cost>,
    pub(crate) further_costs: Vec<Cost>,
    pub(crate) marks: Marks,
}

impl PlaceFinder {
    /// Returns a finder with room for columns of `room` positions.
    pub(crate) fn new(alloc: Global, slop: u32, room: usize) -> Result<PlaceFinder, AllocError>
        ensures slop { IfOk result (λ finder. finder.slop ≡ slop) }
        ensures room { IfOk result (λ finder. HasRoom finder room) }
    {
        let (costs_room, marked) = if slop == 0 { (0, MARKED) } else { (room, 0) };
        Ok(PlaceFinder {
            slop,
            places: Vec::with_capacity(alloc, room)?,
            positions: Vec::with_capacity(alloc, room)?,
            costs: Vec::with_capacity(alloc, costs_room)?,
            further_costs: Vec::with_capacity(alloc, costs_room)?,
            marks: Marks::new(alloc, marked)?,
        })
    }

    /// Finds the places of the phrase in the current document of `terms`.
    pub(crate) fn find<S: Positioned>(&mut self, terms: &mut Intersection<S>)
        requires { CanFind self.old (⟦<Intersection<S> as DocSet>⟧.entries terms.old) }
        ensures { HasFound self.old (⟦<Intersection<S> as DocSet>⟧.entries terms.old)
            self.new (⟦<Intersection<S> as DocSet>⟧.entries terms.new) }
    {
        if self.slop == 0 {
            self.find_shared(terms);
        } else {
            self.find_near(terms);
        }
    }

    /// Finds the places without slop: each term keeps those where it occurs; repeats go last, when few are left.
    fn find_shared<S: Positioned>(&mut self, terms: &mut Intersection<S>)
        requires none { self.old.slop ≡ 0 }
        requires can { CanFind self.old (⟦<Intersection<S> as DocSet>⟧.entries terms.old) }
        ensures { HasFound self.old (⟦<Intersection<S> as DocSet>⟧.entries terms.old)
            self.new (⟦<Intersection<S> as DocSet>⟧.entries terms.new) }
    {
        terms.column(0, &mut self.places);
        for i in 1..terms.num_columns() {
            terms.column(i, &mut self.positions);
            self.marks.keep_shared(&mut self.places, &self.positions);
            if self.places.is_empty() {
                return;
            }
        }
        keep_distinct(&mut self.places);
    }

    /// Finds the places within a slop: each term in turn gives each of its positions the least cost.
    fn find_near<S: Positioned>(&mut self, terms: &mut Intersection<S>)
        requires some_slop { 0 < self.old.slop }
        requires can { CanFind self.old (⟦<Intersection<S> as DocSet>⟧.entries terms.old) }
        ensures { HasFound self.old (⟦<Intersection<S> as DocSet>⟧.entries terms.old)
            self.new (⟦<Intersection<S> as DocSet>⟧.entries terms.new) }
    {
        let most = u64::from(self.slop) + 1;
        terms.column(0, &mut self.positions);
        begin(&self.positions, &mut self.costs);
        for i in 1..terms.num_columns() {
            terms.column(i, &mut self.positions);
            reach(&self.costs, &self.positions, most, &mut self.further_costs);
            swap(&mut self.costs, &mut self.further_costs);
        }
        copy_cheap(&self.costs, u64::from(self.slop), &mut self.places);
    }
}
