//! A ring of cells, in which places lie.
ghost use Rattle.std.specs.Prelude.{◌≡◌, ◌+◌, ◌%◌, ◌<◌, ◌≤◌, ◌==◌, IfOk, Some, length, slice_get};
ghost use Rattle.iox_lanes.specs.Cells.{no_places, with_last, without_front};

mod first;

use crate::cells::first::after;
use std::alloc::{AllocError, Global};
use std::marker::Model;

/// At most as many places as there are cells, the oldest in the first.
///
/// It takes memory when it is made, and never again.
#[derive(Drop)]
pub(crate) struct Cells {
    cells: Vec<u64>,
    first: usize,
    count: usize,
}

impl Model for Cells {
    ghost use Rattle.iox_lanes.specs.Cells.{AreWithin, CellsState, cells_of};

    ghost Value = { CellsState };

    ghost view = { λ c. cells_of c.cells.items c.first c.count };

    ghost invariant = { λ c. AreWithin c.cells.items c.first c.count };
}

/// The cell in that place, where the places go around once.
#[inline]
#[tactic(auto, using(iox_queues::proofs::RingLemmas::mod_wraps_once))]
fn around(place: usize, cells: usize) -> usize
    requires { place < cells + cells }
    ensures at { result ≡ place % cells }
    ensures within { result < cells }
{
    if place < cells {
        return place;
    }
    place - cells
}

impl Cells {
    /// Makes so many cells, in which nothing lies. It fails only for want of memory.
    pub(crate) fn new(alloc: Global, capacity: usize) -> Result<Cells, AllocError>
        ensures { IfOk result (λ c. c ≡ no_places capacity) }
    {
        Ok(Cells {
            cells: vec![in alloc; 0u64; capacity]?,
            first: 0,
            count: 0,
        })
    }

    /// How many places there is room for.
    #[inline]
    pub(crate) fn capacity(&self) -> usize
        ensures { result ≡ self.now.capacity }
    {
        self.cells.len()
    }

    /// How many places lie there.
    #[inline]
    #[tactic(auto, using(crate::proofs::InCells::in_cells))]
    pub(crate) fn len(&self) -> usize
        ensures len { result ≡ length self.now.places }
        ensures within { result ≤ self.now.capacity }
    {
        self.count
    }

    /// Whether none lies there.
    #[inline]
    #[tactic(auto, using(crate::proofs::InCells::in_cells))]
    pub(crate) fn is_empty(&self) -> bool
        ensures { result ≡ (length self.now.places == 0) }
    {
        self.count == 0
    }

    /// The place of that rank, the oldest at 0; `None` past the last.
    #[tactic(auto, using(crate::proofs::InCells::in_cells))]
    pub(crate) fn get(&self, rank: usize) -> Option<u64>
        ensures { result ≡ slice_get self.now.places rank }
    {
        if self.count <= rank {
            return None;
        }
        Some(self.cells[around(self.first + rank, self.cells.len())])
    }

    /// Puts a place behind the others. There is room for it.
    #[inline]
    #[tactic(auto, using(crate::proofs::InCells::in_cells))]
    pub(crate) fn push(&mut self, place: u64)
        requires room { length self.old.places < self.old.capacity }
        ensures { self.new ≡ with_last self.old place }
    {
        let free = around(self.first + self.count, self.cells.len());
        self.cells[free] = place;
        self.count += 1;
    }

    /// Takes the oldest out. One lies there.
    #[inline]
    #[tactic(auto, using(crate::proofs::InCells::in_cells))]
    pub(crate) fn take_first(&mut self) -> u64
        requires some { 0 < length self.old.places }
        ensures oldest { Some result ≡ slice_get self.old.places 0 }
        ensures left { self.new ≡ without_front self.old }
    {
        let oldest = self.cells[self.first];
        self.first = after(self.first, self.cells.len());
        self.count -= 1;
        oldest
    }

    /// Takes the oldest out, if there is one.
    #[inline]
    #[tactic(auto, using(crate::proofs::InCells::in_cells))]
    pub(crate) fn pop(&mut self) -> Option<u64>
        ensures oldest { result ≡ slice_get self.old.places 0 }
        ensures left { self.new ≡ without_front self.old }
    {
        if self.count == 0 {
            return None;
        }
        Some(self.take_first())
    }
}
