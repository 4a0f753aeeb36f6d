//! The oldest place in a ring of cells, and where the next lies.
ghost use Rattle.std.specs.Prelude.{◌≡◌, ◌+◌, ◌%◌, ◌<◌, Some, length, slice_get};
ghost use Rattle.iox_lanes.specs.Cells.{without_front};

use crate::cells::Cells;

/// The cell after that one, around the end.
#[inline(always)]
#[tactic(auto, using(iox_queues::proofs::RingLemmas::mod_wraps_once))]
pub(super) fn after(cell: usize, cells: usize) -> usize
    requires { cell < cells }
    ensures at { result ≡ (cell + 1) % cells }
    ensures within { result < cells }
{
    let next = cell + 1;
    if next < cells {
        return next;
    }
    0
}

impl Cells {
    /// The oldest place. One lies there.
    #[inline(always)]
    #[tactic(auto, using(crate::proofs::InCells::in_cells))]
    pub(crate) fn first(&self) -> u64
        requires { 0 < length self.now.places }
        ensures { Some result ≡ slice_get self.now.places 0 }
    {
        self.cells[self.first]
    }

    /// Takes the oldest out. One lies there. Where it is the only one, the next will lie where it
    /// lay.
    #[inline(always)]
    #[tactic(auto, using(crate::proofs::InCells::in_cells))]
    pub(crate) fn take_next(&mut self) -> u64
        requires some { 0 < length self.old.places }
        ensures oldest { Some result ≡ slice_get self.old.places 0 }
        ensures left { self.new ≡ without_front self.old }
    {
        if self.count == 1 {
            let only = self.cells[self.first];
            self.count = 0;
            return only;
        }
        self.take_first()
    }
}
