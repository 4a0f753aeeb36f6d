//! Where a queue of values of several words stands among shared words.

/// The words of a queue: from `base` on the write position, the read position and the cells.
#[derive(Clone, Copy)]
pub struct CellSite {
    /// the place of the write position, its first word
    pub base: usize,
    /// how many values may wait, and how many cells there are
    pub capacity: usize,
    /// how many words a value has, and a cell
    pub width: usize,
}

impl CellSite {
    ghost use Rattle.std.specs.Prelude.{◌≡◌, ◌+◌, ◌^◌, ◌<◌, ◌≤◌};
    ghost use Rattle.iox_cell_queues.specs.Cells.{size, cell_at, is_full, is_empty};

    /// The place of the first word of the cell of a position.
    #[inline]
    pub fn cell_at(self, position: u64) -> usize
        requires { self.base + size self < 2 ^ 64 }
        ensures cell { result ≡ cell_at self position }
        ensures within { 0 < self.capacity → result + self.width ≤ self.base + size self }
    {
        self.base + 2 + (position % (self.capacity as u64).max(1)) as usize * self.width
    }

    /// Is the queue full at these positions?
    #[inline]
    pub fn is_full(self, read: u64, write: u64) -> bool
        ensures { result ≡ is_full self read write }
    {
        write.saturating_sub(read) >= self.capacity as u64
    }

    /// Does no value stand between these positions?
    #[inline]
    pub fn is_empty(self, read: u64, write: u64) -> bool
        ensures { result ≡ is_empty self read write }
    {
        write <= read || self.capacity == 0
    }
}
