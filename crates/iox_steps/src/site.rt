//! Where a queue stands among shared words.

/// What a push does to a full queue.
#[derive(Clone, Copy)]
pub enum QueueKind {
    /// it is refused: an `IndexQueue`
    Index,
    /// it pushes the oldest value out: a `SafelyOverflowingIndexQueue`
    Overflowing,
}

/// The words of a queue: from `base` on the write position, the read position and the cells.
#[derive(Clone, Copy)]
pub struct Site {
    /// what a push does where it is full
    pub kind: QueueKind,
    /// the place of the write position, its first word
    pub base: usize,
    /// how many values may wait; an overflowing queue has one cell more
    pub capacity: usize,
}

impl Site {
    ghost use Rattle.std.specs.Prelude.{◌≡◌, ◌+◌, ◌^◌, ◌<◌, ◌≤◌, ◌↔◌, IsTrue};
    ghost use Rattle.iox_steps.specs.Sites.{cells, size, cell_at, is_full, is_empty};

    /// How many cells there are.
    #[inline]
    pub fn cells(self) -> usize
        requires { self.base + size self < 2 ^ 64 }
        ensures { result ≡ cells self }
    {
        match self.kind {
            QueueKind::Index => self.capacity,
            QueueKind::Overflowing => self.capacity + 1,
        }
    }

    /// Do the words of the queue all stand in a list of this many? Whatever the numbers, it can be
    /// asked.
    #[inline]
    pub fn is_within(&self, words: usize) -> bool
        ensures { IsTrue result ↔ (self.now.base + size self.now ≤ words) }
    {
        let others = match self.kind {
            QueueKind::Index => 2,
            QueueKind::Overflowing => 3,
        };
        self.base <= words
            && others <= words - self.base
            && self.capacity <= words - self.base - others
    }

    /// The place of the cell of a position.
    #[inline]
    pub fn cell_at(self, position: u64) -> usize
        requires { self.base + size self < 2 ^ 64 }
        ensures { result ≡ cell_at self position }
    {
        self.base + 2 + (position % (self.cells() as u64).max(1)) as usize
    }

    /// Is the queue full at these positions?
    #[inline]
    pub fn is_full(self, read: u64, write: u64) -> bool
        ensures { result ≡ is_full self read write }
    {
        write.saturating_sub(read) >= self.capacity as u64
    }

    /// Does no value stand between these positions?
    #[inline]
    pub fn is_empty(self, read: u64, write: u64) -> bool
        ensures { result ≡ is_empty self read write }
    {
        write <= read
    }
}
