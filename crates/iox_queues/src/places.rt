//! Where the values of a queue lie in a ring of cells.
ghost use Rattle.std.specs.Prelude.{◌≡◌, ◌⊎◌, ◌+◌, ◌-◌, ◌^◌, ◌<◌, ◌≤◌, ◌↔◌, IsTrue};
ghost use Rattle.std.specs.Bool.{OnTrue};
ghost use Rattle.iox_queues.specs.Rings.{AreWithin, EvictsAt, HasRoomAt, StartsAsBefore, count_at, pushed_at};

/// Where the next pop and the next push find their cells. Each continues up to an end without a
/// look at the other. Only there it looks how far it may go next: as a rule one comparison for each
/// call.
///
/// A place that has come to the end of the ring is put back to 0 by the next look.
#[derive(Debug, Drop)]
pub(crate) struct Places {
    /// The cell of the value that waits longest.
    pub(crate) oldest: usize,
    /// From `oldest` up to here each cell has a value that waits.
    pub(crate) filled_end: usize,
    /// The cell that the next push fills.
    pub(crate) free: usize,
    /// From `free` up to here each cell is free.
    pub(crate) free_end: usize,
    /// From `free` up to here a push takes the cell of the oldest: the queue is full.
    pub(crate) full_end: usize,
    /// The capacity if pushes are a round ahead of pops, else 0.
    pub(crate) ahead: usize,
    /// How many values were pushed in the rounds before that of `free`.
    pub(crate) before: u64,
}

impl Places {
    /// The places of an empty queue into which `before` values were pushed already.
    #[inline]
    pub(crate) fn new(before: u64) -> Places
        ensures { result ≡ record {
          oldest = 0;
          filled_end = 0;
          free = 0;
          free_end = 0;
          full_end = 0;
          ahead = 0;
          before = before;
        } }
    {
        Places {
            oldest: 0,
            filled_end: 0,
            free: 0,
            free_end: 0,
            full_end: 0,
            ahead: 0,
            before,
        }
    }

    /// How many values wait.
    #[inline]
    pub(crate) fn count(&self, capacity: usize) -> usize
        requires within { AreWithin capacity self.now }
        requires fits { capacity + capacity < 2 ^ 64 }
        ensures { result ≡ count_at self.now }
    {
        self.ahead + self.free - self.oldest
    }

    /// Whether the last position, 2^64 - 1, is reached, so that nothing more is pushed.
    #[inline]
    pub(crate) fn is_spent(&self) -> bool
        requires { pushed_at self.now ≤ 2 ^ 64 - 1 }
        ensures { IsTrue result ↔ (2 ^ 64 - 1 ≤ pushed_at self.now) }
    {
        self.before + self.free as u64 == u64::MAX
    }

    /// Finds how far pushes may go, from `free` on. It says whether there is room.
    #[inline]
    pub(crate) fn find_free(&mut self, capacity: usize) -> bool
        requires within { AreWithin capacity self.old }
        requires fits { capacity + capacity < 2 ^ 64 }
        ensures within { AreWithin capacity self.new }
        ensures count { count_at self.new ≡ count_at self.old }
        ensures pushed { pushed_at self.new ≡ pushed_at self.old }
        ensures starts { self.new.oldest ≡ self.old.oldest }
        ensures room { IsTrue result ↔ HasRoomAt capacity self.old }
        ensures found { OnTrue result (self.new.free < self.new.free_end) }
    {
        if self.free >= capacity && self.ahead == 0 {
            self.free = 0;
            self.ahead = capacity;
            self.before += capacity as u64;
        }
        let end = if self.ahead == 0 {
            capacity
        } else {
            self.oldest
        };
        self.free_end = self.unspent(end);
        self.full_end = 0;
        self.free < self.free_end
    }

    /// Finds how far pops may go, from `oldest` on. It says whether a value waits.
    #[inline]
    pub(crate) fn find_filled(&mut self, capacity: usize) -> bool
        requires within { AreWithin capacity self.old }
        requires fits { capacity + capacity < 2 ^ 64 }
        ensures within { AreWithin capacity self.new }
        ensures count { count_at self.new ≡ count_at self.old }
        ensures pushed { pushed_at self.new ≡ pushed_at self.old }
        ensures starts { StartsAsBefore capacity self.old self.new }
        ensures some { IsTrue result ↔ (0 < count_at self.old) }
        ensures found { OnTrue result (self.new.oldest < self.new.filled_end) }
    {
        if self.oldest >= capacity && self.ahead != 0 {
            self.oldest = 0;
            self.ahead = 0;
            self.full_end = 0;
        }
        self.filled_end = if self.ahead == 0 { self.free } else { capacity };
        self.oldest < self.filled_end
    }

    /// Finds how far pushes may take the cell of the oldest, where the queue is full.
    #[inline]
    pub(crate) fn find_full(&mut self, capacity: usize)
        requires within { AreWithin capacity self.old }
        ensures within { AreWithin capacity self.new }
        ensures count { count_at self.new ≡ count_at self.old }
        ensures pushed { pushed_at self.new ≡ pushed_at self.old }
        ensures starts { self.new.oldest ≡ self.old.oldest }
        ensures found { EvictsAt capacity self.old → self.new.free < self.new.full_end }
    {
        if self.ahead == capacity && self.oldest == self.free {
            self.full_end = self.unspent(capacity);
            self.filled_end = capacity;
        }
    }

    /// The end, or the place where the positions are spent if that comes first.
    #[inline]
    fn unspent(&self, end: usize) -> usize
        requires { self.now.before ≤ 2 ^ 64 - 1 }
        ensures within { result ≤ end }
        ensures unspent { self.now.before + result ≤ 2 ^ 64 - 1 }
        ensures far { (result ≡ end) ⊎ (self.now.before + result ≡ 2 ^ 64 - 1) }
    {
        let rest = (u64::MAX - self.before) as usize;
        if end < rest { end } else { rest }
    }
}
