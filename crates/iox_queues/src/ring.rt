//! A bounded queue in a ring of cells, on which the queues stand.
ghost use Rattle.std.specs.Prelude.{◌≡◌, ◌<◌, ◌≤◌, ◌↔◌, [], IfNone, IsTrue, OnSome, length, slice_get};
ghost use Rattle.std.specs.Bool.{OnFalse, OnTrue};
ghost use Rattle.iox_queues.specs.BoundedQueues.{HasRoom, empty_queue, first, handed_back, is_full, is_spent, with_overflow, with_pushed, without_first};

use crate::places::Places;
use std::marker::Model;

/// A queue of at most as many values as there are cells.
#[derive(Debug, Drop)]
pub(crate) struct Ring<T> {
    cells: Vec<T>,
    places: Places,
}

impl<T> Model for Ring<T> {
    ghost use Rattle.std.specs.Prelude.{length};
    ghost use Rattle.iox_queues.specs.BoundedQueues.{BoundedQueueOf};
    ghost use Rattle.iox_queues.specs.Rings.{AreWithin, queue_at};

    ghost Value = { BoundedQueueOf T };

    ghost view = { λ r. queue_at r.cells.items r.places };

    ghost invariant = { λ r. AreWithin (length r.cells.items) r.places };
}

impl<T: Copy> Ring<T> {
    /// An empty queue in the cells, whatever lies in them.
    pub(crate) fn new(cells: Vec<T>) -> Ring<T>
        ensures { result ≡ empty_queue (length cells.items) }
    {
        Ring {
            cells,
            places: Places::new(0),
        }
    }

    /// Adds a value behind the others, and says whether there was room.
    #[inline]
    pub(crate) fn push(&mut self, value: T) -> bool
        ensures room { IsTrue result ↔ HasRoom self.old }
        ensures pushed { OnTrue result (self.new ≡ with_pushed self.old value) }
        ensures unchanged { OnFalse result (self.new ≡ self.old) }
        ensures within { length self.new.waiting ≤ self.new.capacity }
    {
        let places = &mut self.places;
        if places.free >= places.free_end && !places.find_free(self.cells.len()) {
            return false;
        }
        self.cells[places.free] = value;
        places.free += 1;
        true
    }

    /// Takes the value that waits longest out of the queue; `None` when the queue is empty.
    #[inline]
    pub(crate) fn pop(&mut self) -> Option<T>
        ensures oldest { result ≡ first self.old.waiting }
        ensures left { self.new ≡ without_first self.old }
    {
        let places = &mut self.places;
        if places.oldest >= places.filled_end && !places.find_filled(self.cells.len()) {
            return None;
        }
        let value = self.cells[places.oldest];
        places.oldest += 1;
        places.full_end = 0;
        Some(value)
    }

    /// The value that waits at that rank, the oldest at 0.
    #[inline]
    pub(crate) fn get(&self, rank: usize) -> Option<T>
        ensures { result ≡ slice_get self.now.waiting rank }
    {
        if self.len() <= rank {
            return None;
        }
        let before_end = self.cells.len() - self.places.oldest;
        if rank < before_end {
            return Some(self.cells[self.places.oldest + rank]);
        }
        Some(self.cells[rank - before_end])
    }

    /// Adds a value behind the others, in the place of the oldest if the queue is full, and hands
    /// back what it has no place for.
    #[inline]
    pub(crate) fn push_over(&mut self, value: T) -> Option<T>
        requires { 0 < self.old.capacity }
        ensures handed_back { result ≡ handed_back self.old value }
        ensures left { self.new ≡ with_overflow self.old value }
        ensures within { length self.new.waiting ≤ self.new.capacity }
    {
        if let Some(oldest) = self.replace(value) {
            return Some(oldest);
        }
        if self.push(value) {
            return None;
        }
        if self.is_spent() {
            return Some(value);
        }
        let oldest = self.pop();
        let _ = self.push(value);
        self.find_full();
        oldest
    }

    /// Puts a value into the cell of the oldest, where the queue is known to be full, and hands the
    /// oldest back. Where that is not known, it answers `None` and changes nothing.
    #[inline]
    fn replace(&mut self, value: T) -> Option<T>
        ensures full { OnSome result (IsTrue (is_full self.old)) }
        ensures handed_back { OnSome result (result ≡ handed_back self.old value) }
        ensures left { OnSome result (self.new ≡ with_overflow self.old value) }
        ensures unchanged { IfNone result (self.new ≡ self.old) }
        ensures within { length self.new.waiting ≤ self.new.capacity }
    {
        let places = &mut self.places;
        if places.free >= places.full_end {
            return None;
        }
        let place = places.oldest;
        let oldest = self.cells[place];
        self.cells[place] = value;
        places.oldest = place + 1;
        places.free += 1;
        Some(oldest)
    }

    /// Looks how many more calls of `replace` find the queue full.
    #[inline]
    fn find_full(&mut self)
        ensures { self.new ≡ self.old }
    {
        self.places.find_full(self.cells.len());
    }

    /// Whether the last position, 2^64 - 1, is reached, so that nothing more is pushed.
    #[inline]
    fn is_spent(&self) -> bool
        ensures { result ≡ is_spent self.now }
    {
        self.places.is_spent()
    }

    /// How many values may wait at once.
    #[inline]
    pub(crate) fn capacity(&self) -> usize
        ensures { result ≡ self.now.capacity }
    {
        self.cells.len()
    }

    /// How many values wait.
    #[inline]
    pub(crate) fn len(&self) -> usize
        ensures len { result ≡ length self.now.waiting }
        ensures within { result ≤ self.now.capacity }
    {
        self.places.count(self.cells.len())
    }

    /// Whether nothing waits.
    #[inline]
    pub(crate) fn is_empty(&self) -> bool
        ensures { IsTrue result ↔ (self.now.waiting ≡ []) }
    {
        self.len() == 0
    }

    /// Whether the queue is full.
    #[inline]
    pub(crate) fn is_full(&self) -> bool
        ensures full { IsTrue result ↔ (length self.now.waiting ≡ self.now.capacity) }
        ensures within { length self.now.waiting ≤ self.now.capacity }
    {
        self.len() == self.cells.len()
    }
}
