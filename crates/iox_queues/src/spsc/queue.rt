//! A queue of values that refuses a value when it is full.
ghost use Rattle.std.specs.Prelude.{◌≡◌, ◌≤◌, ◌↔◌, [], IfOk, IsTrue, length};
ghost use Rattle.std.specs.Bool.{OnFalse, OnTrue};
ghost use Rattle.iox_queues.specs.BoundedQueues.{HasRoom, empty_queue, first, with_pushed, without_first};

use crate::ring::Ring;
pub use consumer::Consumer;
use iox_words::Words;
pub use producer::Producer;
use std::alloc::{AllocError, Global};
use std::marker::Model;

mod consumer;
mod producer;

/// A queue of at most `CAPACITY` values. It takes memory when it is made, and never again.
///
/// A queue of capacity 0 is always empty and always full.
///
/// ```
/// let mut queue = Queue::<u128, 4>::new(rt.alloc())?;
/// if !queue.push(&1234) {
///     // The queue is full.
/// }
/// let oldest = queue.pop();
/// ```
#[derive(Debug, Drop)]
pub struct Queue<T, const CAPACITY: usize> {
    // A cell has a value where one waits.
    ring: Ring<Option<T>>,
}

impl<T, const CAPACITY: usize> Model for Queue<T, CAPACITY> {
    ghost use Rattle.iox_queues.specs.BoundedQueues.{BoundedQueueOf};
    ghost use Rattle.iox_queues.specs.Rings.{AreFilled, queue_of_values};
    ghost use Rattle.std.specs.Prelude.{◌≡◌};

    ghost Value = { BoundedQueueOf T };

    ghost view = { λ q. queue_of_values q.ring };

    ghost invariant = { λ q. AreFilled q.ring.waiting × (q.ring.capacity ≡ CAPACITY) };
}

impl<T: Words, const CAPACITY: usize> Queue<T, CAPACITY> {
    /// Makes an empty queue with room for `CAPACITY` values. It fails only for want of memory.
    pub fn new(alloc: Global) -> Result<Self, AllocError>
        ensures { IfOk result (λ q. q ≡ empty_queue CAPACITY) }
    {
        let cells = vec![in alloc; None::<T>; CAPACITY]?;
        Ok(Queue {
            ring: Ring::new(cells),
        })
    }

    /// Adds a copy of the value behind the others, and says whether there was room.
    ///
    /// There is no room when the queue is full, and never again once 2^64 - 1 values were pushed.
    #[inline]
    pub fn push(&mut self, t: &T) -> bool
        ensures room { IsTrue result ↔ HasRoom self.old }
        ensures pushed { OnTrue result (self.new ≡ with_pushed self.old t.now) }
        ensures unchanged { OnFalse result (self.new ≡ self.old) }
        ensures within { length self.new.waiting ≤ self.new.capacity }
    {
        self.ring.push(Some(*t))
    }

    /// Takes the value that waits longest out of the queue; `None` when the queue is empty.
    #[inline]
    pub fn pop(&mut self) -> Option<T>
        ensures oldest { result ≡ first self.old.waiting }
        ensures left { self.new ≡ without_first self.old }
    {
        self.ring.pop().flatten()
    }

    /// How many values may wait at once, which is `CAPACITY`.
    #[inline]
    pub fn capacity(&self) -> usize
        ensures capacity { result ≡ self.now.capacity }
        ensures fixed { result ≡ CAPACITY }
    {
        self.ring.capacity()
    }

    /// How many values wait.
    #[inline]
    pub fn len(&self) -> usize
        ensures len { result ≡ length self.now.waiting }
        ensures within { result ≤ self.now.capacity }
    {
        self.ring.len()
    }

    /// Whether nothing waits, so that a pop would find nothing.
    #[inline]
    pub fn is_empty(&self) -> bool
        ensures { IsTrue result ↔ (self.now.waiting ≡ []) }
    {
        self.ring.is_empty()
    }

    /// Whether the queue is full, so that a push would find no room.
    #[inline]
    pub fn is_full(&self) -> bool
        ensures full { IsTrue result ↔ (length self.now.waiting ≡ self.now.capacity) }
        ensures within { length self.now.waiting ≤ self.now.capacity }
    {
        self.ring.is_full()
    }
}
