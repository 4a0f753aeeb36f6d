//! A queue of numbers that refuses a number when it is full.
ghost use Rattle.std.specs.Prelude.{◌≡◌, ◌≤◌, ◌↔◌, [], IfOk, IsTrue, length, slice_get};
ghost use Rattle.std.specs.Bool.{OnFalse, OnTrue};
ghost use Rattle.iox_queues.specs.BoundedQueues.{HasRoom, empty_queue, first, with_pushed, without_first};

use crate::ring::Ring;
pub use consumer::Consumer;
pub use fixed_size::FixedSizeIndexQueue;
pub use producer::Producer;
use std::alloc::{AllocError, Global};
use std::marker::Model;

mod consumer;
mod fixed_size;
mod producer;

/// A queue of at most `capacity` numbers. It takes memory when it is made, and never again.
///
/// A queue of capacity 0 is always empty and always full.
///
/// ```
/// let mut queue = IndexQueue::new(rt.alloc(), 128)?;
/// if !queue.push(1234) {
///     // The queue is full.
/// }
/// let oldest = queue.pop();
/// ```
#[derive(Debug, Drop)]
pub struct IndexQueue {
    ring: Ring<u64>,
}

impl Model for IndexQueue {
    ghost use Rattle.iox_queues.specs.BoundedQueues.{BoundedQueue};

    ghost Value = { BoundedQueue };

    ghost view = { λ q. q.ring };
}

impl IndexQueue {
    /// Makes an empty queue with room for `capacity` numbers. It fails only for want of memory.
    pub fn new(alloc: Global, capacity: usize) -> Result<IndexQueue, AllocError>
        ensures { IfOk result (λ q. q ≡ empty_queue capacity) }
    {
        let cells = vec![in alloc; 0u64; capacity]?;
        Ok(IndexQueue {
            ring: Ring::new(cells),
        })
    }

    /// Adds a number behind the others, and says whether there was room.
    ///
    /// There is no room when the queue is full, and never again once 2^64 - 1 numbers were pushed.
    #[inline]
    pub fn push(&mut self, value: u64) -> bool
        ensures room { IsTrue result ↔ HasRoom self.old }
        ensures pushed { OnTrue result (self.new ≡ with_pushed self.old value) }
        ensures unchanged { OnFalse result (self.new ≡ self.old) }
        ensures within { length self.new.waiting ≤ self.new.capacity }
    {
        self.ring.push(value)
    }

    /// Takes the number that waits longest out of the queue; `None` when the queue is empty.
    #[inline]
    pub fn pop(&mut self) -> Option<u64>
        ensures oldest { result ≡ first self.old.waiting }
        ensures left { self.new ≡ without_first self.old }
    {
        self.ring.pop()
    }

    /// The number that waits at that rank, the oldest at 0; `None` past the last.
    #[inline]
    pub fn get(&self, rank: usize) -> Option<u64>
        ensures { result ≡ slice_get self.now.waiting rank }
    {
        self.ring.get(rank)
    }

    /// How many numbers may wait at once.
    #[inline]
    pub fn capacity(&self) -> usize
        ensures { result ≡ self.now.capacity }
    {
        self.ring.capacity()
    }

    /// How many numbers wait.
    #[inline]
    pub fn len(&self) -> usize
        ensures len { result ≡ length self.now.waiting }
        ensures within { result ≤ self.now.capacity }
    {
        self.ring.len()
    }

    /// Whether nothing waits, so that a pop would find nothing.
    #[inline]
    pub fn is_empty(&self) -> bool
        ensures { IsTrue result ↔ (self.now.waiting ≡ []) }
    {
        self.ring.is_empty()
    }

    /// Whether the queue is full, so that a push would find no room.
    #[inline]
    pub fn is_full(&self) -> bool
        ensures full { IsTrue result ↔ (length self.now.waiting ≡ self.now.capacity) }
        ensures within { length self.now.waiting ≤ self.now.capacity }
    {
        self.ring.is_full()
    }
}
