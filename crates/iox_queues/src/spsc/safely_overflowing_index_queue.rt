//! A queue of numbers that hands its oldest number back when it is full.
ghost use Rattle.std.specs.Prelude.{◌≡◌, ◌<◌, ◌≤◌, ◌↔◌, [], IfErr, IfOk, IsTrue, OnOk, length};
ghost use Rattle.iox_queues.specs.BoundedQueues.{empty_queue, first, handed_back, with_overflow, without_first};
ghost use Rattle.iox_queues.specs.Refusals.{new_refusal};

use crate::ring::Ring;
pub use consumer::Consumer;
pub use fixed_size::FixedSizeSafelyOverflowingIndexQueue;
pub use new_error::SafelyOverflowingIndexQueueNewError;
pub use producer::Producer;
use std::alloc::Global;
use std::marker::Model;

mod consumer;
mod fixed_size;
mod new_error;
mod producer;

/// A queue of at most `capacity` numbers, 1 or more. It takes memory when it is made, and never
/// again.
///
/// ```
/// let mut queue = SafelyOverflowingIndexQueue::new(rt.alloc(), 2)?;
/// if let Some(oldest) = queue.push(1234) {
///     // The queue was full, and the oldest made room.
/// }
/// ```
#[derive(Debug, Drop)]
pub struct SafelyOverflowingIndexQueue {
    ring: Ring<u64>,
}

impl Model for SafelyOverflowingIndexQueue {
    ghost use Rattle.std.specs.Prelude.{◌<◌};
    ghost use Rattle.iox_queues.specs.BoundedQueues.{BoundedQueue};

    ghost Value = { BoundedQueue };

    ghost view = { λ q. q.ring };

    ghost invariant = { λ q. 0 < q.ring.capacity };
}

impl SafelyOverflowingIndexQueue {
    /// Makes an empty queue with room for `capacity` numbers.
    pub fn new(
        alloc: Global,
        capacity: usize,
    ) -> Result<SafelyOverflowingIndexQueue, SafelyOverflowingIndexQueueNewError>
        ensures made { IfOk result (λ q. q ≡ empty_queue capacity) }
        ensures allowed { OnOk result (0 < capacity) }
        ensures refused { IfErr result (λ error. error ≡ new_refusal capacity) }
    {
        if capacity == 0 {
            return Err(SafelyOverflowingIndexQueueNewError::CapacityIsZero);
        }
        let cells = vec![in alloc; 0u64; capacity]?;
        Ok(SafelyOverflowingIndexQueue {
            ring: Ring::new(cells),
        })
    }

    /// Adds a number behind the others. Where the queue is full, the oldest makes room and is
    /// handed back.
    ///
    /// Once 2^64 - 1 numbers were pushed, no further one is pushed: the number itself is handed
    /// back.
    #[inline]
    pub fn push(&mut self, value: u64) -> Option<u64>
        ensures handed_back { result ≡ handed_back self.old value }
        ensures left { self.new ≡ with_overflow self.old value }
        ensures within { length self.new.waiting ≤ self.new.capacity }
    {
        self.ring.push_over(value)
    }

    /// Takes the number that waits longest out of the queue; `None` when the queue is empty.
    #[inline]
    pub fn pop(&mut self) -> Option<u64>
        ensures oldest { result ≡ first self.old.waiting }
        ensures left { self.new ≡ without_first self.old }
    {
        self.ring.pop()
    }

    /// How many numbers may wait at once.
    #[inline]
    pub fn capacity(&self) -> usize
        ensures capacity { result ≡ self.now.capacity }
        ensures allowed { 0 < result }
    {
        self.ring.capacity()
    }

    /// How many numbers wait.
    #[inline]
    pub fn len(&self) -> usize
        ensures len { result ≡ length self.now.waiting }
        ensures within { result ≤ self.now.capacity }
    {
        self.ring.len()
    }

    /// Whether nothing waits, so that a pop would find nothing.
    #[inline]
    pub fn is_empty(&self) -> bool
        ensures { IsTrue result ↔ (self.now.waiting ≡ []) }
    {
        self.ring.is_empty()
    }

    /// Whether the queue is full, so that the next push finds no free cell.
    #[inline]
    pub fn is_full(&self) -> bool
        ensures full { IsTrue result ↔ (length self.now.waiting ≡ self.now.capacity) }
        ensures within { length self.now.waiting ≤ self.now.capacity }
    {
        self.ring.is_full()
    }
}
