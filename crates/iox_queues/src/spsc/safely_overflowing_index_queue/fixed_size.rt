//! The overflowing queue whose capacity is known when the program is built.
ghost use Rattle.std.specs.Prelude.{◌≡◌, ◌<◌, ◌≤◌, ◌↔◌, [], IfErr, IfOk, IsTrue, OnOk, length};
ghost use Rattle.iox_queues.specs.BoundedQueues.{empty_queue, first, handed_back, with_overflow, without_first};
ghost use Rattle.iox_queues.specs.Refusals.{new_refusal};

use super::{SafelyOverflowingIndexQueue, SafelyOverflowingIndexQueueNewError};
use std::alloc::Global;
use std::marker::Model;

mod guards;

/// A [`SafelyOverflowingIndexQueue`] of at most `CAPACITY` numbers, as its type says. Its calls are
/// the same.
#[derive(Debug, Drop)]
pub struct FixedSizeSafelyOverflowingIndexQueue<const CAPACITY: usize> {
    queue: SafelyOverflowingIndexQueue,
}

impl<const CAPACITY: usize> Model for FixedSizeSafelyOverflowingIndexQueue<CAPACITY> {
    ghost use Rattle.std.specs.Prelude.{◌≡◌};
    ghost use Rattle.iox_queues.specs.BoundedQueues.{BoundedQueue};

    ghost Value = { BoundedQueue };

    ghost view = { λ q. q.queue };

    ghost invariant = { λ q. q.queue.capacity ≡ CAPACITY };
}

impl<const CAPACITY: usize> FixedSizeSafelyOverflowingIndexQueue<CAPACITY> {
    /// Makes an empty queue with room for `CAPACITY` numbers.
    pub fn new(alloc: Global) -> Result<Self, SafelyOverflowingIndexQueueNewError>
        ensures made { IfOk result (λ q. q ≡ empty_queue CAPACITY) }
        ensures allowed { OnOk result (0 < CAPACITY) }
        ensures refused { IfErr result (λ error. error ≡ new_refusal CAPACITY) }
    {
        let queue = SafelyOverflowingIndexQueue::new(alloc, CAPACITY)?;
        Ok(FixedSizeSafelyOverflowingIndexQueue { queue })
    }

    /// Adds a number behind the others. Where the queue is full, the oldest makes room and is
    /// handed back.
    ///
    /// Once 2^64 - 1 numbers were pushed, no further one is pushed: the number itself is handed
    /// back.
    #[inline]
    pub fn push(&mut self, value: u64) -> Option<u64>
        ensures handed_back { result ≡ handed_back self.old value }
        ensures left { self.new ≡ with_overflow self.old value }
        ensures within { length self.new.waiting ≤ self.new.capacity }
    {
        self.queue.push(value)
    }

    /// Takes the number that waits longest out of the queue; `None` when the queue is empty.
    #[inline]
    pub fn pop(&mut self) -> Option<u64>
        ensures oldest { result ≡ first self.old.waiting }
        ensures left { self.new ≡ without_first self.old }
    {
        self.queue.pop()
    }

    /// How many numbers may wait at once, which is `CAPACITY`.
    #[inline]
    pub fn capacity(&self) -> usize
        ensures capacity { result ≡ self.now.capacity }
        ensures fixed { result ≡ CAPACITY }
        ensures allowed { 0 < result }
    {
        self.queue.capacity()
    }

    /// How many numbers wait.
    #[inline]
    pub fn len(&self) -> usize
        ensures len { result ≡ length self.now.waiting }
        ensures within { result ≤ self.now.capacity }
    {
        self.queue.len()
    }

    /// Whether nothing waits, so that a pop would find nothing.
    #[inline]
    pub fn is_empty(&self) -> bool
        ensures { IsTrue result ↔ (self.now.waiting ≡ []) }
    {
        self.queue.is_empty()
    }

    /// Whether the queue is full, so that the next push finds no free cell.
    #[inline]
    pub fn is_full(&self) -> bool
        ensures full { IsTrue result ↔ (length self.now.waiting ≡ self.now.capacity) }
        ensures within { length self.now.waiting ≤ self.now.capacity }
    {
        self.queue.is_full()
    }
}
