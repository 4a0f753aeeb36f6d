//! The queue whose capacity is known when the program is built.
ghost use Rattle.std.specs.Prelude.{◌≡◌, ◌≤◌, ◌↔◌, [], IfOk, IsTrue, length};
ghost use Rattle.std.specs.Bool.{OnFalse, OnTrue};
ghost use Rattle.iox_queues.specs.BoundedQueues.{HasRoom, empty_queue, first, with_pushed, without_first};

use super::IndexQueue;
use std::alloc::{AllocError, Global};
use std::marker::Model;

mod guards;

/// An [`IndexQueue`] of at most `CAPACITY` numbers, as its type says. Its calls are the same.
#[derive(Debug, Drop)]
pub struct FixedSizeIndexQueue<const CAPACITY: usize> {
    queue: IndexQueue,
}

impl<const CAPACITY: usize> Model for FixedSizeIndexQueue<CAPACITY> {
    ghost use Rattle.std.specs.Prelude.{◌≡◌};
    ghost use Rattle.iox_queues.specs.BoundedQueues.{BoundedQueue};

    ghost Value = { BoundedQueue };

    ghost view = { λ q. q.queue };

    ghost invariant = { λ q. q.queue.capacity ≡ CAPACITY };
}

impl<const CAPACITY: usize> FixedSizeIndexQueue<CAPACITY> {
    /// Makes an empty queue with room for `CAPACITY` numbers. It fails only for want of memory.
    pub fn new(alloc: Global) -> Result<Self, AllocError>
        ensures { IfOk result (λ q. q ≡ empty_queue CAPACITY) }
    {
        let queue = IndexQueue::new(alloc, CAPACITY)?;
        Ok(FixedSizeIndexQueue { queue })
    }

    /// Adds a number behind the others, and says whether there was room.
    ///
    /// There is no room when the queue is full, and never again once 2^64 - 1 numbers were pushed.
    #[inline]
    pub fn push(&mut self, value: u64) -> bool
        ensures room { IsTrue result ↔ HasRoom self.old }
        ensures pushed { OnTrue result (self.new ≡ with_pushed self.old value) }
        ensures unchanged { OnFalse result (self.new ≡ self.old) }
        ensures within { length self.new.waiting ≤ self.new.capacity }
    {
        self.queue.push(value)
    }

    /// Takes the number that waits longest out of the queue; `None` when the queue is empty.
    #[inline]
    pub fn pop(&mut self) -> Option<u64>
        ensures oldest { result ≡ first self.old.waiting }
        ensures left { self.new ≡ without_first self.old }
    {
        self.queue.pop()
    }

    /// How many numbers may wait at once, which is `CAPACITY`.
    #[inline]
    pub fn capacity(&self) -> usize
        ensures capacity { result ≡ self.now.capacity }
        ensures fixed { result ≡ CAPACITY }
    {
        self.queue.capacity()
    }

    /// How many numbers wait.
    #[inline]
    pub fn len(&self) -> usize
        ensures len { result ≡ length self.now.waiting }
        ensures within { result ≤ self.now.capacity }
    {
        self.queue.len()
    }

    /// Whether nothing waits, so that a pop would find nothing.
    #[inline]
    pub fn is_empty(&self) -> bool
        ensures { IsTrue result ↔ (self.now.waiting ≡ []) }
    {
        self.queue.is_empty()
    }

    /// Whether the queue is full, so that a push would find no room.
    #[inline]
    pub fn is_full(&self) -> bool
        ensures full { IsTrue result ↔ (length self.now.waiting ≡ self.now.capacity) }
        ensures within { length self.now.waiting ≤ self.now.capacity }
    {
        self.queue.is_full()
    }
}
