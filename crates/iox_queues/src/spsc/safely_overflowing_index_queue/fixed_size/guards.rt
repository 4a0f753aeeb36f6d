//! The guards of the queue of fixed capacity.
ghost use Rattle.std.specs.Prelude.{◌≡◌, ◌≤◌, length};
ghost use Rattle.iox_queues.specs.BoundedQueues.{handed_back, with_overflow, first, without_first};

use super::super::{Consumer, Producer};
use super::FixedSizeSafelyOverflowingIndexQueue;

impl<const CAPACITY: usize> Producer<'_, FixedSizeSafelyOverflowingIndexQueue<CAPACITY>> {
    /// Adds a number behind the others. Where the queue is full, the oldest makes room and is
    /// handed back.
    #[inline]
    pub fn push(&mut self, value: u64) -> Option<u64>
        ensures same_queue { self.new.queue.ghost_name ≡ self.old.queue.ghost_name }
        ensures handed_back { result ≡ handed_back self.old.queue.now value }
        ensures left { self.new.queue.now ≡ with_overflow self.old.queue.now value }
        ensures within { length self.new.queue.now.waiting ≤ self.new.queue.now.capacity }
    {
        self.queue.push(value)
    }
}

impl<const CAPACITY: usize> Consumer<'_, FixedSizeSafelyOverflowingIndexQueue<CAPACITY>> {
    /// Takes the number that waits longest out of the queue; `None` when the queue is empty.
    #[inline]
    pub fn pop(&mut self) -> Option<u64>
        ensures same_queue { self.new.queue.ghost_name ≡ self.old.queue.ghost_name }
        ensures oldest { result ≡ first self.old.queue.now.waiting }
        ensures left { self.new.queue.now ≡ without_first self.old.queue.now }
    {
        self.queue.pop()
    }
}

impl<const CAPACITY: usize> FixedSizeSafelyOverflowingIndexQueue<CAPACITY> {
    ghost use Rattle.std.specs.Prelude.{◌≡◌, IfSome, IsSome};
    ghost use Rattle.std.specs.Borrow.{sem};
    ghost use Rattle.iox_queues.specs.Guards.{ends_with};
    ghost use Rattle.iox_queues.specs.contracts.spsc.safely_overflowing_index_queue.fixed_size.FixedSizeSafelyOverflowingIndexQueue.{the_row};

    /// Borrows the queue for the one that pushes. The borrow itself keeps others out, so this is
    /// always `Some`.
    #[inline]
    pub fn acquire_producer(
        &mut self,
    ) -> Option<Producer<'_, FixedSizeSafelyOverflowingIndexQueue<CAPACITY>>>
        ensures* rests { sem 𝓛 (ends_with (the_row CAPACITY.row) self.entry (λ g. g.queue) result) }
        ensures given { IsSome result }
        ensures same_queue { IfSome result (λ g. g.queue.ghost_name ≡ self.entry.ghost_name) }
        ensures shows { IfSome result (λ g. g.queue.now ≡ self.old) }
    {
        Some(Producer { queue: self })
    }

    /// Borrows the queue for the one that pops. The borrow itself keeps others out, so this is
    /// always `Some`.
    #[inline]
    pub fn acquire_consumer(
        &mut self,
    ) -> Option<Consumer<'_, FixedSizeSafelyOverflowingIndexQueue<CAPACITY>>>
        ensures* rests { sem 𝓛 (ends_with (the_row CAPACITY.row) self.entry (λ g. g.queue) result) }
        ensures given { IsSome result }
        ensures same_queue { IfSome result (λ g. g.queue.ghost_name ≡ self.entry.ghost_name) }
        ensures shows { IfSome result (λ g. g.queue.now ≡ self.old) }
    {
        Some(Consumer { queue: self })
    }
}
