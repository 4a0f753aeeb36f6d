//! The guard of the one that pushes.
ghost use Rattle.std.specs.Prelude.{◌≡◌, ◌≤◌, length};
ghost use Rattle.iox_queues.specs.BoundedQueues.{handed_back, with_overflow};

use super::SafelyOverflowingIndexQueue;

/// The right to push numbers into a queue, which is borrowed as long as this value lives.
#[derive(Debug, Drop)]
pub struct Producer<'a, Q> {
    pub(super) queue: &'a mut Q,
}

impl Producer<'_, SafelyOverflowingIndexQueue> {
    /// Adds a number behind the others. Where the queue is full, the oldest makes room and is
    /// handed back.
    #[inline]
    pub fn push(&mut self, value: u64) -> Option<u64>
        ensures same_queue { self.new.queue.ghost_name ≡ self.old.queue.ghost_name }
        ensures handed_back { result ≡ handed_back self.old.queue.now value }
        ensures left { self.new.queue.now ≡ with_overflow self.old.queue.now value }
        ensures within { length self.new.queue.now.waiting ≤ self.new.queue.now.capacity }
    {
        self.queue.push(value)
    }
}

impl SafelyOverflowingIndexQueue {
    ghost use Rattle.std.specs.Prelude.{◌≡◌, IfSome, IsSome};
    ghost use Rattle.std.specs.Borrow.{sem};
    ghost use Rattle.iox_queues.specs.Guards.{ends_with};
    ghost use Rattle.iox_queues.specs.contracts.spsc.safely_overflowing_index_queue.SafelyOverflowingIndexQueue.{the_row};

    /// Borrows the queue for the one that pushes. The borrow itself keeps others out, so this is
    /// always `Some`.
    #[inline]
    pub fn acquire_producer(&mut self) -> Option<Producer<'_, SafelyOverflowingIndexQueue>>
        ensures* rests { sem 𝓛 (ends_with the_row self.entry (λ g. g.queue) result) }
        ensures given { IsSome result }
        ensures same_queue { IfSome result (λ g. g.queue.ghost_name ≡ self.entry.ghost_name) }
        ensures shows { IfSome result (λ g. g.queue.now ≡ self.old) }
    {
        Some(Producer { queue: self })
    }
}
