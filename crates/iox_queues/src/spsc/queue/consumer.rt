//! The guard of the one that pops.
ghost use Rattle.std.specs.Prelude.{◌≡◌};
ghost use Rattle.iox_queues.specs.BoundedQueues.{first, without_first};

use super::Queue;
use iox_words::Words;

/// The right to pop values from a queue, which is borrowed as long as this value lives.
#[derive(Drop)]
pub struct Consumer<'a, T, const CAPACITY: usize> {
    queue: &'a mut Queue<T, CAPACITY>,
}

impl<T: Words, const CAPACITY: usize> Consumer<'_, T, CAPACITY> {
    /// Takes the value that waits longest out of the queue; `None` when the queue is empty.
    #[inline]
    pub fn pop(&mut self) -> Option<T>
        ensures same_queue { self.new.queue.ghost_name ≡ self.old.queue.ghost_name }
        ensures oldest { result ≡ first self.old.queue.now.waiting }
        ensures left { self.new.queue.now ≡ without_first self.old.queue.now }
    {
        self.queue.pop()
    }
}

impl<T: Words, const CAPACITY: usize> Queue<T, CAPACITY> {
    ghost use Rattle.std.specs.Prelude.{◌≡◌, IfSome, IsSome};
    ghost use Rattle.std.specs.Borrow.{sem};
    ghost use Rattle.iox_queues.specs.Guards.{ends_with};
    ghost use Rattle.iox_queues.specs.contracts.spsc.queue.Queue.{the_row as row};

    /// Borrows the queue for the one that pops. The borrow itself keeps others out, so this is
    /// always `Some`.
    #[inline]
    pub fn acquire_consumer(&mut self) -> Option<Consumer<'_, T, CAPACITY>>
        ensures* rests { sem 𝓛
            (ends_with (row T.row CAPACITY.row) self.entry (λ g. g.queue) result) }
        ensures given { IsSome result }
        ensures same_queue { IfSome result (λ g. g.queue.ghost_name ≡ self.entry.ghost_name) }
        ensures shows { IfSome result (λ g. g.queue.now ≡ self.old) }
    {
        Some(Consumer { queue: self })
    }
}
