//! The guard of the one that pushes.
ghost use Rattle.std.specs.Prelude.{◌≡◌, ◌≤◌, ◌↔◌, IsTrue, length};
ghost use Rattle.std.specs.Bool.{OnFalse, OnTrue};
ghost use Rattle.iox_queues.specs.BoundedQueues.{HasRoom, with_pushed};

use super::Queue;
use iox_words::Words;

/// The right to push values into a queue, which is borrowed as long as this value lives.
#[derive(Drop)]
pub struct Producer<'a, T, const CAPACITY: usize> {
    queue: &'a mut Queue<T, CAPACITY>,
}

impl<T: Words, const CAPACITY: usize> Producer<'_, T, CAPACITY> {
    /// Adds a copy of the value behind the others, and says whether there was room.
    #[inline]
    pub fn push(&mut self, t: &T) -> bool
        ensures same_queue { self.new.queue.ghost_name ≡ self.old.queue.ghost_name }
        ensures room { IsTrue result ↔ HasRoom self.old.queue.now }
        ensures pushed { OnTrue result (self.new.queue.now ≡ with_pushed self.old.queue.now t.now) }
        ensures unchanged { OnFalse result (self.new.queue.now ≡ self.old.queue.now) }
        ensures within { length self.new.queue.now.waiting ≤ self.new.queue.now.capacity }
    {
        self.queue.push(t)
    }
}

impl<T: Words, const CAPACITY: usize> Queue<T, CAPACITY> {
    ghost use Rattle.std.specs.Prelude.{◌≡◌, IfSome, IsSome};
    ghost use Rattle.std.specs.Borrow.{sem};
    ghost use Rattle.iox_queues.specs.Guards.{ends_with};
    ghost use Rattle.iox_queues.specs.contracts.spsc.queue.Queue.{the_row as row};

    /// Borrows the queue for the one that pushes. The borrow itself keeps others out, so this is
    /// always `Some`.
    #[inline]
    pub fn acquire_producer(&mut self) -> Option<Producer<'_, T, CAPACITY>>
        ensures* rests { sem 𝓛
            (ends_with (row T.row CAPACITY.row) self.entry (λ g. g.queue) result) }
        ensures given { IsSome result }
        ensures same_queue { IfSome result (λ g. g.queue.ghost_name ≡ self.entry.ghost_name) }
        ensures shows { IfSome result (λ g. g.queue.now ≡ self.old) }
    {
        Some(Producer { queue: self })
    }
}
