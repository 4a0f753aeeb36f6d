//! Queues of values. A test is a list of what is asked and of what has to be answered, which
//! `plays` asks.
ghost use Rattle.std.specs.Prelude.{◌≡◌, ◌↔◌, ◌-◌, ◌^◌, [], IsTrue};
ghost use Rattle.std.specs.Bool.{OnFalse, OnTrue};
ghost use Rattle.iox_queues.specs.BoundedQueues.{HasRoom, first, with_pushed, without_first};

use crate::rows::{Answers, Row, plays};
use iox_queues::spsc::queue::Queue;
use iox_words::Words;
use std::alloc::{AllocError, Global};

/// What is asked, and what has to be answered.
enum Asked<T> {
    Capacity(usize),
    IsEmpty(bool),
    IsFull(bool),
    Len(usize),
    Push(T, bool),
    Pop(Option<T>),
    PushByGuard(T, bool),
    PopByGuard(Option<T>),
}

impl<T: Words + PartialEq, const CAPACITY: usize> Answers<(), Asked<T>, AllocError>
    for Queue<T, CAPACITY> {
    fn made(alloc: Global, _at: ()) -> Result<Self, AllocError> {
        Queue::<T, CAPACITY>::new(alloc)
    }

    fn answers(&mut self, asked: &Asked<T>) -> bool {
        match asked {
            Asked::Capacity(wanted) => self.capacity() == *wanted,
            Asked::IsEmpty(wanted) => self.is_empty() == *wanted,
            Asked::IsFull(wanted) => self.is_full() == *wanted,
            Asked::Len(wanted) => self.len() == *wanted,
            Asked::Push(value, wanted) => self.push(value) == *wanted,
            Asked::Pop(wanted) => self.pop() == *wanted,
            Asked::PushByGuard(value, wanted) => push_by_guard(self, *value) == *wanted,
            Asked::PopByGuard(wanted) => pop_by_guard(self) == *wanted,
        }
    }
}

#[test]
fn values_leave_in_order(rt: HostRuntime) {
    const TWO_WORDS: &[Row<'_, (), Asked<u128>, AllocError>] = &[(
        "values of two words leave in order",
        (),
        &[
            Asked::Capacity(3),
            Asked::Push(0 << 64, true),
            Asked::Push(1, true),
            Asked::Len(2),
            Asked::Pop(Some(0 << 64)),
            Asked::Pop(Some(1)),
            Asked::Pop(None),
            Asked::Push(1 << 64, true),
            Asked::Push(1, true),
            Asked::Len(2),
            Asked::Pop(Some(1 << 64)),
            Asked::Pop(Some(1)),
            Asked::Pop(None),
            Asked::Push(2 << 64, true),
            Asked::Push(1, true),
            Asked::Len(2),
            Asked::Pop(Some(2 << 64)),
            Asked::Pop(Some(1)),
            Asked::Pop(None),
            Asked::Push(3 << 64, true),
            Asked::Push(1, true),
            Asked::Len(2),
            Asked::Pop(Some(3 << 64)),
            Asked::Pop(Some(1)),
            Asked::Pop(None),
            Asked::Push(4 << 64, true),
            Asked::Push(1, true),
            Asked::Len(2),
            Asked::Pop(Some(4 << 64)),
            Asked::Pop(Some(1)),
            Asked::Pop(None),
        ],
        None,
    )];
    const ONE: &[Row<'_, (), Asked<u64>, AllocError>] = &[(
        "a full queue refuses",
        (),
        &[
            Asked::IsEmpty(true),
            Asked::Push(7, true),
            Asked::IsFull(true),
            Asked::Push(8, false),
            Asked::Pop(Some(7)),
            Asked::Pop(None),
        ],
        None,
    )];
    const NO_ROOM: &[Row<'_, (), Asked<u64>, AllocError>] = &[(
        "a queue of capacity zero refuses",
        (),
        &[Asked::IsFull(true), Asked::Push(7, false), Asked::Pop(None)],
        None,
    )];
    const NO_WORDS: &[Row<'_, (), Asked<()>, AllocError>] = &[(
        "values of no word are counted",
        (),
        &[
            Asked::Push((), true),
            Asked::Push((), true),
            Asked::Push((), false),
            Asked::Pop(Some(())),
            Asked::Len(1),
        ],
        None,
    )];
    const BY_GUARDS: &[Row<'_, (), Asked<u128>, AllocError>] = &[(
        "guards push and pop",
        (),
        &[
            Asked::PushByGuard(3, true),
            Asked::PushByGuard(4, false),
            Asked::PopByGuard(Some(3)),
            Asked::PopByGuard(None),
        ],
        None,
    )];
    plays::<(), Asked<u128>, AllocError, Queue<u128, 3>>(&rt, rt.alloc(), TWO_WORDS);
    plays::<(), Asked<u64>, AllocError, Queue<u64, 1>>(&rt, rt.alloc(), ONE);
    plays::<(), Asked<u64>, AllocError, Queue<u64, 0>>(&rt, rt.alloc(), NO_ROOM);
    plays::<(), Asked<u128>, AllocError, Queue<u128, 1>>(&rt, rt.alloc(), BY_GUARDS);
    plays::<(), Asked<()>, AllocError, Queue<(), 2>>(&rt, rt.alloc(), NO_WORDS);
}

/// Nothing is pushed past the last position, though there is room. No test comes there, so this is
/// proved.
pub fn nothing_is_pushed_past_the_last_position(queue: &mut Queue<u64, 2>)
    requires two { queue.old.capacity ≡ 2 }
    requires empty { queue.old.waiting ≡ [] }
    requires last { queue.old.pushed ≡ 2 ^ 64 - 2 }
    ensures left { queue.new ≡ record queue.old { pushed = 2 ^ 64 - 1 } }
{
    let pushed = queue.push(&5);
    prove!(pushed);
    let full = queue.is_full();
    prove!(!full);
    let refused = !queue.push(&6);
    prove!(refused);
    let oldest = queue.pop();
    prove!(oldest == Some(5));
    let none = queue.pop();
    prove!(none == None);
}

/// Pushes by a guard, which ends.
fn push_by_guard<T: Words, const CAPACITY: usize>(queue: &mut Queue<T, CAPACITY>, value: T) -> bool
    ensures room { IsTrue result ↔ HasRoom queue.old }
    ensures pushed { OnTrue result (queue.new ≡ with_pushed queue.old value) }
    ensures unchanged { OnFalse result (queue.new ≡ queue.old) }
{
    let Some(mut producer) = queue.acquire_producer() else {
        return false;
    };
    producer.push(&value)
}

/// Pops by a guard, which ends.
fn pop_by_guard<T: Words, const CAPACITY: usize>(queue: &mut Queue<T, CAPACITY>) -> Option<T>
    ensures oldest { result ≡ first queue.old.waiting }
    ensures left { queue.new ≡ without_first queue.old }
{
    let mut consumer = queue.acquire_consumer()?;
    consumer.pop()
}
