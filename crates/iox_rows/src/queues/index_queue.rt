//! Queues of numbers. A test is a list of what is asked and of what has to be answered, which
//! `plays` asks: what is known of each answer would else stand in the proof of all that come after.
ghost use Rattle.std.specs.Prelude.{◌≡◌, ◌↔◌, ◌-◌, ◌^◌, [], IsTrue};
ghost use Rattle.std.specs.Bool.{OnFalse, OnTrue};
ghost use Rattle.iox_queues.specs.BoundedQueues.{HasRoom, first, with_pushed, without_first};

use crate::rows::{Answers, Row, plays};
use iox_queues::spsc::index_queue::{FixedSizeIndexQueue, IndexQueue};
use std::alloc::{AllocError, Global};

/// What is asked, and what has to be answered.
enum Asked {
    Capacity(usize),
    IsEmpty(bool),
    IsFull(bool),
    Len(usize),
    Push(u64, bool),
    Pop(Option<u64>),
    /// What waits at this rank.
    Get(usize, Option<u64>),
    PushByGuard(u64, bool),
    PopByGuard(Option<u64>),
    /// Of one guard.
    TwoPops(Option<u64>, Option<u64>),
    /// The same of 3, 4 and 5.
    ThreePushes(bool, bool, bool),
}

impl Answers<usize, Asked, AllocError> for IndexQueue {
    fn made(alloc: Global, capacity: usize) -> Result<Self, AllocError> {
        IndexQueue::new(alloc, capacity)
    }

    fn answers(&mut self, asked: &Asked) -> bool {
        match asked {
            Asked::Capacity(wanted) => self.capacity() == *wanted,
            Asked::IsEmpty(wanted) => self.is_empty() == *wanted,
            Asked::IsFull(wanted) => self.is_full() == *wanted,
            Asked::Len(wanted) => self.len() == *wanted,
            Asked::Push(value, wanted) => self.push(*value) == *wanted,
            Asked::Pop(wanted) => self.pop() == *wanted,
            Asked::Get(rank, wanted) => self.get(*rank) == *wanted,
            Asked::PushByGuard(value, wanted) => push_by_guard(self, *value) == *wanted,
            Asked::TwoPops(first, second) => popped_by_guard(self) == (*first, *second),
            _ => false,
        }
    }
}

impl<const CAPACITY: usize> Answers<(), Asked, AllocError> for FixedSizeIndexQueue<CAPACITY> {
    fn made(alloc: Global, _at: ()) -> Result<Self, AllocError> {
        FixedSizeIndexQueue::<CAPACITY>::new(alloc)
    }

    fn answers(&mut self, asked: &Asked) -> bool {
        match asked {
            Asked::Capacity(wanted) => self.capacity() == *wanted,
            Asked::IsEmpty(wanted) => self.is_empty() == *wanted,
            Asked::IsFull(wanted) => self.is_full() == *wanted,
            Asked::Len(wanted) => self.len() == *wanted,
            Asked::Push(value, wanted) => self.push(*value) == *wanted,
            Asked::Pop(wanted) => self.pop() == *wanted,
            Asked::PopByGuard(wanted) => pop_by_guard(self) == *wanted,
            Asked::ThreePushes(first, second, third) => {
                pushed_by_guard(self) == (*first, *second, *third)
            }
            _ => false,
        }
    }
}

#[test]
fn numbers_leave_in_order(rt: HostRuntime) {
    const ROWS: &[Row<'_, usize, Asked, AllocError>] = &[
        (
            "a full queue refuses",
            1,
            &[
                Asked::Capacity(1),
                Asked::IsEmpty(true),
                Asked::Push(7, true),
                Asked::IsFull(true),
                Asked::Push(8, false),
                Asked::Len(1),
                Asked::Pop(Some(7)),
                Asked::Pop(None),
            ],
            None,
        ),
        (
            "numbers leave in order around the end",
            3,
            &[
                Asked::Push(0, true),
                Asked::Push(1, true),
                Asked::Pop(Some(0)),
                Asked::Pop(Some(1)),
                Asked::Pop(None),
                Asked::Push(10, true),
                Asked::Push(11, true),
                Asked::Pop(Some(10)),
                Asked::Pop(Some(11)),
                Asked::Pop(None),
                Asked::Push(20, true),
                Asked::Push(21, true),
                Asked::Pop(Some(20)),
                Asked::Pop(Some(21)),
                Asked::Pop(None),
                Asked::Push(30, true),
                Asked::Push(31, true),
                Asked::Pop(Some(30)),
                Asked::Pop(Some(31)),
                Asked::Pop(None),
                Asked::Push(40, true),
                Asked::Push(41, true),
                Asked::Pop(Some(40)),
                Asked::Pop(Some(41)),
                Asked::Pop(None),
            ],
            None,
        ),
        (
            "what waits is told by its rank around the end",
            3,
            &[
                Asked::Push(1, true),
                Asked::Push(2, true),
                Asked::Pop(Some(1)),
                Asked::Push(3, true),
                Asked::Push(4, true),
                Asked::Get(0, Some(2)),
                Asked::Get(1, Some(3)),
                Asked::Get(2, Some(4)),
                Asked::Get(3, None),
                Asked::Len(3),
            ],
            None,
        ),
        (
            "guards push and pop",
            1,
            &[
                Asked::PushByGuard(1, true),
                Asked::PushByGuard(2, false),
                Asked::TwoPops(Some(1), None),
                Asked::IsEmpty(true),
            ],
            None,
        ),
        (
            "a capacity past the memory is refused",
            usize::MAX,
            &[],
            Some(AllocError),
        ),
    ];
    const OF_128: &[Row<'_, (), Asked, AllocError>] = &[(
        "a popped number is gone",
        (),
        &[
            Asked::Capacity(128),
            Asked::IsEmpty(true),
            Asked::Push(1234, true),
            Asked::Len(1),
            Asked::IsFull(false),
            Asked::Pop(Some(1234)),
            Asked::Pop(None),
        ],
        None,
    )];
    const OF_0: &[Row<'_, (), Asked, AllocError>] = &[(
        "a queue of capacity zero is empty and full",
        (),
        &[
            Asked::IsEmpty(true),
            Asked::IsFull(true),
            Asked::Push(7, false),
            Asked::Pop(None),
        ],
        None,
    )];
    const OF_2: &[Row<'_, (), Asked, AllocError>] = &[(
        "guards push and pop",
        (),
        &[
            Asked::ThreePushes(true, true, false),
            Asked::PopByGuard(Some(3)),
            Asked::PopByGuard(Some(4)),
        ],
        None,
    )];
    plays::<usize, Asked, AllocError, IndexQueue>(&rt, rt.alloc(), ROWS);
    plays::<(), Asked, AllocError, FixedSizeIndexQueue<128>>(&rt, rt.alloc(), OF_128);
    plays::<(), Asked, AllocError, FixedSizeIndexQueue<0>>(&rt, rt.alloc(), OF_0);
    plays::<(), Asked, AllocError, FixedSizeIndexQueue<2>>(&rt, rt.alloc(), OF_2);
}

/// Nothing is pushed past the last position, though there is room. No test comes there, so this is
/// proved.
pub fn nothing_is_pushed_past_the_last_position(queue: &mut IndexQueue)
    requires room { queue.old.capacity ≡ 2 }
    requires empty { queue.old.waiting ≡ [] }
    requires last { queue.old.pushed ≡ 2 ^ 64 - 2 }
    ensures left { queue.new ≡ record { capacity = 2; waiting = []; pushed = 2 ^ 64 - 1 } }
{
    let pushed = queue.push(5);
    prove!(pushed);
    let full = queue.is_full();
    prove!(!full);
    let refused = !queue.push(6);
    prove!(refused);
    let count = queue.len();
    prove!(count == 1);
    let oldest = queue.pop();
    prove!(oldest == Some(5));
    let refused = !queue.push(6);
    prove!(refused);
    let none = queue.pop();
    prove!(none == None);
}

/// Pushes by a guard, which ends.
fn push_by_guard(queue: &mut IndexQueue, value: u64) -> bool
    ensures room { IsTrue result ↔ HasRoom queue.old }
    ensures pushed { OnTrue result (queue.new ≡ with_pushed queue.old value) }
    ensures unchanged { OnFalse result (queue.new ≡ queue.old) }
{
    let Some(mut producer) = queue.acquire_producer() else {
        return false;
    };
    producer.push(value)
}

/// Pops by a guard, which ends.
fn pop_by_guard<const CAPACITY: usize>(queue: &mut FixedSizeIndexQueue<CAPACITY>) -> Option<u64>
    ensures oldest { result ≡ first queue.old.waiting }
    ensures left { queue.new ≡ without_first queue.old }
{
    let mut consumer = queue.acquire_consumer()?;
    consumer.pop()
}

/// What two pops by one guard answer.
fn popped_by_guard(queue: &mut IndexQueue) -> (Option<u64>, Option<u64>) {
    match queue.acquire_consumer() {
        Some(mut consumer) => (consumer.pop(), consumer.pop()),
        None => unreachable!(),
    }
}

/// What pushes of 3, 4 and 5 by one guard answer.
fn pushed_by_guard<const CAPACITY: usize>(
    queue: &mut FixedSizeIndexQueue<CAPACITY>,
) -> (bool, bool, bool) {
    match queue.acquire_producer() {
        Some(mut producer) => (producer.push(3), producer.push(4), producer.push(5)),
        None => unreachable!(),
    }
}
