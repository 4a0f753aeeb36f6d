//! Queues of numbers that overflow. A test is a list of what is asked and of what has to be
//! answered, which `plays` asks.
ghost use Rattle.std.specs.Prelude.{◌≡◌, ◌-◌, ◌^◌, []};
ghost use Rattle.iox_queues.specs.BoundedQueues.{first, handed_back, with_overflow, without_first};

use crate::rows::{Answers, Row, plays};
use iox_queues::spsc::safely_overflowing_index_queue::{
    FixedSizeSafelyOverflowingIndexQueue, SafelyOverflowingIndexQueue,
    SafelyOverflowingIndexQueueNewError,
};
use std::alloc::Global;

/// What is asked, and what has to be answered.
enum Asked {
    Capacity(usize),
    IsEmpty(bool),
    IsFull(bool),
    Len(usize),
    Push(u64, Option<u64>),
    Pop(Option<u64>),
    PushByGuard(u64, Option<u64>),
    PopByGuard(Option<u64>),
    /// Of one guard, of 3 and 4.
    TwoPushes(Option<u64>, Option<u64>),
}

impl Answers<usize, Asked, SafelyOverflowingIndexQueueNewError> for SafelyOverflowingIndexQueue {
    fn made(alloc: Global, capacity: usize) -> Result<Self, SafelyOverflowingIndexQueueNewError> {
        SafelyOverflowingIndexQueue::new(alloc, capacity)
    }

    fn answers(&mut self, asked: &Asked) -> bool {
        match asked {
            Asked::Capacity(wanted) => self.capacity() == *wanted,
            Asked::IsEmpty(wanted) => self.is_empty() == *wanted,
            Asked::IsFull(wanted) => self.is_full() == *wanted,
            Asked::Len(wanted) => self.len() == *wanted,
            Asked::Push(value, wanted) => self.push(*value) == *wanted,
            Asked::Pop(wanted) => self.pop() == *wanted,
            Asked::PushByGuard(value, wanted) => push_by_guard(self, *value) == *wanted,
            Asked::PopByGuard(wanted) => popped_by_guard(self) == *wanted,
            _ => false,
        }
    }
}

impl<const CAPACITY: usize> Answers<(), Asked, SafelyOverflowingIndexQueueNewError>
    for FixedSizeSafelyOverflowingIndexQueue<CAPACITY> {
    fn made(alloc: Global, _at: ()) -> Result<Self, SafelyOverflowingIndexQueueNewError> {
        FixedSizeSafelyOverflowingIndexQueue::<CAPACITY>::new(alloc)
    }

    fn answers(&mut self, asked: &Asked) -> bool {
        match asked {
            Asked::Capacity(wanted) => self.capacity() == *wanted,
            Asked::IsEmpty(wanted) => self.is_empty() == *wanted,
            Asked::IsFull(wanted) => self.is_full() == *wanted,
            Asked::Len(wanted) => self.len() == *wanted,
            Asked::Push(value, wanted) => self.push(*value) == *wanted,
            Asked::Pop(wanted) => self.pop() == *wanted,
            Asked::PopByGuard(wanted) => pop_by_guard(self) == *wanted,
            Asked::TwoPushes(first, second) => pushed_by_guard(self) == (*first, *second),
            _ => false,
        }
    }
}

#[test]
fn a_full_queue_hands_the_oldest_back(rt: HostRuntime) {
    const ROWS: &[Row<'_, usize, Asked, SafelyOverflowingIndexQueueNewError>] = &[
        (
            "a full queue hands the oldest back",
            2,
            &[
                Asked::Capacity(2),
                Asked::IsEmpty(true),
                Asked::Push(1, None),
                Asked::IsFull(false),
                Asked::Push(2, None),
                Asked::IsFull(true),
                Asked::Push(3, Some(1)),
                Asked::Len(2),
                Asked::Pop(Some(2)),
                Asked::Pop(Some(3)),
                Asked::Pop(None),
            ],
            None,
        ),
        (
            "guards push and pop",
            1,
            &[
                Asked::PushByGuard(1, None),
                Asked::PushByGuard(2, Some(1)),
                Asked::PopByGuard(Some(2)),
                Asked::Pop(None),
            ],
            None,
        ),
        (
            "a capacity of zero is refused",
            0,
            &[],
            Some(SafelyOverflowingIndexQueueNewError::CapacityIsZero),
        ),
        (
            "a capacity past the memory is refused",
            usize::MAX,
            &[],
            Some(SafelyOverflowingIndexQueueNewError::WantOfMemory),
        ),
    ];
    const OF_3: &[Row<'_, (), Asked, SafelyOverflowingIndexQueueNewError>] = &[(
        "the newest wait around the end",
        (),
        &[
            Asked::Capacity(3),
            Asked::IsEmpty(true),
            Asked::Push(0, None),
            Asked::Push(1, None),
            Asked::Push(2, None),
            Asked::IsFull(true),
            Asked::Push(3, Some(0)),
            Asked::IsFull(true),
            Asked::Push(4, Some(1)),
            Asked::IsFull(true),
            Asked::Push(5, Some(2)),
            Asked::IsFull(true),
            Asked::Push(6, Some(3)),
            Asked::IsFull(true),
            Asked::Push(7, Some(4)),
            Asked::IsFull(true),
            Asked::Push(8, Some(5)),
            Asked::IsFull(true),
            Asked::Push(9, Some(6)),
            Asked::Len(3),
            Asked::Pop(Some(7)),
            Asked::Pop(Some(8)),
            Asked::Pop(Some(9)),
            Asked::Pop(None),
        ],
        None,
    )];
    const OF_1: &[Row<'_, (), Asked, SafelyOverflowingIndexQueueNewError>] = &[(
        "guards push and pop",
        (),
        &[
            Asked::TwoPushes(None, Some(3)),
            Asked::PopByGuard(Some(4)),
            Asked::PopByGuard(None),
        ],
        None,
    )];
    const OF_0: &[Row<'_, (), Asked, SafelyOverflowingIndexQueueNewError>] = &[(
        "a capacity of zero is refused",
        (),
        &[],
        Some(SafelyOverflowingIndexQueueNewError::CapacityIsZero),
    )];
    plays::<usize, Asked, SafelyOverflowingIndexQueueNewError, SafelyOverflowingIndexQueue>(
        &rt,
        rt.alloc(),
        ROWS,
    );
    plays::<
        (),
        Asked,
        SafelyOverflowingIndexQueueNewError,
        FixedSizeSafelyOverflowingIndexQueue<3>,
    >(&rt, rt.alloc(), OF_3);
    plays::<
        (),
        Asked,
        SafelyOverflowingIndexQueueNewError,
        FixedSizeSafelyOverflowingIndexQueue<1>,
    >(&rt, rt.alloc(), OF_1);
    plays::<
        (),
        Asked,
        SafelyOverflowingIndexQueueNewError,
        FixedSizeSafelyOverflowingIndexQueue<0>,
    >(&rt, rt.alloc(), OF_0);
}

/// Past the last position a number comes back, and what is waiting stays. No test comes there, so
/// this is proved.
pub fn past_the_last_position_a_number_comes_back(queue: &mut SafelyOverflowingIndexQueue)
    requires one { queue.old.capacity ≡ 1 }
    requires empty { queue.old.waiting ≡ [] }
    requires last { queue.old.pushed ≡ 2 ^ 64 - 3 }
    ensures left { queue.new ≡ record { capacity = 1; waiting = []; pushed = 2 ^ 64 - 1 } }
{
    let none = queue.push(5);
    prove!(none == None);
    let older = queue.push(6);
    prove!(older == Some(5));
    let itself = queue.push(7);
    prove!(itself == Some(7));
    let count = queue.len();
    prove!(count == 1);
    let newer = queue.pop();
    prove!(newer == Some(6));
    let itself = queue.push(8);
    prove!(itself == Some(8));
    let none = queue.pop();
    prove!(none == None);
}

/// Pushes by a guard, which ends.
fn push_by_guard(queue: &mut SafelyOverflowingIndexQueue, value: u64) -> Option<u64>
    ensures handed_back { result ≡ handed_back queue.old value }
    ensures left { queue.new ≡ with_overflow queue.old value }
{
    let mut producer = queue.acquire_producer()?;
    producer.push(value)
}

/// Pops by a guard, which ends.
fn pop_by_guard<const CAPACITY: usize>(
    queue: &mut FixedSizeSafelyOverflowingIndexQueue<CAPACITY>,
) -> Option<u64>
    ensures oldest { result ≡ first queue.old.waiting }
    ensures left { queue.new ≡ without_first queue.old }
{
    let mut consumer = queue.acquire_consumer()?;
    consumer.pop()
}

/// What a pop by a guard answers.
fn popped_by_guard(queue: &mut SafelyOverflowingIndexQueue) -> Option<u64> {
    match queue.acquire_consumer() {
        Some(mut consumer) => consumer.pop(),
        None => unreachable!(),
    }
}

/// What pushes of 3 and 4 by one guard answer.
fn pushed_by_guard<const CAPACITY: usize>(
    queue: &mut FixedSizeSafelyOverflowingIndexQueue<CAPACITY>,
) -> (Option<u64>, Option<u64>) {
    match queue.acquire_producer() {
        Some(mut producer) => (producer.push(3), producer.push(4)),
        None => unreachable!(),
    }
}
