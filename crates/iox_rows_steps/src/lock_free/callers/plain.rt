//! Callers of the queues for one thread and of a value with one producer, proved only from their
//! clauses.
ghost use Rattle.std.specs.Prelude.{◌≡◌, IfOk, Some, false, true};
ghost use Rattle.iceoryx2_bb_lock_free.specs.BoundedQueues.{first, with_overflow, without_first};

use iceoryx2_bb_lock_free::Words;
use iceoryx2_bb_lock_free::spmc::unrestricted_atomic::UnrestrictedAtomic;
use iceoryx2_bb_lock_free::spsc::index_queue::{FixedSizeIndexQueue, IndexQueue};
use iceoryx2_bb_lock_free::spsc::safely_overflowing_index_queue::{
    FixedSizeSafelyOverflowingIndexQueue, SafelyOverflowingIndexQueue,
    SafelyOverflowingIndexQueueNewError,
};
use std::alloc::{AllocError, Global};

/// A queue of one number has room for one, and refuses the next.
pub fn room_for_one(alloc: Global, a: u64, b: u64) -> Result<(bool, bool), AllocError>
    ensures { IfOk result (λ pushed. pushed ≡ (true, false)) }
{
    let mut queue = FixedSizeIndexQueue::<1>::new(alloc)?;
    let first = queue.push(a);
    Ok((first, queue.push(b)))
}

/// A number is pushed by a guard of one end, and popped by a guard of the other.
pub fn by_guards(alloc: Global, number: u64) -> Result<Option<u64>, AllocError>
    ensures { IfOk result (λ popped. popped ≡ Some number) }
{
    let mut queue = IndexQueue::new(alloc, 1)?;
    match queue.acquire_producer() {
        Some(mut producer) => {
            let _ = producer.push(number);
        }
        None => unreachable!(),
    }
    match queue.acquire_consumer() {
        Some(mut consumer) => Ok(consumer.pop()),
        None => unreachable!(),
    }
}

/// The same of a queue whose type gives the capacity.
pub fn by_guards_of_fixed(alloc: Global, number: u64) -> Result<Option<u64>, AllocError>
    ensures { IfOk result (λ popped. popped ≡ Some number) }
{
    let mut queue = FixedSizeIndexQueue::<4>::new(alloc)?;
    match queue.acquire_producer() {
        Some(mut producer) => {
            let _ = producer.push(number);
        }
        None => unreachable!(),
    }
    match queue.acquire_consumer() {
        Some(mut consumer) => Ok(consumer.pop()),
        None => unreachable!(),
    }
}

/// A full queue that overflows hands its oldest number back, and keeps the newer one.
pub fn evicted_and_kept(
    alloc: Global,
    older: u64,
    newer: u64,
) -> Result<(Option<u64>, Option<u64>), SafelyOverflowingIndexQueueNewError>
    ensures { IfOk result (λ both. both ≡ (Some older, Some newer)) }
{
    let mut queue = SafelyOverflowingIndexQueue::new(alloc, 1)?;
    let _ = queue.push(older);
    let evicted = queue.push(newer);
    Ok((evicted, queue.pop()))
}

/// The same by guards, of a queue whose type gives the capacity.
pub fn evicted_and_kept_by_guards(
    alloc: Global,
    older: u64,
    newer: u64,
) -> Result<(Option<u64>, Option<u64>), SafelyOverflowingIndexQueueNewError>
    ensures { IfOk result (λ both. both ≡ (Some older, Some newer)) }
{
    let mut queue = FixedSizeSafelyOverflowingIndexQueue::<1>::new(alloc)?;
    let evicted = match queue.acquire_producer() {
        Some(mut producer) => {
            let _ = producer.push(older);
            producer.push(newer)
        }
        None => unreachable!(),
    };
    match queue.acquire_consumer() {
        Some(mut consumer) => Ok((evicted, consumer.pop())),
        None => unreachable!(),
    }
}

/// What a guard does to a queue, whatever waits in it, is there when the guard is gone.
pub fn replaced(queue: &mut SafelyOverflowingIndexQueue, number: u64) -> Option<u64>
    ensures left { queue.new ≡ with_overflow (without_first queue.old) number }
    ensures oldest { result ≡ first queue.old.waiting }
{
    let oldest = match queue.acquire_consumer() {
        Some(mut consumer) => consumer.pop(),
        None => unreachable!(),
    };
    match queue.acquire_producer() {
        Some(mut producer) => {
            let _ = producer.push(number);
        }
        None => unreachable!(),
    }
    oldest
}

/// What is loaded once the producer is gone is what it stored last.
pub fn stored_last<T: Words>(first: T, last: T) -> T
    ensures { result ≡ last }
{
    let mut atomic = UnrestrictedAtomic::new(first);
    match atomic.acquire_producer() {
        Some(mut producer) => {
            let _ = producer.store(first);
            let _ = producer.store(last);
        }
        None => unreachable!(),
    }
    atomic.load()
}
