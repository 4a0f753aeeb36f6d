//! Callers, as the README shows them.
pub mod cells;
pub mod plain;
pub mod queues;
pub mod readings;

ghost use Rattle.std.specs.Prelude.{◌≡◌, IfOk, Some};

use iceoryx2_bb_lock_free::mpmc::bit_set::BitSet;
use iceoryx2_bb_lock_free::mpmc::unique_index_set::{FixedSizeUniqueIndexSet, UniqueIndexSet};
use iceoryx2_bb_lock_free::mpmc::unique_index_set_enums::UniqueIndexSetAcquireFailure;
use iceoryx2_bb_lock_free::spsc::index_queue::IndexQueue;
use std::alloc::{AllocError, Global};

/// Two numbers go through a queue, and the first comes out.
pub fn oldest_of(alloc: Global, a: u64, b: u64) -> Result<Option<u64>, AllocError>
    ensures { IfOk result (λ oldest. oldest ≡ Some a) }
{
    let mut queue = IndexQueue::new(alloc, 2)?;
    let _ = queue.push(a);
    let _ = queue.push(b);
    Ok(queue.pop())
}

/// Two bits are set, and the lower one is cleared first.
pub fn lower_bit(alloc: Global) -> Result<Option<usize>, AllocError>
    ensures { IfOk result (λ lower. lower ≡ Some 2) }
{
    let mut bits = BitSet::new(alloc, 8)?;
    let _ = bits.set(5);
    let _ = bits.set(2);
    Ok(bits.reset_next())
}

/// An index is held for a while, and the set is unchanged after it.
pub fn index_for_a_event(
    set: &mut FixedSizeUniqueIndexSet<4>,
) -> Result<u32, UniqueIndexSetAcquireFailure>
    ensures { set.new ≡ set.old }
{
    let index = set.acquire()?;
    Ok(index.value())
}

/// The same of a set whose capacity is not known when the program is built.
pub fn index_of_some_set(set: &mut UniqueIndexSet) -> Result<u32, UniqueIndexSetAcquireFailure>
    ensures { set.new ≡ set.old }
{
    let index = set.acquire()?;
    Ok(index.value())
}
