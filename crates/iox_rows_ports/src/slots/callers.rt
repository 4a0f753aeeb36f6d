//! Callers, proved only from the clauses.
ghost use Rattle.std.specs.Prelude.{◌≡◌, ◌<◌, ◌+◌, ◌-◌, ◌^◌, IfOk, None, true};
ghost use Rattle.iox_tables.specs.HubStates.Tables.{slot_at, slots_of};
ghost use Rattle.iox_slots.specs.Pools.{free_count, has_slot};

use iox_slots::{Pools, Slot};
use iox_types::identifiers::UniqueSystemId;
use std::alloc::{AllocError, Global};

/// Where two slots are free, two can be acquired, they are two, and there is no third.
pub fn two_and_no_third(pools: &mut Pools, place: usize) -> bool
    requires { free_count pools.old place ≡ 2 }
    ensures { result ≡ true }
{
    let Some(first) = pools.acquire(place) else {
        return false;
    };
    let Some(second) = pools.acquire(place) else {
        return false;
    };
    first != second && pools.acquire(place).is_none()
}

/// Of a new pool of two slots, both can be acquired, and no third.
pub fn new_pool_of_two(alloc: Global, id: UniqueSystemId) -> Result<bool, AllocError>
    ensures { IfOk result (λ two. two ≡ true) }
{
    let mut pools = Pools::new(alloc);
    let place = pools.add(alloc, 7, id, id, 2)?;
    Ok(two_and_no_third(&mut pools, place))
}

/// When nobody has it any more, a slot can be acquired again.
pub fn let_go_and_acquired(pools: &mut Pools, place: usize, slot: u64) -> bool
    requires { (slot_at pools.old place slot).holders ≡ 1 }
    ensures { result ≡ true }
{
    pools.let_go(place, slot);
    pools.acquire(place).is_some()
}

/// A slot that two have is not free when one of them lets it go.
pub fn one_of_two_lets_go(pools: &mut Pools, place: usize) -> usize
    requires { free_count pools.old place ≡ 1 }
    ensures { result ≡ 0 }
{
    let Some(slot) = pools.acquire(place) else {
        return 0;
    };
    pools.hold(place, slot);
    pools.let_go(place, slot);
    pools.free_len(place)
}

/// A removed pool has no slots, and is nobody's.
pub fn removed_is_gone(pools: &mut Pools, place: usize) -> (usize, u64)
    ensures { result ≡ (0, 0) }
{
    pools.remove(place);
    (pools.len(place), pools.owner(place))
}
