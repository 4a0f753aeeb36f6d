//! The slots of a port's pool: those of no kept message are free.
//! The functions have nothing to do: each is there for its contract.
ghost use Rattle.iox_wire_laws.specs.WireSlots.Slots.{DryIfNoneIsFree, FreeAndKeptAreThePool};
ghost use Rattle.iox_wire_laws.specs.WireSlots.Slots.{PoolsDecideByFreeSlots};

/// Free slots and kept messages together are as many as the pool has, so that it has no message
/// left exactly where no slot is free.
pub fn free_slots_are_those_not_kept()
    ensures counted { FreeAndKeptAreThePool }
    ensures dry { DryIfNoneIsFree }
{}

/// The pool gives a loan a message exactly where a slot is free.
pub fn pools_decide_by_free_slots()
    ensures { PoolsDecideByFreeSlots }
{}
