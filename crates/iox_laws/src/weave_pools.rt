//! A pool of the size that a service's limits ask for is never too small.
//! The functions have nothing to do: each is there for its contract.
ghost use Rattle.iox_laws.specs.WeavePools.PoolLaws.{BeginsSucceed, KeepsLess, LoanSucceeds};
ghost use Rattle.iox_laws.specs.WeavePools.PoolLaws.{MakesUnreduced, NeverOutOfMemory, NextIsFresh, PoolsHold};
ghost use Rattle.iox_laws.specs.WeavePools.TightPools.{NoLessWouldDo};

/// A port whose maker chose no pool has exactly the pool that it needs.
pub fn ports_get_what_they_need()
    ensures { MakesUnreduced }
{}

/// Where a pool was not reduced, a loan that got back all there is finds a message: its port keeps
/// fewer than its pool has.
pub fn pools_suffice()
    ensures kept { KeepsLess }
    ensures succeeds { LoanSucceeds }
    ensures begins { BeginsSucceed }
{}

/// No call of a node whose pools were not reduced is answered by `OutOfMemory`.
pub fn no_call_runs_out_of_memory()
    ensures { NeverOutOfMemory }
{}

/// No smaller pool suffices: in some reachable world a loan takes the last message of a pool that
/// is exactly what its port needs. This holds for clients and for servers.
pub fn no_smaller_pool_suffices()
    ensures { NoLessWouldDo }
{}

/// No port keeps more messages than its pool has, and the message that it lends next is none of
/// them.
pub fn pools_are_kept_to()
    ensures kept { PoolsHold }
    ensures fresh { NextIsFresh }
{}
