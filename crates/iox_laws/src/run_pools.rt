//! Pools suffice for a service and its hub, and no port keeps more messages than its pool has.
//! The functions have nothing to do: each is there for its contract.
ghost use Rattle.iox_laws.specs.RunPools.Finding.{BeginsSucceedThere, KeepsLessThere};
ghost use Rattle.iox_laws.specs.RunPools.Finding.{LoanSucceedsThere, NoCallRunsOut};
ghost use Rattle.iox_laws.specs.RunPools.Finding.{NoCommandRunsOut, NoHistoryRunsOut};
ghost use Rattle.iox_laws.specs.RunPools.Finding.{NoPortCommandRunsOut};
ghost use Rattle.iox_laws.specs.RunPools.PoolsRest.{NextRestsFresh, PoolsRestWithin};
ghost use Rattle.iox_laws.specs.RunPools.TightRests.{NoLessWouldDoThere};

/// Between calls no port keeps more messages than its pool has, and the message that it lends next
/// is none of them.
pub fn pools_are_kept_to()
    ensures kept { PoolsRestWithin }
    ensures fresh { NextRestsFresh }
{}

/// Where a pool was not reduced, a loan that got back all there is finds a message: its port keeps
/// fewer than its pool has.
pub fn pools_suffice()
    ensures kept { KeepsLessThere }
    ensures succeeds { LoanSucceedsThere }
    ensures begins { BeginsSucceedThere }
{}

/// No call or command of a node whose pools were not reduced is answered by `OutOfMemory`. Nor is
/// any step of a history in which nobody reduces a pool.
pub fn no_call_runs_out_of_memory()
    ensures calls { NoCallRunsOut }
    ensures of_ports { NoPortCommandRunsOut }
    ensures of_services { NoCommandRunsOut }
    ensures histories { NoHistoryRunsOut }
{}

/// No smaller pool suffices: in some reachable state a loan takes the last message of a pool that
/// is exactly what its port needs. This holds for clients and for servers.
pub fn no_smaller_pool_suffices()
    ensures { NoLessWouldDoThere }
{}
