//! The pools of a wire's ports: how often each slot is in use is what its port counts.
//! The functions have nothing to do: each is there for its contract.
#![tactic(auto)]

ghost use Rattle.iox_wire_pools.specs.EndedSlots.{EndsAreKnown};
ghost use Rattle.iox_wire_pools.specs.FoundUses.{AccessesFindUsed, WhatIsGotBackIsOut};
ghost use Rattle.iox_wire_pools.specs.FoundUses.{WhatIsOutIsUsed};
ghost use Rattle.iox_wire_pools.specs.KnownSlots.{DeliveriesAreKnown, GetBacksAreKnown};
ghost use Rattle.iox_wire_pools.specs.UsesLaws.{AccessesKeepUses, BeginsKeepUses, EndsKeepUses};
ghost use Rattle.iox_wire_pools.specs.UsesLaws.{CountedPoolsFit};
ghost use Rattle.iox_wire_pools.specs.WorkedUses.{RequestsAreUsedTwice, UnusedSlotsAreFreedTwice};
ghost use Rattle.iox_wire_pools.specs.WorkedUses.{WorkedUsesAreCounted};

/// Where uses are counted the pool fits: the free slots are those not in use.
pub fn counted_pools_fit()
    ensures { CountedPoolsFit }
{}

/// Each access of a node leaves uses counted, and so do the begin and the end of a call.
pub fn uses_stay_counted()
    ensures accesses { AccessesKeepUses }
    ensures begins { BeginsKeepUses }
    ensures ends { EndsKeepUses }
{}

/// What a node gets back is outstanding on its way, and so it is in use: no slot without a use is
/// given back once more.
pub fn what_is_got_back_is_used()
    ensures out { WhatIsGotBackIsOut }
    ensures used { WhatIsOutIsUsed }
{}

/// In a shown world what an access gets back is outstanding, and what it delivers is in use.
pub fn accesses_find_used()
    ensures { AccessesFindUsed }
{}

/// Slots stay known as messages are got back and delivered, where uses are counted.
pub fn slots_stay_known()
    ensures got_back { GetBacksAreKnown }
    ensures delivered { DeliveriesAreKnown }
{}

/// So they do as a call ends that forgets no node: what it gave up for the last time is free.
pub fn slots_stay_known_as_calls_end()
    ensures { EndsAreKnown }
{}

/// On the worked wire uses are counted as it opens. A request that is out is in use twice, and a
/// slot without a use would be free twice were it got back.
pub fn worked_uses()
    ensures opened { WorkedUsesAreCounted }
    ensures sent { RequestsAreUsedTwice }
    ensures unused { UnusedSlotsAreFreedTwice }
{}
