//! What is so of a node's call at each place: what steps of a wire are told follows from it.
//! The functions have nothing to do: each is there for its contract.
#![tactic(auto)]

ghost use Rattle.iox_wire_calls.specs.CallsStand.{BegunCallsStand, CallsStandAtFirst, DeathsLeaveCalls};
ghost use Rattle.iox_wire_calls.specs.CallsStand.{CallsMayBegin, SteppedCallsStand};
ghost use Rattle.iox_wire_calls.specs.EndsTold.{EndsAreTold, LanesFitAtRest, SendsOpenElsewhere};
ghost use Rattle.iox_wire_calls.specs.LaneLaws.{AccessesKeepLanes, BeginsKeepLanes, EndsKeepLanes};
ghost use Rattle.iox_wire_calls.specs.LaneLaws.{FreeSlotsHaveLanes};
ghost use Rattle.iox_wire_calls.specs.StepsTold.{StepsAreTold};
ghost use Rattle.iox_wire_calls.specs.LoanSlots.{AccessesKeepLoans, EndsKeepLoanSlots, LoansAreTold};
ghost use Rattle.iox_wire_calls.specs.PlaceLaws.{AccessesFit, BeginsFit, EndsFit};

/// What is so of a call's place is so at its first one, after each access, and after its end.
pub fn places_stay_fit()
    ensures begins { BeginsFit }
    ensures accesses { AccessesFit }
    ensures ends { EndsFit }
{}

/// What the end of a call is told follows, but for the header of a request that it received.
pub fn ends_are_told()
    ensures { EndsAreTold }
{}

/// A client with a free slot has a free lane.
pub fn free_slots_have_lanes()
    ensures { FreeSlotsHaveLanes }
{}

/// The lanes of clients stay counted as a call begins, over each access, and as it ends.
pub fn lanes_stay_counted()
    ensures begins { BeginsKeepLanes }
    ensures accesses { AccessesKeepLanes }
    ensures ends { EndsKeepLanes }
{}

/// No two requests of a client are open on one lane, and at rest all others are free.
pub fn lanes_are_apart()
    ensures opens { SendsOpenElsewhere }
    ensures rests { LanesFitAtRest }
{}

/// A step of a node with a call is told what is so, but for words of messages and the serial of a
/// new loan.
pub fn steps_are_told()
    ensures { StepsAreTold }
{}

/// Calls stand as a wire opens, after each begin and each step, and after a death; so does all
/// else.
pub fn calls_stand()
    ensures first { CallsStandAtFirst }
    ensures begun { BegunCallsStand }
    ensures stepped { SteppedCallsStand }
    ensures dead { DeathsLeaveCalls }
{}

/// What the begin of a call needs follows, but for lengths of messages, and what the first place of
/// a call that moves words owns.
pub fn calls_may_begin()
    ensures { CallsMayBegin }
{}

/// What slots hold of loans tells a loan in the making, and accesses and ends keep it.
pub fn loans_stand()
    ensures told { LoansAreTold }
    ensures accesses { AccessesKeepLoans }
    ensures ends { EndsKeepLoanSlots }
{}
