//! When the words of a wire and its nodes stand for a run of the machine: the invariant of a wire.
//! The functions have nothing to do: each is there for its contract.
#![tactic(auto)]

ghost use Rattle.iox_wire_stands.specs.Following.{AccessesFollow};
ghost use Rattle.iox_wire_stands.specs.FollowingLaws.{AccessesKeepSlots, DesksFollowMoments};
ghost use Rattle.iox_wire_stands.specs.NamesLaws.{AccessesKeepNames};
ghost use Rattle.iox_wire_stands.specs.SendsLaws.{SlotsAreFoundInPools};
ghost use Rattle.iox_wire_stands.specs.NodeLaws.{AccessesKeepNodes};
ghost use Rattle.iox_wire_stands.specs.QueuesLaws.{AccessesKeepQueues};
ghost use Rattle.iox_wire_stands.specs.StepLaws.{OtherSlotsMayChange, StepsKeep};
ghost use Rattle.iox_wire_stands.specs.BeginLaws.{BeginsKeep, BeginsKeepNodes, NodesAreReady};
ghost use Rattle.iox_wire_stands.specs.EndLaws.{EndsAddOneEntry, EndsKeepNames, EndsKeepPools};
ghost use Rattle.iox_wire_stands.specs.EndLaws.{EndsKeepCounts, EndsKeepDesks, EndsKeepNumbers};
ghost use Rattle.iox_wire_stands.specs.EndLaws.{GivenBackResponsesDoNotStand};
ghost use Rattle.iox_wire_stands.specs.Openings.{AWireOpens};
ghost use Rattle.iox_wire_stands.specs.Others.{DeathsKeep, OthersLeaveNodes};

/// As a wire opens, its words and nodes stand for the run without a beat.
pub fn a_wire_opens()
    ensures { AWireOpens }
{}

/// A beat of another node leaves what is so of a living node.
pub fn others_leave_nodes()
    ensures { OthersLeaveNodes }
{}

/// Once a node died, the same words and nodes stand for the run with that beat.
pub fn deaths_keep()
    ensures { DeathsKeep }
{}

/// Each access continues in one of seven ways.
pub fn accesses_follow()
    ensures { AccessesFollow }
{}

/// An access changes a desk as its moment changes what the machine records there.
pub fn desks_follow_moments()
    ensures { DesksFollowMoments }
{}

/// The slots that a node knows stay known over each of its accesses.
pub fn accesses_keep_slots()
    ensures { AccessesKeepSlots }
{}

/// What a node names stands after its own access, unless that gives an entry's message back.
pub fn accesses_keep_names()
    ensures { AccessesKeepNames }
{}

/// What a node takes, gets back and delivers are slots of pools, on ways of its own.
pub fn slots_are_found_in_pools()
    ensures { SlotsAreFoundInPools }
{}

/// What is so of a living node is so of it after its access.
pub fn accesses_keep_nodes()
    ensures { AccessesKeepNodes }
{}

/// Queues have slots of their senders' pools after each access of a standing node.
pub fn accesses_keep_queues()
    ensures { AccessesKeepQueues }
{}

/// What is so of a node stays so as a slot of another node's port holds another message.
pub fn other_slots_may_change()
    ensures { OtherSlotsMayChange }
{}

/// An access in the midst of a call leads from what stands to what stands.
pub fn steps_keep()
    ensures { StepsKeep }
{}

/// A standing node at rest is ready for a call.
pub fn nodes_are_ready()
    ensures { NodesAreReady }
{}

/// What is so of a ready node is so of it at the first place of a call.
pub fn begins_keep_nodes()
    ensures { BeginsKeepNodes }
{}

/// The begin of a call that is not refused leads from what stands to what stands.
pub fn begins_keep()
    ensures { BeginsKeep }
{}

/// What a node names stands after the end of its call: its entries are those before and one more.
pub fn ends_keep_names()
    ensures entries { EndsAddOneEntry }
    ensures names { EndsKeepNames }
    ensures pools { EndsKeepPools }
{}

/// Only ports of the node have desks after the end of its call, too.
pub fn ends_keep_desks()
    ensures { EndsKeepDesks }
{}

/// A node has a count of the same ways after the end of its call.
pub fn ends_keep_counts()
    ensures { EndsKeepCounts }
{}

/// A response that was given back is still in its pool as the call ends: its place does not stand.
pub fn given_back_responses_do_not_stand()
    ensures { GivenBackResponsesDoNotStand }
{}

/// No two entries have one number after the end of a call, where the added one has a new number.
pub fn ends_keep_numbers()
    ensures { EndsKeepNumbers }
{}
