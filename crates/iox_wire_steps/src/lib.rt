//! The end of a call on a wire, and whole steps: what keeps the invariant of a wire.
//! The functions have nothing to do: each is there for its contract.
#![tactic(auto)]

ghost use Rattle.iox_wire_steps.specs.OverLaws.{AddedEntriesFit, EndsKeepLoans, EndsKeepNodes};
ghost use Rattle.iox_wire_steps.specs.OverLaws.{EndsKeepReleased, EndsKeepSlots, EndsKeepStates};
ghost use Rattle.iox_wire_steps.specs.OverLaws.{StandingNodesEnd};
ghost use Rattle.iox_wire_steps.specs.FarMessages.{FarSlotsMayChange};
ghost use Rattle.iox_wire_steps.specs.Needed.{WhatIsToldIsNeeded};
ghost use Rattle.iox_wire_steps.specs.OwnMessages.{OwnMessagesAreApart, OwnMessagesAreLent};
ghost use Rattle.iox_wire_steps.specs.ReturnSteps.{ReturnStepsKeep};
ghost use Rattle.iox_wire_steps.specs.StateSteps.{StateStepsKeep};
ghost use Rattle.iox_wire_steps.specs.Told.{AskedRequestsAreTold, SentRequestsAreTold};
ghost use Rattle.iox_wire_steps.specs.WholeEnds.{EndsKeep};
ghost use Rattle.iox_wire_steps.specs.WholeSteps.{WholeStepsKeep};

/// Handles hold messages that their ports lent, and no two of a node hold the same own message.
pub fn own_messages_are_apart()
    ensures lent { OwnMessagesAreLent }
    ensures apart { OwnMessagesAreApart }
{}

/// A standing node whose call has no access left may end it.
pub fn standing_nodes_end()
    ensures { StandingNodesEnd }
{}

/// The entry that an end adds fits, is in its pool, and has a new number or that of the sent loan.
pub fn added_entries_fit()
    ensures { AddedEntriesFit }
{}

/// After the end of its call a node counts as many loans as the machine, and knows its slots.
pub fn ends_keep_desks_and_slots()
    ensures loans { EndsKeepLoans }
    ensures slots { EndsKeepSlots }
{}

/// What a node's entries received or asked for is of its ports after the end of its call, and the
/// states of its pending responses name no other request.
pub fn ends_keep_handles()
    ensures released { EndsKeepReleased }
    ensures states { EndsKeepStates }
{}

/// What is so of a node whose call is over is so of it after the end.
pub fn ends_keep_nodes()
    ensures { EndsKeepNodes }
{}

/// What the end of a call is told is needed: where the node stands after it, it was so.
pub fn what_is_told_is_needed()
    ensures { WhatIsToldIsNeeded }
{}

/// The end of a call leads from what stands to what stands.
pub fn ends_keep()
    ensures { EndsKeep }
{}

/// What is so of a node stays so as a slot changes that is in no pool of its ports.
pub fn far_slots_may_change()
    ensures { FarSlotsMayChange }
{}

/// A whole step of a node, its access and the end of its call where that was the last one, leads
/// from what stands to what stands.
pub fn whole_steps_keep()
    ensures { WholeStepsKeep }
{}

/// A step that closes, checks or hints at a request state leads from what stands to what stands,
/// whatever it finds.
pub fn state_steps_keep()
    ensures { StateStepsKeep }
{}

/// A step that gives back what was received, in a release or a receive, leads from what stands to
/// what stands, where its node did not forget the sender.
pub fn return_steps_keep()
    ensures { ReturnStepsKeep }
{}

/// What stands at the last places of sends and receives tells their ends.
pub fn ends_are_told()
    ensures sent { SentRequestsAreTold }
    ensures asked { AskedRequestsAreTold }
{}
