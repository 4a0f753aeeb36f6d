//! Two laws, of begins and of steps; and what a node's code asks that follows from what stands.
//! The functions have nothing to do: each is there for its contract.
#![tactic(auto)]

ghost use Rattle.iox_wire_needs.specs.Copying.{BegunCopiesGoOn, SteppedCopiesGoOn};
ghost use Rattle.iox_wire_needs.specs.Counts.{NodesMayCountMore};
ghost use Rattle.iox_wire_needs.specs.HandleCounts.{HandlesAreFew};
ghost use Rattle.iox_wire_needs.specs.Handles.{HandlesMayBeGivenUp};
ghost use Rattle.iox_wire_needs.specs.OwnBegins.{CallsBeginByOwnData};
ghost use Rattle.iox_wire_needs.specs.PlaceBounds.{CellsStay, NodesAreBound, PlacesBoundAccesses};
ghost use Rattle.iox_wire_needs.specs.Places.{PlacesAreInPools};
ghost use Rattle.iox_wire_needs.specs.ReadWords.{BegunReadsTellNone, ReadsTellMessages};
ghost use Rattle.iox_wire_needs.specs.ReadWords.{SteppedReadsTellNone};
ghost use Rattle.iox_wire_needs.specs.SettingsStay.{StepsLeaveSettings};
ghost use Rattle.iox_wire_needs.specs.Tidying.{BegunNodesAreTidy, SteppedNodesAreTidy};
ghost use Rattle.iox_wire_needs.specs.Uses.{AccessesFindInUse, RequestsMayBeGivenUp};
ghost use Rattle.iox_wire_needs.specs.Uses.{LoansGetBackInUse, NewLoansMayBeGivenUp};
ghost use Rattle.iox_wire_needs.specs.Uses.{WhatIsSentIsInUse};
ghost use Rattle.iox_wire_needs.specs.WireSteps.{StepsKeepWireAndSetting};

/// A living node's own data decides whether a call of a port or a handle begins, and then what
/// stands stands.
pub fn begin_keeps()
    ensures { CallsBeginByOwnData }
{}

/// A step of a living node with a call leads from what stands to what stands, in the same setting.
pub fn step_keeps()
    ensures { StepsKeepWireAndSetting }
{}

/// A living node may have one handle more, count one loan more, and borrow one message more.
pub fn nodes_may_count_more()
    ensures { NodesMayCountMore }
{}

/// The slot that a call has is one of a pool. A lane that a header tells is one of its client, and
/// so is that of a request in the making.
pub fn places_are_in_pools()
    ensures { PlacesAreInPools }
{}

/// What an access gets back or delivers is in use, and so is what a call sends.
pub fn slots_are_in_use()
    ensures found { AccessesFindInUse }
    ensures lent { LoansGetBackInUse }
    ensures sent { WhatIsSentIsInUse }
{}

/// A request that a call sends may be given up, and so may a loan that it makes.
pub fn loans_may_be_given_up()
    ensures sent { RequestsMayBeGivenUp }
    ensures made { NewLoansMayBeGivenUp }
{}

/// A copy that sends its message is not over, as a call begins and over each step.
pub fn copies_go_on()
    ensures begins { BegunCopiesGoOn }
    ensures steps { SteppedCopiesGoOn }
{}

/// No read has words to tell before its first access, and those that it tells are of a message in a
/// slot.
pub fn reads_tell_messages()
    ensures begins { BegunReadsTellNone }
    ensures steps { SteppedReadsTellNone }
    ensures tells { ReadsTellMessages }
{}

/// A handle that was not received may be given up.
pub fn handles_may_be_given_up()
    ensures { HandlesMayBeGivenUp }
{}

/// A node has no more handles of a port's own messages than the pool has slots, and of each way no
/// more than it may borrow there.
pub fn handles_are_few()
    ensures { HandlesAreFew }
{}

/// No two desks are of one port, and no two counts of one way, as a call begins and over each step.
pub fn nodes_stay_tidy()
    ensures begins { BegunNodesAreTidy }
    ensures steps { SteppedNodesAreTidy }
{}

/// The beats of a step leave the members, the ports, the limits, and whom other nodes forgot.
pub fn steps_leave_settings()
    ensures { StepsLeaveSettings }
{}

/// The place of a node bounds the access that comes next, whatever the words are.
pub fn places_bound_accesses()
    ensures accesses { PlacesBoundAccesses }
    ensures cells { CellsStay }
    ensures nodes { NodesAreBound }
{}
