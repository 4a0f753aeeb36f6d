//! What begins, steps and deaths keep of a wire, only from what stands.
//! The functions have nothing to do: each is there for its contract.
#![tactic(auto)]

ghost use Rattle.iox_wire_keeps.specs.Accesses.{AccessesLeaveMessages};
ghost use Rattle.iox_wire_keeps.specs.Alone.{StoredSlotsAreAlone};
ghost use Rattle.iox_wire_keeps.specs.Bounds.{BeginsLeaveBounds, BoundsTell, OpenedWiresAreBound};
ghost use Rattle.iox_wire_keeps.specs.Bounds.{StepsLeaveBounds};
ghost use Rattle.iox_wire_keeps.specs.MessageBegins.{BeginsLeaveMessages, BegunWiresStand};
ghost use Rattle.iox_wire_keeps.specs.MessageEnds.{EndsLeaveMessages};
ghost use Rattle.iox_wire_keeps.specs.NamedSlots.{NamedSlotsHoldLent};
ghost use Rattle.iox_wire_keeps.specs.Stored.{DeathsLeaveSlots, OpenedSlotsHoldMessages};
ghost use Rattle.iox_wire_keeps.specs.Stored.{StoredWordsAreTold};
ghost use Rattle.iox_wire_keeps.specs.WireStands.{OpenedWiresStand, SteppedWiresStand};
ghost use Rattle.iox_wire_keeps.specs.WireStands.{WiresStandAfterDeaths};

/// The accesses of a node bound its queues and its loans as a wire opens, as calls begin, and after
/// each step.
pub fn accesses_bound()
    ensures opened { OpenedWiresAreBound }
    ensures begins { BeginsLeaveBounds }
    ensures steps { StepsLeaveBounds }
    ensures told { BoundsTell }
{}

/// Slots hold the messages that are named as a wire opens, and after a death.
pub fn slots_hold_messages()
    ensures first { OpenedSlotsHoldMessages }
    ensures dead { DeathsLeaveSlots }
{}

/// Where they do, a step of a node is told the words of messages.
pub fn words_are_told()
    ensures { StoredWordsAreTold }
{}

/// A slot that a node stores belongs only to its call.
pub fn stored_slots_are_alone()
    ensures { StoredSlotsAreAlone }
{}

/// After an access slots hold their messages.
pub fn accesses_leave_messages()
    ensures { AccessesLeaveMessages }
{}

/// After the end of a call slots hold their messages.
pub fn ends_leave_messages()
    ensures { EndsLeaveMessages }
{}

/// A wire stands as it opens, as a call begins that is not refused, after each step of a living
/// node with a call, and after deaths.
pub fn wires_stand()
    ensures opened { OpenedWiresStand }
    ensures begun { BegunWiresStand }
    ensures stepped { SteppedWiresStand }
    ensures dead { WiresStandAfterDeaths }
{}

/// The slots that an access names hold messages of loans.
pub fn named_slots_hold_lent()
    ensures { NamedSlotsHoldLent }
{}

/// As a call begins slots hold their messages.
pub fn begins_leave_messages()
    ensures { BeginsLeaveMessages }
{}
