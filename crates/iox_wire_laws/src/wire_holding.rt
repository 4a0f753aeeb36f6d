//! What the slots of a wire's pools hold, as loans take slots and as calls end that lent or wrote.
//! The functions have nothing to do: each is there for its contract.
ghost use Rattle.iox_wire_laws.specs.WireHolding.Aside.{EntriesMayBePutAside, ReleasesGoOnAlike};
ghost use Rattle.iox_wire_laws.specs.WireHolding.Aside.{NamesStandAside, ShownNodesRunTheSame};
ghost use Rattle.iox_wire_laws.specs.WireHolding.FarSlots.{FarSlotsAreUnnamed};
ghost use Rattle.iox_wire_laws.specs.WireHolding.HeldBegins.{BeginsShowWhatIsHeld};
ghost use Rattle.iox_wire_laws.specs.WireHolding.HeldEnds.{EndsShowWhatIsHeld};
ghost use Rattle.iox_wire_laws.specs.WireHolding.HeldSteps.{StepsShowWhatIsHeld};
ghost use Rattle.iox_wire_laws.specs.WireHolding.HoldingLaws.{EndedSlotsHoldPayloads, OneSlotChanges};
ghost use Rattle.iox_wire_laws.specs.WireHolding.HoldingLaws.{TakenSlotsHoldTheirLoans};
ghost use Rattle.iox_wire_laws.specs.WireHolding.Named.{UnnamedSlotsMayChange};
ghost use Rattle.iox_wire_laws.specs.WireHolding.OthersNames.{OthersLeaveNames};
ghost use Rattle.iox_wire_laws.specs.WireHolding.PickedSlots.{PicksAreKnown};
ghost use Rattle.iox_wire_laws.specs.WireHolding.SlotsKnown.{FreeSlotsAreNobodys};
ghost use Rattle.iox_wire_laws.specs.WireHolding.UnsentSlots.{FilledLoansAreAlone, NewLoansAreUnnamed};
ghost use Rattle.iox_wire_laws.specs.WireHolding.WorkedSlots.{SlotsAreLentDuringReleases};
ghost use Rattle.iox_wire_laws.specs.WireHolding.WorkedSlots.{WorkedSlotsAreKnown};

/// The slot that a loan takes holds the loan's message, a loan or a write that ended its payload,
/// and all other slots hold what they held.
pub fn slots_change_alone()
    ensures one { OneSlotChanges }
    ensures taken { TakenSlotsHoldTheirLoans }
    ensures ended { EndedSlotsHoldPayloads }
{}

/// A shown world is shown with any message in a slot that nobody names.
pub fn unnamed_slots_may_change()
    ensures { UnnamedSlotsMayChange }
{}

/// After each access the next world is shown with what slots hold then: where a loan takes its
/// slot, that slot holds the loan's message.
pub fn steps_show_what_is_held()
    ensures { StepsShowWhatIsHeld }
{}

/// So it is after the end of a call: a new loan has the payload that stands in its slot, and what
/// was written has its words.
pub fn ends_show_what_is_held()
    ensures { EndsShowWhatIsHeld }
{}

/// So it is as a call begins.
pub fn begins_show_what_is_held()
    ensures { BeginsShowWhatIsHeld }
{}

/// Nobody names a slot that is free at a desk of a living node.
pub fn free_slots_are_nobodys()
    ensures { FreeSlotsAreNobodys }
{}

/// Nobody else names the slot of a message that was not sent: of a new loan, or of one that was
/// written.
pub fn unsent_slots_are_alone()
    ensures lent { NewLoansAreUnnamed }
    ensures written { FilledLoansAreAlone }
{}

/// What a release gave back is put aside, in a slot beyond the pool, so that its sender may lend
/// the slot again: the node's accesses, its replies and what the release leaves are the same.
pub fn what_is_given_back_is_put_aside()
    ensures shown { EntriesMayBePutAside }
    ensures names { NamesStandAside }
    ensures programs { ShownNodesRunTheSame }
    ensures releases { ReleasesGoOnAlike }
{}

/// Nobody names the slot beyond a pool that is a node's own.
pub fn far_slots_are_unnamed()
    ensures { FarSlotsAreUnnamed }
{}

/// A beat of another node leaves what a living node names.
pub fn others_leave_names()
    ensures { OthersLeaveNames }
{}

/// Slots stay known as a loan takes one of them.
pub fn picks_are_known()
    ensures { PicksAreKnown }
{}

/// On the worked wire the slots are known as it opens. A client may lend a slot again while a
/// server's release still has its entry.
pub fn worked_slots_are_known()
    ensures known { WorkedSlotsAreKnown }
    ensures again { SlotsAreLentDuringReleases }
{}
