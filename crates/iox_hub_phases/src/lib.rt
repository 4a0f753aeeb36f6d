//! What the steps of a sender on its lanes come to, one after another. The functions have nothing
//! to do: each is there for its contract.
#![tactic(auto)]

ghost use Rattle.iox_hub_phases.specs.Phases.{ChangesAgree, TwoChangesAreOne};
ghost use Rattle.iox_hub_phases.specs.Phases.{DeliveriesAreToFree, EmptyingIsOneByOne};
ghost use Rattle.iox_hub_phases.specs.Phases.{PushesAreTheMachines};

/// Changes that do the same to the lanes of some ways come to the same; and two changes of one lane
/// are one.
pub fn changes_of_lanes()
    ensures agree { ChangesAgree }
    ensures twice { TwoChangesAreOne }
{}

/// A sender gets all back one by one, delivers to those that are not full, and its pushes are the
/// machine's where there is room.
pub fn steps_of_a_sender()
    ensures empties { EmptyingIsOneByOne }
    ensures delivers { DeliveriesAreToFree }
    ensures pushes { PushesAreTheMachines }
{}
