//! What a node of a wire knows of the machine is so, and each of its steps is a beat of it or none.
//! The functions have nothing to do: each is there for its contract.
ghost use Rattle.iox_wire_laws.specs.WireKeeping.BeginLaws.{BeginsAreBeats, RefusalsAreTheMachines};
ghost use Rattle.iox_wire_laws.specs.WireKeeping.EndBeats.{EndsAreBeats};
ghost use Rattle.iox_wire_laws.specs.WireKeeping.FullPushes.{FullPushesOverflow};
ghost use Rattle.iox_wire_laws.specs.WireKeeping.OwnLaws.{BeginsKeepOwn, EndsKeepCounts};
ghost use Rattle.iox_wire_laws.specs.WireKeeping.OwnLaws.{OthersKeepCounts, OwnStaysCounted};
ghost use Rattle.iox_wire_laws.specs.WireKeeping.OwnLaws.{PlacesAreKnown, StepsKeepOwn};
ghost use Rattle.iox_wire_laws.specs.WireKeeping.Records.{DeliveriesAreRecorded, GetBacksAreRecorded};
ghost use Rattle.iox_wire_laws.specs.WireKeeping.Records.{OthersLeaveRecords};
ghost use Rattle.iox_wire_laws.specs.WireKeeping.Returns.{ReturnsAreNotRefused};
ghost use Rattle.iox_wire_laws.specs.WireKeeping.StepBeats.{StepsAreBeats};
ghost use Rattle.iox_wire_laws.specs.WireKeeping.Writes.{WritesKeepCounts};
ghost use Rattle.iox_wire_laws.specs.WireKeeping.PoolSlots.{DeliveriesFit, KeptAreUsed, PicksFit};
ghost use Rattle.iox_wire_laws.specs.WireKeeping.PoolSlots.{PoolsAreTold, SlotsAreFit};

/// A call that a node begins from its own tables is a beat of the machine, and it is refused for
/// the machine's reason.
pub fn begins_are_beats()
    ensures refused { RefusalsAreTheMachines }
    ensures beat { BeginsAreBeats }
{}

/// What a node knows and counts stays so through its own call, from the begin to the end.
pub fn nodes_keep_their_counts()
    ensures begins { BeginsKeepOwn }
    ensures steps { StepsKeepOwn }
    ensures counted { OwnStaysCounted }
    ensures ends { EndsKeepCounts }
    ensures writes { WritesKeepCounts }
{}

/// A beat of another node leaves what a node counts, and what its place stands for.
pub fn others_keep_counts()
    ensures places { PlacesAreKnown }
    ensures counts { OthersKeepCounts }
{}

/// Where words and seats show a world, each access of a living node is one beat of the machine or
/// none, and the node's next place stands for what it has to do then.
pub fn steps_are_beats()
    ensures { StepsAreBeats }
{}

/// What a node's desks record of a way is what the machine says is outstanding there, after each
/// delivery, each getting back and each other moment.
pub fn records_are_kept()
    ensures delivered { DeliveriesAreRecorded }
    ensures got_back { GetBacksAreRecorded }
    ensures others { OthersLeaveRecords }
{}

/// A call of a node that has no access left ends as in the machine, with the machine's reply.
pub fn ends_are_beats()
    ensures { EndsAreBeats }
{}

/// The messages that a port keeps are those in its slots in use, so that its pool's slots fit them.
pub fn slots_in_use_are_kept()
    ensures kept { KeptAreUsed }
    ensures fits { SlotsAreFit }
    ensures pools { PoolsAreTold }
{}

/// A push that found its queue full continues only where messages overflow, as the words tell.
pub fn full_pushes_overflow()
    ensures { FullPushesOverflow }
{}

/// What a receiver gives back is never refused.
pub fn returns_are_not_refused()
    ensures { ReturnsAreNotRefused }
{}

/// A loan that takes the first free slot leaves a pool whose slots fit, and so does a delivery.
pub fn pools_stay_fit()
    ensures picks { PicksFit }
    ensures deliveries { DeliveriesFit }
{}
