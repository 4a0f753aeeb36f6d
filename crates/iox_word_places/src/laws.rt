//! What is true of the layouts that plans describe.
ghost use Rattle.iox_word_places.specs.PlanLaws.{PlansAreSized, WaysAreOfTheWire};

/// Each queue of a planned wire has as many words as the map gives it, and each way by the indexes
/// of two ports is one of the wire.
pub fn plans_are_layouts()
    ensures sized { PlansAreSized }
    ensures ways { WaysAreOfTheWire }
{}
